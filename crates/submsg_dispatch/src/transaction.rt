//! What a transaction does.

ghost use Rattle.std.specs.Prelude.{◌≡◌, ◌<◌, IsSome, IfOk, OnOk, map, vec_len};
ghost use Rattle.serde_json.specs.View.{view};
ghost use Rattle.kv_layers.specs.Layers as stacks;
ghost use Rattle.kv_layers.specs.Layers.{HasCurrent};
ghost use Rattle.chain_records.specs.Keys.{IsAddress};
ghost use Rattle.chain_msgs.specs.Plain.{tx_view, result_view};
ghost use Rattle.gas_meter.specs.Ranges.{IsInRange};
ghost use Rattle.query_router.specs.Lawful.{HasLawful};
ghost use Rattle.submsg_dispatch.specs.Reaching.{Runs, Undoes};
ghost use Rattle.submsg_dispatch.specs.Transactions as plain;
ghost use Rattle.submsg_dispatch.specs.Under.{RunsUnder, HasLawfulUnder};

use crate::failures::no_messages;
use crate::reading::address_failure;
use crate::results::{close, failed_result};
use crate::turns::handle_all;
use chain_addr::decode;
use chain_msgs::{Tx, TxResult};
use gas_meter::{Meter, Schedule};
use gatekeeper::Modules;
use kv_layers::{Base, Layers};
use state_records::facts;
use std::alloc::{AllocError, Global};

/// Does a transaction: its messages in order on one meter. A failed one leaves the layers as they were.
pub fn run_tx<B: Base, M: Modules>(
    alloc: Global,
    layers: &mut Layers<B>,
    modules: &mut M,
    tx: &Tx,
    index: u32,
    costs: &Schedule,
) -> Result<TxResult, AllocError>
    requires costs { IsInRange costs.now }
    requires lawful { HasLawful (HasCurrent B.stands_for layers.old) }
    ensures ran { IfOk result (λ answer. Runs B.stands_for layers.old layers.new
        (M.tally modules.old) (M.tally modules.new)
        (λ s. plain.tx costs.now s (tx_view tx.now) index) (result_view answer)) }
    ensures undone { IfOk result (λ answer. IsSome answer.failure
        → Undoes B.stands_for layers.old layers.new) }
    ensures lawful { OnOk result (HasLawful (HasCurrent B.stands_for layers.new)) }
    ensures layers { OnOk result (stacks.depth layers.new ≡ stacks.depth layers.old) }
{
    let chain = facts(alloc, &*layers)?;
    let prefix = chain.prefix.as_str();
    run_under(alloc, layers, modules, prefix, tx, index, costs)
}

/// Does a transaction, where addresses have this prefix.
pub(crate) fn run_under<B: Base, M: Modules>(
    alloc: Global,
    layers: &mut Layers<B>,
    modules: &mut M,
    prefix: &str,
    tx: &Tx,
    index: u32,
    costs: &Schedule,
) -> Result<TxResult, AllocError>
    requires costs { IsInRange costs.now }
    requires lawful { HasLawfulUnder prefix.now (HasCurrent B.stands_for layers.old) }
    ensures ran { IfOk result (λ answer. RunsUnder prefix.now B.stands_for layers.old layers.new
        (M.tally modules.old) (M.tally modules.new)
        (λ s. plain.tx costs.now s (tx_view tx.now) index) (result_view answer)) }
    ensures layers { OnOk result (stacks.depth layers.new ≡ stacks.depth layers.old) }
{
    match decode(alloc, prefix, tx.sender.as_str()) {
        Ok(sender) => run_from(alloc, layers, modules, prefix, &sender, tx, index, costs),
        Err(fault) => {
            let failure = address_failure(alloc, fault)?;
            Ok(failed_result(alloc, failure, 0))
        }
    }
}

/// Does a transaction of this sender.
fn run_from<B: Base, M: Modules>(
    alloc: Global,
    layers: &mut Layers<B>,
    modules: &mut M,
    prefix: &str,
    sender: &[u8],
    tx: &Tx,
    index: u32,
    costs: &Schedule,
) -> Result<TxResult, AllocError>
    requires sender { IsAddress sender.now }
    requires costs { IsInRange costs.now }
    requires lawful { HasLawfulUnder prefix.now (HasCurrent B.stands_for layers.old) }
    ensures ran { IfOk result (λ answer. RunsUnder prefix.now B.stands_for layers.old layers.new
        (M.tally modules.old) (M.tally modules.new)
        (λ s. plain.run costs.now s sender.now tx.now.gas index (map view tx.now.msgs.items))
        (result_view answer)) }
    ensures layers { OnOk result (stacks.depth layers.new ≡ stacks.depth layers.old) }
{
    if tx.msgs.is_empty() {
        let failure = no_messages(alloc)?;
        return Ok(failed_result(alloc, failure, 0));
    }
    run_msgs(alloc, layers, modules, prefix, sender, tx, index, costs)
}

/// Does the messages of a transaction, of which there are some, in a layer of their own.
fn run_msgs<B: Base, M: Modules>(
    alloc: Global,
    layers: &mut Layers<B>,
    modules: &mut M,
    prefix: &str,
    sender: &[u8],
    tx: &Tx,
    index: u32,
    costs: &Schedule,
) -> Result<TxResult, AllocError>
    requires some { 0 < vec_len tx.now.msgs }
    requires sender { IsAddress sender.now }
    requires costs { IsInRange costs.now }
    requires lawful { HasLawfulUnder prefix.now (HasCurrent B.stands_for layers.old) }
    ensures ran { IfOk result (λ answer. RunsUnder prefix.now B.stands_for layers.old layers.new
        (M.tally modules.old) (M.tally modules.new)
        (λ s. plain.run costs.now s sender.now tx.now.gas index (map view tx.now.msgs.items))
        (result_view answer)) }
    ensures layers { OnOk result (stacks.depth layers.new ≡ stacks.depth layers.old) }
{
    layers.push_layer(alloc)?;
    let mut meter = Meter::new(tx.gas);
    let done = handle_all(
        alloc, layers, modules, prefix, sender, &tx.msgs, index, &mut meter, costs,
    );
    close(alloc, layers, done, meter.used())
}
