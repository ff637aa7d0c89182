//! The transactions of a block, one after the other.

ghost use Rattle.std.specs.Prelude.{◌≡◌, ◌<◌, ◌^◌, length, map, IfOk, OnOk};
ghost use Rattle.chain_msgs.specs.Plain.{tx_view, result_view};
ghost use Rattle.gas_meter.specs.Ranges.{IsInRange};
ghost use Rattle.kv_layers.specs.Layers as stacks;
ghost use Rattle.kv_layers.specs.Layers.{HasCurrent};
ghost use Rattle.query_router.specs.Lawful.{HasLawful};
ghost use Rattle.submsg_dispatch.specs.Reaching.{RunsAll};
ghost use Rattle.submsg_dispatch.specs.Under.{HasLawfulUnder, RunsAllUnder};

use crate::transaction::run_under;
use chain_msgs::{Tx, TxResult};
use gas_meter::Schedule;
use gatekeeper::{Modules, fetches_join};
use kv_layers::{Base, Layers};
use state_records::facts;
use std::alloc::{AllocError, Global};

/// Does the transactions of a block in order, the first of which has the index 0. The chain's facts are
/// read once for all of them.
pub fn run_txs<B: Base, M: Modules>(
    alloc: Global,
    layers: &mut Layers<B>,
    modules: &mut M,
    txs: &[Tx],
    costs: &Schedule,
) -> Result<Vec<TxResult>, AllocError>
    requires costs { IsInRange costs.now }
    requires lawful { HasLawful (HasCurrent B.stands_for layers.old) }
    requires few { length txs.now < 2 ^ 32 }
    ensures ran { IfOk result (λ results. RunsAll B.stands_for layers.old layers.new
        (M.tally modules.old) (M.tally modules.new) costs.now (map tx_view txs.now)
        (map result_view results.items)) }
    ensures lawful { OnOk result (HasLawful (HasCurrent B.stands_for layers.new)) }
    ensures layers { OnOk result (stacks.depth layers.new ≡ stacks.depth layers.old) }
{
    let chain = facts(alloc, &*layers)?;
    let prefix = chain.prefix.as_str();
    run_all(alloc, layers, modules, prefix, txs, costs)
}

/// Does transactions in order, where addresses have this prefix.
fn run_all<B: Base, M: Modules>(
    alloc: Global,
    layers: &mut Layers<B>,
    modules: &mut M,
    prefix: &str,
    txs: &[Tx],
    costs: &Schedule,
) -> Result<Vec<TxResult>, AllocError>
    requires costs { IsInRange costs.now }
    requires lawful { HasLawfulUnder prefix.now (HasCurrent B.stands_for layers.old) }
    requires few { length txs.now < 2 ^ 32 }
    ensures ran { IfOk result (λ results. RunsAllUnder prefix.now B.stands_for
        layers.old layers.new (M.tally modules.old) (M.tally modules.new) costs.now
        (map tx_view txs.now) (map result_view results.items)) }
    ensures layers { OnOk result (stacks.depth layers.new ≡ stacks.depth layers.old) }
{
    fetches_join();
    let mut results = Vec::with_capacity(alloc, txs.len())?;
    for tx in txs {
        let index = results.len() as u32;
        let answer = run_under(alloc, layers, modules, prefix, tx, index, costs)?;
        results.push(answer)?;
    }
    Ok(results)
}
