//! The messages of a transaction, one after the other.

ghost use Rattle.std.specs.Prelude.{◌≡◌, ◌+◌, ℕ, List, Option, map, option_map, string_bytes};
ghost use Rattle.serde_json.specs.View.{view};
ghost use Rattle.kv_layers.specs.Layers as stacks;
ghost use Rattle.kv_layers.specs.Layers.{HasCurrent};
ghost use Rattle.chain_records.specs.Keys.{IsAddress};
ghost use Rattle.chain_msgs.specs.Messages.{tx_msg_view};
ghost use Rattle.gas_meter.specs.Ranges.{IsInRange};
ghost use Rattle.gatekeeper.specs.Cache.{Tally};
ghost use Rattle.query_router.specs.Lawful.{HasLawful};
ghost use Rattle.submsg_dispatch.specs.Messages.{store_code, pin_codes, unpin_codes};
ghost use Rattle.submsg_dispatch.specs.Submessages.{commanded};
ghost use Rattle.submsg_dispatch.specs.Transactions.{paid, tx_handled, read_and_handled, all_handled};
ghost use Rattle.submsg_dispatch.specs.Under.{LeadsUnder, LeadsOn, HasLawfulUnder, MissesForm, outcomes_view};
ghost use Rattle.submsg_dispatch.specs.Views.{outcome_view};

use crate::charges::charge_message;
use crate::codes::{pin_codes, store_code, unpin_codes};
use crate::commands::command;
use crate::failures::{message_bad, stop_of};
use crate::layer::close_message;
use crate::outcome::Outcome;
use crate::stop::HandleStop;
use crate::tree::{handle_under, respond};
use chain_msgs::{TxMsg, read_tx_msg};
use gas_meter::{Meter, Schedule};
use gatekeeper::{Modules, fetches_join};
use json_shapes::ShapeStop;
use kv_layers::{Base, Layers};
use serde_json::Value;
use std::alloc::Global;

/// Charges a message that stores a code, and does it.
fn store_paid<B: Base>(
    alloc: Global,
    layers: &mut Layers<B>,
    prefix: &str,
    sender: &[u8],
    code: Vec<u8>,
    allow: &Option<Vec<String>>,
    meter: &mut Meter,
    costs: &Schedule,
) -> Result<Outcome, HandleStop>
    requires sender { IsAddress sender.now }
    requires lawful { HasLawfulUnder prefix.now (HasCurrent B.stands_for layers.old) }
    ensures leads { (tally : Option Tally) → LeadsUnder prefix.now B.stands_for
        layers.old layers.new tally tally meter.old.left meter.new.left
        (paid costs.now (store_code costs.now sender.now code.items
        (option_map (λ list. map string_bytes list.items) allow.now)))
        outcome_view result }
    ensures gas { meter.new.left + meter.new.used ≡ meter.old.left + meter.old.used }
    ensures layers { stacks.depth layers.new ≡ stacks.depth layers.old }
{
    charge_message(meter, costs)?;
    store_code(alloc, layers, prefix, sender, code, allow, meter, costs)
}

/// Charges a message that pins codes, and does it.
fn pin_paid<B: Base>(
    alloc: Global,
    layers: &mut Layers<B>,
    sender: &[u8],
    ids: &[u64],
    meter: &mut Meter,
    costs: &Schedule,
) -> Result<Outcome, HandleStop>
    requires lawful { HasLawful (HasCurrent B.stands_for layers.old) }
    ensures leads { (prefix : List ℕ) (tally : Option Tally) → LeadsUnder prefix B.stands_for
        layers.old layers.new tally tally meter.old.left meter.new.left
        (paid costs.now (pin_codes sender.now ids.now)) outcome_view result }
    ensures gas { meter.new.left + meter.new.used ≡ meter.old.left + meter.old.used }
    ensures layers { stacks.depth layers.new ≡ stacks.depth layers.old }
{
    charge_message(meter, costs)?;
    pin_codes(alloc, layers, sender, ids)
}

/// Charges a message that unpins codes, and does it.
fn unpin_paid<B: Base>(
    alloc: Global,
    layers: &mut Layers<B>,
    sender: &[u8],
    ids: &[u64],
    meter: &mut Meter,
    costs: &Schedule,
) -> Result<Outcome, HandleStop>
    requires lawful { HasLawful (HasCurrent B.stands_for layers.old) }
    ensures leads { (prefix : List ℕ) (tally : Option Tally) → LeadsUnder prefix B.stands_for
        layers.old layers.new tally tally meter.old.left meter.new.left
        (paid costs.now (unpin_codes sender.now ids.now)) outcome_view result }
    ensures gas { meter.new.left + meter.new.used ≡ meter.old.left + meter.old.used }
    ensures layers { stacks.depth layers.new ≡ stacks.depth layers.old }
{
    charge_message(meter, costs)?;
    unpin_codes(alloc, layers, sender, ids)
}

/// Has the authority call a contract, and does the submessages of that.
fn obey<B: Base, M: Modules>(
    alloc: Global,
    layers: &mut Layers<B>,
    modules: &mut M,
    prefix: &str,
    sender: &[u8],
    contract: &str,
    msg: &[u8],
    index: u32,
    meter: &mut Meter,
    costs: &Schedule,
) -> Result<Outcome, HandleStop>
    requires sender { IsAddress sender.now }
    requires costs { IsInRange costs.now }
    requires lawful { HasLawfulUnder prefix.now (HasCurrent B.stands_for layers.old) }
    ensures leads { LeadsOn prefix.now B.stands_for layers.old layers.new
        (M.tally modules.old) (M.tally modules.new) meter.old.left meter.new.left
        (commanded costs.now sender.now index contract.now msg.now) outcome_view result }
    ensures gas { meter.new.left + meter.new.used ≡ meter.old.left + meter.old.used }
    ensures layers { stacks.depth layers.new ≡ stacks.depth layers.old }
{
    fetches_join();
    let called = command(
        alloc, layers, modules, prefix, sender, contract, msg, index, meter, costs,
    )?;
    respond(
        alloc, layers, modules, prefix, called, index, meter, costs, 1,
    )
}

/// Charges a `sudo`, and does it in a layer of its own.
fn sudo_paid<B: Base, M: Modules>(
    alloc: Global,
    layers: &mut Layers<B>,
    modules: &mut M,
    prefix: &str,
    sender: &[u8],
    contract: &str,
    msg: &[u8],
    index: u32,
    meter: &mut Meter,
    costs: &Schedule,
) -> Result<Outcome, HandleStop>
    requires sender { IsAddress sender.now }
    requires costs { IsInRange costs.now }
    requires lawful { HasLawfulUnder prefix.now (HasCurrent B.stands_for layers.old) }
    ensures leads { LeadsUnder prefix.now B.stands_for layers.old layers.new
        (M.tally modules.old) (M.tally modules.new) meter.old.left meter.new.left
        (paid costs.now (commanded costs.now sender.now index contract.now msg.now)) outcome_view result }
    ensures gas { meter.new.left + meter.new.used ≡ meter.old.left + meter.old.used }
    ensures layers { stacks.depth layers.new ≡ stacks.depth layers.old }
{
    charge_message(meter, costs)?;
    layers.push_layer(alloc)?;
    let done = obey(
        alloc, layers, modules, prefix, sender, contract, msg, index, meter, costs,
    );
    close_message(alloc, layers, done)
}

/// Does a message of a transaction.
fn handle_tx_msg<B: Base, M: Modules>(
    alloc: Global,
    layers: &mut Layers<B>,
    modules: &mut M,
    prefix: &str,
    sender: &[u8],
    msg: TxMsg,
    index: u32,
    meter: &mut Meter,
    costs: &Schedule,
) -> Result<Outcome, HandleStop>
    requires sender { IsAddress sender.now }
    requires costs { IsInRange costs.now }
    requires lawful { HasLawfulUnder prefix.now (HasCurrent B.stands_for layers.old) }
    ensures leads { LeadsUnder prefix.now B.stands_for layers.old layers.new
        (M.tally modules.old) (M.tally modules.new) meter.old.left meter.new.left
        (tx_handled costs.now sender.now index (tx_msg_view msg)) outcome_view result }
    ensures gas { meter.new.left + meter.new.used ≡ meter.old.left + meter.old.used }
    ensures layers { stacks.depth layers.new ≡ stacks.depth layers.old }
{
    match msg {
        TxMsg::Cosmos(msg) => handle_under(
            alloc, layers, modules, prefix, sender, &msg, index, meter, costs, 0,
        ),
        TxMsg::StoreCode { code, allow } => store_paid(
            alloc, layers, prefix, sender, code, &allow, meter, costs,
        ),
        TxMsg::Pin { ids } => pin_paid(alloc, layers, sender, &ids, meter, costs),
        TxMsg::Unpin { ids } => unpin_paid(alloc, layers, sender, &ids, meter, costs),
        TxMsg::Sudo { contract, msg } => sudo_paid(
            alloc, layers, modules, prefix, sender, &contract, &msg, index, meter, costs,
        ),
    }
}

/// The stop of a value that is no message.
fn message_stop(alloc: Global, stop: ShapeStop) -> HandleStop
    ensures { MissesForm stop result }
{
    match stop {
        ShapeStop::Shape { .. } => stop_of(message_bad(alloc)),
        ShapeStop::NoMemory => HandleStop::NoMemory,
    }
}

/// Does the message that a value is, if it is one.
fn read_and_handle<B: Base, M: Modules>(
    alloc: Global,
    layers: &mut Layers<B>,
    modules: &mut M,
    prefix: &str,
    sender: &[u8],
    value: &Value,
    index: u32,
    meter: &mut Meter,
    costs: &Schedule,
) -> Result<Outcome, HandleStop>
    requires sender { IsAddress sender.now }
    requires costs { IsInRange costs.now }
    requires lawful { HasLawfulUnder prefix.now (HasCurrent B.stands_for layers.old) }
    ensures leads { LeadsUnder prefix.now B.stands_for layers.old layers.new
        (M.tally modules.old) (M.tally modules.new) meter.old.left meter.new.left
        (read_and_handled costs.now sender.now index (view value.now)) outcome_view result }
    ensures gas { meter.new.left + meter.new.used ≡ meter.old.left + meter.old.used }
    ensures layers { stacks.depth layers.new ≡ stacks.depth layers.old }
{
    match read_tx_msg(alloc, value) {
        Ok(msg) => handle_tx_msg(
            alloc, layers, modules, prefix, sender, msg, index, meter, costs,
        ),
        Err(stop) => Err(message_stop(alloc, stop)),
    }
}

/// Does messages in order, up to the first that isn't done. What those before it did stays.
pub(crate) fn handle_all<B: Base, M: Modules>(
    alloc: Global,
    layers: &mut Layers<B>,
    modules: &mut M,
    prefix: &str,
    sender: &[u8],
    values: &[Value],
    index: u32,
    meter: &mut Meter,
    costs: &Schedule,
) -> Result<Vec<Outcome>, HandleStop>
    requires sender { IsAddress sender.now }
    requires costs { IsInRange costs.now }
    requires lawful { HasLawfulUnder prefix.now (HasCurrent B.stands_for layers.old) }
    ensures leads { LeadsOn prefix.now B.stands_for layers.old layers.new
        (M.tally modules.old) (M.tally modules.new) meter.old.left meter.new.left
        (all_handled costs.now sender.now index (map view values.now)) outcomes_view result }
    ensures gas { meter.new.left + meter.new.used ≡ meter.old.left + meter.old.used }
    ensures layers { stacks.depth layers.new ≡ stacks.depth layers.old }
{
    fetches_join();
    let mut outcomes = Vec::new(alloc);
    for value in values {
        let outcome = read_and_handle(
            alloc, layers, modules, prefix, sender, value, index, meter, costs,
        )?;
        outcomes.push(outcome)?;
    }
    Ok(outcomes)
}
