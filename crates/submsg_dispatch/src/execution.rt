//! Messages that execute contracts.

ghost use Rattle.std.specs.Prelude.{◌≡◌, ◌+◌, ◌≤◌, Option, IfOk, IfSome, map, option_map};
ghost use Rattle.coin_amounts.specs.Coins.{coins_view};
ghost use Rattle.coin_amounts.specs.Plain.{raw_coin_view};
ghost use Rattle.chain_records.specs.Keys.{IsAddress};
ghost use Rattle.kv_layers.specs.Layers as stacks;
ghost use Rattle.kv_layers.specs.Layers.{HasCurrent};
ghost use Rattle.gas_meter.specs.Ranges.{IsInRange};
ghost use Rattle.gatekeeper.specs.Cache.{Tally};
ghost use Rattle.query_router.specs.Lawful.{HasLawfulUnder};
ghost use Rattle.submsg_dispatch.specs.Calling.{executes};
ghost use Rattle.submsg_dispatch.specs.Stages.{IsCallee, IsCalled, called_view, execute_paid, execute_told};
ghost use Rattle.submsg_dispatch.specs.Under.{LeadsOn, events_view};

use crate::called::{Called, Callee};
use crate::calls::{callee_at, info_text, tell_call};
use crate::funds::{funds_in, pay};
use crate::reading::address_in;
use crate::stop::HandleStop;
use call_outcomes::call_event;
use chain_msgs::Event;
use coin_amounts::{Coins, RawCoin};
use contract_call::Entry;
use gas_meter::{Meter, Schedule};
use gatekeeper::{Modules, fetches_join};
use kv_layers::{Base, Layers};
use std::alloc::Global;

/// Executes the contract that a text names.
pub(crate) fn execute<B: Base, M: Modules>(
    alloc: Global,
    layers: &mut Layers<B>,
    modules: &mut M,
    prefix: &str,
    sender: &[u8],
    contract: &str,
    msg: &[u8],
    raws: &[RawCoin],
    index: u32,
    meter: &mut Meter,
    costs: &Schedule,
) -> Result<Called, HandleStop>
    requires sender { IsAddress sender.now }
    requires costs { IsInRange costs.now }
    requires lawful { HasLawfulUnder prefix.now (HasCurrent B.stands_for layers.old) }
    ensures leads { LeadsOn prefix.now B.stands_for layers.old layers.new
        (M.tally modules.old) (M.tally modules.new) meter.old.left meter.new.left
        (executes costs.now index prefix.now sender.now contract.now msg.now (map raw_coin_view raws.now)) called_view result }
    ensures called { IfOk result IsCalled }
    ensures gas { meter.new.left + meter.new.used ≡ meter.old.left + meter.old.used }
    ensures layers { stacks.depth layers.new ≡ stacks.depth layers.old }
{
    fetches_join();
    let addr = address_in(alloc, prefix, contract)?;
    let callee = callee_at(alloc, &*layers, prefix, addr)?;
    let coins = funds_in(alloc, raws)?;
    execute_paid(
        alloc, layers, modules, prefix, sender, callee, msg, &coins, index, meter, costs,
    )
}

/// Executes a contract that was found. The funds go first.
fn execute_paid<B: Base, M: Modules>(
    alloc: Global,
    layers: &mut Layers<B>,
    modules: &mut M,
    prefix: &str,
    sender: &[u8],
    callee: Callee,
    msg: &[u8],
    coins: &Coins,
    index: u32,
    meter: &mut Meter,
    costs: &Schedule,
) -> Result<Called, HandleStop>
    requires sender { IsAddress sender.now }
    requires callee { IsCallee prefix.now callee }
    requires costs { IsInRange costs.now }
    requires lawful { HasLawfulUnder prefix.now (HasCurrent B.stands_for layers.old) }
    ensures leads { LeadsOn prefix.now B.stands_for layers.old layers.new
        (M.tally modules.old) (M.tally modules.new) meter.old.left meter.new.left
        (execute_paid costs.now index prefix.now sender.now callee.addr.items callee.code_id msg.now (coins_view coins.now)) called_view result }
    ensures called { IfOk result IsCalled }
    ensures gas { meter.new.left + meter.new.used ≡ meter.old.left + meter.old.used }
    ensures layers { stacks.depth layers.new ≡ stacks.depth layers.old }
{
    fetches_join();
    let mut own = pay(
        alloc,
        layers,
        prefix,
        sender,
        &callee.addr,
        coins,
        meter,
        costs,
    )?;
    own.push(call_event(alloc, "execute", &callee.text)?)?;
    let info = info_text(alloc, prefix, sender, coins)?;
    tell_call(
        alloc,
        layers,
        modules,
        prefix,
        callee,
        Entry::Execute,
        own,
        Some(&info),
        msg,
        index,
        meter,
        costs,
    )
}
