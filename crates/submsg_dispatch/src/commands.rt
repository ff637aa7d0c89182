//! What the chain's authority tells a contract by `sudo`, and replies to contracts.

ghost use Rattle.std.specs.Prelude.{◌≡◌, ◌+◌, ℕ, Option, IfOk, option_map};
ghost use Rattle.chain_records.specs.Keys.{IsAddress};
ghost use Rattle.chain_records.specs.Records.{bytes_view};
ghost use Rattle.code_registry.specs.Codes.{is_the};
ghost use Rattle.kv_layers.specs.Layers as stacks;
ghost use Rattle.kv_layers.specs.Layers.{HasCurrent};
ghost use Rattle.gas_meter.specs.Ranges.{IsInRange};
ghost use Rattle.gatekeeper.specs.Cache.{Tally};
ghost use Rattle.query_router.specs.Lawful.{HasLawfulUnder};
ghost use Rattle.chain_msgs.specs.Messages.{reply_view};
ghost use Rattle.submsg_dispatch.specs.Calling.{commands, replies};
ghost use Rattle.submsg_dispatch.specs.Stages.{IsCalled, called_view, needs_authority, nothing_view};
ghost use Rattle.submsg_dispatch.specs.Under.{LeadsOn};

use crate::called::Called;
use crate::calls::{callee_at, tell_call};
use crate::events::one;
use crate::failures::{not_authority, stop_of};
use crate::reading::address_in;
use crate::stop::HandleStop;
use call_outcomes::call_event;
use chain_msgs::{Reply, write_reply};
use contract_call::Entry;
use gas_meter::{Meter, Schedule};
use gatekeeper::{Modules, fetches_join};
use kv_layers::{Base, Layers};
use state_records::facts;
use std::alloc::Global;

/// That the sender is the chain's authority.
fn need_authority<B: Base>(
    alloc: Global,
    layers: &Layers<B>,
    prefix: &str,
    sender: &[u8],
) -> Result<(), HandleStop>
    requires lawful { HasLawfulUnder prefix.now (HasCurrent B.stands_for layers.now) }
    ensures { (tally : Option Tally) (left : ℕ) → LeadsOn prefix.now B.stands_for
        layers.now layers.now tally tally left left
        (needs_authority sender.now) nothing_view result }
{
    let chain = facts(alloc, layers)?;
    if !is_the(&chain.authority, sender) {
        return Err(stop_of(not_authority(alloc)));
    }
    Ok(())
}

/// Whether there is an address, and it is this one.
fn is_the(one: &Option<Vec<u8>>, sender: &[u8]) -> bool
    ensures { result ≡ is_the (option_map bytes_view one.now) sender.now }
{
    match one {
        Some(one) => one.as_slice() == sender,
        None => false,
    }
}

/// Calls the `sudo` entry of the contract that a text names.
pub(crate) fn command<B: Base, M: Modules>(
    alloc: Global,
    layers: &mut Layers<B>,
    modules: &mut M,
    prefix: &str,
    sender: &[u8],
    contract: &str,
    msg: &[u8],
    index: u32,
    meter: &mut Meter,
    costs: &Schedule,
) -> Result<Called, HandleStop>
    requires sender { IsAddress sender.now }
    requires costs { IsInRange costs.now }
    requires lawful { HasLawfulUnder prefix.now (HasCurrent B.stands_for layers.old) }
    ensures leads { LeadsOn prefix.now B.stands_for layers.old layers.new
        (M.tally modules.old) (M.tally modules.new) meter.old.left meter.new.left
        (commands costs.now index prefix.now sender.now contract.now msg.now) called_view result }
    ensures called { IfOk result IsCalled }
    ensures gas { meter.new.left + meter.new.used ≡ meter.old.left + meter.old.used }
    ensures layers { stacks.depth layers.new ≡ stacks.depth layers.old }
{
    fetches_join();
    need_authority(alloc, &*layers, prefix, sender)?;
    let addr = address_in(alloc, prefix, contract)?;
    let callee = callee_at(alloc, &*layers, prefix, addr)?;
    let own = one(alloc, call_event(alloc, "sudo", &callee.text)?)?;
    tell_call(
        alloc,
        layers,
        modules,
        prefix,
        callee,
        Entry::Sudo,
        own,
        None,
        msg,
        index,
        meter,
        costs,
    )
}

/// Calls the `reply` entry of the contract with an address.
pub(crate) fn reply_to<B: Base, M: Modules>(
    alloc: Global,
    layers: &mut Layers<B>,
    modules: &mut M,
    prefix: &str,
    addr: Vec<u8>,
    reply: &Reply,
    index: u32,
    meter: &mut Meter,
    costs: &Schedule,
) -> Result<Called, HandleStop>
    requires address { IsAddress addr.items }
    requires costs { IsInRange costs.now }
    requires lawful { HasLawfulUnder prefix.now (HasCurrent B.stands_for layers.old) }
    ensures leads { LeadsOn prefix.now B.stands_for layers.old layers.new
        (M.tally modules.old) (M.tally modules.new) meter.old.left meter.new.left
        (replies costs.now index prefix.now addr.items (reply_view reply.now)) called_view result }
    ensures called { IfOk result IsCalled }
    ensures gas { meter.new.left + meter.new.used ≡ meter.old.left + meter.old.used }
    ensures layers { stacks.depth layers.new ≡ stacks.depth layers.old }
{
    fetches_join();
    let callee = callee_at(alloc, &*layers, prefix, addr)?;
    let own = one(alloc, call_event(alloc, "reply", &callee.text)?)?;
    let msg = write_reply(alloc, reply)?;
    tell_call(
        alloc,
        layers,
        modules,
        prefix,
        callee,
        Entry::Reply,
        own,
        None,
        &msg,
        index,
        meter,
        costs,
    )
}
