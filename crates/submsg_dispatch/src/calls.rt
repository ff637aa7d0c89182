//! Calls of contracts for messages and replies.

ghost use Rattle.std.specs.Prelude.{◌≡◌, ◌+◌, ◌↔◌, ℕ, Option, IfOk, IsSome, IsTrue, map};
ghost use Rattle.std.specs.Option.{option_copied};
ghost use Rattle.coin_amounts.specs.Coins.{coins_view};
ghost use Rattle.chain_addr.specs.Letters.{IsPrefix};
ghost use Rattle.chain_addr.specs.Text.{text_of};
ghost use Rattle.chain_records.specs.Keys.{IsAddress};
ghost use Rattle.kv_layers.specs.Layers as stacks;
ghost use Rattle.kv_layers.specs.Layers.{HasCurrent};
ghost use Rattle.gas_meter.specs.Ranges.{IsInRange};
ghost use Rattle.gatekeeper.specs.Cache.{Tally};
ghost use Rattle.chain_msgs.specs.Messages.{response_view};
ghost use Rattle.chain_msgs.specs.Plain.{event_view};
ghost use Rattle.contract_call.specs.Calls.{arguments, takes_info};
ghost use Rattle.call_outcomes.specs.Results.{response_of};
ghost use Rattle.query_router.specs.Lawful.{HasLawfulUnder, OfEachLawful};
ghost use Rattle.submsg_dispatch.specs.Calling.{env, info, answered, tells, code_at};
ghost use Rattle.submsg_dispatch.specs.Stages.{IsCallee, FindsWith, code_id_of, called_view, entered};
ghost use Rattle.submsg_dispatch.specs.Under.{LeadsOn, bytes_view};

use crate::called::{Called, Callee};
use crate::failures::{no_such_contract, stop_of};
use crate::stop::HandleStop;
use call_outcomes::{CallStop, fault_failure, read_result};
use chain_addr::encode;
use chain_msgs::{Env, Event, Response, write_env, write_info};
use coin_amounts::Coins;
use contract_admin::find;
use contract_call::Entry;
use gas_meter::{Meter, Schedule};
use gatekeeper::{Modules, fetches_join};
use kv_layers::{Base, Layers};
use query_router::{CallEnd, QueryStop, call_contract};
use state_records::facts;
use std::alloc::{AllocError, Global};

/// What a contract is told of the chain in the transaction of this index.
fn env_text<B: Base>(
    alloc: Global,
    view: &B,
    prefix: &str,
    callee: &Callee,
    index: u32,
) -> Result<Vec<u8>, AllocError>
    requires callee { IsCallee prefix.now callee.now }
    requires lawful { HasLawfulUnder prefix.now (B.stands_for view.now) }
    ensures { IfOk result (λ text. OfEachLawful (B.stands_for view.now) (λ s.
        s.facts.prefix ≡ prefix.now → text.items ≡ env s index callee.now.addr.items)) }
{
    let chain = facts(alloc, view)?;
    write_env(
        alloc,
        &Env {
            height: chain.height,
            time: chain.time,
            chain_id: chain.chain_id,
            index: Some(index),
            contract: callee.text.clone()?,
        },
    )
}

/// What a contract is told of who calls.
pub(crate) fn info_text(
    alloc: Global,
    prefix: &str,
    sender: &[u8],
    coins: &Coins,
) -> Result<Vec<u8>, AllocError>
    requires prefix { IsPrefix prefix.now }
    requires sender { IsAddress sender.now }
    ensures { IfOk result (λ text. text.items ≡ info prefix.now sender.now (coins_view coins.now)) }
{
    let sender = encode(alloc, prefix, sender)?;
    write_info(alloc, &sender, coins)
}

/// The contract with an address, as it is to be called.
pub(crate) fn callee_at<B: Base>(
    alloc: Global,
    layers: &Layers<B>,
    prefix: &str,
    addr: Vec<u8>,
) -> Result<Callee, HandleStop>
    requires address { IsAddress addr.items }
    requires lawful { HasLawfulUnder prefix.now (HasCurrent B.stands_for layers.now) }
    ensures leads { (tally : Option Tally) (left : ℕ) → LeadsOn prefix.now B.stands_for
        layers.now layers.now tally tally left left
        (code_at prefix.now addr.items) code_id_of result }
    ensures callee { IfOk result (λ callee. (callee.addr ≡ addr) × IsCallee prefix.now callee) }
{
    let text = encode(alloc, prefix, &addr)?;
    match find(alloc, layers, &addr)? {
        Some(contract) => Ok(Callee {
            addr,
            text,
            code_id: contract.code_id,
        }),
        None => Err(stop_of(no_such_contract(alloc, text))),
    }
}

/// Calls an entry of a contract. What the contract did before it failed stays in the layers.
fn call_entry<B: Base, M: Modules>(
    alloc: Global,
    layers: &mut Layers<B>,
    modules: &mut M,
    prefix: &str,
    callee: &Callee,
    entry: Entry,
    info: Option<&[u8]>,
    msg: &[u8],
    index: u32,
    meter: &mut Meter,
    costs: &Schedule,
) -> Result<Vec<u8>, HandleStop>
    requires callee { IsCallee prefix.now callee.now }
    requires info { IsSome info ↔ IsTrue (takes_info entry) }
    requires costs { IsInRange costs.now }
    requires lawful { HasLawfulUnder prefix.now (HasCurrent B.stands_for layers.old) }
    ensures leads { LeadsOn prefix.now B.stands_for layers.old layers.new
        (M.tally modules.old) (M.tally modules.new) meter.old.left meter.new.left
        (entered costs.now index callee.now.addr.items callee.now.code_id entry (option_copied info.entry) msg.now)
        bytes_view result }
    ensures gas { meter.new.left + meter.new.used ≡ meter.old.left + meter.old.used }
    ensures layers { stacks.depth layers.new ≡ stacks.depth layers.old }
{
    let env = env_text(alloc, &*layers, prefix, callee, index)?;
    let (addr, id) = (callee.addr.as_slice(), callee.code_id);
    match call_contract(
        alloc, layers, modules, prefix, addr, id, entry, &env, info, msg, meter, costs,
    ) {
        Ok(CallEnd::Finished(bytes)) => Ok(bytes),
        Ok(CallEnd::Fault(fault)) => Err(stop_of(fault_failure(alloc, entry, &fault))),
        Err(QueryStop::OutOfGas) => Err(HandleStop::OutOfGas),
        Err(QueryStop::NoMemory) => Err(HandleStop::NoMemory),
    }
}

/// What a contract tells by the result of a call.
fn read_answer(alloc: Global, entry: Entry, bytes: &[u8]) -> Result<Response, HandleStop>
    ensures { FindsWith response_view result (response_of entry bytes.now) }
{
    match read_result(alloc, entry, bytes) {
        Ok(response) => Ok(response),
        Err(CallStop::Failed(failure)) => Err(HandleStop::Failed(failure)),
        Err(CallStop::NoMemory) => Err(HandleStop::NoMemory),
    }
}

/// Calls an entry of a contract, and reads what it tells.
pub(crate) fn answered<B: Base, M: Modules>(
    alloc: Global,
    layers: &mut Layers<B>,
    modules: &mut M,
    prefix: &str,
    callee: &Callee,
    entry: Entry,
    info: Option<&[u8]>,
    msg: &[u8],
    index: u32,
    meter: &mut Meter,
    costs: &Schedule,
) -> Result<Response, HandleStop>
    requires callee { IsCallee prefix.now callee.now }
    requires info { IsSome info ↔ IsTrue (takes_info entry) }
    requires costs { IsInRange costs.now }
    requires lawful { HasLawfulUnder prefix.now (HasCurrent B.stands_for layers.old) }
    ensures leads { LeadsOn prefix.now B.stands_for layers.old layers.new
        (M.tally modules.old) (M.tally modules.new) meter.old.left meter.new.left
        (answered costs.now index callee.now.addr.items callee.now.code_id entry (option_copied info.entry) msg.now)
        response_view result }
    ensures gas { meter.new.left + meter.new.used ≡ meter.old.left + meter.old.used }
    ensures layers { stacks.depth layers.new ≡ stacks.depth layers.old }
{
    fetches_join();
    let bytes = call_entry(
        alloc, layers, modules, prefix, callee, entry, info, msg, index, meter, costs,
    )?;
    read_answer(alloc, entry, &bytes)
}

/// Calls an entry of a contract, which has these events of its own, and gathers what it tells.
pub(crate) fn tell_call<B: Base, M: Modules>(
    alloc: Global,
    layers: &mut Layers<B>,
    modules: &mut M,
    prefix: &str,
    callee: Callee,
    entry: Entry,
    own: Vec<Event>,
    info: Option<&[u8]>,
    msg: &[u8],
    index: u32,
    meter: &mut Meter,
    costs: &Schedule,
) -> Result<Called, HandleStop>
    requires callee { IsCallee prefix.now callee }
    requires info { IsSome info ↔ IsTrue (takes_info entry) }
    requires costs { IsInRange costs.now }
    requires lawful { HasLawfulUnder prefix.now (HasCurrent B.stands_for layers.old) }
    ensures leads { LeadsOn prefix.now B.stands_for layers.old layers.new
        (M.tally modules.old) (M.tally modules.new) meter.old.left meter.new.left
        (tells costs.now index prefix.now callee.addr.items callee.code_id entry (option_copied info.entry) msg.now
        (map event_view own.items)) called_view result }
    ensures called { IfOk result (λ called. called.addr ≡ callee.addr) }
    ensures gas { meter.new.left + meter.new.used ≡ meter.old.left + meter.old.used }
    ensures layers { stacks.depth layers.new ≡ stacks.depth layers.old }
{
    fetches_join();
    let response = answered(
        alloc, layers, modules, prefix, &callee, entry, info, msg, index, meter, costs,
    )?;
    let Callee { addr, text, .. } = callee;
    Ok(Called {
        addr,
        contract: text,
        entry,
        own,
        response,
    })
}
