//! Messages that make contracts.

ghost use Rattle.std.specs.Prelude.{◌≡◌, ◌+◌, ℕ, List, Option, IfOk, IfSome, IsSome, map, option_map, string_bytes};
ghost use Rattle.coin_amounts.specs.Coins.{coins_view};
ghost use Rattle.coin_amounts.specs.Plain.{raw_coin_view};
ghost use Rattle.chain_addr.specs.Letters.{IsPrefix};
ghost use Rattle.chain_records.specs.Keys.{IsAddress};
ghost use Rattle.kv_layers.specs.Layers as stacks;
ghost use Rattle.kv_layers.specs.Layers.{HasCurrent};
ghost use Rattle.gas_meter.specs.Ranges.{IsInRange};
ghost use Rattle.gatekeeper.specs.Cache.{Tally};
ghost use Rattle.query_router.specs.Lawful.{HasLawfulUnder};
ghost use Rattle.std.specs.FinMap.{get};
ghost use Rattle.chain_records.specs.Records.{plain_contract};
ghost use Rattle.chain_records.specs.Spelled.{OfEach, HasTyped};
ghost use Rattle.chain_msgs.specs.Plain.{out_view};
ghost use Rattle.submsg_dispatch.specs.Calling.{checksum_in, described, fitting, free_address, new_address, optional_address, creates};
ghost use Rattle.submsg_dispatch.specs.Stages.{Gives, IsNew, IsCallee, IsCalled, called_view, nothing_view, create_paid, create_written, instantiate_of};
ghost use Rattle.submsg_dispatch.specs.Under.{LeadsOn, bytes_view};

use crate::admins::contract_stop;
use crate::called::{Called, Callee};
use crate::calls::{info_text, tell_call};
use crate::failures::{address_taken, label_bad, salt_bad, stop_of};
use crate::funds::{funds_in, pay};
use crate::reading::address_in;
use crate::stop::HandleStop;
use call_outcomes::code_event;
use chain_addr::{classic, encode, predictable};
use chain_records::Contract;
use code_registry::info;
use coin_amounts::{Coins, RawCoin};
use contract_admin::{create, find, is_label, may_make, take_instance};
use contract_call::Entry;
use gas_meter::{Meter, Schedule};
use gatekeeper::{Modules, fetches_join};
use kv_layers::{Base, Layers};
use state_records::counters;
use std::alloc::{AllocError, Global};

/// The longest salt, in bytes.
const LONGEST_SALT: usize = 64;

/// That a salt fits, if there is one.
fn fitting(alloc: Global, salt: &Option<Vec<u8>>) -> Result<(), HandleStop>
    ensures { (prefix : List ℕ) → Gives prefix nothing_view result (fitting (out_view salt.now)) }
{
    match salt {
        None => Ok(()),
        Some(salt) if !salt.is_empty() && salt.len() <= LONGEST_SALT => Ok(()),
        Some(_) => Err(stop_of(salt_bad(alloc))),
    }
}

/// The bytes of an address, if there is one.
fn optional_address(
    alloc: Global,
    prefix: &str,
    text: &Option<String>,
) -> Result<Option<Vec<u8>>, HandleStop>
    requires { IsPrefix prefix.now }
    ensures gives { Gives prefix.now out_view result (optional_address (option_map string_bytes text.now)) }
    ensures address { IfOk result (λ found. IfSome (out_view found) IsAddress) }
{
    match text {
        None => Ok(None),
        Some(text) => Ok(Some(address_in(alloc, prefix, text)?)),
    }
}

/// The record of a contract that this sender makes of the code with an id.
pub(crate) fn described(
    alloc: Global,
    prefix: &str,
    sender: &[u8],
    admin: &Option<String>,
    code_id: u64,
    label: &str,
    salt: &Option<Vec<u8>>,
) -> Result<Contract, HandleStop>
    requires prefix { IsPrefix prefix.now }
    requires sender { IsAddress sender.now }
    ensures gives { Gives prefix.now plain_contract result
        (described sender.now (option_map string_bytes admin.now) code_id label.now (out_view salt.now)) }
    ensures new { IfOk result IsNew }
{
    if !is_label(label) {
        return Err(stop_of(label_bad(alloc)));
    }
    fitting(alloc, salt)?;
    let admin = optional_address(alloc, prefix, admin)?;
    Ok(Contract {
        code_id,
        creator: sender.to_vec(alloc)?,
        admin,
        label: String::from_str(alloc, label)?,
    })
}

/// The checksum of the code with this id.
fn checksum_of<B: Base>(alloc: Global, view: &B, code_id: u64) -> Result<[u8; 32], AllocError>
    requires typed { HasTyped (B.stands_for view.now) }
    ensures { IfOk result (λ sum. OfEach (B.stands_for view.now) (λ s.
        IsSome (get s.codes code_id) → sum ≡ checksum_in (get s.codes code_id))) }
{
    match info(alloc, view, code_id)? {
        Some(info) => Ok(info.checksum),
        None => Ok([0; 32]),
    }
}

/// The address that the contract gets: the classic one, or the predictable one under a salt.
fn new_address<B: Base>(
    alloc: Global,
    view: &B,
    contract: &Contract,
    salt: &Option<Vec<u8>>,
) -> Result<[u8; 32], AllocError>
    requires typed { HasTyped (B.stands_for view.now) }
    ensures { IfOk result (λ addr. OfEach (B.stands_for view.now) (λ s.
        IsSome (get s.codes contract.now.code_id) →
        addr ≡ new_address s contract.now.creator.items contract.now.code_id (out_view salt.now))) }
{
    match salt {
        None => {
            let next = counters(alloc, view)?.next_instance;
            Ok(classic(contract.code_id, next))
        }
        Some(salt) => {
            let checksum = checksum_of(alloc, view, contract.code_id)?;
            predictable(&checksum, &contract.creator, salt)
        }
    }
}

/// The address that the contract gets, where its creator may make it and no other contract has it.
fn free_address<B: Base>(
    alloc: Global,
    layers: &Layers<B>,
    prefix: &str,
    contract: &Contract,
    salt: &Option<Vec<u8>>,
) -> Result<Vec<u8>, HandleStop>
    requires new { IsNew contract.now }
    requires lawful { HasLawfulUnder prefix.now (HasCurrent B.stands_for layers.now) }
    ensures leads { (tally : Option Tally) (left : ℕ) → LeadsOn prefix.now B.stands_for
        layers.now layers.now tally tally left left
        (free_address prefix.now (plain_contract contract.now) (out_view salt.now)) bytes_view result }
    ensures address { IfOk result (λ addr. IsAddress addr.items) }
{
    if let Err(stop) = may_make(alloc, layers, &contract.creator, contract.code_id) {
        return Err(contract_stop(alloc, prefix, b"", stop));
    }
    let addr = new_address(alloc, layers, contract, salt)?.to_vec(alloc)?;
    match find(alloc, layers, &addr)? {
        None => Ok(addr),
        Some(_) => Err(stop_of(address_taken(alloc))),
    }
}

/// Makes the contract of a record, with what its creator sends along.
pub(crate) fn instantiate<B: Base, M: Modules>(
    alloc: Global,
    layers: &mut Layers<B>,
    modules: &mut M,
    prefix: &str,
    contract: Contract,
    msg: &[u8],
    raws: &[RawCoin],
    salt: &Option<Vec<u8>>,
    index: u32,
    meter: &mut Meter,
    costs: &Schedule,
) -> Result<Called, HandleStop>
    requires new { IsNew contract }
    requires costs { IsInRange costs.now }
    requires lawful { HasLawfulUnder prefix.now (HasCurrent B.stands_for layers.old) }
    ensures leads { LeadsOn prefix.now B.stands_for layers.old layers.new
        (M.tally modules.old) (M.tally modules.new) meter.old.left meter.new.left
        (instantiate_of costs.now index prefix.now msg.now (map raw_coin_view raws.now) (out_view salt.now) (plain_contract contract)) called_view result }
    ensures called { IfOk result IsCalled }
    ensures gas { meter.new.left + meter.new.used ≡ meter.old.left + meter.old.used }
    ensures layers { stacks.depth layers.new ≡ stacks.depth layers.old }
{
    fetches_join();
    let coins = funds_in(alloc, raws)?;
    let addr = free_address(alloc, &*layers, prefix, &contract, salt)?;
    take_instance(alloc, layers)?;
    create_paid(
        alloc, layers, modules, prefix, addr, &contract, &coins, msg, index, meter, costs,
    )
}

/// Sends the funds to a new contract, calls it, and writes its record.
fn create_paid<B: Base, M: Modules>(
    alloc: Global,
    layers: &mut Layers<B>,
    modules: &mut M,
    prefix: &str,
    addr: Vec<u8>,
    contract: &Contract,
    coins: &Coins,
    msg: &[u8],
    index: u32,
    meter: &mut Meter,
    costs: &Schedule,
) -> Result<Called, HandleStop>
    requires address { IsAddress addr.items }
    requires new { IsNew contract.now }
    requires costs { IsInRange costs.now }
    requires lawful { HasLawfulUnder prefix.now (HasCurrent B.stands_for layers.old) }
    ensures leads { LeadsOn prefix.now B.stands_for layers.old layers.new
        (M.tally modules.old) (M.tally modules.new) meter.old.left meter.new.left
        (create_paid costs.now index prefix.now addr.items (plain_contract contract.now) (coins_view coins.now) msg.now) called_view result }
    ensures called { IfOk result IsCalled }
    ensures gas { meter.new.left + meter.new.used ≡ meter.old.left + meter.old.used }
    ensures layers { stacks.depth layers.new ≡ stacks.depth layers.old }
{
    fetches_join();
    let code_id = contract.code_id;
    let mut own = pay(
        alloc,
        layers,
        prefix,
        &contract.creator,
        &addr,
        coins,
        meter,
        costs,
    )?;
    let text = encode(alloc, prefix, &addr)?;
    own.push(code_event(alloc, "instantiate", &text, code_id)?)?;
    let info = info_text(alloc, prefix, &contract.creator, coins)?;
    let callee = Callee {
        addr,
        text,
        code_id,
    };
    let called = tell_call(
        alloc,
        layers,
        modules,
        prefix,
        callee,
        Entry::Instantiate,
        own,
        Some(&info),
        msg,
        index,
        meter,
        costs,
    )?;
    write_created(alloc, layers, prefix, contract, called)
}

/// Writes the record of a contract that was called.
fn write_created<B: Base>(
    alloc: Global,
    layers: &mut Layers<B>,
    prefix: &str,
    contract: &Contract,
    called: Called,
) -> Result<Called, HandleStop>
    requires called { IsCalled called }
    requires new { IsNew contract.now }
    requires lawful { HasLawfulUnder prefix.now (HasCurrent B.stands_for layers.old) }
    ensures leads { (tally : Option Tally) (left : ℕ) → LeadsOn prefix.now B.stands_for
        layers.old layers.new tally tally left left
        (create_written prefix.now called.addr.items (plain_contract contract.now) (called_view called)) called_view result }
    ensures called { IfOk result IsCalled }
    ensures layers { stacks.depth layers.new ≡ stacks.depth layers.old }
{
    match create(alloc, layers, &called.addr, contract) {
        Ok(()) => Ok(called),
        Err(stop) => Err(contract_stop(alloc, prefix, &called.addr, stop)),
    }
}
