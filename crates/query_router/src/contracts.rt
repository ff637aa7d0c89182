//! What is answered of contracts.

ghost use Rattle.std.specs.Prelude.{◌≡◌, ◌+◌, ◌≤◌, false, List, ℕ, Some, IfOk, string_bytes, length};
ghost use Rattle.std.specs.Option.{option_map};
ghost use Rattle.std.specs.FinMap.{get};
ghost use Rattle.serde_json.specs.View.{view};
ghost use Rattle.chain_addr.specs.Address.{address_of};
ghost use Rattle.chain_addr.specs.Letters.{IsPrefix};
ghost use Rattle.chain_msgs.specs.Plain.{answer_view};
ghost use Rattle.chain_records.specs.Keys.{IsAddress};
ghost use Rattle.chain_records.specs.Records.{bytes_view, plain_contract};
ghost use Rattle.chain_records.specs.Spelled.{OfEach};
ghost use Rattle.gas_meter.specs.Costs.{read_cost};
ghost use Rattle.query_router.specs.Lawful.{HasLawful, OfEachLawful};
ghost use Rattle.query_router.specs.Finding.{IsNamed, IsNamedWell};
ghost use Rattle.query_router.specs.Parts.{Tells, IsFree};
ghost use Rattle.query_router.specs.Queries.{Smart, admin_data, contract_data, contract_answer, no_contract_at, or_nothing, value_answered, answer_to};
ghost use Rattle.query_router.specs.Requests as requests;

use crate::answers::{invalid, written};
use crate::charge::charge;
use crate::records::{address_under, prefix_of};
use crate::stop::QueryStop;
use chain_addr::encode;
use chain_msgs::{Answer, SystemError};
use chain_records::{Contract, Key, key_bytes, maps_give_records};
use code_registry::is_pinned;
use contract_admin::find;
use gas_meter::{Meter, Schedule};
use kv_layers::Base;
use serde_json::{Value, json};
use std::alloc::{AllocError, Global};

/// A contract with its address, and the prefix under which addresses are written.
#[derive(Drop)]
pub(crate) struct Found {
    pub prefix: String,
    pub addr: Vec<u8>,
    pub contract: Contract,
}

/// What a text names.
#[derive(Drop)]
pub(crate) enum Named {
    Contract(Found),
    /// No contract: this is answered.
    Nothing(Answer),
}

/// The contract at the address that a text is.
pub(crate) fn contract_at<B: Base>(
    alloc: Global,
    view: &B,
    request: &[u8],
    text: &str,
) -> Result<Named, AllocError>
    requires { HasLawful (B.stands_for view.now) }
    ensures named { IfOk result (λ named. OfEach (B.stands_for view.now)
        (λ s. IsNamed s request.now text.now named)) }
    ensures well { IfOk result IsNamedWell }
{
    let prefix = prefix_of(alloc, view)?;
    match address_under(alloc, &prefix, text)? {
        Some(addr) => found_at(alloc, view, prefix, addr),
        None => Ok(Named::Nothing(invalid(alloc, "address", request)?)),
    }
}

/// The contract at an address.
fn found_at<B: Base>(
    alloc: Global,
    view: &B,
    prefix: String,
    addr: Vec<u8>,
) -> Result<Named, AllocError>
    requires lawful { HasLawful (B.stands_for view.now) }
    requires prefix { IsPrefix (string_bytes prefix) }
    requires address { IsAddress addr.items }
    ensures named { IfOk result (λ named. OfEach (B.stands_for view.now) (λ s.
        (request text : List ℕ) → string_bytes prefix ≡ s.facts.prefix →
        address_of s.facts.prefix text ≡ Some addr.items → IsNamed s request text named)) }
    ensures well { IfOk result IsNamedWell }
{
    match find(alloc, view, &addr)? {
        Some(contract) => Ok(Named::Contract(Found {
            prefix,
            addr,
            contract,
        })),
        None => Ok(Named::Nothing(no_contract(alloc, &prefix, &addr)?)),
    }
}

/// That there is no contract at an address.
fn no_contract(alloc: Global, prefix: &str, addr: &[u8]) -> Result<Answer, AllocError>
    requires { IsPrefix prefix.now }
    ensures { IfOk result (λ answer. answer_view answer ≡ no_contract_at prefix.now addr.now) }
{
    Ok(Answer::System(SystemError::NoSuchContract {
        addr: encode(alloc, prefix, addr)?,
    }))
}

fn admin_value(alloc: Global, prefix: &str, admin: &Option<Vec<u8>>) -> Result<Value, AllocError>
    requires { IsPrefix prefix.now }
    ensures { IfOk result (λ value. view value
        ≡ admin_data prefix.now (option_map bytes_view admin.now)) }
{
    match admin {
        Some(admin) => Ok(Value::String(encode(alloc, prefix, admin)?)),
        None => Ok(Value::Null),
    }
}

fn contract_value(
    alloc: Global,
    prefix: &str,
    contract: &Contract,
    pinned: bool,
) -> Result<Value, AllocError>
    requires { IsPrefix prefix.now }
    ensures { IfOk result (λ value. view value
        ≡ contract_data prefix.now (plain_contract contract.now) pinned) }
{
    let admin = admin_value(alloc, prefix, &contract.admin)?;
    let creator = encode(alloc, prefix, &contract.creator)?;
    let code_id = contract.code_id;
    json!(in alloc; {
        "admin": admin,
        "code_id": code_id,
        "creator": creator,
        "ibc_port": null,
        "pinned": pinned
    })
}

fn contract_answer(
    alloc: Global,
    prefix: &str,
    contract: &Contract,
    pinned: bool,
) -> Result<Answer, AllocError>
    requires { IsPrefix prefix.now }
    ensures { IfOk result (λ answer. answer_view answer
        ≡ contract_answer prefix.now (plain_contract contract.now) pinned) }
{
    let value = contract_value(alloc, prefix, contract, pinned)?;
    written(alloc, &value)
}

/// What is known of the contract at an address.
pub(crate) fn contract_info_answer<B: Base>(
    alloc: Global,
    view: &B,
    request: &[u8],
    text: &str,
) -> Result<Answer, AllocError>
    requires { HasLawful (B.stands_for view.now) }
    ensures { IfOk result (λ answer. OfEachLawful (B.stands_for view.now) (λ s. (of_contract : Smart) (costs : Schedule) →
        IsFree answer (answer_to of_contract costs s request.now (requests.contract_info text.now)))) }
{
    match contract_at(alloc, view, request, text)? {
        Named::Contract(found) => {
            let pinned = is_pinned(alloc, view, found.contract.code_id)?;
            contract_answer(alloc, &found.prefix, &found.contract, pinned)
        }
        Named::Nothing(answer) => Ok(answer),
    }
}

/// What a contract keeps under a key, or no bytes where it keeps nothing.
fn value_at<B: Base>(
    alloc: Global,
    view: &B,
    addr: Vec<u8>,
    key: Vec<u8>,
) -> Result<Vec<u8>, AllocError>
    requires { IsAddress addr.items }
    ensures { IfOk result (λ value. OfEach (B.stands_for view.now)
        (λ s. value.items ≡ or_nothing (get s.storage (addr.items, key.items)))) }
{
    maps_give_records();
    let place = key_bytes(alloc, &Key::Storage { addr, key })?;
    match view.get(alloc, &place)? {
        Some(value) => Ok(value),
        None => Ok(Vec::new(alloc)),
    }
}

/// A value under a key of so many bytes, which is paid for before it is answered.
fn paid_value(
    value: Vec<u8>,
    key: usize,
    meter: &mut Meter,
    costs: &Schedule,
) -> Result<Answer, QueryStop>
    ensures answer { (k : List ℕ) → key ≡ length k → Tells result meter.new.left
        (value_answered costs.now k value.items meter.old.left) }
    ensures gas { meter.new.left + meter.new.used ≡ meter.old.left + meter.old.used }
    ensures spends { meter.new.left ≤ meter.old.left }
{
    let bytes = key as u128 + value.len() as u128;
    match charge(meter, u128::from(costs.db_read) + 3 * bytes) {
        Ok(()) => Ok(Answer::Ok(value)),
        Err(stop) => Err(stop),
    }
}

/// What the contract at an address keeps under a key.
pub(crate) fn raw_answer<B: Base>(
    alloc: Global,
    view: &B,
    request: &[u8],
    text: &str,
    key: Vec<u8>,
    meter: &mut Meter,
    costs: &Schedule,
) -> Result<Answer, QueryStop>
    requires { HasLawful (B.stands_for view.now) }
    ensures answer { OfEachLawful (B.stands_for view.now) (λ s. (of_contract : Smart) → Tells result meter.new.left
        (answer_to of_contract costs.now s request.now (requests.raw text.now key.items) meter.old.left)) }
    ensures gas { meter.new.left + meter.new.used ≡ meter.old.left + meter.old.used }
    ensures spends { meter.new.left ≤ meter.old.left }
{
    match contract_at(alloc, view, request, text)? {
        Named::Contract(found) => {
            let size = key.len();
            let value = value_at(alloc, view, found.addr, key)?;
            paid_value(value, size, meter, costs)
        }
        Named::Nothing(answer) => Ok(answer),
    }
}
