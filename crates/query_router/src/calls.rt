//! How the call of a contract begins and ends.

ghost use Rattle.std.specs.Prelude.{◌≡◌, ◌↔◌, ℕ, List, Some, IfOk, IsSome, IsTrue, string_bytes};
ghost use Rattle.std.specs.Option.{option_copied};
ghost use Rattle.chain_addr.specs.Letters.{IsPrefix};
ghost use Rattle.chain_records.specs.Keys.{IsAddress};
ghost use Rattle.chain_msgs.specs.Plain.{answer_view, contract_error};
ghost use Rattle.chain_msgs.specs.Answers.{query_result_in};
ghost use Rattle.gas_meter.specs.declared.schedule.Schedule.{Schedule};
ghost use Rattle.host_imports.specs.Faults.{fault_view, fault_text};
ghost use Rattle.contract_call.specs.Calls.{only_reads, takes_info, arguments};
ghost use Rattle.query_router.specs.Calling.{IsOpenedAt, IsReady, Begins, IsReadyBegun};
ghost use Rattle.query_router.specs.Calls.{query_env, smart_at, result_answer, ended_answer};
ghost use Rattle.query_router.specs.Endings.{end_view};
ghost use Rattle.query_router.specs.Finding.{IsFoundAt};
ghost use Rattle.query_router.specs.Lawful.{HasLawful, OfEachLawful};

use crate::contracts::{Found, Named, contract_at};
use crate::end::CallEnd;
use crate::stop::QueryStop;
use chain_addr::encode;
use chain_msgs::{Answer, Env, ResponseStop, Told, read_query_result, write_env};
use code_registry::{code, is_pinned};
use contract_call::{CallFault, Entry, Running};
use gas_store::Scoped;
use gatekeeper::Modules;
use kv_layers::Base;
use state_records::facts;
use std::alloc::{AllocError, Global};

/// A call that was begun.
#[derive(Drop)]
pub(crate) struct Opened {
    pub running: Running,
    pub store: Scoped,
    /// Under which addresses are written.
    pub prefix: String,
}

/// How a query is answered.
#[derive(Drop)]
pub(crate) enum Begun {
    /// So.
    Known(Answer),
    /// By what comes of this call.
    Call(Opened),
}

/// Whether an entry may change nothing.
fn only_reads(entry: Entry) -> bool
    ensures { result ≡ only_reads entry }
{
    match entry {
        Entry::Query => true,
        Entry::Instantiate | Entry::Execute | Entry::Migrate | Entry::Sudo | Entry::Reply => false,
    }
}

/// Begins a call of the contract with an address, as the code with this id has it, if there is such a code.
pub(crate) fn open_call<B: Base, M: Modules>(
    alloc: Global,
    view: &B,
    modules: &mut M,
    prefix: String,
    addr: &[u8],
    code_id: u64,
    entry: Entry,
    env: &[u8],
    info: Option<&[u8]>,
    msg: &[u8],
) -> Result<Option<Opened>, AllocError>
    requires lawful { HasLawful (B.stands_for view.now) }
    requires address { IsAddress addr.now }
    requires info { IsSome info ↔ IsTrue (takes_info entry) }
    ensures opened { IfOk result (λ opened. OfEachLawful (B.stands_for view.now) (λ s.
        IsOpenedAt s code_id entry (arguments env.now (option_copied info.entry) msg.now)
        (M.tally modules.old) (M.tally modules.new) opened)) }
    ensures ready { IfOk result (λ opened. IsReady (string_bytes prefix) addr.now entry opened) }
{
    let code = match code(alloc, view, code_id)? {
        Some(code) => code,
        None => return Ok(None),
    };
    let pinned = is_pinned(alloc, view, code_id)?;
    let (m, _) = modules.fetch(alloc, &code)?;
    let running = Running::begin(alloc, m, entry, env, info, msg, pinned)?;
    let store = Scoped::new(alloc, addr, only_reads(entry))?;
    Ok(Some(Opened {
        running,
        store,
        prefix,
    }))
}

/// What a contract is told of the chain where it is asked.
fn query_env<B: Base>(alloc: Global, view: &B, addr: &[u8]) -> Result<Vec<u8>, AllocError>
    requires lawful { HasLawful (B.stands_for view.now) }
    requires address { IsAddress addr.now }
    ensures { IfOk result (λ env. OfEachLawful (B.stands_for view.now)
        (λ s. env.items ≡ query_env s addr.now)) }
{
    let chain = facts(alloc, view)?;
    let contract = encode(alloc, &chain.prefix, addr)?;
    write_env(
        alloc,
        &Env {
            height: chain.height,
            time: chain.time,
            chain_id: chain.chain_id,
            index: None,
            contract,
        },
    )
}

/// Begins the call of a contract that was found, which is asked this.
fn open_query<B: Base, M: Modules>(
    alloc: Global,
    view: &B,
    modules: &mut M,
    found: Found,
    msg: &[u8],
) -> Result<Begun, QueryStop>
    requires lawful { HasLawful (B.stands_for view.now) }
    requires address { IsAddress found.addr.items }
    requires prefix { IsPrefix (string_bytes found.prefix) }
    ensures begun { OfEachLawful (B.stands_for view.now) (λ s. (costs : Schedule) (left : ℕ) (request text : List ℕ) →
        IsFoundAt s text found →
        Begins s costs left (M.tally modules.old) (M.tally modules.new)
        (λ ask. smart_at ask costs s request text msg.now left) result) }
    ensures ready { IfOk result IsReadyBegun }
{
    let env = query_env(alloc, view, &found.addr)?;
    match open_call(
        alloc,
        view,
        modules,
        found.prefix,
        &found.addr,
        found.contract.code_id,
        Entry::Query,
        &env,
        None,
        msg,
    )? {
        Some(opened) => Ok(Begun::Call(opened)),
        None => Err(QueryStop::OutOfGas),
    }
}

/// Begins the call of the contract that a text names, which is asked this.
pub(crate) fn ask_contract<B: Base, M: Modules>(
    alloc: Global,
    view: &B,
    modules: &mut M,
    request: &[u8],
    text: &str,
    msg: &[u8],
) -> Result<Begun, QueryStop>
    requires lawful { HasLawful (B.stands_for view.now) }
    ensures begun { OfEachLawful (B.stands_for view.now) (λ s. (costs : Schedule) (left : ℕ) →
        Begins s costs left (M.tally modules.old) (M.tally modules.new)
        (λ ask. smart_at ask costs s request.now text.now msg.now left) result) }
    ensures ready { IfOk result IsReadyBegun }
{
    match contract_at(alloc, view, request, text)? {
        Named::Contract(found) => open_query(alloc, view, modules, found, msg),
        Named::Nothing(answer) => Ok(Begun::Known(answer)),
    }
}

/// What a call that faulted is answered.
fn fault_answer(alloc: Global, fault: &CallFault) -> Result<Answer, AllocError>
    ensures { IfOk result (λ answer. answer_view answer ≡ contract_error (fault_text (fault_view fault.now))) }
{
    Ok(Answer::ContractError(fault.to_string(alloc)?))
}

/// What a contract's result is answered.
fn result_answer(alloc: Global, bytes: &[u8]) -> Result<Answer, AllocError>
    ensures { IfOk result (λ answer. answer_view answer ≡ result_answer (query_result_in bytes.now)) }
{
    match read_query_result(alloc, bytes) {
        Ok(Told::Ok(bytes)) => Ok(Answer::Ok(bytes)),
        Ok(Told::Error(text)) => Ok(Answer::ContractError(text)),
        Err(ResponseStop::NoMemory) => Err(AllocError),
        Err(_) => fault_answer(alloc, &CallFault::BadResult),
    }
}

/// What a call is answered that ended so.
pub(crate) fn end_answer(alloc: Global, end: CallEnd) -> Result<Answer, AllocError>
    ensures { IfOk result (λ answer. ended_answer (end_view end) ≡ Some (answer_view answer)) }
{
    match end {
        CallEnd::Finished(bytes) => result_answer(alloc, &bytes),
        CallEnd::Fault(fault) => fault_answer(alloc, &fault),
    }
}
