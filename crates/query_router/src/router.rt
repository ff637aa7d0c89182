//! How a query is answered.

ghost use Rattle.std.specs.Prelude.{◌≡◌, ◌+◌, ◌-◌, ◌<◌, ◌≤◌, ℕ, List, [], Option, IfOk, IfErr, IsTrue};
ghost use Rattle.chain_records.specs.State.{State, Spells};
ghost use Rattle.gas_meter.specs.Ranges.{IsInRange};
ghost use Rattle.kv_layers.specs.Layers.{HasCurrent, Stands, Turns};
ghost use Rattle.kv_layers.specs.Layers as stacks;
ghost use Rattle.kv_layers.specs.Maps.{Maps};
ghost use Rattle.gas_store.specs.Effects.{IsSameScope};
ghost use Rattle.gas_store.specs.Views.{addr_of, is_read_only};
ghost use Rattle.gatekeeper.specs.Cache.{Tally};
ghost use Rattle.gatekeeper.specs.Fetches.{Tallies};
ghost use Rattle.host_imports.specs.Work.{ran_out};
ghost use Rattle.contract_call.specs.Calls.{Call, Outset};
ghost use Rattle.contract_call.specs.Running.{WaitsForAnswer};
ghost use Rattle.contract_call.specs.Steps.{IfQuery};
ghost use Rattle.query_router.specs.Answering.{Gives};
ghost use Rattle.query_router.specs.Calls.{Called, gathered_all, outset_of, queries, query};
ghost use Rattle.query_router.specs.Calling.{Begins, IsReadyBegun, IsReadyCall, IfCall, IsBegun, HasBegun, IsScope, IsSetFor, HasCome, IsUnderway, HasGone, contracts_at, step_end};
ghost use Rattle.query_router.specs.Endings.{Ends, end_view};
ghost use Rattle.query_router.specs.Lawful.{IsLawful, HasLawful, OfEachLawful};
ghost use Rattle.query_router.specs.Parts.{Tells};
ghost use Rattle.query_router.specs.Queries.{Asking, Queried, answer_to, asked_answer, paid_answer};
ghost use Rattle.query_router.specs.Requests.{asked};
ghost use Rattle.query_router.specs.Views.{request_view};

use crate::answers::{invalid, unsupported};
use crate::bank::{all_balances_answer, balance_answer, supply_answer};
use crate::calls::{Begun, Opened, ask_contract, end_answer};
use crate::charge::charge;
use crate::codes::code_info_answer;
use crate::contracts::{contract_info_answer, raw_answer};
use crate::end::CallEnd;
use crate::forms::read_request;
use crate::request::{Asked, Request};
use crate::stop::QueryStop;
use chain_msgs::{Answer, write_answer};
use chain_records::bytes_tell_keys;
use contract_call::Step;
use gas_meter::{Meter, Schedule};
use gas_store::{storages_are_typed, storages_change_alone};
use gatekeeper::{Modules, fetches_join};
use kv_layers::{Base, Layers};
use std::alloc::{AllocError, Global};

/// At this depth no contract is asked any more.
const DEEPEST: u32 = 10;

/// What a query is answered. It is paid before it is looked at. The layers are as they were, whatever comes.
#[cycle(queries)]
pub fn query<B: Base, M: Modules>(
    alloc: Global,
    view: &mut Layers<B>,
    modules: &mut M,
    request: &[u8],
    meter: &mut Meter,
    costs: &Schedule,
    depth: u32,
) -> Result<Answer, QueryStop>
    requires depth { depth ≤ 10 }
    requires costs { IsInRange costs.now }
    requires lawful { HasLawful (HasCurrent B.stands_for view.old) }
    ensures answer { OfEachLawful (HasCurrent B.stands_for view.old) (λ s. Gives result
        meter.new.left (M.tally modules.old) (M.tally modules.new)
        (query costs.now s request.now depth meter.old.left)) }
    ensures gas { meter.new.left + meter.new.used ≡ meter.old.left + meter.old.used }
    ensures spends { meter.new.left ≤ meter.old.left }
    ensures unchanged { Turns B.stands_for view.old view.new (λ maps. maps) }
    ensures layers { stacks.depth view.new ≡ stacks.depth view.old }
{
    fetches_join();
    match begin_query(alloc, &*view, modules, request, meter, costs, depth) {
        Ok(Begun::Known(answer)) => Ok(answer),
        Ok(Begun::Call(call)) => {
            match finish(alloc, call, view, modules, meter, costs, depth) {
                Ok(end) => Ok(end_answer(alloc, end)?),
                Err(stop) => Err(stop),
            }
        }
        Err(stop) => Err(stop),
    }
}

/// Has a call run to its end. What it asks is answered on the way, one level deeper than the call.
#[cycle(queries)]
pub(crate) fn finish<B: Base, M: Modules>(
    alloc: Global,
    mut call: Opened,
    view: &mut Layers<B>,
    modules: &mut M,
    meter: &mut Meter,
    costs: &Schedule,
    depth: u32,
) -> Result<CallEnd, QueryStop>
    requires depth { depth < 10 }
    requires costs { IsInRange costs.now }
    requires begun { HasBegun (HasCurrent B.stands_for view.old) call }
    requires ready { IsReadyCall call }
    ensures ends { (maps : Maps) (s : State) (of : Call) → Stands B.stands_for view.old maps →
        Spells maps.current s → IsLawful s → IsBegun s call of →
        Ends B.stands_for view.new maps s (addr_of call.store) meter.new.left
        (M.tally modules.old) (M.tally modules.new)
        (gathered_all (queries costs.now (9 - depth)) s (addr_of call.store) of
        (outset_of costs.now s (addr_of call.store) meter.old.left)) result }
    ensures gas { meter.new.left + meter.new.used ≡ meter.old.left + meter.old.used }
    ensures spends { meter.new.left ≤ meter.old.left }
    ensures unchanged { IsTrue (is_read_only call.store) → Turns B.stands_for view.old view.new (λ maps. maps) }
    ensures layers { stacks.depth view.new ≡ stacks.depth view.old }
{
    bytes_tell_keys();
    storages_change_alone();
    let mut step = begin(alloc, &mut call, view, meter, costs)?;
    while let Step::Query(request) = step {
        step = match go_on(
            alloc, request, &mut call, view, modules, meter, costs, depth,
        ) {
            Ok(step) => step,
            Err(stop) => return Err(stop),
        };
    }
    ended(step)
}

/// Begins a call that was opened, up to its end or its first query.
fn begin<B: Base>(
    alloc: Global,
    call: &mut Opened,
    view: &mut Layers<B>,
    meter: &mut Meter,
    costs: &Schedule,
) -> Result<Step, AllocError>
    requires costs { IsInRange costs.now }
    requires ready { IsReadyCall call.old }
    ensures comes { IfOk result (λ step. (maps : Maps) (s : State) (of : Call) (ask : Asking) (tally : Option Tally) →
        Stands B.stands_for view.old maps → Spells maps.current s → IsBegun s call.old of →
        let o = outset_of costs.now s (addr_of call.old.store) meter.old.left in
        Tallies tally [] tally →
        HasCome B.stands_for view.new maps s (addr_of call.old.store) call.new meter.new.left tally tally ask of o
        (gathered_all ask s (addr_of call.old.store) of o) step) }
    ensures waits { IfOk result (λ step. IfQuery step (WaitsForAnswer call.new.running)) }
    ensures kept { IsSameScope call.old.store call.new.store × (call.new.prefix ≡ call.old.prefix) }
    ensures gas { meter.new.left + meter.new.used ≡ meter.old.left + meter.old.used }
    ensures spends { meter.new.left ≤ meter.old.left }
    ensures unchanged { IsTrue (is_read_only call.old.store) → Turns B.stands_for view.old view.new (λ maps. maps) }
    ensures layers { stacks.depth view.new ≡ stacks.depth view.old }
{
    storages_are_typed();
    call.running
        .advance(alloc, &mut call.store, view, &call.prefix, meter, costs)
}

/// How a call ended that has come to this step.
fn ended(step: Step) -> Result<CallEnd, QueryStop>
    requires { IfQuery step ⊥ }
    ensures ok { IfOk result (λ end. end_view end ≡ step_end step) }
    ensures err { IfErr result (λ stop. (stop ≡ QueryStop.OutOfGas) × (step_end step ≡ ran_out)) }
{
    match step {
        Step::Finished(bytes) => Ok(CallEnd::Finished(bytes)),
        Step::Fault(fault) => Ok(CallEnd::Fault(fault)),
        Step::OutOfGas => Err(QueryStop::OutOfGas),
        Step::Query(_) => unreachable!(),
    }
}

/// Answers what a call asks, one level deeper than the call, which then goes on.
#[cycle(queries)]
fn go_on<B: Base, M: Modules>(
    alloc: Global,
    request: Vec<u8>,
    call: &mut Opened,
    view: &mut Layers<B>,
    modules: &mut M,
    meter: &mut Meter,
    costs: &Schedule,
    depth: u32,
) -> Result<Step, QueryStop>
    requires depth { depth < 10 }
    requires costs { IsInRange costs.now }
    requires waits { WaitsForAnswer call.old.running }
    requires kept { IsScope call.old }
    requires underway { IsUnderway B.stands_for view.old call.old meter.old.left (M.tally modules.old)
        costs.now (queries costs.now (9 - depth)) (Step.Query request) }
    ensures comes { (maps : Maps) (s : State) (addr : List ℕ) (of : Call) (o : Outset)
        (before : Option Tally) (called : Called) →
        Spells maps.current s → IsLawful s → IsSetFor addr costs.now call.old of o →
        HasCome B.stands_for view.old maps s addr call.old meter.old.left before (M.tally modules.old)
        (queries costs.now (9 - depth)) of o called (Step.Query request) →
        HasGone B.stands_for view.new maps s addr call.new meter.new.left before (M.tally modules.new)
        (queries costs.now (9 - depth)) of o called result }
    ensures waits { IfOk result (λ step. IfQuery step (WaitsForAnswer call.new.running)) }
    ensures falls { IfOk result (λ step. IfQuery step (meter.new.left < meter.old.left)) }
    ensures kept { IsSameScope call.old.store call.new.store × (call.new.prefix ≡ call.old.prefix) }
    ensures gas { meter.new.left + meter.new.used ≡ meter.old.left + meter.old.used }
    ensures spends { meter.new.left ≤ meter.old.left }
    ensures unchanged { IsTrue (is_read_only call.old.store) → Turns B.stands_for view.old view.new (λ maps. maps) }
    ensures layers { stacks.depth view.new ≡ stacks.depth view.old }
{
    bytes_tell_keys();
    storages_change_alone();
    fetches_join();
    let answer = match query(alloc, view, modules, &request, meter, costs, depth + 1) {
        Ok(answer) => answer,
        Err(stop) => return Err(stop),
    };
    let bytes = write_answer(alloc, &answer)?;
    call.running.answer(alloc, &bytes)?;
    Ok(
        call.running
            .advance(alloc, &mut call.store, view, &call.prefix, meter, costs)?,
    )
}

/// Begins a query: it is paid, and then looked at. Its answer is known, or what comes of a call.
fn begin_query<B: Base, M: Modules>(
    alloc: Global,
    view: &B,
    modules: &mut M,
    request: &[u8],
    meter: &mut Meter,
    costs: &Schedule,
    depth: u32,
) -> Result<Begun, QueryStop>
    requires depth { depth ≤ 10 }
    requires lawful { HasLawful (B.stands_for view.now) }
    ensures begun { OfEachLawful (B.stands_for view.now) (λ s.
        Begins s costs.now meter.new.left (M.tally modules.old) (M.tally modules.new)
        (λ ask. paid_answer (contracts_at costs.now (10 - depth) ask) costs.now s request.now meter.old.left) result) }
    ensures ready { IfOk result IsReadyBegun }
    ensures deep { IfOk result (λ begun. IfCall begun (depth < 10)) }
    ensures gas { meter.new.left + meter.new.used ≡ meter.old.left + meter.old.used }
    ensures spends { meter.new.left ≤ meter.old.left }
{
    match charge(meter, u128::from(costs.query)) {
        Ok(()) => look_at(alloc, view, modules, request, meter, costs, depth),
        Err(stop) => Err(stop),
    }
}

/// Begins a query that is paid for.
fn look_at<B: Base, M: Modules>(
    alloc: Global,
    view: &B,
    modules: &mut M,
    request: &[u8],
    meter: &mut Meter,
    costs: &Schedule,
    depth: u32,
) -> Result<Begun, QueryStop>
    requires depth { depth ≤ 10 }
    requires lawful { HasLawful (B.stands_for view.now) }
    ensures begun { OfEachLawful (B.stands_for view.now) (λ s.
        Begins s costs.now meter.new.left (M.tally modules.old) (M.tally modules.new)
        (λ ask. asked_answer (contracts_at costs.now (10 - depth) ask) costs.now s request.now (asked request.now) meter.old.left) result) }
    ensures ready { IfOk result IsReadyBegun }
    ensures deep { IfOk result (λ begun. IfCall begun (depth < 10)) }
    ensures gas { meter.new.left + meter.new.used ≡ meter.old.left + meter.old.used }
    ensures spends { meter.new.left ≤ meter.old.left }
{
    match read_request(alloc, request)? {
        Asked::NoJson => Ok(Begun::Known(invalid(alloc, "json", request)?)),
        Asked::NoShape => Ok(Begun::Known(invalid(alloc, "shape", request)?)),
        Asked::Asks(what) => answer_to(alloc, view, modules, request, what, meter, costs, depth),
    }
}

/// Begins the query of a contract. The depth is looked at before the address.
fn begin_smart<B: Base, M: Modules>(
    alloc: Global,
    view: &B,
    modules: &mut M,
    request: &[u8],
    contract: &str,
    msg: &[u8],
    depth: u32,
) -> Result<Begun, QueryStop>
    requires depth { depth ≤ 10 }
    requires lawful { HasLawful (B.stands_for view.now) }
    ensures begun { OfEachLawful (B.stands_for view.now) (λ s. (costs : Schedule) (left : ℕ) →
        Begins s costs left (M.tally modules.old) (M.tally modules.new)
        (λ ask. contracts_at costs (10 - depth) ask s request.now contract.now msg.now left) result) }
    ensures ready { IfOk result IsReadyBegun }
    ensures deep { IfOk result (λ begun. IfCall begun (depth < 10)) }
{
    if depth < DEEPEST {
        ask_contract(alloc, view, modules, request, contract, msg)
    } else {
        Ok(Begun::Known(Answer::ContractError(String::from_str(alloc, "QueryDepth")?)))
    }
}

/// What is known of an answer needs no call.
fn known(answer: Result<Answer, QueryStop>) -> Result<Begun, QueryStop>
    ensures begun { (s : State) (costs : Schedule) (left : ℕ) (tally : Option Tally) (part : Asking → Queried) →
        ((ask : Asking) → Tells answer left (part ask)) →
        Begins s costs left tally tally part result }
    ensures ready { IfOk result IsReadyBegun }
    ensures deep { (n : ℕ) → IfOk result (λ begun. IfCall begun (n < 10)) }
{
    match answer {
        Ok(answer) => Ok(Begun::Known(answer)),
        Err(stop) => Err(stop),
    }
}

/// Begins the query of what a request asks.
fn answer_to<B: Base, M: Modules>(
    alloc: Global,
    view: &B,
    modules: &mut M,
    request: &[u8],
    what: Request,
    meter: &mut Meter,
    costs: &Schedule,
    depth: u32,
) -> Result<Begun, QueryStop>
    requires depth { depth ≤ 10 }
    requires lawful { HasLawful (B.stands_for view.now) }
    ensures begun { OfEachLawful (B.stands_for view.now) (λ s.
        Begins s costs.now meter.new.left (M.tally modules.old) (M.tally modules.new)
        (λ ask. answer_to (contracts_at costs.now (10 - depth) ask) costs.now s request.now (request_view what) meter.old.left) result) }
    ensures ready { IfOk result IsReadyBegun }
    ensures deep { IfOk result (λ begun. IfCall begun (depth < 10)) }
    ensures gas { meter.new.left + meter.new.used ≡ meter.old.left + meter.old.used }
    ensures spends { meter.new.left ≤ meter.old.left }
{
    match what {
        Request::Smart { contract, msg } => {
            begin_smart(alloc, view, modules, request, &contract, &msg, depth)
        }
        Request::Raw { contract, key } => {
            known(raw_answer(alloc, view, request, &contract, key, meter, costs))
        }
        Request::ContractInfo(contract) => Ok(Begun::Known(contract_info_answer(
            alloc, view, request, &contract,
        )?)),
        Request::CodeInfo(id) => Ok(Begun::Known(code_info_answer(alloc, view, id)?)),
        Request::Balance { address, denom } => Ok(Begun::Known(balance_answer(
            alloc, view, request, &address, &denom,
        )?)),
        Request::AllBalances(address) => {
            known(all_balances_answer(alloc, view, request, &address, meter))
        }
        Request::Supply(denom) => Ok(Begun::Known(supply_answer(alloc, view, &denom)?)),
        Request::Unknown(kind) => Ok(Begun::Known(unsupported(alloc, &kind)?)),
    }
}
