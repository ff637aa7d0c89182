//! What the host does where a contract calls an import.

ghost use Rattle.std.specs.Prelude.{◌≡◌, ◌+◌, ◌≤◌, ℕ, length, IfOk, IsTrue};
ghost use Rattle.chain_addr.specs.Letters.{IsPrefix};
ghost use Rattle.gas_meter.specs.Costs.{debug_cost};
ghost use Rattle.gas_meter.specs.Ranges.{IsInRange};
ghost use Rattle.kv_layers.specs.Layers.{depth, Turns};
ghost use Rattle.kv_layers.specs.Maps.{Maps};
ghost use Rattle.gas_store.specs.Views.{addr_of, is_read_only};
ghost use Rattle.gas_store.specs.Effects.{IsSameScope};
ghost use Rattle.wasm_machine.specs.Machine.{module_of, phase_of};
ghost use Rattle.host_imports.specs.Allocation.{aborts};
ghost use Rattle.host_imports.specs.Imports.{setting, debug, query_chain, by_request, host};
ghost use Rattle.host_imports.specs.Parts.{Moves, Does, settled_view, IsSettled};
ghost use Rattle.host_imports.specs.Reaching.{IsAt, Holds, Reaches};
ghost use Rattle.host_imports.specs.Results.{handled_view, GoesOn};
ghost use Rattle.host_imports.specs.Work.{Place};

use crate::abort::{LONGEST_TEXT, abort_fault};
use crate::addresses::{addr_canonicalize, addr_humanize, addr_validate};
use crate::answering::answer;
use crate::charge::charge;
use crate::fault::CallFault;
use crate::handled::Handled;
use crate::regions::read_region;
use crate::request::{Request, asked};
use crate::scans::{db_next, db_scan};
use crate::settled::Settled;
use crate::stop::Stop;
use crate::storage::{db_read, db_remove, db_write};
use gas_meter::{Meter, Schedule};
use gas_store::Scoped;
use kv_layers::{Base, Layers};
use std::alloc::{AllocError, Global};
use wasm_machine::{Machine, Phase, TrapKind};
use wasm_types::Value;

/// What a text for debugging costs.
fn debug_cost(costs: &Schedule, text: &[u8]) -> u64
    requires { IsInRange costs.now }
    ensures { result ≡ debug_cost costs.now (length text.now) }
{
    costs.debug + text.len() as u64
}

fn debug(
    alloc: Global,
    text: u32,
    machine: &mut Machine,
    meter: &mut Meter,
    costs: &Schedule,
) -> Result<Settled, Stop>
    requires phase { phase_of machine.old ≡ Phase.Asked }
    requires costs { IsInRange costs.now }
    ensures moves { Moves machine.old machine.new meter.old.left meter.new.left (debug costs.now text) settled_view result }
    ensures settled { IfOk result (λ settled. IsSettled settled machine.new) }
    ensures module { module_of machine.new ≡ module_of machine.old }
    ensures spends { meter.new.left ≤ meter.old.left }
    ensures used { meter.new.left + meter.new.used ≡ meter.old.left + meter.old.used }
{
    let text = match read_region(alloc, &*machine, text, LONGEST_TEXT) {
        Ok(text) => text,
        Err(stop) => return Err(stop),
    };
    match charge(meter, debug_cost(costs, &text)) {
        Ok(()) => answer(machine, None),
        Err(stop) => Err(stop),
    }
}

fn query_chain(alloc: Global, request: u32, machine: &Machine) -> Result<Settled, Stop>
    requires { phase_of machine.now ≡ Phase.Asked }
    ensures moves { (left : ℕ) → Moves machine.now machine.now left left (query_chain request) settled_view result }
    ensures settled { IfOk result (λ settled. IsSettled settled machine.now) }
{
    match read_region(alloc, machine, request, LONGEST_TEXT) {
        Ok(bytes) => Ok(Settled::WantsQuery(bytes)),
        Err(stop) => Err(stop),
    }
}

fn abort(alloc: Global, text: u32, machine: &Machine) -> Result<Settled, Stop>
    ensures moves { (left : ℕ) → Moves machine.now machine.now left left (aborts text) settled_view result }
    ensures settled { IfOk result (λ settled. IsSettled settled machine.now) }
{
    match abort_fault(alloc, machine, text) {
        Ok(fault) => Err(Stop::Fault(fault)),
        Err(stop) => Err(stop),
    }
}

/// Does what an import asks.
fn by_request<B: Base>(
    alloc: Global,
    request: Request,
    machine: &mut Machine,
    store: &mut Scoped,
    layers: &mut Layers<B>,
    prefix: &str,
    meter: &mut Meter,
    costs: &Schedule,
) -> Result<Settled, Stop>
    requires phase { phase_of machine.old ≡ Phase.Asked }
    requires costs { IsInRange costs.now }
    requires prefix { IsPrefix prefix.now }
    ensures does { Does B.stands_for layers.old layers.new store.old store.new machine.old machine.new
        meter.old.left meter.new.left
        (by_request (setting costs.now (is_read_only store.old) prefix.now) request) settled_view result }
    ensures settled { IfOk result (λ settled. IsSettled settled machine.new) }
    ensures unchanged { IsTrue (is_read_only store.old) → Turns B.stands_for layers.old layers.new (λ maps. maps) }
    ensures scope { IsSameScope store.old store.new }
    ensures layers { depth layers.new ≡ depth layers.old }
    ensures module { module_of machine.new ≡ module_of machine.old }
    ensures spends { meter.new.left ≤ meter.old.left }
    ensures used { meter.new.left + meter.new.used ≡ meter.old.left + meter.old.used }
{
    match request {
        Request::DbRead { key } => db_read(alloc, key, machine, store, layers, meter, costs),
        Request::DbWrite { key, value } => {
            db_write(alloc, key, value, machine, store, layers, meter, costs)
        }
        Request::DbRemove { key } => db_remove(alloc, key, machine, store, layers, meter, costs),
        Request::DbScan { lo, hi, order } => {
            db_scan(alloc, lo, hi, order, machine, store, meter, costs)
        }
        Request::DbNext { scan } => db_next(alloc, scan, machine, store, layers, meter, costs),
        Request::AddrValidate { text } => addr_validate(alloc, text, machine, prefix, meter, costs),
        Request::AddrCanonicalize { text, target } => {
            addr_canonicalize(alloc, text, target, machine, prefix, meter, costs)
        }
        Request::AddrHumanize { bytes, target } => {
            addr_humanize(alloc, bytes, target, machine, prefix, meter, costs)
        }
        Request::Debug { text } => debug(alloc, text, machine, meter, costs),
        Request::QueryChain { request } => query_chain(alloc, request, &*machine),
        Request::Abort { text } => abort(alloc, text, &*machine),
        Request::Signature => Err(Stop::Fault(CallFault::SignatureOutOfScope)),
    }
}

/// Does what a contract asks that called the import with this number. After `Answered` the machine goes on
/// with its next run; after `WantsQuery` it waits for the answer, and after the others it has no use.
pub fn handle<B: Base>(
    alloc: Global,
    import: u32,
    args: &[Value],
    machine: &mut Machine,
    store: &mut Scoped,
    layers: &mut Layers<B>,
    prefix: &str,
    meter: &mut Meter,
    costs: &Schedule,
) -> Result<Handled, AllocError>
    requires phase { phase_of machine.old ≡ Phase.Asked }
    requires costs { IsInRange costs.now }
    requires prefix { IsPrefix prefix.now }
    ensures handled { IfOk result (λ handled. (maps : Maps) (p : Place) →
        IsAt machine.old meter.old.left p → Holds B.stands_for layers.old maps store.old p →
        Reaches B.stands_for layers.new maps (addr_of store.old) store.new machine.new meter.new.left
        (host (setting costs.now (is_read_only store.old) prefix.now) import args.now p) (handled_view handled)) }
    ensures goes_on { IfOk result (λ handled. GoesOn handled machine.new) }
    ensures unchanged { IsTrue (is_read_only store.old) → Turns B.stands_for layers.old layers.new (λ maps. maps) }
    ensures scope { IsSameScope store.old store.new }
    ensures layers { depth layers.new ≡ depth layers.old }
    ensures module { module_of machine.new ≡ module_of machine.old }
    ensures spends { meter.new.left ≤ meter.old.left }
    ensures used { meter.new.left + meter.new.used ≡ meter.old.left + meter.old.used }
{
    let request = match asked(machine.module(), import, args) {
        Some(request) => request,
        None => return Ok(Handled::Fault(CallFault::Trap(TrapKind::Unreachable))),
    };
    match by_request(alloc, request, machine, store, layers, prefix, meter, costs) {
        Ok(Settled::Answered) => Ok(Handled::Answered),
        Ok(Settled::WantsQuery(request)) => Ok(Handled::WantsQuery(request)),
        Err(Stop::Fault(fault)) => Ok(Handled::Fault(fault)),
        Err(Stop::OutOfGas) => Ok(Handled::OutOfGas),
        Err(Stop::NoMemory) => Err(AllocError),
    }
}
