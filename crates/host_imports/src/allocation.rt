//! Regions that a contract gives and takes back by its own functions `allocate` and `deallocate`.

ghost use Rattle.std.specs.Prelude.{◌≡◌, ◌+◌, ◌≤◌, ◌<◌, ◌^◌, ◌∷◌, ℕ, [], length, IfOk, OnOk, Some, codes};
ghost use Rattle.gas_meter.specs.Ranges.{IsInRange};
ghost use Rattle.wasm_types.specs.declared.value.Value.TheVariants.{I32};
ghost use Rattle.wasm_machine.specs.declared.turn.Phase.{Phase};
ghost use Rattle.wasm_machine.specs.Acts.{standing_of};
ghost use Rattle.wasm_machine.specs.Machine.{module_of, plain_of, phase_of};
ghost use Rattle.wasm_machine.specs.Phases.{TakesCall, over, after_turn};
ghost use Rattle.host_imports.specs.Allocation.{abort_text, fault_at, comes_to, runs, calls, pointer_of, nothing_of, gives, releases};
ghost use Rattle.host_imports.specs.Faults.{fault_view};
ghost use Rattle.host_imports.specs.Parts.{Moves, same_view, unit_view};
ghost use Rattle.host_imports.specs.Reaching.{IsAt, Comes};
ghost use Rattle.host_imports.specs.Requests.{asked};
ghost use Rattle.host_imports.specs.Results.{given_view, IfGiven};
ghost use Rattle.host_imports.specs.Work.{Place};

use crate::abort::abort_fault;
use crate::exports::exported_function;
use crate::fault::CallFault;
use crate::given::Given;
use crate::regions::write_region;
use crate::request::{Request, asked};
use crate::stop::Stop;
use gas_meter::{Meter, Schedule};
use linear_memory::RegionBad;
use std::alloc::{AllocError, Global};
use wasm_machine::{Machine, TrapKind, Turn};
use wasm_types::Value;

/// The fault of a value or an export of another type than its own, which no gated code has.
const MISPLACED: CallFault = CallFault::Trap(TrapKind::Unreachable);

/// The pointer to the text of `abort`, where that was asked.
fn abort_text(request: Request) -> Option<u32>
    ensures { result ≡ abort_text request }
{
    match request {
        Request::Abort { text } => Some(text),
        Request::DbRead { .. }
        | Request::DbWrite { .. }
        | Request::DbRemove { .. }
        | Request::DbScan { .. }
        | Request::DbNext { .. }
        | Request::AddrValidate { .. }
        | Request::AddrCanonicalize { .. }
        | Request::AddrHumanize { .. }
        | Request::Debug { .. }
        | Request::QueryChain { .. }
        | Request::Signature => None,
    }
}

/// The fault where `allocate` or `deallocate` calls an import that asks this.
fn fault_in_allocate(alloc: Global, machine: &Machine, request: Request) -> Result<CallFault, Stop>
    ensures { (left : ℕ) → Moves machine.now machine.now left left (fault_at (Some request)) fault_view result }
{
    match abort_text(request) {
        Some(text) => abort_fault(alloc, machine, text),
        None => Ok(CallFault::ImportInAllocate),
    }
}

/// The fault where `allocate` or `deallocate` calls an import.
fn fault_at(alloc: Global, machine: &Machine, request: Option<Request>) -> Result<CallFault, Stop>
    ensures { (left : ℕ) → Moves machine.now machine.now left left (fault_at request) fault_view result }
{
    match request {
        Some(request) => fault_in_allocate(alloc, machine, request),
        None => Ok(CallFault::Trap(TrapKind::Unreachable)),
    }
}

/// What comes of what a function came to.
fn settle(alloc: Global, turn: Turn, machine: &Machine) -> Result<Option<Value>, Stop>
    ensures moves { (left : ℕ) → Moves machine.now machine.now left left (comes_to (standing_of turn)) same_view result }
    ensures over { OnOk result ((phase : Phase) → after_turn (standing_of turn) phase ≡ over phase) }
{
    match turn {
        Turn::Done(value) => Ok(value),
        Turn::Trap(kind) => Err(Stop::Fault(CallFault::Trap(kind))),
        Turn::OutOfGas => Err(Stop::OutOfGas),
        Turn::Ask { import, args } => {
            match fault_at(alloc, machine, asked(machine.module(), import, &args)) {
                Ok(fault) => Err(Stop::Fault(fault)),
                Err(stop) => Err(stop),
            }
        }
    }
}

/// Runs a function of the contract with all gas that is left.
fn run_function(
    alloc: Global,
    machine: &mut Machine,
    func: u32,
    args: &[Value],
    meter: &mut Meter,
    costs: &Schedule,
) -> Result<Option<Value>, Stop>
    requires phase { TakesCall (phase_of machine.old) }
    requires costs { IsInRange costs.now }
    ensures moves { Moves machine.old machine.new meter.old.left meter.new.left
        (runs costs.now func args.now) same_view result }
    ensures phase { OnOk result (phase_of machine.new ≡ phase_of machine.old) }
    ensures module { module_of machine.new ≡ module_of machine.old }
    ensures spends { meter.new.left ≤ meter.old.left }
    ensures used { meter.new.left + meter.new.used ≡ meter.old.left + meter.old.used }
{
    match machine.call(func, args) {
        Ok(()) => {}
        Err(_) => return Err(Stop::NoMemory),
    }
    match machine.run(alloc, meter, costs) {
        Ok(turn) => settle(alloc, turn, &*machine),
        Err(_) => Err(Stop::NoMemory),
    }
}

/// Runs the function that the contract exports under this name.
fn call_own(
    alloc: Global,
    machine: &mut Machine,
    name: &str,
    args: &[Value],
    meter: &mut Meter,
    costs: &Schedule,
) -> Result<Option<Value>, Stop>
    requires phase { TakesCall (phase_of machine.old) }
    requires costs { IsInRange costs.now }
    ensures moves { Moves machine.old machine.new meter.old.left meter.new.left
        (calls costs.now name.now args.now) same_view result }
    ensures phase { OnOk result (phase_of machine.new ≡ phase_of machine.old) }
    ensures module { module_of machine.new ≡ module_of machine.old }
    ensures spends { meter.new.left ≤ meter.old.left }
    ensures used { meter.new.left + meter.new.used ≡ meter.old.left + meter.old.used }
{
    match exported_function(machine.module(), name) {
        Some(func) => run_function(alloc, machine, func, args, meter, costs),
        None => Err(Stop::Fault(MISPLACED)),
    }
}

/// The pointer that a value is.
fn pointer_in(value: Value) -> Result<u32, Stop>
    ensures { (machine : Machine) (left : ℕ) → Moves machine machine left left (pointer_of (Some value)) same_view result }
{
    match value {
        Value::I32(pointer) => Ok(pointer),
        Value::I64(_) => Err(Stop::Fault(MISPLACED)),
    }
}

/// The pointer that `allocate` gave.
fn pointer_of(value: Option<Value>) -> Result<u32, Stop>
    ensures { (machine : Machine) (left : ℕ) → Moves machine machine left left (pointer_of value) same_view result }
{
    match value {
        Some(value) => pointer_in(value),
        None => Err(Stop::Fault(MISPLACED)),
    }
}

/// `deallocate` gives nothing.
fn nothing_of(value: Option<Value>) -> Result<(), Stop>
    ensures { (machine : Machine) (left : ℕ) → Moves machine machine left left (nothing_of value) unit_view result }
{
    match value {
        None => Ok(()),
        Some(_) => Err(Stop::Fault(MISPLACED)),
    }
}

/// Gives so many bytes to the contract, and answers the pointer of their Region.
fn give_sized(
    alloc: Global,
    machine: &mut Machine,
    bytes: &[u8],
    meter: &mut Meter,
    costs: &Schedule,
) -> Result<u32, Stop>
    requires phase { TakesCall (phase_of machine.old) }
    requires costs { IsInRange costs.now }
    requires short { length bytes.now < 2 ^ 32 }
    ensures moves { Moves machine.old machine.new meter.old.left meter.new.left (gives costs.now bytes.now) same_view result }
    ensures phase { OnOk result (phase_of machine.new ≡ phase_of machine.old) }
    ensures module { module_of machine.new ≡ module_of machine.old }
    ensures spends { meter.new.left ≤ meter.old.left }
    ensures used { meter.new.left + meter.new.used ≡ meter.old.left + meter.old.used }
{
    let size = [Value::I32(bytes.len() as u32)];
    let value = match call_own(alloc, machine, "allocate", &size, meter, costs) {
        Ok(value) => value,
        Err(stop) => return Err(stop),
    };
    let pointer = match pointer_of(value) {
        Ok(pointer) => pointer,
        Err(stop) => return Err(stop),
    };
    match write_region(machine, pointer, bytes) {
        Ok(()) => Ok(pointer),
        Err(stop) => Err(stop),
    }
}

/// Gives bytes to the contract, and answers the pointer of their Region.
pub(crate) fn give_bytes(
    alloc: Global,
    machine: &mut Machine,
    bytes: &[u8],
    meter: &mut Meter,
    costs: &Schedule,
) -> Result<u32, Stop>
    requires phase { TakesCall (phase_of machine.old) }
    requires costs { IsInRange costs.now }
    ensures moves { Moves machine.old machine.new meter.old.left meter.new.left (gives costs.now bytes.now) same_view result }
    ensures phase { OnOk result (phase_of machine.new ≡ phase_of machine.old) }
    ensures module { module_of machine.new ≡ module_of machine.old }
    ensures spends { meter.new.left ≤ meter.old.left }
    ensures used { meter.new.left + meter.new.used ≡ meter.old.left + meter.old.used }
{
    if bytes.len() > u32::MAX as usize {
        return Err(Stop::Fault(CallFault::RegionBad(RegionBad::Range)));
    }
    give_sized(alloc, machine, bytes, meter, costs)
}

/// Has the contract take a Region back.
fn take_back(
    alloc: Global,
    machine: &mut Machine,
    pointer: u32,
    meter: &mut Meter,
    costs: &Schedule,
) -> Result<u32, Stop>
    requires phase { TakesCall (phase_of machine.old) }
    requires costs { IsInRange costs.now }
    ensures moves { Moves machine.old machine.new meter.old.left meter.new.left (releases costs.now pointer) same_view result }
    ensures phase { OnOk result (phase_of machine.new ≡ phase_of machine.old) }
    ensures module { module_of machine.new ≡ module_of machine.old }
    ensures spends { meter.new.left ≤ meter.old.left }
    ensures used { meter.new.left + meter.new.used ≡ meter.old.left + meter.old.used }
{
    let args = [Value::I32(pointer)];
    let value = match call_own(alloc, machine, "deallocate", &args, meter, costs) {
        Ok(value) => value,
        Err(stop) => return Err(stop),
    };
    match nothing_of(value) {
        Ok(()) => Ok(pointer),
        Err(stop) => Err(stop),
    }
}

/// Gives bytes to a contract: its `allocate` is called with their number, and they are written to the Region
/// that it answers, whose pointer comes of it.
pub fn give(
    alloc: Global,
    machine: &mut Machine,
    bytes: &[u8],
    meter: &mut Meter,
    costs: &Schedule,
) -> Result<Given, AllocError>
    requires phase { TakesCall (phase_of machine.old) }
    requires costs { IsInRange costs.now }
    ensures given { IfOk result (λ given. (p : Place) → IsAt machine.old meter.old.left p
        → Comes machine.new meter.new.left p (gives costs.now bytes.now p) (given_view given)) }
    ensures phase { IfOk result (λ given. IfGiven given (phase_of machine.new ≡ phase_of machine.old)) }
    ensures module { module_of machine.new ≡ module_of machine.old }
    ensures spends { meter.new.left ≤ meter.old.left }
    ensures used { meter.new.left + meter.new.used ≡ meter.old.left + meter.old.used }
{
    match give_bytes(alloc, machine, bytes, meter, costs) {
        Ok(pointer) => Ok(Given::At(pointer)),
        Err(Stop::Fault(fault)) => Ok(Given::Fault(fault)),
        Err(Stop::OutOfGas) => Ok(Given::OutOfGas),
        Err(Stop::NoMemory) => Err(AllocError),
    }
}

/// Has a contract take a Region back: its `deallocate` is called with the pointer, which is the answer.
pub fn release(
    alloc: Global,
    machine: &mut Machine,
    pointer: u32,
    meter: &mut Meter,
    costs: &Schedule,
) -> Result<Given, AllocError>
    requires phase { TakesCall (phase_of machine.old) }
    requires costs { IsInRange costs.now }
    ensures given { IfOk result (λ given. (p : Place) → IsAt machine.old meter.old.left p
        → Comes machine.new meter.new.left p (releases costs.now pointer p) (given_view given)) }
    ensures phase { IfOk result (λ given. IfGiven given (phase_of machine.new ≡ phase_of machine.old)) }
    ensures module { module_of machine.new ≡ module_of machine.old }
    ensures spends { meter.new.left ≤ meter.old.left }
    ensures used { meter.new.left + meter.new.used ≡ meter.old.left + meter.old.used }
{
    match take_back(alloc, machine, pointer, meter, costs) {
        Ok(pointer) => Ok(Given::At(pointer)),
        Err(Stop::Fault(fault)) => Ok(Given::Fault(fault)),
        Err(Stop::OutOfGas) => Ok(Given::OutOfGas),
        Err(Stop::NoMemory) => Err(AllocError),
    }
}
