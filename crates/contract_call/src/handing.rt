//! Regions that are given to a contract and taken back, and the result that it hands over in one.

ghost use Rattle.std.specs.Prelude.{◌≡◌, ◌+◌, ◌≤◌, ℕ, OnOk};
ghost use Rattle.gas_meter.specs.Ranges.{IsInRange};
ghost use Rattle.kv_layers.specs.Plain.{bytes_view};
ghost use Rattle.wasm_machine.specs.Machine.{module_of, phase_of};
ghost use Rattle.wasm_machine.specs.Phases.{TakesCall};
ghost use Rattle.host_imports.specs.Faults.{fault_view, region_fault};
ghost use Rattle.host_imports.specs.Allocation.{pointer_of, region, gives, releases};
ghost use Rattle.contract_call.specs.Calls.{results_in, longest_result};
ghost use Rattle.contract_call.specs.Parts.{Moves, same_view};

use crate::stop::Stop;
use gas_meter::{Meter, Schedule};
use host_imports::{CallFault, Given, give, release};
use linear_memory::{RegionBad, RegionFault};
use std::alloc::Global;
use wasm_machine::{Machine, TrapKind};
use wasm_types::Value;

/// The most bytes of a result.
const LONGEST_RESULT: u32 = 1_048_576;

/// Gives bytes to the contract, and answers the pointer of their Region.
pub(crate) fn give_bytes(
    alloc: Global,
    machine: &mut Machine,
    bytes: &[u8],
    meter: &mut Meter,
    costs: &Schedule,
) -> Result<u32, Stop>
    requires phase { TakesCall (phase_of machine.old) }
    requires costs { IsInRange costs.now }
    ensures moves { Moves machine.old machine.new meter.old.left meter.new.left
        (gives costs.now bytes.now) same_view result }
    ensures phase { OnOk result (phase_of machine.new ≡ phase_of machine.old) }
    ensures module { module_of machine.new ≡ module_of machine.old }
    ensures spends { meter.new.left ≤ meter.old.left }
    ensures used { meter.new.left + meter.new.used ≡ meter.old.left + meter.old.used }
{
    match give(alloc, machine, bytes, meter, costs) {
        Ok(Given::At(pointer)) => Ok(pointer),
        Ok(Given::Fault(fault)) => Err(Stop::Fault(fault)),
        Ok(Given::OutOfGas) => Err(Stop::OutOfGas),
        Err(_) => Err(Stop::NoMemory),
    }
}

/// Has the contract take a Region back.
fn take_back(
    alloc: Global,
    machine: &mut Machine,
    pointer: u32,
    meter: &mut Meter,
    costs: &Schedule,
) -> Result<u32, Stop>
    requires phase { TakesCall (phase_of machine.old) }
    requires costs { IsInRange costs.now }
    ensures moves { Moves machine.old machine.new meter.old.left meter.new.left
        (releases costs.now pointer) same_view result }
    ensures module { module_of machine.new ≡ module_of machine.old }
    ensures spends { meter.new.left ≤ meter.old.left }
    ensures used { meter.new.left + meter.new.used ≡ meter.old.left + meter.old.used }
{
    match release(alloc, machine, pointer, meter, costs) {
        Ok(Given::At(pointer)) => Ok(pointer),
        Ok(Given::Fault(fault)) => Err(Stop::Fault(fault)),
        Ok(Given::OutOfGas) => Err(Stop::OutOfGas),
        Err(_) => Err(Stop::NoMemory),
    }
}

/// The pointer that an entry point gave.
fn pointer_of(value: Option<Value>) -> Result<u32, Stop>
    ensures { (machine : Machine) (left : ℕ) → Moves machine machine left left (pointer_of value) same_view result }
{
    match value {
        Some(value) => pointer_in(value),
        None => Err(Stop::Fault(CallFault::Trap(TrapKind::Unreachable))),
    }
}

/// The pointer that a value is.
fn pointer_in(value: Value) -> Result<u32, Stop>
    ensures { (machine : Machine) (left : ℕ) → Moves machine machine left left (pointer_of (Some value)) same_view result }
{
    match value {
        Value::I32(pointer) => Ok(pointer),
        Value::I64(_) => Err(Stop::Fault(CallFault::Trap(TrapKind::Unreachable))),
    }
}

/// The fault of a Region that can't be read.
fn region_fault(bad: RegionBad) -> CallFault
    ensures { fault_view result ≡ region_fault bad }
{
    match bad {
        RegionBad::TooLong { length, limit } => CallFault::TooLong { length, limit },
        RegionBad::Pointer
        | RegionBad::Offset
        | RegionBad::Length
        | RegionBad::Range
        | RegionBad::End => CallFault::RegionBad(bad),
    }
}

/// The bytes of the Region of a result.
fn read_result(alloc: Global, machine: &Machine, pointer: u32) -> Result<Vec<u8>, Stop>
    ensures { (left : ℕ) → Moves machine.now machine.now left left (region longest_result pointer)
        bytes_view result }
{
    match machine.memory().read_region(alloc, pointer, LONGEST_RESULT) {
        Ok(bytes) => Ok(bytes),
        Err(RegionFault::Bad(bad)) => Err(Stop::Fault(region_fault(bad))),
        Err(RegionFault::NoMemory) => Err(Stop::NoMemory),
    }
}

/// Reads the result of a call, and has the contract take its Region back.
pub(crate) fn result_in(
    alloc: Global,
    machine: &mut Machine,
    value: Option<Value>,
    meter: &mut Meter,
    costs: &Schedule,
) -> Result<Vec<u8>, Stop>
    requires phase { TakesCall (phase_of machine.old) }
    requires costs { IsInRange costs.now }
    ensures moves { Moves machine.old machine.new meter.old.left meter.new.left
        (results_in costs.now value) bytes_view result }
    ensures module { module_of machine.new ≡ module_of machine.old }
    ensures spends { meter.new.left ≤ meter.old.left }
    ensures used { meter.new.left + meter.new.used ≡ meter.old.left + meter.old.used }
{
    let pointer = match pointer_of(value) {
        Ok(pointer) => pointer,
        Err(stop) => return Err(stop),
    };
    let bytes = match read_result(alloc, &*machine, pointer) {
        Ok(bytes) => bytes,
        Err(stop) => return Err(stop),
    };
    match take_back(alloc, machine, pointer, meter, costs) {
        Ok(_) => Ok(bytes),
        Err(stop) => Err(stop),
    }
}
