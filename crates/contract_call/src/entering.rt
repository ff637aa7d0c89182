//! How a contract is entered: the charge, its entry point, and its arguments.

ghost use Rattle.std.specs.Prelude.{◌≡◌, ◌+◌, ◌≤◌, ℕ, [], map, OnOk};
ghost use Rattle.gas_meter.specs.Costs.{entry_cost};
ghost use Rattle.gas_meter.specs.Ranges.{IsInRange};
ghost use Rattle.kv_layers.specs.Plain.{bytes_view};
ghost use Rattle.wasm_machine.specs.declared.machine.Machine.{Machine};
ghost use Rattle.wasm_machine.specs.Machine.{module_of, plain_of, phase_of, HasUnbegunCall};
ghost use Rattle.wasm_machine.specs.Phases.{TakesCall, called};
ghost use Rattle.host_imports.specs.Work.{charge};
ghost use Rattle.host_imports.specs.Imports.{answers_with};
ghost use Rattle.contract_call.specs.Calls.{call_of, entry_name, entry_point, gives_all, calls_with, begins};
ghost use Rattle.contract_call.specs.Parts.{Moves, same_view, unit_view, values_view, answered_view};

use crate::entry::{Entry, entry_name};
use crate::handing::give_bytes;
use crate::stop::Stop;
use gas_meter::{Meter, Schedule};
use host_imports::{CallFault, exported_function};
use std::alloc::Global;
use wasm_machine::{Machine, Phase};
use wasm_types::Value;

/// What entering a contract costs.
fn entry_cost(costs: &Schedule, pinned: bool) -> u64
    ensures { result ≡ entry_cost costs.now pinned }
{
    if pinned {
        costs.entry_pinned
    } else {
        costs.entry
    }
}

/// Charges for the call of a contract, whose code is pinned or not.
fn charge_entry(meter: &mut Meter, costs: &Schedule, pinned: bool) -> Result<(), Stop>
    ensures moves { (machine : Machine) → Moves machine machine meter.old.left meter.new.left
        (charge (entry_cost costs.now pinned)) unit_view result }
    ensures spends { meter.new.left ≤ meter.old.left }
    ensures used { meter.new.left + meter.new.used ≡ meter.old.left + meter.old.used }
{
    match meter.charge(entry_cost(costs, pinned)) {
        Ok(()) => Ok(()),
        Err(_) => Err(Stop::OutOfGas),
    }
}

/// The function of an entry point.
fn entry_point(alloc: Global, machine: &Machine, entry: Entry) -> Result<u32, Stop>
    ensures { (left : ℕ) → Moves machine.now machine.now left left
        (entry_point (entry_name entry)) same_view result }
{
    let name = entry_name(entry);
    match exported_function(machine.module(), name) {
        Some(func) => Ok(func),
        None => match String::from_str(alloc, name) {
            Ok(name) => Err(Stop::Fault(CallFault::NoEntry(name))),
            Err(_) => Err(Stop::NoMemory),
        },
    }
}

/// Gives all arguments to the contract, in order, and answers their pointers.
fn give_all(
    alloc: Global,
    machine: &mut Machine,
    args: &[Vec<u8>],
    meter: &mut Meter,
    costs: &Schedule,
) -> Result<Vec<Value>, Stop>
    requires phase { TakesCall (phase_of machine.old) }
    requires costs { IsInRange costs.now }
    ensures moves { Moves machine.old machine.new meter.old.left meter.new.left
        (gives_all costs.now (map bytes_view args.now) []) values_view result }
    ensures phase { OnOk result (phase_of machine.new ≡ phase_of machine.old) }
    ensures module { module_of machine.new ≡ module_of machine.old }
    ensures spends { meter.new.left ≤ meter.old.left }
    ensures used { meter.new.left + meter.new.used ≡ meter.old.left + meter.old.used }
{
    let mut values = Vec::new(alloc);
    for bytes in args {
        let pointer = match give_bytes(alloc, machine, bytes, meter, costs) {
            Ok(pointer) => pointer,
            Err(stop) => return Err(stop),
        };
        match values.push(Value::I32(pointer)) {
            Ok(()) => {}
            Err(_) => return Err(Stop::NoMemory),
        }
    }
    Ok(values)
}

/// Calls a function of the contract.
fn call_with(machine: &mut Machine, func: u32, values: &[Value]) -> Result<(), Stop>
    requires { TakesCall (phase_of machine.old) }
    ensures moves { (left : ℕ) → Moves machine.old machine.new left left
        (calls_with func values.now) unit_view result }
    ensures phase { OnOk result (phase_of machine.new ≡ called (phase_of machine.old)) }
    ensures module { module_of machine.new ≡ module_of machine.old }
{
    match machine.call(func, values) {
        Ok(()) => Ok(()),
        Err(_) => Err(Stop::NoMemory),
    }
}

/// Begins the call of an entry point: charges for it, gives the arguments to the contract, and calls it.
/// The arguments aren't kept while it runs.
pub(crate) fn enter(
    alloc: Global,
    machine: &mut Machine,
    entry: Entry,
    args: Vec<Vec<u8>>,
    pinned: bool,
    meter: &mut Meter,
    costs: &Schedule,
) -> Result<(), Stop>
    requires phase { phase_of machine.old ≡ Phase.Idle }
    requires costs { IsInRange costs.now }
    ensures moves { Moves machine.old machine.new meter.old.left meter.new.left
        (begins costs.now (call_of (plain_of machine.old) entry (map bytes_view args.items) pinned)) unit_view result }
    ensures phase { OnOk result (phase_of machine.new ≡ Phase.Ready) }
    ensures module { module_of machine.new ≡ module_of machine.old }
    ensures spends { meter.new.left ≤ meter.old.left }
    ensures used { meter.new.left + meter.new.used ≡ meter.old.left + meter.old.used }
{
    match charge_entry(meter, costs, pinned) {
        Ok(()) => {}
        Err(stop) => return Err(stop),
    }
    let func = match entry_point(alloc, &*machine, entry) {
        Ok(func) => func,
        Err(stop) => return Err(stop),
    };
    let values = match give_all(alloc, machine, &args, meter, costs) {
        Ok(values) => values,
        Err(stop) => return Err(stop),
    };
    call_with(machine, func, &values)
}

/// Gives the answer to its query to the contract, which can go on then.
pub(crate) fn hand(
    alloc: Global,
    machine: &mut Machine,
    bytes: Vec<u8>,
    meter: &mut Meter,
    costs: &Schedule,
) -> Result<(), Stop>
    requires phase { phase_of machine.old ≡ Phase.Asked }
    requires costs { IsInRange costs.now }
    ensures moves { Moves machine.old machine.new meter.old.left meter.new.left
        (answers_with costs.now bytes.items) answered_view result }
    ensures phase { OnOk result (phase_of machine.new ≡ Phase.Ready) }
    ensures begun { OnOk result (¬ HasUnbegunCall machine.new) }
    ensures module { module_of machine.new ≡ module_of machine.old }
    ensures spends { meter.new.left ≤ meter.old.left }
    ensures used { meter.new.left + meter.new.used ≡ meter.old.left + meter.old.used }
{
    match give_bytes(alloc, machine, &bytes, meter, costs) {
        Ok(pointer) => {
            machine.resume(Some(Value::I32(pointer)));
            Ok(())
        }
        Err(stop) => Err(stop),
    }
}
