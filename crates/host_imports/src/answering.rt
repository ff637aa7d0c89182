//! Answers to imports.

ghost use Rattle.std.specs.Prelude.{◌≡◌, ◌+◌, ◌≤◌, ℕ, OnOk, IfOk};
ghost use Rattle.gas_meter.specs.Ranges.{IsInRange};
ghost use Rattle.kv_layers.specs.Plain.{value_view};
ghost use Rattle.wasm_machine.specs.Machine.{module_of, phase_of};
ghost use Rattle.host_imports.specs.Imports.{answers, answers_with, answers_found};
ghost use Rattle.host_imports.specs.Parts.{Moves, settled_view, IsSettled};

use crate::allocation::give_bytes;
use crate::settled::Settled;
use crate::stop::Stop;
use gas_meter::{Meter, Schedule};
use std::alloc::Global;
use wasm_machine::{Machine, Phase};
use wasm_types::Value;

/// Answers an import with this value, or with none.
pub(crate) fn answer(machine: &mut Machine, value: Option<Value>) -> Result<Settled, Stop>
    requires { phase_of machine.old ≡ Phase.Asked }
    ensures moves { (left : ℕ) → Moves machine.old machine.new left left (answers value) settled_view result }
    ensures settled { IfOk result (λ settled. IsSettled settled machine.new) }
    ensures module { module_of machine.new ≡ module_of machine.old }
{
    machine.resume(value);
    Ok(Settled::Answered)
}

/// Answers an import with the pointer to a new Region of these bytes.
pub(crate) fn answer_with(
    alloc: Global,
    machine: &mut Machine,
    bytes: &[u8],
    meter: &mut Meter,
    costs: &Schedule,
) -> Result<Settled, Stop>
    requires phase { phase_of machine.old ≡ Phase.Asked }
    requires costs { IsInRange costs.now }
    ensures moves { Moves machine.old machine.new meter.old.left meter.new.left
        (answers_with costs.now bytes.now) settled_view result }
    ensures settled { IfOk result (λ settled. IsSettled settled machine.new) }
    ensures module { module_of machine.new ≡ module_of machine.old }
    ensures spends { meter.new.left ≤ meter.old.left }
    ensures used { meter.new.left + meter.new.used ≡ meter.old.left + meter.old.used }
{
    match give_bytes(alloc, machine, bytes, meter, costs) {
        Ok(pointer) => answer(machine, Some(Value::I32(pointer))),
        Err(stop) => Err(stop),
    }
}

/// Answers an import with the pointer to a new Region of these bytes, or with 0 where there are none.
pub(crate) fn answer_found(
    alloc: Global,
    machine: &mut Machine,
    found: Option<Vec<u8>>,
    meter: &mut Meter,
    costs: &Schedule,
) -> Result<Settled, Stop>
    requires phase { phase_of machine.old ≡ Phase.Asked }
    requires costs { IsInRange costs.now }
    ensures moves { Moves machine.old machine.new meter.old.left meter.new.left
        (answers_found costs.now (value_view found)) settled_view result }
    ensures settled { IfOk result (λ settled. IsSettled settled machine.new) }
    ensures module { module_of machine.new ≡ module_of machine.old }
    ensures spends { meter.new.left ≤ meter.old.left }
    ensures used { meter.new.left + meter.new.used ≡ meter.old.left + meter.old.used }
{
    match found {
        Some(bytes) => answer_with(alloc, machine, &bytes, meter, costs),
        None => answer(machine, Some(Value::I32(0))),
    }
}
