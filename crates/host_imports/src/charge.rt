//! Charges for what the host does.

ghost use Rattle.std.specs.Prelude.{◌≡◌, ◌+◌, ◌≤◌};
ghost use Rattle.wasm_machine.specs.declared.machine.Machine.{Machine};
ghost use Rattle.host_imports.specs.Work.{charge};
ghost use Rattle.host_imports.specs.Parts.{Moves, unit_view};

use crate::stop::Stop;
use gas_meter::Meter;

/// Charges a cost. Where too little gas is left, all of it is used.
pub(crate) fn charge(meter: &mut Meter, cost: u64) -> Result<(), Stop>
    ensures moves { (machine : Machine) → Moves machine machine meter.old.left meter.new.left (charge cost) unit_view result }
    ensures spends { meter.new.left ≤ meter.old.left }
    ensures used { meter.new.left + meter.new.used ≡ meter.old.left + meter.old.used }
{
    match meter.charge(cost) {
        Ok(()) => Ok(()),
        Err(_) => Err(Stop::OutOfGas),
    }
}
