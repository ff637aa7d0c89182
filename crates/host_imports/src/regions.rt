//! Regions of a contract's memory that the host reads and writes.

ghost use Rattle.std.specs.Prelude.{◌≡◌, ◌^◌, ◌<◌, ◌≤◌, ◌↔◌, ℕ, length, IfOk};
ghost use Rattle.kv_layers.specs.Plain.{bytes_view};
ghost use Rattle.wasm_machine.specs.Machine.{module_of, phase_of};
ghost use Rattle.wasm_machine.specs.Phases.{TakesMemory};
ghost use Rattle.host_imports.specs.Allocation.{region, writes};
ghost use Rattle.host_imports.specs.Parts.{Moves, unit_view};

use crate::stop::{Stop, region_fault};
use linear_memory::RegionFault;
use std::alloc::Global;
use wasm_machine::Machine;

/// The bytes of the Region at a pointer, of which there may be so many.
pub(crate) fn read_region(
    alloc: Global,
    machine: &Machine,
    pointer: u32,
    limit: u32,
) -> Result<Vec<u8>, Stop>
    ensures moves { (left : ℕ) → Moves machine.now machine.now left left (region limit pointer) bytes_view result }
    ensures short { IfOk result (λ bytes. length bytes.items ≤ limit) }
{
    match machine.memory().read_region(alloc, pointer, limit) {
        Ok(bytes) => Ok(bytes),
        Err(RegionFault::Bad(bad)) => Err(Stop::Fault(region_fault(bad))),
        Err(RegionFault::NoMemory) => Err(Stop::NoMemory),
    }
}

/// Writes bytes to the Region at a pointer.
pub(crate) fn write_region(machine: &mut Machine, pointer: u32, bytes: &[u8]) -> Result<(), Stop>
    requires phase { TakesMemory (phase_of machine.old) }
    requires short { length bytes.now < 2 ^ 32 }
    ensures moves { (left : ℕ) → Moves machine.old machine.new left left (writes bytes.now pointer) unit_view result }
    ensures phase { phase_of machine.new ≡ phase_of machine.old }
    ensures module { module_of machine.new ≡ module_of machine.old }
{
    match machine.memory_mut().write_region(pointer, bytes) {
        Ok(()) => Ok(()),
        Err(bad) => Err(Stop::Fault(region_fault(bad))),
    }
}
