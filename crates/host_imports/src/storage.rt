//! The imports on what a contract keeps.

ghost use Rattle.std.specs.Prelude.{◌≡◌, ◌+◌, ◌≤◌, ℕ, IfOk, IsTrue};
ghost use Rattle.gas_meter.specs.Ranges.{IsInRange};
ghost use Rattle.kv_layers.specs.Layers.{depth, Turns};
ghost use Rattle.gas_store.specs.Views.{is_read_only};
ghost use Rattle.gas_store.specs.Effects.{IsSameScope};
ghost use Rattle.wasm_machine.specs.declared.machine.Machine.{Machine};
ghost use Rattle.wasm_machine.specs.Machine.{module_of, phase_of};
ghost use Rattle.host_imports.specs.Imports.{may_write, db_read, db_write, db_remove};
ghost use Rattle.host_imports.specs.Parts.{Moves, Does, unit_view, settled_view, IsSettled};

use crate::answering::{answer, answer_found};
use crate::fault::CallFault;
use crate::regions::read_region;
use crate::settled::Settled;
use crate::steps::{erase, read, write};
use crate::stop::Stop;
use gas_meter::{Meter, Schedule};
use gas_store::Scoped;
use kv_layers::{Base, Layers};
use std::alloc::Global;
use wasm_machine::{Machine, Phase};

/// The most bytes of a key, and of a bound of a scan.
pub(crate) const LONGEST_KEY: u32 = 65_536;

/// The most bytes of a value.
const LONGEST_VALUE: u32 = 131_072;

/// Refuses writes and removals in a query.
fn check_write(store: &Scoped) -> Result<(), Stop>
    ensures { (machine : Machine) (left : ℕ) → Moves machine machine left left
        (may_write (is_read_only store.now)) unit_view result }
{
    if store.is_read_only() {
        return Err(Stop::Fault(CallFault::WriteInQuery));
    }
    Ok(())
}

pub(crate) fn db_read<B: Base>(
    alloc: Global,
    key: u32,
    machine: &mut Machine,
    store: &mut Scoped,
    layers: &mut Layers<B>,
    meter: &mut Meter,
    costs: &Schedule,
) -> Result<Settled, Stop>
    requires phase { phase_of machine.old ≡ Phase.Asked }
    requires costs { IsInRange costs.now }
    ensures does { Does B.stands_for layers.old layers.new store.old store.new machine.old machine.new
        meter.old.left meter.new.left (db_read costs.now key) settled_view result }
    ensures settled { IfOk result (λ settled. IsSettled settled machine.new) }
    ensures unchanged { Turns B.stands_for layers.old layers.new (λ maps. maps) }
    ensures scope { IsSameScope store.old store.new }
    ensures layers { depth layers.new ≡ depth layers.old }
    ensures module { module_of machine.new ≡ module_of machine.old }
    ensures spends { meter.new.left ≤ meter.old.left }
    ensures used { meter.new.left + meter.new.used ≡ meter.old.left + meter.old.used }
{
    let key = match read_region(alloc, &*machine, key, LONGEST_KEY) {
        Ok(key) => key,
        Err(stop) => return Err(stop),
    };
    match read(alloc, store, layers, &key, meter, costs) {
        Ok(value) => answer_found(alloc, machine, value, meter, costs),
        Err(stop) => Err(stop),
    }
}

pub(crate) fn db_write<B: Base>(
    alloc: Global,
    key: u32,
    value: u32,
    machine: &mut Machine,
    store: &mut Scoped,
    layers: &mut Layers<B>,
    meter: &mut Meter,
    costs: &Schedule,
) -> Result<Settled, Stop>
    requires phase { phase_of machine.old ≡ Phase.Asked }
    ensures does { Does B.stands_for layers.old layers.new store.old store.new machine.old machine.new
        meter.old.left meter.new.left (db_write costs.now (is_read_only store.old) key value) settled_view result }
    ensures settled { IfOk result (λ settled. IsSettled settled machine.new) }
    ensures unchanged { IsTrue (is_read_only store.old) → Turns B.stands_for layers.old layers.new (λ maps. maps) }
    ensures scope { IsSameScope store.old store.new }
    ensures layers { depth layers.new ≡ depth layers.old }
    ensures module { module_of machine.new ≡ module_of machine.old }
    ensures spends { meter.new.left ≤ meter.old.left }
    ensures used { meter.new.left + meter.new.used ≡ meter.old.left + meter.old.used }
{
    match check_write(&*store) {
        Ok(()) => {}
        Err(stop) => return Err(stop),
    }
    let key = match read_region(alloc, &*machine, key, LONGEST_KEY) {
        Ok(key) => key,
        Err(stop) => return Err(stop),
    };
    let value = match read_region(alloc, &*machine, value, LONGEST_VALUE) {
        Ok(value) => value,
        Err(stop) => return Err(stop),
    };
    match write(alloc, store, layers, &key, &value, meter, costs) {
        Ok(()) => answer(machine, None),
        Err(stop) => Err(stop),
    }
}

pub(crate) fn db_remove<B: Base>(
    alloc: Global,
    key: u32,
    machine: &mut Machine,
    store: &mut Scoped,
    layers: &mut Layers<B>,
    meter: &mut Meter,
    costs: &Schedule,
) -> Result<Settled, Stop>
    requires phase { phase_of machine.old ≡ Phase.Asked }
    ensures does { Does B.stands_for layers.old layers.new store.old store.new machine.old machine.new
        meter.old.left meter.new.left (db_remove costs.now (is_read_only store.old) key) settled_view result }
    ensures settled { IfOk result (λ settled. IsSettled settled machine.new) }
    ensures unchanged { IsTrue (is_read_only store.old) → Turns B.stands_for layers.old layers.new (λ maps. maps) }
    ensures scope { IsSameScope store.old store.new }
    ensures layers { depth layers.new ≡ depth layers.old }
    ensures module { module_of machine.new ≡ module_of machine.old }
    ensures spends { meter.new.left ≤ meter.old.left }
    ensures used { meter.new.left + meter.new.used ≡ meter.old.left + meter.old.used }
{
    match check_write(&*store) {
        Ok(()) => {}
        Err(stop) => return Err(stop),
    }
    let key = match read_region(alloc, &*machine, key, LONGEST_KEY) {
        Ok(key) => key,
        Err(stop) => return Err(stop),
    };
    match erase(alloc, store, layers, &key, meter, costs) {
        Ok(()) => answer(machine, None),
        Err(stop) => Err(stop),
    }
}
