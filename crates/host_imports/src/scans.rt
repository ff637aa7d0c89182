//! The imports on scans.

ghost use Rattle.std.specs.Prelude.{◌≡◌, ◌+◌, ◌≤◌, ℕ, IfOk};
ghost use Rattle.gas_meter.specs.Ranges.{IsInRange};
ghost use Rattle.kv_layers.specs.Layers.{depth, Turns};
ghost use Rattle.kv_layers.specs.Plain.{value_view};
ghost use Rattle.gas_store.specs.Effects.{IsSameScope};
ghost use Rattle.wasm_machine.specs.declared.machine.Machine.{Machine};
ghost use Rattle.wasm_machine.specs.Machine.{module_of, phase_of};
ghost use Rattle.host_imports.specs.Imports.{order_of, bound, db_scan, db_next};
ghost use Rattle.host_imports.specs.Parts.{Moves, Does, Scans, same_view, settled_view, IsSettled};

use crate::answering::{answer, answer_with};
use crate::fault::CallFault;
use crate::regions::read_region;
use crate::settled::Settled;
use crate::spelling::spelled;
use crate::steps::{next, start};
use crate::stop::Stop;
use crate::storage::LONGEST_KEY;
use gas_meter::{Meter, Schedule};
use gas_store::Scoped;
use kv_layers::{Base, Layers, Order};
use std::alloc::Global;
use wasm_machine::{Machine, Phase};
use wasm_types::Value;

fn order_of(order: u32) -> Result<Order, Stop>
    ensures { (machine : Machine) (left : ℕ) → Moves machine machine left left (order_of order) same_view result }
{
    match order {
        1 => Ok(Order::Ascending),
        2 => Ok(Order::Descending),
        _ => Err(Stop::Fault(CallFault::BadOrder)),
    }
}

/// The bound at a pointer, or none where it is 0.
fn bound(alloc: Global, machine: &Machine, pointer: u32) -> Result<Option<Vec<u8>>, Stop>
    ensures { (left : ℕ) → Moves machine.now machine.now left left (bound pointer) value_view result }
{
    if pointer == 0 {
        return Ok(None);
    }
    match read_region(alloc, machine, pointer, LONGEST_KEY) {
        Ok(bytes) => Ok(Some(bytes)),
        Err(stop) => Err(stop),
    }
}

pub(crate) fn db_scan(
    alloc: Global,
    lo: u32,
    hi: u32,
    order: u32,
    machine: &mut Machine,
    store: &mut Scoped,
    meter: &mut Meter,
    costs: &Schedule,
) -> Result<Settled, Stop>
    requires phase { phase_of machine.old ≡ Phase.Asked }
    ensures scans { Scans store.old store.new machine.old machine.new meter.old.left meter.new.left
        (db_scan costs.now lo hi order) settled_view result }
    ensures settled { IfOk result (λ settled. IsSettled settled machine.new) }
    ensures scope { IsSameScope store.old store.new }
    ensures module { module_of machine.new ≡ module_of machine.old }
    ensures spends { meter.new.left ≤ meter.old.left }
    ensures used { meter.new.left + meter.new.used ≡ meter.old.left + meter.old.used }
{
    let order = match order_of(order) {
        Ok(order) => order,
        Err(stop) => return Err(stop),
    };
    let lo = match bound(alloc, &*machine, lo) {
        Ok(lo) => lo,
        Err(stop) => return Err(stop),
    };
    let hi = match bound(alloc, &*machine, hi) {
        Ok(hi) => hi,
        Err(stop) => return Err(stop),
    };
    match start(
        alloc,
        store,
        lo.as_deref(),
        hi.as_deref(),
        order,
        meter,
        costs,
    ) {
        Ok(number) => answer(machine, Some(Value::I32(number))),
        Err(stop) => Err(stop),
    }
}

pub(crate) fn db_next<B: Base>(
    alloc: Global,
    scan: u32,
    machine: &mut Machine,
    store: &mut Scoped,
    layers: &mut Layers<B>,
    meter: &mut Meter,
    costs: &Schedule,
) -> Result<Settled, Stop>
    requires phase { phase_of machine.old ≡ Phase.Asked }
    requires costs { IsInRange costs.now }
    ensures does { Does B.stands_for layers.old layers.new store.old store.new machine.old machine.new
        meter.old.left meter.new.left (db_next costs.now scan) settled_view result }
    ensures settled { IfOk result (λ settled. IsSettled settled machine.new) }
    ensures unchanged { Turns B.stands_for layers.old layers.new (λ maps. maps) }
    ensures scope { IsSameScope store.old store.new }
    ensures layers { depth layers.new ≡ depth layers.old }
    ensures module { module_of machine.new ≡ module_of machine.old }
    ensures spends { meter.new.left ≤ meter.old.left }
    ensures used { meter.new.left + meter.new.used ≡ meter.old.left + meter.old.used }
{
    let found = match next(alloc, store, layers, scan, meter, costs) {
        Ok(found) => found,
        Err(stop) => return Err(stop),
    };
    match spelled(alloc, &found) {
        Ok(bytes) => answer_with(alloc, machine, &bytes, meter, costs),
        Err(_) => Err(Stop::NoMemory),
    }
}
