//! Steps on what a contract keeps and on its scans.

ghost use Rattle.std.specs.Prelude.{◌≡◌, ◌+◌, ◌≤◌, ℕ, IsTrue};
ghost use Rattle.std.specs.Option.{option_copied};
ghost use Rattle.kv_layers.specs.Layers.{depth, Turns};
ghost use Rattle.kv_layers.specs.Plain.{value_view};
ghost use Rattle.gas_store.specs.Store.{read, write, erase, start, next};
ghost use Rattle.gas_store.specs.Views.{is_read_only, number_view, entries_view};
ghost use Rattle.gas_store.specs.Effects.{IsSameScope};
ghost use Rattle.wasm_machine.specs.declared.machine.Machine.{Machine};
ghost use Rattle.host_imports.specs.Imports.{stored};
ghost use Rattle.host_imports.specs.Parts.{Does, Scans, unit_view};

use crate::stop::{Stop, refusal};
use gas_meter::{Meter, Schedule};
use gas_store::Scoped;
use kv_layers::{Base, Layers, Order};
use std::alloc::Global;

/// What the contract keeps under a key.
pub(crate) fn read<B: Base>(
    alloc: Global,
    store: &mut Scoped,
    layers: &mut Layers<B>,
    key: &[u8],
    meter: &mut Meter,
    costs: &Schedule,
) -> Result<Option<Vec<u8>>, Stop>
    ensures does { (machine : Machine) → Does B.stands_for layers.old layers.new store.old store.new
        machine machine meter.old.left meter.new.left (stored (read costs.now key.now)) value_view result }
    ensures unchanged { Turns B.stands_for layers.old layers.new (λ maps. maps) }
    ensures scope { IsSameScope store.old store.new }
    ensures layers { depth layers.new ≡ depth layers.old }
    ensures spends { meter.new.left ≤ meter.old.left }
    ensures used { meter.new.left + meter.new.used ≡ meter.old.left + meter.old.used }
{
    match store.get(alloc, layers, key, meter, costs) {
        Ok(value) => Ok(value),
        Err(stop) => Err(refusal(stop)),
    }
}

/// Gives a key of the contract this value.
pub(crate) fn write<B: Base>(
    alloc: Global,
    store: &mut Scoped,
    layers: &mut Layers<B>,
    key: &[u8],
    value: &[u8],
    meter: &mut Meter,
    costs: &Schedule,
) -> Result<(), Stop>
    ensures does { (machine : Machine) → Does B.stands_for layers.old layers.new store.old store.new
        machine machine meter.old.left meter.new.left
        (stored (write (is_read_only store.old) costs.now key.now value.now)) unit_view result }
    ensures unchanged { IsTrue (is_read_only store.old) → Turns B.stands_for layers.old layers.new (λ maps. maps) }
    ensures scope { IsSameScope store.old store.new }
    ensures layers { depth layers.new ≡ depth layers.old }
    ensures spends { meter.new.left ≤ meter.old.left }
    ensures used { meter.new.left + meter.new.used ≡ meter.old.left + meter.old.used }
{
    match store.set(alloc, layers, key, value, meter, costs) {
        Ok(()) => Ok(()),
        Err(stop) => Err(refusal(stop)),
    }
}

/// Removes a key of the contract, if it is there.
pub(crate) fn erase<B: Base>(
    alloc: Global,
    store: &mut Scoped,
    layers: &mut Layers<B>,
    key: &[u8],
    meter: &mut Meter,
    costs: &Schedule,
) -> Result<(), Stop>
    ensures does { (machine : Machine) → Does B.stands_for layers.old layers.new store.old store.new
        machine machine meter.old.left meter.new.left
        (stored (erase (is_read_only store.old) costs.now key.now)) unit_view result }
    ensures unchanged { IsTrue (is_read_only store.old) → Turns B.stands_for layers.old layers.new (λ maps. maps) }
    ensures scope { IsSameScope store.old store.new }
    ensures layers { depth layers.new ≡ depth layers.old }
    ensures spends { meter.new.left ≤ meter.old.left }
    ensures used { meter.new.left + meter.new.used ≡ meter.old.left + meter.old.used }
{
    match store.remove(alloc, layers, key, meter, costs) {
        Ok(()) => Ok(()),
        Err(stop) => Err(refusal(stop)),
    }
}

/// Begins a scan, and gives its number.
pub(crate) fn start(
    alloc: Global,
    store: &mut Scoped,
    lo: Option<&[u8]>,
    hi: Option<&[u8]>,
    order: Order,
    meter: &mut Meter,
    costs: &Schedule,
) -> Result<u32, Stop>
    ensures scans { (machine : Machine) → Scans store.old store.new machine machine meter.old.left meter.new.left
        (stored (start costs.now (option_copied lo.entry) (option_copied hi.entry) order)) number_view result }
    ensures scope { IsSameScope store.old store.new }
    ensures spends { meter.new.left ≤ meter.old.left }
    ensures used { meter.new.left + meter.new.used ≡ meter.old.left + meter.old.used }
{
    match store.start_scan(alloc, lo, hi, order, meter, costs) {
        Ok(number) => Ok(number),
        Err(stop) => Err(refusal(stop)),
    }
}

/// The next entry of a scan.
pub(crate) fn next<B: Base>(
    alloc: Global,
    store: &mut Scoped,
    layers: &mut Layers<B>,
    scan: u32,
    meter: &mut Meter,
    costs: &Schedule,
) -> Result<Option<(Vec<u8>, Vec<u8>)>, Stop>
    ensures does { (machine : Machine) → Does B.stands_for layers.old layers.new store.old store.new
        machine machine meter.old.left meter.new.left (stored (next costs.now scan)) entries_view result }
    ensures unchanged { Turns B.stands_for layers.old layers.new (λ maps. maps) }
    ensures scope { IsSameScope store.old store.new }
    ensures layers { depth layers.new ≡ depth layers.old }
    ensures spends { meter.new.left ≤ meter.old.left }
    ensures used { meter.new.left + meter.new.used ≡ meter.old.left + meter.old.used }
{
    match store.next(alloc, layers, scan, meter, costs) {
        Ok(found) => Ok(found),
        Err(stop) => Err(refusal(stop)),
    }
}
