ghost use Rattle.std.specs.Prelude.{◌≡◌, ◌+◌, ◌++◌, ◌∷◌, [], sum_by, ◌<◌, ◌≤◌, ℕ, List, None, Some, MatchOption, IfOk, OnOk, option_map, drop, length, slice_set, slice_index_or, vec_len};
ghost use Rattle.std.specs.Option.{option_copied};
ghost use Rattle.kv_layers.specs.Bytes.{Bytes};
ghost use Rattle.kv_layers.specs.Layers.{depth, Turns};
ghost use Rattle.kv_layers.specs.Plain.{entry_view};
ghost use Rattle.gas_store.specs.Ends.{end_of};
ghost use Rattle.gas_store.specs.Places.{lower_place, upper_place};
ghost use Rattle.gas_store.specs.Scans.{next_of, narrowed};
ghost use Rattle.gas_store.specs.Scans as scans;
ghost use Rattle.gas_store.specs.Storage.{prefix_of, storage_of};
ghost use Rattle.gas_store.specs.Store.{bytes_in, entry_bytes, numbered, too_many, start, next};
ghost use Rattle.gas_store.specs.Views.{scan_view, scans_of, number_view, entries_view};
ghost use Rattle.gas_store.specs.Effects.{Answers, Does, DoesAlone, IsSameScope};

use crate::charge::{charge, cost_of};
use crate::places::{behind, joined};
use crate::scan::Scan;
use crate::scoped::Scoped;
use crate::stop::StoreStop;
use gas_meter::{Meter, Schedule};
use kv_layers::{Base, Bounds, Layers, Order};
use std::alloc::{AllocError, Global};

/// How many bytes a bound has.
fn len_of(bound: Option<&[u8]>) -> usize
    ensures { result ≡ bytes_in (option_copied bound.entry) }
{
    match bound {
        Some(bytes) => bytes.len(),
        None => 0,
    }
}

/// Where the keys of a contract from a bound on begin.
fn lower(alloc: Global, prefix: &[u8], lo: Option<&[u8]>) -> Result<Vec<u8>, AllocError>
    ensures { IfOk result (λ place. place.items ≡ lower_place prefix.now (option_copied lo.entry)) }
{
    match lo {
        Some(lo) => joined(alloc, prefix, lo),
        None => prefix.to_vec(alloc),
    }
}

/// Where the keys of a contract below a bound end.
fn upper(alloc: Global, prefix: &[u8], end: &[u8], hi: Option<&[u8]>) -> Result<Vec<u8>, AllocError>
    requires { end.now ≡ end_of prefix.now }
    ensures { IfOk result (λ place. place.items ≡ upper_place prefix.now (option_copied hi.entry)) }
{
    match hi {
        Some(hi) => joined(alloc, prefix, hi),
        None => end.to_vec(alloc),
    }
}

/// The next entry of a scan of a contract's storage.
fn next_entry<B: Base>(
    alloc: Global,
    view: &B,
    prefix: &[u8],
    end: &[u8],
    scan: &Scan,
) -> Result<Option<(Vec<u8>, Vec<u8>)>, AllocError>
    requires own { prefix.now ≡ prefix_of (drop 2 prefix.now) }
    requires end { end.now ≡ end_of prefix.now }
    ensures { IfOk result (λ found. (map : Bytes) → B.stands_for view.now map
        → next_of (storage_of map (drop 2 prefix.now)) (scan_view scan.now) ≡ option_map entry_view found) }
{
    let lo = lower(alloc, prefix, scan.bounds.lo())?;
    let hi = upper(alloc, prefix, end, scan.bounds.hi())?;
    match view.next_in(alloc, Some(&lo), Some(&hi), scan.order)? {
        Some((place, value)) => {
            let key = behind(alloc, prefix, &place)?;
            Ok(Some((key, value)))
        }
        None => Ok(None),
    }
}

/// Narrows the bounds past a key.
fn narrow(alloc: Global, scan: &mut Scan, key: &[u8]) -> Result<(), AllocError>
    ensures ok { OnOk result ((value : List ℕ)
        → scan_view scan.new ≡ narrowed (scan_view scan.old) (Some (key.now, value))) }
    ensures given { scan.new.given ≡ scan.old.given }
{
    let key = key.to_vec(alloc)?;
    scan.bounds.narrow_past(key, scan.order)
}

/// How many bytes the key and the value of an entry have.
fn sizes_of(found: &Option<(Vec<u8>, Vec<u8>)>) -> (usize, usize)
    ensures { result.0 + result.1 ≡ entry_bytes (option_map entry_view found.now) }
{
    match found {
        Some((key, value)) => (key.len(), value.len()),
        None => (0, 0),
    }
}

impl Scoped {
    /// Begins a scan of the keys from `lo` on and below `hi`, and gives its number, from 1 on.
    pub fn start_scan(
        &mut self,
        alloc: Global,
        lo: Option<&[u8]>,
        hi: Option<&[u8]>,
        order: Order,
        meter: &mut Meter,
        costs: &Schedule,
    ) -> Result<u32, StoreStop>
        ensures step { Answers number_view result (DoesAlone self.old self.new meter.old meter.new
            (start costs.now (option_copied lo.entry) (option_copied hi.entry) order)) }
        ensures scope { IsSameScope self.old self.new }
        ensures spends { meter.new.left ≤ meter.old.left }
        ensures used { meter.new.left + meter.new.used ≡ meter.old.left + meter.old.used }
    {
        let (below, above) = (len_of(lo), len_of(hi));
        if self.is_full(below, above) {
            return Err(StoreStop::TooManyScans);
        }
        let scan = Scan {
            bounds: Bounds::new(alloc, lo, hi)?,
            order,
            given: below + above,
        };
        match charge(meter, cost_of(costs.db_scan, 3, below, above)) {
            Ok(()) => Ok(self.add(scan)?),
            Err(stop) => Err(stop),
        }
    }

    /// Whether no scan with bounds of so many bytes can be begun any more.
    fn is_full(&self, below: usize, above: usize) -> bool
        ensures { result ≡ too_many (scans_of self.now) (below + above) }
    {
        let bytes = self.given as u128 + below as u128 + above as u128;
        self.scans.len() >= 65_536 || bytes > 16_777_216
    }

    /// Adds a scan, and gives its number.
    fn add(&mut self, scan: Scan) -> Result<u32, AllocError>
        requires few { length (scans_of self.old) < 65536 }
        requires within { sum_by (λ scan. scan.given) (scans_of self.old) + scan.given ≤ 16777216 }
        ensures number { IfOk result (λ number. number ≡ length (scans_of self.old) + 1) }
        ensures scans { OnOk result (scans_of self.new ≡ scans_of self.old ++ scan_view scan ∷ []) }
        ensures scope { IsSameScope self.old self.new }
    {
        let given = scan.given;
        self.scans.push(scan)?;
        self.given += given;
        Ok(self.scans.len() as u32)
    }

    /// The next entry of the scan with this number, as the storage is now.
    pub fn next<B: Base>(
        &mut self,
        alloc: Global,
        layers: &mut Layers<B>,
        scan: u32,
        meter: &mut Meter,
        costs: &Schedule,
    ) -> Result<Option<(Vec<u8>, Vec<u8>)>, StoreStop>
        ensures step { Answers entries_view result (Does B.stands_for layers.old layers.new
            self.old self.new meter.old meter.new (next costs.now scan)) }
        ensures unchanged { Turns B.stands_for layers.old layers.new (λ maps. maps) }
        ensures scope { IsSameScope self.old self.new }
        ensures depth { depth layers.new ≡ depth layers.old }
        ensures spends { meter.new.left ≤ meter.old.left }
        ensures used { meter.new.left + meter.new.used ≡ meter.old.left + meter.old.used }
    {
        let Some(index) = self.index_of(scan) else {
            return Err(StoreStop::NoSuchScan);
        };
        let found = next_entry(alloc, &*layers, &self.prefix, &self.end, &self.scans[index])?;
        let (key, value) = sizes_of(&found);
        match charge(meter, cost_of(costs.db_next, 3, key, value)) {
            Ok(()) => {
                self.narrow_scan(alloc, index, &found)?;
                Ok(found)
            }
            Err(stop) => Err(stop),
        }
    }

    /// The place of the scan with this number.
    fn index_of(&self, number: u32) -> Option<usize>
        ensures { MatchOption result (numbered (scans_of self.now) number ≡ None)
            (λ index. (number ≡ index + 1) × (index < length (scans_of self.now))) }
    {
        let index = number.checked_sub(1)? as usize;
        if index < self.scans.len() {
            Some(index)
        } else {
            None
        }
    }

    /// Narrows the bounds of a scan past what it gave.
    fn narrow_scan(
        &mut self,
        alloc: Global,
        index: usize,
        found: &Option<(Vec<u8>, Vec<u8>)>,
    ) -> Result<(), AllocError>
        requires { index < vec_len self.old.scans }
        ensures scans { OnOk result ((scan : scans.Scan) → scans_of self.new ≡ slice_set (scans_of self.old) index
            (narrowed (slice_index_or (scans_of self.old) index scan) (entries_view found.now))) }
        ensures scope { IsSameScope self.old self.new }
    {
        if let Some((key, _)) = found {
            narrow(alloc, &mut self.scans[index], key)?;
        }
        Ok(())
    }
}
