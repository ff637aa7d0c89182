ghost use Rattle.std.specs.Prelude.{◌≡◌, ◌≤◌, ◌+◌, ◌-◌, ◌^◌, ◌∷◌, [], min, map, option_map, IfOk, OnOk, Option, Some, None};
ghost use Rattle.std.specs.Arc.{arc_value};
ghost use Rattle.wasm_types.specs.Plain.{plain_module};
ghost use Rattle.wasm_types.specs.ModuleText.{module_of};
ghost use Rattle.gatekeeper.specs.CodeBytes.{code_bytes};
ghost use Rattle.gatekeeper.specs.Cache.{stowed, warmed};
ghost use Rattle.gatekeeper.specs.Fetches.{Tallies, ServesHeld, found_in_cache};
ghost use Rattle.module_cache.specs.Right.{IsModuleOf};
ghost use Rattle.module_cache.specs.Held.{held};
ghost use Rattle.module_cache.specs.Pinned.{pinned_codes};
ghost use Rattle.module_cache.specs.Pinning.{with_one_more, fetched_to_pin, tally_with_one_more};
ghost use Rattle.module_cache.specs.Counted.{no_counts, tally_with};
ghost use Rattle.module_cache.specs.Told.{tally_of};
ghost use Rattle.module_cache.specs.Found.{Finds};

use crate::counts::Counts;
use crate::files::{file_at, file_bytes, file_name, module_outside, put_file};
use crate::pin_table::PinTable;
use crate::state::CacheState;
use gatekeeper::{Modules, Served, ValidCode};
use outside_io::Shelf;
use std::alloc::{AllocError, Global};
use std::sync::Arc;
use wasm_types::Module;

/// A cache that one thread has, over a shelf of files. It tells how fetches were served.
#[derive(Drop)]
pub struct Owned<F> {
    cache: CacheState,
    shelf: F,
    counts: Counts,
}

impl<F: Shelf + Drop> Owned<F> {
    /// Holds no code, and will keep this many recent ones.
    pub fn new(alloc: Global, recent: u32, shelf: F) -> Result<Owned<F>, AllocError>
        requires some { 1 ≤ recent }
        requires few { recent ≤ 128 }
        ensures { IfOk result (λ o. tally_of o ≡ tally_with (record { pinned = []; recent = []; size = recent }) no_counts) }
    {
        Ok(Owned {
            cache: CacheState::new(alloc, recent)?,
            shelf,
            counts: Counts::none(),
        })
    }

    /// How many fetches were served from where.
    pub fn counts(&self) -> Counts
        ensures pinned { result.pinned ≡ (tally_of self.now).pinned }
        ensures recent { result.recent ≡ (tally_of self.now).recent }
        ensures missed { min (result.file + result.decoded) (2 ^ 64 - 1) ≡ (tally_of self.now).missed }
    {
        self.counts
    }

    /// The module from outside the cache, which then stands first among the recent ones. A decoded one
    /// is put on the shelf.
    fn fetch_outside(
        &mut self,
        alloc: Global,
        code: &ValidCode,
    ) -> Result<(Arc<Module>, Served), AllocError>
        ensures right { IfOk result (λ found. IsModuleOf (code_bytes code.now) (arc_value found.0)) }
        ensures missed { IfOk result (λ found. found_in_cache found.1 ≡ None) }
        ensures stowed { OnOk result (held self.new.cache ≡ stowed (held self.old.cache) (code_bytes code.now)) }
        ensures counts { self.new.counts ≡ self.old.counts }
    {
        let name = file_name(alloc, code)?;
        let file = file_at(alloc, &mut self.shelf, &name);
        let (found, served) = module_outside(alloc, file, code)?;
        self.cache.stow(alloc, code, &found)?;
        if served == Served::Decoded {
            let bytes = file_bytes(alloc, code, &found)?;
            put_file(&mut self.shelf, &name, &bytes);
        }
        Ok((found, served))
    }

    /// The module of the code, from the cache or from outside.
    fn find(&mut self, alloc: Global, code: &ValidCode) -> Result<(Arc<Module>, Served), AllocError>
        ensures right { IfOk result (λ found. IsModuleOf (code_bytes code.now) (arc_value found.0)) }
        ensures cache { IfOk result (λ found. Finds (held self.old.cache) (code_bytes code.now) found.1 (held self.new.cache)) }
        ensures counts { self.new.counts ≡ self.old.counts }
    {
        match self.cache.serve(code)? {
            Some(found) => Ok(found),
            None => self.fetch_outside(alloc, code),
        }
    }
}

impl<F: Shelf + Drop> Modules for Owned<F> {
    ghost tally = { λ o. Some (tally_of o) };

    fn fetch(
        &mut self,
        alloc: Global,
        code: &ValidCode,
    ) -> Result<(Arc<Module>, Served), AllocError>
        ensures module_is { IfOk result (λ found. module_of (code_bytes code.now) ≡ Some (plain_module (arc_value found.0))) }
        ensures tallies { OnOk result (Tallies (Some (tally_of self.old)) (code_bytes code.now ∷ []) (Some (tally_of self.new))) }
        ensures serves { IfOk result (λ found. ServesHeld (Some (tally_of self.old)) (code_bytes code.now) found.1) }
    {
        let found = self.find(alloc, code)?;
        self.counts.count(found.1);
        Ok(found)
    }
}

impl<F: Shelf + Drop> Owned<F> {
    /// The module of the code, which is fetched unless it is pinned.
    fn module_to_pin(&mut self, alloc: Global, code: &ValidCode) -> Result<Arc<Module>, AllocError>
        ensures right { IfOk result (λ m. IsModuleOf (code_bytes code.now) (arc_value m)) }
        ensures told { OnOk result (tally_of self.new ≡ fetched_to_pin (tally_of self.old) (code_bytes code.now)) }
    {
        match self.cache.share_pinned(code)? {
            Some(found) => Ok(found),
            None => {
                let (found, _) = self.fetch(alloc, code)?;
                Ok(found)
            }
        }
    }

    /// One more code for a table of pins, unless it is there.
    fn add_pin(
        &mut self,
        alloc: Global,
        pins: &mut PinTable,
        code: &ValidCode,
    ) -> Result<(), AllocError>
        ensures listed { OnOk result (pinned_codes pins.new ≡ with_one_more (pinned_codes pins.old) (code_bytes code.now)) }
        ensures told { OnOk result (tally_of self.new ≡ tally_with_one_more (pinned_codes pins.old) (tally_of self.old) (code_bytes code.now)) }
    {
        if pins.get(code).is_some() {
            return Ok(());
        }
        let found = self.module_to_pin(alloc, code)?;
        pins.add(alloc, code, found)
    }

    /// Fetches each code that isn't pinned, and then these are the pinned ones.
    pub fn warm(&mut self, alloc: Global, pins: &[ValidCode]) -> Result<(), AllocError>
        ensures { OnOk result (tally_of self.new ≡ warmed (tally_of self.old) (map code_bytes pins.now)) }
    {
        self.cache.codes_differ();
        if self.cache.has_pins(pins) {
            return Ok(());
        }
        let mut table = PinTable::new(alloc);
        for code in pins {
            self.add_pin(alloc, &mut table, code)?;
        }
        self.cache.set_pins(table);
        Ok(())
    }
}
