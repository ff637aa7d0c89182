ghost use Rattle.std.specs.Prelude.{◌≡◌, ◌∷◌, [], IfOk, IfSome, OnOk, Option, Some, None};
ghost use Rattle.std.specs.Arc.{arc_value};
ghost use Rattle.wasm_types.specs.Plain.{plain_module};
ghost use Rattle.wasm_types.specs.ModuleText.{module_of};
ghost use Rattle.gatekeeper.specs.CodeBytes.{code_bytes};
ghost use Rattle.gatekeeper.specs.Fetches.{Tallies, ServesHeld};
ghost use Rattle.module_cache.specs.Right.{IsModuleOf};

use crate::files::{file_at, file_bytes, file_name, module_outside, put_file};
use crate::pin_table::PinTable;
use crate::shared::Shared;
use gatekeeper::{Modules, Served, ValidCode};
use outside_io::Shelf;
use std::alloc::{AllocError, Global};
use std::sync::{Arc, Wait};
use wasm_types::Module;

/// A shared cache as one thread uses it. No lock is held while a module is decoded or a file is read
/// into one.
#[derive(Drop)]
pub struct User<'a, F, R> {
    shared: &'a Shared<F>,
    rt: &'a R,
}

impl<'a, F: Shelf + Drop, R: Wait> User<'a, F, R> {
    pub(crate) fn new(shared: &'a Shared<F>, rt: &'a R) -> User<'a, F, R> {
        User { shared, rt }
    }

    /// One look under the lock, and at a hit another owner of the module.
    fn serve(&self, code: &ValidCode) -> Result<Option<(Arc<Module>, Served)>, AllocError>
        ensures { IfOk result (λ found. IfSome found (λ f. IsModuleOf (code_bytes code.now) (arc_value f.0))) }
    {
        self.shared.cache.lock(self.rt).serve(code)
    }

    fn stow(&self, alloc: Global, code: &ValidCode, made: &Arc<Module>) -> Result<(), AllocError>
        requires { IsModuleOf (code_bytes code.now) (arc_value made.now) }
    {
        self.shared.cache.lock(self.rt).stow(alloc, code, made)
    }

    fn file(&self, alloc: Global, name: &str) -> Option<Vec<u8>> {
        file_at(alloc, &mut *self.shared.shelf.lock(self.rt), name)
    }

    fn put(&self, name: &str, bytes: &[u8]) {
        put_file(&mut *self.shared.shelf.lock(self.rt), name, bytes);
    }

    /// The module from outside the cache, which is then stowed. A decoded one is put on the shelf.
    fn fetch_outside(
        &self,
        alloc: Global,
        code: &ValidCode,
    ) -> Result<(Arc<Module>, Served), AllocError>
        ensures { IfOk result (λ found. IsModuleOf (code_bytes code.now) (arc_value found.0)) }
    {
        let name = file_name(alloc, code)?;
        let file = self.file(alloc, &name);
        let (found, served) = module_outside(alloc, file, code)?;
        self.stow(alloc, code, &found)?;
        if served == Served::Decoded {
            let bytes = file_bytes(alloc, code, &found)?;
            self.put(&name, &bytes);
        }
        Ok((found, served))
    }
}

impl<F: Shelf + Drop, R: Wait + Sync> Modules for User<'_, F, R> {
    ghost tally = { λ _. None };

    fn fetch(
        &mut self,
        alloc: Global,
        code: &ValidCode,
    ) -> Result<(Arc<Module>, Served), AllocError>
        ensures module_is { IfOk result (λ found. module_of (code_bytes code.now) ≡ Some (plain_module (arc_value found.0))) }
        ensures tallies { OnOk result (Tallies None (code_bytes code.now ∷ []) None) }
        ensures serves { IfOk result (λ found. ServesHeld None (code_bytes code.now) found.1) }
    {
        match self.serve(code)? {
            Some(found) => Ok(found),
            None => self.fetch_outside(alloc, code),
        }
    }
}

impl<F: Shelf + Drop, R: Wait + Sync> User<'_, F, R> {
    fn pinned(&self, code: &ValidCode) -> Result<Option<Arc<Module>>, AllocError>
        ensures { IfOk result (λ found. IfSome found (λ m. IsModuleOf (code_bytes code.now) (arc_value m))) }
    {
        self.shared.cache.lock(self.rt).share_pinned(code)
    }

    /// The module of the code, which is fetched unless it is pinned.
    fn module_to_pin(&mut self, alloc: Global, code: &ValidCode) -> Result<Arc<Module>, AllocError>
        ensures { IfOk result (λ m. IsModuleOf (code_bytes code.now) (arc_value m)) }
    {
        match self.pinned(code)? {
            Some(found) => Ok(found),
            None => {
                let (found, _) = self.fetch(alloc, code)?;
                Ok(found)
            }
        }
    }

    /// One more code for a table of pins, unless it is there.
    fn add_pin(
        &mut self,
        alloc: Global,
        pins: &mut PinTable,
        code: &ValidCode,
    ) -> Result<(), AllocError> {
        if pins.get(code).is_some() {
            return Ok(());
        }
        let found = self.module_to_pin(alloc, code)?;
        pins.add(alloc, code, found)
    }

    /// Fetches each code that isn't pinned, and then these are the pinned ones.
    pub fn warm(&mut self, alloc: Global, pins: &[ValidCode]) -> Result<(), AllocError> {
        if self.shared.cache.lock(self.rt).has_pins(pins) {
            return Ok(());
        }
        let mut table = PinTable::new(alloc);
        for code in pins {
            self.add_pin(alloc, &mut table, code)?;
        }
        self.shared.cache.lock(self.rt).set_pins(table);
        Ok(())
    }
}
