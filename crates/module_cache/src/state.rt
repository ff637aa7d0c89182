ghost use Rattle.std.specs.Prelude.{◌≡◌, ◌≤◌, [], map, length, is_some, option_map, IfOk, OnOk, OnErr, IfSome, bytes_eq};
ghost use Rattle.std.specs.Bool.{OnTrue};
ghost use Rattle.std.specs.List.{IsDistinct};
ghost use Rattle.std.specs.Arc.{arc_value};
ghost use Rattle.gatekeeper.specs.CodeBytes.{code_bytes};
ghost use Rattle.gatekeeper.specs.Cache.{is_among, looked, stowed};
ghost use Rattle.module_cache.specs.Right.{IsModuleOf, AreRight, AreRight-prop, codes_of, vec_bytes};

use crate::by_length::ByLength;
use crate::pin_table::PinTable;
use gatekeeper::{Served, ValidCode};
use lru::LruCache;
use std::alloc::{AllocError, Global};
use std::hash::BuildHasherDefault;
use std::num::NonZeroUsize;
use std::sync::Arc;
use wasm_types::Module;

/// Modules of pinned codes, and of those that were used last.
#[derive(Drop)]
pub struct CacheState {
    pinned: PinTable,
    // Under copies of whole codes, which are made where a module is stowed. A look copies nothing, and compares the code
    // with those kept that are as long.
    recent: LruCache<Vec<u8>, Arc<Module>, BuildHasherDefault<ByLength>>,
    pub ghost recent_right: { AreRight vec_bytes recent.entries } by { AreRight-prop vec_bytes recent.entries },
}

impl CacheState {
    ghost use Rattle.module_cache.specs.Pinned.{pinned_codes};
    ghost use Rattle.module_cache.specs.Held.{held, is_held};

    /// Holds no code, and will keep this many recent ones.
    pub fn new(alloc: Global, recent: u32) -> Result<CacheState, AllocError>
        requires some { 1 ≤ recent }
        requires few { recent ≤ 128 }
        ensures { IfOk result (λ s. held s ≡ record { pinned = []; recent = []; size = recent }) }
    {
        let size = NonZeroUsize::new(recent as usize).unwrap();
        Ok(CacheState {
            pinned: PinTable::new(alloc),
            recent: LruCache::with_hasher(alloc, size, BuildHasherDefault::new())?,
        })
    }

    /// That codes differ, and that the recent ones are few enough, for proofs.
    pub fn codes_differ(&self)
        ensures pinned { IsDistinct bytes_eq (held self.now).pinned }
        ensures recent { IsDistinct bytes_eq (held self.now).recent }
        ensures within { length (held self.now).recent ≤ (held self.now).size }
        ensures some { 1 ≤ (held self.now).size }
    {
        self.pinned.codes_differ();
        self.recent.len();
    }

    /// How the code is held, if it is. A recent code that isn't pinned comes to the front.
    pub fn look(&mut self, code: &ValidCode) -> Option<Served>
        ensures answer { result ≡ (looked (held self.old) (code_bytes code.now)).held }
        ensures cache { held self.new ≡ (looked (held self.old) (code_bytes code.now)).cache }
    {
        self.codes_differ();
        if self.pinned.get(code).is_some() {
            return Some(Served::Pinned);
        }
        if self.recent.promote(code.bytes()) {
            Some(Served::Recent)
        } else {
            None
        }
    }

    /// Another owner of the module of the code, if the code is pinned.
    pub fn share_pinned(&self, code: &ValidCode) -> Result<Option<Arc<Module>>, AllocError>
        ensures found { IfOk result (λ found. is_some found ≡ is_among (code_bytes code.now) (held self.now).pinned) }
        ensures right { IfOk result (λ found. IfSome found (λ m. IsModuleOf (code_bytes code.now) (arc_value m))) }
    {
        match self.pinned.get(code) {
            Some(found) => Ok(Some(Arc::try_clone(found)?)),
            None => Ok(None),
        }
    }

    /// The kept module of the code, if the code is held.
    fn kept(&self, code: &ValidCode) -> Option<&Arc<Module>>
        ensures found { is_some result ≡ is_held (held self.now) (code_bytes code.now) }
        ensures right { IfSome result (λ m. IsModuleOf (code_bytes code.now) (arc_value m.now)) }
    {
        match self.pinned.get(code) {
            Some(found) => Some(found),
            None => self.recent.peek(code.bytes()),
        }
    }

    /// Another owner of the kept module of the code, if the code is held.
    pub fn share(&self, code: &ValidCode) -> Result<Option<Arc<Module>>, AllocError>
        ensures found { IfOk result (λ found. is_some found ≡ is_held (held self.now) (code_bytes code.now)) }
        ensures right { IfOk result (λ found. IfSome found (λ m. IsModuleOf (code_bytes code.now) (arc_value m))) }
    {
        match self.kept(code) {
            Some(found) => Ok(Some(Arc::try_clone(found)?)),
            None => Ok(None),
        }
    }

    /// A look, and at a hit another owner of the module. The code is compared once.
    pub fn serve(&mut self, code: &ValidCode) -> Result<Option<(Arc<Module>, Served)>, AllocError>
        ensures answer { IfOk result (λ found. option_map (λ f. f.1) found ≡ (looked (held self.old) (code_bytes code.now)).held) }
        ensures right { IfOk result (λ found. IfSome found (λ f. IsModuleOf (code_bytes code.now) (arc_value f.0))) }
        ensures cache { held self.new ≡ (looked (held self.old) (code_bytes code.now)).cache }
    {
        self.codes_differ();
        if let Some(found) = self.pinned.get(code) {
            return Ok(Some((Arc::try_clone(found)?, Served::Pinned)));
        }
        match self.recent.get(code.bytes()) {
            Some(found) => Ok(Some((Arc::try_clone(found)?, Served::Recent))),
            None => Ok(None),
        }
    }

    /// Keeps the module as that of the code that was used last.
    pub fn stow(
        &mut self,
        alloc: Global,
        code: &ValidCode,
        made: &Arc<Module>,
    ) -> Result<(), AllocError>
        requires { IsModuleOf (code_bytes code.now) (arc_value made.now) }
        ensures ok { OnOk result (held self.new ≡ stowed (held self.old) (code_bytes code.now)) }
        ensures err { OnErr result (self.new ≡ self.old) }
    {
        self.codes_differ();
        let key = Vec::from_slice(alloc, code.bytes())?;
        let kept = Arc::try_clone(made)?;
        self.recent.put(key, kept)?;
        Ok(())
    }

    /// From now on these codes are the pinned ones. They may be recent too: a hit among the pinned ones
    /// leaves the recent ones as they are.
    pub fn set_pinned(&mut self, list: Vec<(ValidCode, Arc<Module>)>)
        requires right { AreRight code_bytes list.items }
        requires differ { IsDistinct bytes_eq (codes_of code_bytes list.items) }
        ensures { held self.new ≡ record (held self.old) { pinned = codes_of code_bytes list.items } }
    {
        self.set_pins(PinTable::of(list));
    }

    pub(crate) fn set_pins(&mut self, pins: PinTable)
        ensures { held self.new ≡ record (held self.old) { pinned = pinned_codes pins } }
    {
        self.pinned = pins;
    }

    /// Whether these codes are pinned, in this order.
    pub(crate) fn has_pins(&self, codes: &[ValidCode]) -> bool
        ensures { OnTrue result ((held self.now).pinned ≡ map code_bytes codes.now) }
    {
        self.pinned.has_codes(codes)
    }
}
