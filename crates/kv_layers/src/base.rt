ghost use Rattle.std.specs.Prelude.{◌≡◌, IfOk};
ghost use Rattle.std.specs.Option.{option_map, option_copied};
ghost use Rattle.std.specs.FinMap.{get};
ghost use Rattle.kv_layers.specs.Bytes.{Bytes};
ghost use Rattle.kv_layers.specs.Next.{IsNext};
ghost use Rattle.kv_layers.specs.Plain.{value_view, entry_view};

use crate::order::Order;
use std::alloc::{AllocError, Global};

/// What layers lie on. It may know only parts of a map, and then stands for every map that has those
/// parts; what it answers is right for each of them.
pub trait Base {
    /// The maps that it stands for.
    ghost stands_for: { Self → Bytes → Type 0 };

    /// The value at the key.
    fn get(&self, alloc: Global, key: &[u8]) -> Result<Option<Vec<u8>>, AllocError>
        ensures { IfOk result (λ found. (map : Bytes) → stands_for self.now map →
            value_view found ≡ get map key.now) };

    /// The first entry in the order, with a key from `lo` on and below `hi`.
    fn next_in(
        &self,
        alloc: Global,
        lo: Option<&[u8]>,
        hi: Option<&[u8]>,
        order: Order,
    ) -> Result<Option<(Vec<u8>, Vec<u8>)>, AllocError>
        ensures { IfOk result (λ found. (map : Bytes) → stands_for self.now map →
            IsNext (get map) (option_copied lo.entry) (option_copied hi.entry) order
            (option_map entry_view found)) };
}

impl<B: Base> Base for &B {
    ghost stands_for = { λ base map. B.stands_for base.now map };

    fn get(&self, alloc: Global, key: &[u8]) -> Result<Option<Vec<u8>>, AllocError> {
        (**self).get(alloc, key)
    }

    fn next_in(
        &self,
        alloc: Global,
        lo: Option<&[u8]>,
        hi: Option<&[u8]>,
        order: Order,
    ) -> Result<Option<(Vec<u8>, Vec<u8>)>, AllocError> {
        (**self).next_in(alloc, lo, hi, order)
    }
}
