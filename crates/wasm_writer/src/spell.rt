ghost use Rattle.std.specs.Prelude.{◌≡◌, ℕ, ◌++◌, List, OnOk};
ghost use Rattle.std.specs.List.{flat_map};
ghost use Rattle.wasm_writer.specs.ShortNumber.{unsigned};
ghost use Rattle.wasm_writer.specs.Spelling.{vector_text, sized_text};

use crate::number::put_unsigned;
use std::alloc::AllocError;

/// A part of a module that is written at the end of some bytes.
pub trait Spell {
    /// The bytes that are written.
    ghost text: { Self → List ℕ };

    fn put(&self, out: &mut Vec<u8>) -> Result<(), AllocError>
        ensures { OnOk result (out.new.items ≡ out.old.items ++ text self.now) };
}

/// Parts one after the other.
pub fn put_all<T: Spell>(out: &mut Vec<u8>, items: &[T]) -> Result<(), AllocError>
    ensures { OnOk result (out.new.items ≡ out.old.items ++ flat_map T.text items.now) }
{
    for item in items {
        item.put(out)?;
    }
    Ok(())
}

/// The number of items, and the items.
#[tactic(auto, unfolding(crate::specs::Spelling::vector_text))]
pub fn put_vector<T: Spell>(out: &mut Vec<u8>, items: &[T]) -> Result<(), AllocError>
    ensures { OnOk result (out.new.items ≡ out.old.items ++ vector_text T.text items.now) }
{
    put_unsigned(out, items.len())?;
    put_all(out, items)
}

/// Bytes behind their number.
#[tactic(auto, unfolding(crate::specs::Spelling::sized_text))]
pub fn put_sized(out: &mut Vec<u8>, bytes: &[u8]) -> Result<(), AllocError>
    ensures { OnOk result (out.new.items ≡ out.old.items ++ sized_text bytes.now) }
{
    put_unsigned(out, bytes.len())?;
    out.extend_from_slice(bytes)
}

/// An index.
impl Spell for u32 {
    ghost text = { unsigned };

    fn put(&self, out: &mut Vec<u8>) -> Result<(), AllocError> {
        put_unsigned(out, *self as usize)
    }
}
