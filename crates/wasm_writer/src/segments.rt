ghost use Rattle.std.specs.Prelude.{◌++◌};
ghost use Rattle.wasm_types.specs.Plain.{plain_elem, plain_seg};
ghost use Rattle.wasm_writer.specs.Spelling.{elem_text, seg_text};

use crate::globals::put_init;
use crate::number::put_unsigned;
use crate::spell::{Spell, put_sized, put_vector};
use std::alloc::AllocError;
use wasm_types::{Elem, Seg};

impl Spell for Elem {
    ghost text = { λ e. elem_text (plain_elem e) };

    fn put(&self, out: &mut Vec<u8>) -> Result<(), AllocError> {
        put_unsigned(out, self.table as usize)?;
        put_init(out, self.offset)?;
        put_vector(out, &self.funcs)
    }
}

impl Spell for Seg {
    ghost text = { λ s. seg_text (plain_seg s) };

    fn put(&self, out: &mut Vec<u8>) -> Result<(), AllocError> {
        put_unsigned(out, self.memory as usize)?;
        put_init(out, self.offset)?;
        put_sized(out, &self.bytes)
    }
}
