ghost use Rattle.std.specs.Prelude.{◌≡◌, ◌++◌, OnOk};
ghost use Rattle.wasm_writer.specs.Spelling.{value_text, init_value_text, init_text, global_text};

use crate::number::{put_signed_32, put_signed_64, put_unsigned};
use crate::spell::Spell;
use crate::types::{flag_byte, val_type_byte};
use std::alloc::AllocError;
use wasm_types::{GlobalVar, Init, Value};

/// The instruction that gives this number.
pub fn put_value(out: &mut Vec<u8>, value: Value) -> Result<(), AllocError>
    ensures { OnOk result (out.new.items ≡ out.old.items ++ value_text value) }
{
    match value {
        Value::I32(n) => {
            out.push(0x41)?;
            put_signed_32(out, n)
        }
        Value::I64(n) => {
            out.push(0x42)?;
            put_signed_64(out, n)
        }
    }
}

fn put_init_value(out: &mut Vec<u8>, init: Init) -> Result<(), AllocError>
    ensures { OnOk result (out.new.items ≡ out.old.items ++ init_value_text init) }
{
    match init {
        Init::Const(value) => put_value(out, value),
        Init::Global(index) => {
            out.push(0x23)?;
            put_unsigned(out, index as usize)
        }
    }
}

/// A constant expression, with its end.
pub fn put_init(out: &mut Vec<u8>, init: Init) -> Result<(), AllocError>
    ensures { OnOk result (out.new.items ≡ out.old.items ++ init_text init) }
{
    put_init_value(out, init)?;
    out.push(0x0B)?;
    Ok(())
}

impl Spell for GlobalVar {
    ghost text = { global_text };

    fn put(&self, out: &mut Vec<u8>) -> Result<(), AllocError> {
        out.push(val_type_byte(self.ty))?;
        out.push(flag_byte(self.mutable))?;
        put_init(out, self.init)
    }
}
