ghost use Rattle.std.specs.Prelude.{◌≡◌, ◌++◌, Option, OnOk};
ghost use Rattle.wasm_types.specs.Plain.{plain_func_type};
ghost use Rattle.wasm_writer.specs.Spelling.{val_type_byte, val_type_text, result_text, func_type_text, flag_byte, limits_text, table_text};

use crate::number::put_unsigned;
use crate::spell::{Spell, put_vector};
use std::alloc::AllocError;
use wasm_types::{FuncType, Limits, ValType};

/// The byte of a type of numbers.
pub fn val_type_byte(ty: ValType) -> u8
    ensures { result ≡ val_type_byte ty }
{
    match ty {
        ValType::I32 => 0x7F,
        ValType::I64 => 0x7E,
    }
}

impl Spell for ValType {
    ghost text = { val_type_text };

    fn put(&self, out: &mut Vec<u8>) -> Result<(), AllocError> {
        out.push(val_type_byte(*self))?;
        Ok(())
    }
}

fn put_result(out: &mut Vec<u8>, result_type: Option<ValType>) -> Result<(), AllocError>
    ensures { OnOk result (out.new.items ≡ out.old.items ++ result_text result_type) }
{
    match result_type {
        None => put_unsigned(out, 0),
        Some(ty) => {
            put_unsigned(out, 1)?;
            ty.put(out)
        }
    }
}

impl Spell for FuncType {
    ghost text = { λ t. func_type_text (plain_func_type t) };

    fn put(&self, out: &mut Vec<u8>) -> Result<(), AllocError> {
        out.push(0x60)?;
        put_vector(out, &self.params)?;
        put_result(out, self.result)
    }
}

pub fn flag_byte(flag: bool) -> u8
    ensures { result ≡ flag_byte flag }
{
    if flag { 1 } else { 0 }
}

/// The size of a memory.
impl Spell for Limits {
    ghost text = { limits_text };

    fn put(&self, out: &mut Vec<u8>) -> Result<(), AllocError> {
        out.push(flag_byte(self.max.is_some()))?;
        put_unsigned(out, self.min as usize)?;
        match self.max {
            None => Ok(()),
            Some(max) => put_unsigned(out, max as usize),
        }
    }
}

/// A table of functions, by its size.
pub fn put_table(out: &mut Vec<u8>, size: Limits) -> Result<(), AllocError>
    ensures { OnOk result (out.new.items ≡ out.old.items ++ table_text size) }
{
    out.push(0x70)?;
    size.put(out)
}
