ghost use Rattle.std.specs.Prelude.{◌≡◌, ◌↔◌, ℕ, IsTrue, Option};
ghost use Rattle.wasm_types.specs.Types.{val_type, val_type_of, flag, limits, table, result_type, func_type};
ghost use Rattle.wasm_types.specs.Part.{index};
ghost use Rattle.wasm_types.specs.Plain.{PlainFuncType, plain_func_type};
ghost use Rattle.wasm_types.specs.declared.value.ValType.{ValType};
ghost use Rattle.wasm_types.specs.declared.limits.Limits.{Limits};
ghost use Rattle.wasm_reader.specs.Gives.{Gives};
ghost use Rattle.wasm_reader.specs.CursorPlace.{place};

use crate::cursor::Cursor;
use crate::element::{Element, vector};
use crate::stop::{ReadStop, fault};
use std::alloc::Global;
use wasm_types::{FuncType, Limits, ReadKind, ValType};

/// The type of a number that a byte stands for, or why it stands for none.
pub fn val_type_of(byte: u8) -> Result<ValType, ReadKind>
    ensures { result ≡ val_type_of byte }
{
    match byte {
        0x7F => Ok(ValType::I32),
        0x7E => Ok(ValType::I64),
        0x7C | 0x7D => Err(ReadKind::Float),
        _ => Err(ReadKind::ValueType),
    }
}

#[tactic(auto, unfolding(wasm_types::specs::Types::val_type))]
pub fn val_type(cursor: &mut Cursor) -> Result<ValType, ReadStop>
    ensures { Gives (λ t. t) result (place cursor.new) (val_type.read (place cursor.old)) }
{
    let at = cursor.at();
    match val_type_of(cursor.byte(ReadKind::Cut)?) {
        Ok(ty) => Ok(ty),
        Err(kind) => Err(fault(at, kind)),
    }
}

#[tactic(auto, unfolding(wasm_types::specs::Types::flag))]
pub fn flag(cursor: &mut Cursor) -> Result<bool, ReadStop>
    ensures { Gives (λ b. b) result (place cursor.new) (flag.read (place cursor.old)) }
{
    let at = cursor.at();
    match cursor.byte(ReadKind::Cut)? {
        0 => Ok(false),
        1 => Ok(true),
        _ => Err(fault(at, ReadKind::Flag)),
    }
}

#[tactic(auto, unfolding(wasm_types::specs::Types::limits))]
pub fn limits(cursor: &mut Cursor) -> Result<Limits, ReadStop>
    ensures { Gives (λ l. l) result (place cursor.new) (limits.read (place cursor.old)) }
{
    let has_max = flag(cursor)?;
    let min = cursor.index()?;
    if !has_max {
        return Ok(Limits { min, max: None });
    }
    let max = cursor.index()?;
    Ok(Limits {
        min,
        max: Some(max),
    })
}

/// A table of functions.
#[tactic(auto, unfolding(wasm_types::specs::Types::table))]
pub fn table(cursor: &mut Cursor) -> Result<Limits, ReadStop>
    ensures { Gives (λ l. l) result (place cursor.new) (table.read (place cursor.old)) }
{
    let at = cursor.at();
    if cursor.byte(ReadKind::Cut)? != 0x70 {
        return Err(fault(at, ReadKind::ValueType));
    }
    let size = limits(cursor)?;
    Ok(size)
}

#[tactic(auto, unfolding(wasm_types::specs::Types::result_type))]
fn result_type(cursor: &mut Cursor) -> Result<Option<ValType>, ReadStop>
    ensures { Gives (λ t. t) result (place cursor.new) (result_type.read (place cursor.old)) }
{
    let at = cursor.at();
    match cursor.index()? {
        0 => Ok(None),
        1 => {
            let ty = val_type(cursor)?;
            Ok(Some(ty))
        }
        _ => Err(fault(at, ReadKind::Results)),
    }
}

impl Element for ValType {
    ghost Shown = { ValType };

    ghost shown = { λ t. t };

    ghost reading = { val_type.read };

    fn read_at(_alloc: Global, cursor: &mut Cursor) -> Result<ValType, ReadStop> {
        val_type(cursor)
    }

    fn same(&self, other: &ValType) -> bool {
        self == other
    }
}

/// An index.
impl Element for u32 {
    ghost Shown = { ℕ };

    ghost shown = { λ n. n };

    ghost reading = { index.read };

    fn read_at(_alloc: Global, cursor: &mut Cursor) -> Result<u32, ReadStop> {
        cursor.index()
    }

    fn same(&self, other: &u32) -> bool {
        self == other
    }
}

/// A memory.
impl Element for Limits {
    ghost Shown = { Limits };

    ghost shown = { λ l. l };

    ghost reading = { limits.read };

    fn read_at(_alloc: Global, cursor: &mut Cursor) -> Result<Limits, ReadStop> {
        limits(cursor)
    }

    fn same(&self, other: &Limits) -> bool {
        self == other
    }
}

/// Whether two lists of types are the same.
pub fn same_types(types: &[ValType], others: &[ValType]) -> bool
    ensures { IsTrue result ↔ (types.now ≡ others.now) }
{
    types == others
}

impl Element for FuncType {
    ghost Shown = { PlainFuncType };

    ghost shown = { plain_func_type };

    ghost reading = { func_type.read };

    #[tactic(auto, unfolding(wasm_types::specs::Types::func_type))]
    fn read_at(alloc: Global, cursor: &mut Cursor) -> Result<FuncType, ReadStop> {
        let at = cursor.at();
        if cursor.byte(ReadKind::Cut)? != 0x60 {
            return Err(fault(at, ReadKind::Form));
        }
        let params = vector(alloc, cursor)?;
        let result = result_type(cursor)?;
        Ok(FuncType { params, result })
    }

    fn same(&self, other: &FuncType) -> bool {
        same_types(&self.params, &other.params) && self.result == other.result
    }
}
