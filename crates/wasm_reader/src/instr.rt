ghost use Rattle.std.specs.Prelude.{◌<◌, ◌^◌, length, []};
ghost use Rattle.wasm_types.specs.declared.instr.Instr.{Instr};
ghost use Rattle.wasm_types.specs.Body.{opcode, block_type, reserved, br_table, call_indirect, memory_access, operands, instr};
ghost use Rattle.wasm_reader.specs.Gives.{Gives, adding};
ghost use Rattle.wasm_reader.specs.CursorPlace.{place};

use crate::cursor::Cursor;
use crate::element::items_into;
use crate::stop::{ReadStop, fault};
use crate::types::val_type_of;
use std::alloc::Global;
use wasm_types::{Instr, ReadKind, Shape, ValType, Value, shape_of};

/// An opcode and its shape.
#[tactic(auto, unfolding(wasm_types::specs::Body::opcode))]
fn opcode(cursor: &mut Cursor, may_else: bool) -> Result<(u8, Shape), ReadStop>
    ensures { Gives (λ o. o) result (place cursor.new) ((opcode may_else).read (place cursor.old)) }
{
    let at = cursor.at();
    let op = cursor.byte(ReadKind::Nesting)?;
    match shape_of(op) {
        Ok(Shape::Else) => {
            if !may_else {
                return Err(fault(at, ReadKind::Nesting));
            }
            Ok((op, Shape::Else))
        }
        Ok(shape) => Ok((op, shape)),
        Err(kind) => Err(fault(at, kind)),
    }
}

#[tactic(auto, unfolding(wasm_types::specs::Body::block_type))]
fn block_type(cursor: &mut Cursor) -> Result<Option<ValType>, ReadStop>
    ensures { Gives (λ t. t) result (place cursor.new) (block_type.read (place cursor.old)) }
{
    let at = cursor.at();
    let byte = cursor.byte(ReadKind::Cut)?;
    if byte == 0x40 {
        return Ok(None);
    }
    match val_type_of(byte) {
        Ok(ty) => Ok(Some(ty)),
        Err(kind) => Err(fault(at, kind)),
    }
}

#[tactic(auto, unfolding(wasm_types::specs::Body::reserved))]
fn reserved(cursor: &mut Cursor) -> Result<(), ReadStop>
    ensures { Gives (λ _. tt) result (place cursor.new) (reserved.read (place cursor.old)) }
{
    let at = cursor.at();
    if cursor.byte(ReadKind::Cut)? != 0 {
        return Err(fault(at, ReadKind::Reserved));
    }
    Ok(())
}

#[tactic(auto, unfolding(wasm_types::specs::Body::call_indirect))]
fn call_indirect(cursor: &mut Cursor) -> Result<Instr, ReadStop>
    ensures { Gives (λ i. (i, [])) result (place cursor.new)
        (call_indirect.read (place cursor.old)) }
{
    let ty = cursor.index()?;
    reserved(cursor)?;
    Ok(Instr::CallIndirect { ty })
}

#[tactic(auto, unfolding(wasm_types::specs::Body::memory_access))]
fn memory_access(cursor: &mut Cursor, op: u8) -> Result<Instr, ReadStop>
    ensures { Gives (λ i. (i, [])) result (place cursor.new)
        ((memory_access op).read (place cursor.old)) }
{
    let align = cursor.index()?;
    let offset = cursor.index()?;
    Ok(Instr::Mem { op, align, offset })
}

/// The labels go behind the targets that are there.
fn br_table(alloc: Global, cursor: &mut Cursor, targets: &mut Vec<u32>) -> Result<Instr, ReadStop>
    requires { length targets.old.items < 2 ^ 32 }
    ensures { Gives (λ i. (i, targets.new.items)) result (place cursor.new)
        (adding targets.old.items ((br_table (length targets.old.items)).read (place cursor.old))) }
{
    let first = targets.len() as u32;
    let count = cursor.index()?;
    items_into(alloc, cursor, targets, count)?;
    let default = cursor.index()?;
    Ok(Instr::BrTable {
        first,
        count,
        default,
    })
}

/// What stands behind an opcode.
fn operands(
    alloc: Global,
    cursor: &mut Cursor,
    targets: &mut Vec<u32>,
    op: u8,
    shape: Shape,
) -> Result<Instr, ReadStop>
    requires { length targets.old.items < 2 ^ 32 }
    ensures { Gives (λ i. (i, targets.new.items)) result (place cursor.new)
        (adding targets.old.items
        ((operands (length targets.old.items) op shape).read (place cursor.old))) }
{
    match shape {
        Shape::Plain => Ok(Instr::Op(op)),
        Shape::Reserved => {
            reserved(cursor)?;
            Ok(Instr::Op(op))
        }
        Shape::Index => {
            let index = cursor.index()?;
            Ok(Instr::Index { op, index })
        }
        Shape::CallIndirect => {
            let instr = call_indirect(cursor)?;
            Ok(instr)
        }
        Shape::BrTable => {
            let instr = br_table(alloc, cursor, targets)?;
            Ok(instr)
        }
        Shape::Memory => {
            let instr = memory_access(cursor, op)?;
            Ok(instr)
        }
        Shape::I32Const => {
            let n = cursor.s32()?;
            Ok(Instr::Const(Value::I32(n)))
        }
        Shape::I64Const => {
            let n = cursor.s64()?;
            Ok(Instr::Const(Value::I64(n)))
        }
        Shape::Block => {
            let result = block_type(cursor)?;
            Ok(Instr::Block { result, end: 0 })
        }
        Shape::Loop => {
            let result = block_type(cursor)?;
            Ok(Instr::Loop { result, end: 0 })
        }
        Shape::If => {
            let result = block_type(cursor)?;
            Ok(Instr::If {
                result,
                els: None,
                end: 0,
            })
        }
        Shape::Else => Ok(Instr::Else { end: 0 }),
        Shape::End => Ok(Instr::End),
    }
}

/// An instruction, whose `end` and `els` are still open. An `else` may come only where it is said so.
#[tactic(auto, unfolding(wasm_types::specs::Body::instr))]
pub fn instr(
    alloc: Global,
    cursor: &mut Cursor,
    targets: &mut Vec<u32>,
    may_else: bool,
) -> Result<Instr, ReadStop>
    requires { length targets.old.items < 2 ^ 32 }
    ensures { Gives (λ i. (i, targets.new.items)) result (place cursor.new)
        (adding targets.old.items
        ((instr (length targets.old.items) may_else).read (place cursor.old))) }
{
    let (op, shape) = opcode(cursor, may_else)?;
    let instr = operands(alloc, cursor, targets, op, shape)?;
    Ok(instr)
}
