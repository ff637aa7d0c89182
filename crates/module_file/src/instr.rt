ghost use Rattle.std.specs.Prelude.{◌≡◌, ◌++◌, ◌∷◌, [], Option, Ok, OnOk};
ghost use Rattle.wasm_types.specs.declared.instr.Instr.{Instr};
ghost use Rattle.module_file.specs.Codes.{table_fields, access_fields, block_fields, if_fields, fields_read, instr};
ghost use Rattle.module_file.specs.Gives.{Gives};

use crate::field::{Field, optional_at, put_index, put_optional};
use crate::globals::put_long;
use crate::imports::put_tagged;
use crate::reading::{index_at, long_at};
use crate::stop::Stop;
use std::alloc::{AllocError, Global};
use wasm_types::{Instr, Shape, ValType, Value, shape_of};

fn put_table(bytes: &mut Vec<u8>, first: u32, count: u32, default: u32) -> Result<(), AllocError>
    ensures { OnOk result (bytes.new.items
        ≡ bytes.old.items ++ 0x0E ∷ table_fields.text (first, (count, default))) }
{
    put_tagged(bytes, 0x0E, first)?;
    put_index(bytes, count)?;
    put_index(bytes, default)
}

fn put_access(bytes: &mut Vec<u8>, op: u8, align: u32, offset: u32) -> Result<(), AllocError>
    ensures { OnOk result (bytes.new.items
        ≡ bytes.old.items ++ op ∷ access_fields.text (align, offset)) }
{
    put_tagged(bytes, op, align)?;
    put_index(bytes, offset)
}

fn put_block(bytes: &mut Vec<u8>, op: u8, ty: Option<ValType>, end: u32) -> Result<(), AllocError>
    ensures { OnOk result (bytes.new.items
        ≡ bytes.old.items ++ op ∷ block_fields.text (ty, end)) }
{
    bytes.push(op)?;
    put_optional(bytes, &ty)?;
    put_index(bytes, end)
}

fn put_if(
    bytes: &mut Vec<u8>,
    ty: Option<ValType>,
    els: Option<u32>,
    end: u32,
) -> Result<(), AllocError>
    ensures { OnOk result (bytes.new.items
        ≡ bytes.old.items ++ 0x04 ∷ if_fields.text (ty, (els, end))) }
{
    bytes.push(0x04)?;
    put_optional(bytes, &ty)?;
    put_optional(bytes, &els)?;
    put_index(bytes, end)
}

fn put_op(bytes: &mut Vec<u8>, op: u8) -> Result<(), AllocError>
    ensures { OnOk result (bytes.new.items ≡ bytes.old.items ++ op ∷ []) }
{
    bytes.push(op)?;
    Ok(())
}

#[tactic(auto, unfolding(crate::specs::Codes::instr))]
fn put_instr(bytes: &mut Vec<u8>, what: Instr) -> Result<(), AllocError>
    ensures { OnOk result (bytes.new.items ≡ bytes.old.items ++ instr.text what) }
{
    match what {
        Instr::Op(op) => put_op(bytes, op),
        Instr::Index { op, index } => put_tagged(bytes, op, index),
        Instr::CallIndirect { ty } => put_tagged(bytes, 0x11, ty),
        Instr::BrTable {
            first,
            count,
            default,
        } => put_table(bytes, first, count, default),
        Instr::Mem { op, align, offset } => put_access(bytes, op, align, offset),
        Instr::Const(Value::I32(n)) => put_tagged(bytes, 0x41, n),
        Instr::Const(Value::I64(n)) => put_long(bytes, 0x42, n),
        Instr::Block { result, end } => put_block(bytes, 0x02, result, end),
        Instr::Loop { result, end } => put_block(bytes, 0x03, result, end),
        Instr::If { result, els, end } => put_if(bytes, result, els, end),
        Instr::Else { end } => put_tagged(bytes, 0x05, end),
        Instr::End => put_op(bytes, 0x0B),
    }
}

fn table_at(bytes: &[u8]) -> Result<((u32, u32, u32), &[u8]), Stop>
    ensures { Gives (λ x. ((x.0.0, (x.0.1, x.0.2)), x.1.now)) result
        (table_fields.read bytes.now) }
{
    let (first, rest) = index_at(bytes)?;
    let (count, rest) = index_at(rest)?;
    let (default, rest) = index_at(rest)?;
    Ok(((first, count, default), rest))
}

fn access_at(bytes: &[u8]) -> Result<((u32, u32), &[u8]), Stop>
    ensures { Gives (λ x. (x.0, x.1.now)) result (access_fields.read bytes.now) }
{
    let (align, rest) = index_at(bytes)?;
    let (offset, rest) = index_at(rest)?;
    Ok(((align, offset), rest))
}

fn block_at(alloc: Global, bytes: &[u8]) -> Result<((Option<ValType>, u32), &[u8]), Stop>
    ensures { Gives (λ x. (x.0, x.1.now)) result (block_fields.read bytes.now) }
{
    let (ty, rest) = optional_at(alloc, bytes)?;
    let (end, rest) = index_at(rest)?;
    Ok(((ty, end), rest))
}

fn if_at(alloc: Global, bytes: &[u8]) -> Result<((Option<ValType>, Option<u32>, u32), &[u8]), Stop>
    ensures { Gives (λ x. ((x.0.0, (x.0.1, x.0.2)), x.1.now)) result (if_fields.read bytes.now) }
{
    let (ty, rest) = optional_at(alloc, bytes)?;
    let (els, rest) = optional_at(alloc, rest)?;
    let (end, rest) = index_at(rest)?;
    Ok(((ty, els, end), rest))
}

/// The fields behind an opcode of this shape.
fn fields_at(alloc: Global, op: u8, shape: Shape, bytes: &[u8]) -> Result<(Instr, &[u8]), Stop>
    ensures { Gives (λ x. (x.0, x.1.now)) result (fields_read op (Ok shape) bytes.now) }
{
    match shape {
        Shape::Plain | Shape::Reserved => Ok((Instr::Op(op), bytes)),
        Shape::Index => {
            let (index, rest) = index_at(bytes)?;
            Ok((Instr::Index { op, index }, rest))
        }
        Shape::CallIndirect => {
            let (ty, rest) = index_at(bytes)?;
            Ok((Instr::CallIndirect { ty }, rest))
        }
        Shape::BrTable => {
            let ((first, count, default), rest) = table_at(bytes)?;
            Ok((
                Instr::BrTable {
                    first,
                    count,
                    default,
                },
                rest,
            ))
        }
        Shape::Memory => {
            let ((align, offset), rest) = access_at(bytes)?;
            Ok((Instr::Mem { op, align, offset }, rest))
        }
        Shape::I32Const => {
            let (n, rest) = index_at(bytes)?;
            Ok((Instr::Const(Value::I32(n)), rest))
        }
        Shape::I64Const => {
            let (n, rest) = long_at(bytes)?;
            Ok((Instr::Const(Value::I64(n)), rest))
        }
        Shape::Block => {
            let ((result, end), rest) = block_at(alloc, bytes)?;
            Ok((Instr::Block { result, end }, rest))
        }
        Shape::Loop => {
            let ((result, end), rest) = block_at(alloc, bytes)?;
            Ok((Instr::Loop { result, end }, rest))
        }
        Shape::If => {
            let ((result, els, end), rest) = if_at(alloc, bytes)?;
            Ok((Instr::If { result, els, end }, rest))
        }
        Shape::Else => {
            let (end, rest) = index_at(bytes)?;
            Ok((Instr::Else { end }, rest))
        }
        Shape::End => Ok((Instr::End, bytes)),
    }
}

impl Field for Instr {
    ghost Shown = { Instr };

    ghost shown = { λ i. i };

    ghost written = { instr.text };

    ghost holds = { λ _. Unit {0} };

    ghost reading = { instr.read };

    fn put(&self, bytes: &mut Vec<u8>) -> Result<(), AllocError> {
        put_instr(bytes, *self)
    }

    #[tactic(auto, unfolding(crate::specs::Codes::instr))]
    fn read_at(alloc: Global, bytes: &[u8]) -> Result<(Instr, &[u8]), Stop> {
        match bytes {
            [] => Err(Stop::Unreadable),
            [op, rest @ ..] => match shape_of(*op) {
                Ok(shape) => fields_at(alloc, *op, shape, rest),
                Err(_) => Err(Stop::Unreadable),
            },
        }
    }
}
