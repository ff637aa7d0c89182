ghost use Rattle.std.specs.Prelude.{◌≡◌, ◌++◌, [], ◌∷◌, Option, take, drop, OnOk};
ghost use Rattle.wasm_types.specs.Opcodes.{shape};
ghost use Rattle.wasm_types.specs.Plain.{plain_code};
ghost use Rattle.wasm_writer.specs.ShortNumber.{unsigned};
ghost use Rattle.wasm_writer.specs.Spelling.{vector_text, block_type_text, reserved_text, instr_text, body_text, code_text};

use crate::globals::put_value;
use crate::locals::put_locals;
use crate::number::put_unsigned;
use crate::spell::{Spell, put_sized, put_vector};
use crate::types::val_type_byte;
use std::alloc::AllocError;
use wasm_types::{Code, Instr, Shape, ValType, shape_of};

/// The labels of one `br_table`, among those of its body.
fn put_labels(out: &mut Vec<u8>, targets: &[u32], first: u32, count: u32) -> Result<(), AllocError>
    ensures { OnOk result (out.new.items
        ≡ out.old.items ++ vector_text unsigned (take count (drop first targets.now))) }
{
    let rest = &targets[targets.len().min(first as usize)..];
    put_vector(out, &rest[..rest.len().min(count as usize)])
}

/// A block's opcode, and its type.
fn put_block(out: &mut Vec<u8>, op: u8, block_type: Option<ValType>) -> Result<(), AllocError>
    ensures { OnOk result (out.new.items ≡ out.old.items ++ op ∷ block_type_text block_type) }
{
    out.push(op)?;
    let byte = match block_type {
        None => 0x40,
        Some(ty) => val_type_byte(ty),
    };
    out.push(byte)?;
    Ok(())
}

fn put_byte(out: &mut Vec<u8>, byte: u8) -> Result<(), AllocError>
    ensures { OnOk result (out.new.items ≡ out.old.items ++ byte ∷ []) }
{
    out.push(byte)?;
    Ok(())
}

/// An opcode that stands alone, but for the byte 0 that some have behind them.
fn put_op(out: &mut Vec<u8>, op: u8) -> Result<(), AllocError>
    ensures { OnOk result (out.new.items ≡ out.old.items ++ op ∷ reserved_text (shape op)) }
{
    out.push(op)?;
    if let Ok(Shape::Reserved) = shape_of(op) {
        out.push(0)?;
    }
    Ok(())
}

/// An opcode, and an index behind it.
fn put_index(out: &mut Vec<u8>, op: u8, index: u32) -> Result<(), AllocError>
    ensures { OnOk result (out.new.items ≡ out.old.items ++ op ∷ unsigned index) }
{
    out.push(op)?;
    put_unsigned(out, index as usize)
}

fn put_instr(out: &mut Vec<u8>, targets: &[u32], instr: Instr) -> Result<(), AllocError>
    ensures { OnOk result (out.new.items ≡ out.old.items ++ instr_text targets.now instr) }
{
    match instr {
        Instr::Op(op) => put_op(out, op),
        Instr::Index { op, index } => put_index(out, op, index),
        Instr::CallIndirect { ty } => {
            put_index(out, 0x11, ty)?;
            out.push(0)?;
            Ok(())
        }
        Instr::BrTable {
            first,
            count,
            default,
        } => {
            out.push(0x0E)?;
            put_labels(out, targets, first, count)?;
            put_unsigned(out, default as usize)
        }
        Instr::Mem { op, align, offset } => {
            put_index(out, op, align)?;
            put_unsigned(out, offset as usize)
        }
        Instr::Const(value) => put_value(out, value),
        Instr::Block { result, .. } => put_block(out, 0x02, result),
        Instr::Loop { result, .. } => put_block(out, 0x03, result),
        Instr::If { result, .. } => put_block(out, 0x04, result),
        Instr::Else { .. } => put_byte(out, 0x05),
        Instr::End => put_byte(out, 0x0B),
    }
}

fn put_body(out: &mut Vec<u8>, targets: &[u32], body: &[Instr]) -> Result<(), AllocError>
    ensures { OnOk result (out.new.items ≡ out.old.items ++ body_text targets.now body.now) }
{
    for instr in body {
        put_instr(out, targets, *instr)?;
    }
    Ok(())
}

impl Spell for Code {
    ghost text = { λ c. code_text (plain_code c) };

    fn put(&self, out: &mut Vec<u8>) -> Result<(), AllocError> {
        let mut content = Vec::new(*out.allocator());
        put_locals(&mut content, &self.locals)?;
        put_body(&mut content, &self.targets, &self.body)?;
        put_sized(out, &content)
    }
}
