ghost use Rattle.std.specs.Prelude.{◌≡◌};
ghost use Rattle.wasm_types.specs.Opcodes.{shape, const_op};

use crate::kind::ReadKind;

/// What stands behind an opcode.
#[derive(Clone, Copy, Debug, PartialEq, Eq)]
pub enum Shape {
    /// Nothing.
    Plain,
    /// A byte 00.
    Reserved,
    /// A label, a function, a local or a global.
    Index,
    /// A type, and a byte 00.
    CallIndirect,
    /// A list of labels, and one more.
    BrTable,
    /// An alignment and an offset.
    Memory,
    I32Const,
    I64Const,
    /// The type of a block.
    Block,
    Loop,
    If,
    Else,
    End,
}

#[tactic(auto, unfolding(crate::specs::Opcodes::shape))]
/// The shape of an opcode of core 1.0 or of the sign extensions C0 to C4, or why there is none.
pub fn shape_of(op: u8) -> Result<Shape, ReadKind>
    ensures { result ≡ shape op }
{
    match op {
        0x02 => Ok(Shape::Block),
        0x03 => Ok(Shape::Loop),
        0x04 => Ok(Shape::If),
        0x05 => Ok(Shape::Else),
        0x0B => Ok(Shape::End),
        0x0E => Ok(Shape::BrTable),
        0x11 => Ok(Shape::CallIndirect),
        0x3F | 0x40 => Ok(Shape::Reserved),
        0x41 => Ok(Shape::I32Const),
        0x42 => Ok(Shape::I64Const),
        0x0C | 0x0D | 0x10 | 0x20..=0x24 => Ok(Shape::Index),
        0x2A | 0x2B | 0x38 | 0x39 | 0x43 | 0x44 => Err(ReadKind::Float),
        0x28..=0x3E => Ok(Shape::Memory),
        0x5B..=0x66 | 0x8B..=0xA6 | 0xA8..=0xAB | 0xAE..=0xBF => Err(ReadKind::Float),
        0x00 | 0x01 | 0x0F | 0x1A | 0x1B => Ok(Shape::Plain),
        0x45..=0xC4 => Ok(Shape::Plain),
        _ => Err(ReadKind::Opcode),
    }
}

/// The opcodes that a constant expression may begin with.
#[derive(Clone, Copy, Debug, PartialEq, Eq)]
pub enum ConstOp {
    I32Const,
    I64Const,
    GlobalGet,
}

/// The opcode of a constant expression, or why it isn't one.
#[tactic(auto, unfolding(crate::specs::Opcodes::const_op))]
pub fn const_op_of(op: u8) -> Result<ConstOp, ReadKind>
    ensures { result ≡ const_op op }
{
    match shape_of(op) {
        Ok(Shape::I32Const) => Ok(ConstOp::I32Const),
        Ok(Shape::I64Const) => Ok(ConstOp::I64Const),
        Ok(Shape::Index) => {
            if op == 0x23 {
                Ok(ConstOp::GlobalGet)
            } else {
                Err(ReadKind::Opcode)
            }
        }
        Ok(_) => Err(ReadKind::Opcode),
        Err(kind) => Err(kind),
    }
}
