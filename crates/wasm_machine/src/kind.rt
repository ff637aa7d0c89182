ghost use Rattle.std.specs.Prelude.{◌≡◌};
ghost use Rattle.wasm_machine.specs.Kinds.{plain_kind, index_kind, width};

/// The instructions without an operand in the code.
#[derive(Clone, Copy, Debug, PartialEq, Eq)]
pub enum PlainKind {
    Nop,
    Return,
    Drop,
    Select,
    MemorySize,
    MemoryGrow,
    /// A numeric instruction on one operand.
    OnOne,
    /// A numeric instruction on two operands.
    OnTwo,
    /// `unreachable`, and what isn't one of these.
    Unreachable,
}

/// The instructions with an index in the code.
#[derive(Clone, Copy, Debug, PartialEq, Eq)]
pub enum IndexKind {
    Branch,
    BranchIf,
    Call,
    LocalGet,
    LocalSet,
    LocalTee,
    GlobalGet,
    GlobalSet,
    /// What isn't one of these.
    Unreachable,
}

#[inline(always)]
pub(crate) fn plain_kind(op: u8) -> PlainKind
    ensures { result ≡ plain_kind op }
{
    match op {
        0x01 => PlainKind::Nop,
        0x0F => PlainKind::Return,
        0x1A => PlainKind::Drop,
        0x1B => PlainKind::Select,
        0x3F => PlainKind::MemorySize,
        0x40 => PlainKind::MemoryGrow,
        0x45 | 0x50 | 0x67..=0x69 | 0x79..=0x7B | 0xA7 | 0xAC..=0xAD | 0xC0..=0xC4 => {
            PlainKind::OnOne
        }
        0x46..=0x4F | 0x51..=0x5A | 0x6A..=0x78 | 0x7C..=0x8A => PlainKind::OnTwo,
        _ => PlainKind::Unreachable,
    }
}

#[inline(always)]
pub(crate) fn index_kind(op: u8) -> IndexKind
    ensures { result ≡ index_kind op }
{
    match op {
        0x0C => IndexKind::Branch,
        0x0D => IndexKind::BranchIf,
        0x10 => IndexKind::Call,
        0x20 => IndexKind::LocalGet,
        0x21 => IndexKind::LocalSet,
        0x22 => IndexKind::LocalTee,
        0x23 => IndexKind::GlobalGet,
        0x24 => IndexKind::GlobalSet,
        _ => IndexKind::Unreachable,
    }
}

/// How many bytes a load or a store moves.
#[inline(always)]
pub(crate) fn width(op: u8) -> Option<u8>
    ensures { result ≡ width op }
{
    match op {
        0x2C | 0x2D | 0x30 | 0x31 | 0x3A | 0x3C => Some(1),
        0x2E | 0x2F | 0x32 | 0x33 | 0x3B | 0x3D => Some(2),
        0x28 | 0x34 | 0x35 | 0x36 | 0x3E => Some(4),
        0x29 | 0x37 => Some(8),
        _ => None,
    }
}
