use crate::value::{ValType, Value};

/// An instruction, of at most 24 bytes. `end` and `els` are places in the body: those of the `End` and of
/// the `Else` that belong to the block.
#[derive(Clone, Copy, Debug, PartialEq, Eq)]
pub enum Instr {
    /// An instruction without operand.
    Op(u8),
    /// A branch by its label, a call by its function, or an access of a local or a global by its index.
    Index {
        op: u8,
        index: u32,
    },
    CallIndirect {
        ty: u32,
    },
    /// The labels are `count` of the code's `targets`, from `first` on.
    BrTable {
        first: u32,
        count: u32,
        default: u32,
    },
    /// A load or a store. The alignment is a power of two, given by its exponent.
    Mem {
        op: u8,
        align: u32,
        offset: u32,
    },
    Const(Value),
    Block {
        result: Option<ValType>,
        end: u32,
    },
    Loop {
        result: Option<ValType>,
        end: u32,
    },
    If {
        result: Option<ValType>,
        els: Option<u32>,
        end: u32,
    },
    Else {
        end: u32,
    },
    End,
}

const _: () = prove!(size_of::<Instr>() <= 24);
