use crate::limits::Limits;
use crate::value::ValType;

/// What is imported. A function is named by the place of its type in the module's types.
#[derive(Clone, Copy, Debug, PartialEq, Eq)]
pub enum Desc {
    Func(u32),
    Table(Limits),
    Memory(Limits),
    Global { ty: ValType, mutable: bool },
}

/// One import, by its two names.
#[derive(Debug, Drop, PartialEq, Eq)]
pub struct Import {
    pub module: String,
    pub name: String,
    pub desc: Desc,
}
