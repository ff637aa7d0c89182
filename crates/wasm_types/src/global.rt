use crate::value::{ValType, Value};

/// A constant expression: a number, or the value of a global.
#[derive(Clone, Copy, Debug, PartialEq, Eq)]
pub enum Init {
    Const(Value),
    Global(u32),
}

/// A global that the module defines.
#[derive(Clone, Copy, Debug, PartialEq, Eq)]
pub struct GlobalVar {
    pub ty: ValType,
    pub mutable: bool,
    pub init: Init,
}
