use crate::global::Init;

/// Functions that are put into a table from an offset on.
#[derive(Debug, Drop, PartialEq, Eq)]
pub struct Elem {
    pub table: u32,
    pub offset: Init,
    pub funcs: Vec<u32>,
}

/// Bytes that are put into a memory from an offset on.
#[derive(Debug, Drop, PartialEq, Eq)]
pub struct Seg {
    pub memory: u32,
    pub offset: Init,
    pub bytes: Vec<u8>,
}
