use crate::export::Export;
use crate::func_type::FuncType;
use crate::global::GlobalVar;
use crate::import::Import;
use crate::instr::Instr;
use crate::limits::Limits;
use crate::segment::{Elem, Seg};
use crate::value::ValType;

/// What the bytes of every module begin with: its magic number and the version of the format.
pub const HEADER: [u8; 8] = [0x00, 0x61, 0x73, 0x6D, 0x01, 0x00, 0x00, 0x00];

/// The code of a function: its declared locals, without the parameters, and its body with the last `End`.
#[derive(Debug, Drop, PartialEq, Eq)]
pub struct Code {
    pub locals: Vec<ValType>,
    /// The labels of all `BrTable`s of the body, one after the other.
    pub targets: Vec<u32>,
    pub body: Vec<Instr>,
}

/// A WebAssembly 1.0 module. `funcs` has for each defined function the place of its type; its code has
/// the same place in `codes`.
#[derive(Debug, Drop, PartialEq, Eq)]
pub struct Module {
    pub types: Vec<FuncType>,
    pub imports: Vec<Import>,
    pub funcs: Vec<u32>,
    pub tables: Vec<Limits>,
    pub memories: Vec<Limits>,
    pub globals: Vec<GlobalVar>,
    pub exports: Vec<Export>,
    pub elems: Vec<Elem>,
    pub codes: Vec<Code>,
    pub segs: Vec<Seg>,
}
