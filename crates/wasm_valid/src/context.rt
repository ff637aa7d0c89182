ghost use Rattle.std.specs.Prelude.{◌≡◌, ◌++◌, slice_get};

use wasm_types::{FuncType, ValType};

/// The type of a global.
#[derive(Clone, Copy, Debug, Drop, PartialEq, Eq)]
pub struct GlobalType {
    pub ty: ValType,
    pub mutable: bool,
}

/// What the instructions of a body may name: the module's index spaces, and the function's own parts.
#[derive(Drop)]
pub struct Context<'a> {
    pub types: &'a [FuncType],
    /// The type of each function, the imported ones first.
    pub funcs: &'a [u32],
    pub tables: usize,
    pub memories: usize,
    pub globals: &'a [GlobalType],
    pub params: &'a [ValType],
    pub locals: &'a [ValType],
    pub result: Option<ValType>,
    /// The labels of the body's `BrTable`s.
    pub targets: &'a [u32],
}

/// The type of a local: those are the parameters and then the declared ones.
pub fn local_type(params: &[ValType], locals: &[ValType], i: u32) -> Option<ValType>
    ensures { result ≡ slice_get (params.now ++ locals.now) i }
{
    let i = i as usize;
    if i < params.len() {
        return Some(params[i]);
    }
    let i = i - params.len();
    if i < locals.len() {
        return Some(locals[i]);
    }
    None
}
