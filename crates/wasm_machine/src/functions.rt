ghost use Rattle.std.specs.Prelude.{◌≡◌, ◌<◌, length, slice_get};
ghost use Rattle.std.specs.Option.{option_map};
ghost use Rattle.wasm_types.specs.Plain.{plain_module, plain_func_type};
ghost use Rattle.wasm_types.specs.Gate.{are_same};
ghost use Rattle.wasm_machine.specs.Start.{imported, desc_type, type_index, func_type, code_at};
ghost use Rattle.wasm_machine.specs.Rests.{IsBodyOf};
ghost use Rattle.wasm_machine.specs.Exec.{declared};

use wasm_types::{Desc, FuncType, Instr, Module, ValType};

/// The item at a place.
#[inline(always)]
pub(crate) fn item_at<T: Copy>(items: &[T], place: usize) -> Option<T>
    ensures { result ≡ slice_get items.now place }
{
    items.get(place).copied()
}

/// How many functions are imported.
#[inline]
pub(crate) fn imported(m: &Module) -> usize
    ensures { result ≡ imported (plain_module m.now) }
{
    m.imports.len()
}

/// The place of an imported function's type among the types.
fn desc_type(desc: Desc) -> Option<u32>
    ensures { result ≡ desc_type desc }
{
    match desc {
        Desc::Func(ty) => Some(ty),
        Desc::Table(_) | Desc::Memory(_) | Desc::Global { ty: _, mutable: _ } => None,
    }
}

/// The place of a function's type among the types.
fn type_index(m: &Module, func: usize) -> Option<u32>
    ensures { result ≡ type_index (plain_module m.now) func }
{
    let imported = m.imports.len();
    if func < imported {
        desc_type(m.imports[func].desc)
    } else {
        m.funcs.get(func - imported).copied()
    }
}

/// The type of a function, the imported ones counted first.
#[inline]
pub(crate) fn func_type(m: &Module, func: u32) -> Option<&FuncType>
    ensures { option_map (λ t. plain_func_type t.now) result ≡ func_type (plain_module m.now) func }
{
    match type_index(m, func as usize) {
        Some(ty) => m.types.get(ty as usize),
        None => None,
    }
}

/// The types of the locals that a function of the module declares.
#[inline]
pub(crate) fn locals_at(m: &Module, code: usize) -> &[ValType]
    ensures { result.now ≡ (code_at (plain_module m.now) code).locals }
{
    match m.codes.get(code) {
        Some(code) => &code.locals,
        None => &[],
    }
}

/// How many locals a function declares; an imported one has none.
#[inline]
pub(crate) fn declared(m: &Module, func: u32) -> usize
    ensures { result ≡ length (declared (plain_module m.now) func) }
{
    let imported = imported(m);
    if (func as usize) < imported {
        return 0;
    }
    locals_at(m, func as usize - imported).len()
}

/// What a function of the module runs: its instructions, and the labels of its `br_table`s.
#[derive(Clone, Copy)]
pub(crate) struct Body<'a> {
    pub instrs: &'a [Instr],
    pub targets: &'a [u32],
}

/// The body of a function of the module.
pub(crate) fn body_at(m: &Module, code: usize) -> Body<'_>
    ensures { IsBodyOf (code_at (plain_module m.now) code) result.instrs.now result.targets.now }
{
    match m.codes.get(code) {
        Some(code) => Body {
            instrs: &code.body,
            targets: &code.targets,
        },
        None => Body {
            instrs: &[],
            targets: &[],
        },
    }
}

/// Whether a function has the type at a place among the types.
pub(crate) fn has_type(m: &Module, ty: u32, func: u32) -> bool
    ensures { result ≡ are_same (slice_get (plain_module m.now).types ty) (func_type (plain_module m.now) func) }
{
    let Some(a) = m.types.get(ty as usize) else {
        return false;
    };
    let Some(b) = func_type(m, func) else {
        return false;
    };
    a == b
}
