ghost use Rattle.std.specs.Prelude.{◌≡◌, zip};
ghost use Rattle.wasm_types.specs.Plain.{plain_code, plain_func_type, plain_module};
ghost use Rattle.wasm_types.specs.Laws.{IsShaped};
ghost use Rattle.wasm_types.specs.Typing.{body_fault};
ghost use Rattle.wasm_types.specs.Validity.{context_of, bodies_fault};
ghost use Rattle.wasm_valid.specs.Spaces.{AreSpaces, Faults};
ghost use Rattle.wasm_valid.specs.Steps.{Finds};
ghost use Rattle.wasm_valid.specs.Bodies.{IsNested, func_stop, typed_fault};

use crate::body::{BodyStop, check_body};
use crate::context::Context;
use crate::spaces::Spaces;
use crate::stop::ValidStop;
use std::alloc::Global;
use wasm_types::{Code, FuncType, Module, ValidKind};

/// The body of a function of this type.
fn check_typed(
    alloc: Global,
    m: &Module,
    spaces: &Spaces,
    ty: &FuncType,
    code: &Code,
) -> Result<(), BodyStop>
    requires spaces { AreSpaces spaces.now (plain_module m.now) }
    requires nested { IsNested (plain_code code.now) }
    ensures { Finds result (body_fault (context_of (plain_module m.now) (plain_func_type ty.now) (plain_code code.now)) code.now.body.items) }
{
    let context = Context {
        types: &m.types,
        funcs: &spaces.funcs,
        tables: spaces.tables,
        memories: spaces.memories,
        globals: &spaces.globals,
        params: &ty.params,
        locals: &code.locals,
        result: ty.result,
        targets: &code.targets,
    };
    check_body(alloc, &context, &code.body)
}

/// The body of a function whose type has this number.
fn check_func(
    alloc: Global,
    m: &Module,
    spaces: &Spaces,
    ty: u32,
    code: &Code,
) -> Result<(), BodyStop>
    requires spaces { AreSpaces spaces.now (plain_module m.now) }
    requires nested { IsNested (plain_code code.now) }
    ensures { Finds result (typed_fault (plain_module m.now) ty (plain_code code.now)) }
{
    match m.types.get(ty as usize) {
        Some(ty) => check_typed(alloc, m, spaces, ty, code),
        None => Err(BodyStop::Untyped {
            instr: 0,
            kind: ValidKind::TypeIndex,
        }),
    }
}

/// Why the body at this place among the codes isn't valid.
fn func_stop(func: u32, stop: BodyStop) -> ValidStop
    ensures { result ≡ func_stop func stop }
{
    match stop {
        BodyStop::Untyped { instr, kind } => ValidStop::Invalid {
            func: Some(func),
            instr,
            kind,
        },
        BodyStop::NoMemory => ValidStop::NoMemory,
    }
}

pub fn check_bodies(alloc: Global, m: &Module, spaces: &Spaces) -> Result<(), ValidStop>
    requires spaces { AreSpaces spaces.now (plain_module m.now) }
    requires shaped { IsShaped (plain_module m.now) }
    ensures { Faults result (bodies_fault (plain_module m.now) 0 (zip (plain_module m.now).funcs (plain_module m.now).codes)) }
{
    let count = m.funcs.len().min(m.codes.len());
    let mut at = 0;
    while at < count {
        let code = &m.codes[at];
        match check_func(alloc, m, spaces, m.funcs[at], code) {
            Ok(()) => {}
            Err(stop) => return Err(func_stop(at as u32, stop)),
        }
        at += 1;
    }
    Ok(())
}
