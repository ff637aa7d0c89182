ghost use Rattle.std.specs.Prelude.{◌≡◌, ◌<◌, ◌^◌, false, [], ◌∷◌, length};
ghost use Rattle.wasm_types.specs.Nesting.{Nests};
ghost use Rattle.wasm_types.specs.Typing.{body_fault};
ghost use Rattle.wasm_valid.specs.Contexts.{plain_context};
ghost use Rattle.wasm_valid.specs.Frames.{frames};
ghost use Rattle.wasm_valid.specs.Steps.{Turns, Advances, Finds, stop_at};

use crate::blocks::Blocks;
use crate::context::Context;
use crate::rules::rule;
use crate::stop::TypingStop;
use std::alloc::Global;
use wasm_types::{Instr, ValType, ValidKind};

/// The first fault of a body: the place of the instruction, and why it isn't typed.
#[derive(Clone, Copy, Debug, PartialEq, Eq)]
pub enum BodyStop {
    Untyped { instr: u32, kind: ValidKind },
    NoMemory,
}

fn turn(c: &Context<'_>, blocks: &mut Blocks, instr: Instr) -> Result<(), TypingStop>
    ensures { Turns (plain_context c.now) instr result (frames blocks.old) (frames blocks.new) }
{
    let rule = rule(c, blocks, instr)?;
    blocks.inner.operands.apply(rule)?;
    Ok(())
}

/// Goes over one instruction, and tells whether a block is still open behind it.
fn advance(
    alloc: Global,
    c: &Context<'_>,
    blocks: &mut Blocks,
    instr: Instr,
) -> Result<bool, TypingStop>
    ensures { Advances (plain_context c.now) instr result (frames blocks.old) (frames blocks.new) }
{
    match instr {
        Instr::Block { result, .. } => {
            blocks.open(alloc, false, result, result)?;
            Ok(true)
        }
        Instr::Loop { result, .. } => {
            blocks.open(alloc, false, result, None)?;
            Ok(true)
        }
        Instr::If { result, .. } => {
            match blocks.inner.operands.take(ValType::I32) {
                Ok(()) => {}
                Err(kind) => return Err(TypingStop::Wrong(kind)),
            }
            blocks.open(alloc, true, result, result)?;
            Ok(true)
        }
        Instr::Else { .. } => match blocks.inner.begin_other() {
            Ok(()) => Ok(true),
            Err(kind) => Err(TypingStop::Wrong(kind)),
        },
        Instr::End => match blocks.close() {
            Ok(more) => Ok(more),
            Err(kind) => Err(TypingStop::Wrong(kind)),
        },
        Instr::Op(_)
        | Instr::Index { .. }
        | Instr::CallIndirect { .. }
        | Instr::BrTable { .. }
        | Instr::Mem { .. }
        | Instr::Const(_) => match turn(c, blocks, instr) {
            Ok(()) => Ok(true),
            Err(stop) => Err(stop),
        },
    }
}

/// Looks for the first fault of a body.
pub fn check_body(alloc: Global, c: &Context<'_>, body: &[Instr]) -> Result<(), BodyStop>
    requires nests { Nests (false ∷ []) body.now }
    requires few { length body.now < 2 ^ 32 }
    ensures { Finds result (body_fault (plain_context c.now) body.now) }
{
    let mut blocks = Blocks::new(alloc, c.result);
    let mut at = 0;
    while at < body.len() {
        match advance(alloc, c, &mut blocks, body[at]) {
            Ok(true) => {}
            Ok(false) => return Ok(()),
            Err(stop) => return Err(stop_at(at as u32, stop)),
        }
        at += 1;
    }
    Ok(())
}

fn stop_at(at: u32, stop: TypingStop) -> BodyStop
    ensures { result ≡ stop_at at stop }
{
    match stop {
        TypingStop::Wrong(kind) => BodyStop::Untyped { instr: at, kind },
        TypingStop::NoMemory => BodyStop::NoMemory,
    }
}
