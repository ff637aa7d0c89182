ghost use Rattle.std.specs.Prelude.{◌≡◌, ◌∷◌, ◌<◌, ◌^◌, length, reverse, IfOk};
ghost use Rattle.wasm_types.specs.Body.{blocks_after, body};
ghost use Rattle.wasm_reader.specs.Gives.{Gives};
ghost use Rattle.wasm_reader.specs.CursorPlace.{place};
ghost use Rattle.wasm_reader.specs.Blocks.{blocks_of};

use crate::cursor::Cursor;
use crate::instr::instr;
use crate::stop::ReadStop;
use std::alloc::{AllocError, Global};
use wasm_types::Instr;

/// Whether an `else` may come in the innermost block behind the instruction, or `None` where the last
/// block has ended. The blocks around it are kept in `outer`, the innermost last.
fn nest(outer: &mut Vec<bool>, may_else: bool, instr: Instr) -> Result<Option<bool>, AllocError>
    ensures { IfOk result (λ inner. blocks_of inner (reverse outer.new.items)
        ≡ blocks_after instr (may_else ∷ reverse outer.old.items)) }
{
    match instr {
        Instr::Block { .. } | Instr::Loop { .. } => {
            outer.push(may_else)?;
            Ok(Some(false))
        }
        Instr::If { .. } => {
            outer.push(may_else)?;
            Ok(Some(true))
        }
        Instr::Else { .. } => Ok(Some(false)),
        Instr::End => Ok(outer.pop()),
        _ => Ok(Some(may_else)),
    }
}

/// The instructions of a body, whose places are still open, and its targets.
pub fn body(alloc: Global, cursor: &mut Cursor) -> Result<(Vec<Instr>, Vec<u32>), ReadStop>
    requires { length (place cursor.old).rest < 2 ^ 32 }
    ensures gives { Gives (λ b. (b.0.items, b.1.items)) result (place cursor.new)
        (body.read (place cursor.old)) }
    ensures small { IfOk result (λ b. length b.0.items < 2 ^ 32) }
{
    let mut instrs = Vec::new(alloc);
    let mut targets = Vec::new(alloc);
    let mut outer = Vec::new(alloc);
    let mut inner = Some(false);
    while let Some(may_else) = inner {
        let instr = instr(alloc, cursor, &mut targets, may_else)?;
        inner = nest(&mut outer, may_else, instr)?;
        instrs.push(instr)?;
    }
    Ok((instrs, targets))
}
