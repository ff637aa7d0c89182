ghost use Rattle.std.specs.Prelude.{◌≡◌, ℕ, ◌<◌, ◌^◌, length, reverse, OnOk, Option, None};
ghost use Rattle.wasm_types.specs.Body.{closed, closings_with, innermost, placed};

use std::alloc::{AllocError, Global};
use wasm_types::Instr;

/// Where a block ends: the place of its `else`, if one comes, and that of its `end`.
type Closing = (Option<u32>, u32);

/// The instruction with its places, where this closes the block that it is of.
fn close(instr: Instr, closing: Closing) -> Instr
    ensures { result ≡ closed instr closing }
{
    let (els, end) = closing;
    match instr {
        Instr::Block { result, .. } => Instr::Block { result, end },
        Instr::Loop { result, .. } => Instr::Loop { result, end },
        Instr::If { result, .. } => Instr::If { result, els, end },
        Instr::Else { .. } => Instr::Else { end },
        _ => instr,
    }
}

/// What closes the innermost block.
fn last(closings: &[Closing]) -> Closing
    ensures { result ≡ innermost (reverse closings.now) }
{
    match closings.last() {
        Some(closing) => *closing,
        None => (None, 0),
    }
}

/// Goes back over an instruction at the place: an `end` begins a block, and its opcode leaves it.
fn go_back(closings: &mut Vec<Closing>, instr: Instr, at: u32) -> Result<(), AllocError>
    ensures { OnOk result (reverse closings.new.items
        ≡ closings_with at instr (reverse closings.old.items)) }
{
    match instr {
        Instr::Block { .. } | Instr::Loop { .. } | Instr::If { .. } => {
            closings.pop();
        }
        Instr::Else { .. } => {
            if let Some((_, end)) = closings.pop() {
                closings.push((Some(at), end))?;
            }
        }
        Instr::End => closings.push((None, at))?,
        _ => {}
    }
    Ok(())
}

/// Gives each block of a body the places of its `else` and its `end`.
pub fn place_blocks(alloc: Global, instrs: &mut [Instr]) -> Result<(), AllocError>
    requires { length instrs.old < 2 ^ 32 }
    ensures { OnOk result (instrs.new ≡ placed 0 instrs.old) }
{
    let mut closings = Vec::new(alloc);
    let mut at = instrs.len();
    while at > 0 {
        at -= 1;
        let instr = instrs[at];
        instrs[at] = close(instr, last(&closings));
        go_back(&mut closings, instr, at as u32)?;
    }
    Ok(())
}
