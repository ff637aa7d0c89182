ghost use Rattle.std.specs.Prelude.{◌≤◌, length};
ghost use Rattle.wasm_types.specs.Body.{group, groups_read, locals, max_locals};
ghost use Rattle.wasm_reader.specs.Gives.{Gives, with_items};
ghost use Rattle.wasm_reader.specs.CursorPlace.{place};

use crate::cursor::Cursor;
use crate::stop::{ReadStop, fault};
use crate::types::val_type;
use std::alloc::Global;
use wasm_types::{ReadKind, ValType};

/// How many locals a function may declare, without its parameters.
const MAX_LOCALS: usize = 4096;

/// A number of locals and their type, behind the locals that are there.
#[tactic(auto, unfolding(wasm_types::specs::Body::group))]
fn group(cursor: &mut Cursor, types: &mut Vec<ValType>) -> Result<(), ReadStop>
    requires { length types.old.items ≤ max_locals }
    ensures gives { Gives (λ _. types.new.items) result (place cursor.new)
        (with_items types.old.items ((group (length types.old.items)).read (place cursor.old))) }
    ensures most { length types.new.items ≤ max_locals }
{
    let at = cursor.at();
    let size = cursor.index()? as usize;
    if size > MAX_LOCALS - types.len() {
        return Err(fault(at, ReadKind::Locals));
    }
    let ty = val_type(cursor)?;
    let len = types.len() + size;
    types.resize(len, ty)?;
    Ok(())
}

fn groups(alloc: Global, cursor: &mut Cursor, count: u32) -> Result<Vec<ValType>, ReadStop>
    ensures { Gives (λ v. v.items) result (place cursor.new)
        (groups_read count 0 (place cursor.old)) }
{
    let mut types = Vec::new(alloc);
    for _ in 0..count {
        group(cursor, &mut types)?;
    }
    Ok(types)
}

/// The declared locals of a function, which stand in groups of one type.
#[tactic(auto, unfolding(wasm_types::specs::Body::locals))]
pub fn locals(alloc: Global, cursor: &mut Cursor) -> Result<Vec<ValType>, ReadStop>
    ensures { Gives (λ v. v.items) result (place cursor.new) (locals.read (place cursor.old)) }
{
    let count = cursor.index()?;
    let types = groups(alloc, cursor, count)?;
    Ok(types)
}
