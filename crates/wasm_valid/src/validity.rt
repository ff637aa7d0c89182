ghost use Rattle.wasm_types.specs.Plain.{plain_module};
ghost use Rattle.wasm_types.specs.ModuleText.{HasSpelling};
ghost use Rattle.wasm_types.specs.Laws.{IsShaped};
ghost use Rattle.wasm_types.specs.Validity.{valid_fault};
ghost use Rattle.wasm_valid.specs.Spaces.{AreSpaces, Faults};
ghost use Rattle.wasm_valid.specs.Sections.{tables_fault, memories_fault, heads_fault, contents_fault};

use crate::bodies::check_bodies;
use crate::exports::check_exports;
use crate::imports::{MOST_ELEMENTS, MOST_PAGES, check_imports};
use crate::items::check_items;
use crate::limits::check_limits;
use crate::spaces::Spaces;
use crate::stop::ValidStop;
use std::alloc::Global;
use wasm_types::{Module, ValidKind, spelled_are_shaped};

fn check_tables(m: &Module, spaces: &Spaces) -> Result<(), ValidStop>
    requires shaped { IsShaped (plain_module m.now) }
    requires spaces { AreSpaces spaces.now (plain_module m.now) }
    ensures { Faults result (tables_fault (plain_module m.now)) }
{
    let imported = spaces.imported_tables;
    check_limits(ValidKind::ManyTables, MOST_ELEMENTS, imported, &m.tables)
}

fn check_memories(m: &Module, spaces: &Spaces) -> Result<(), ValidStop>
    requires shaped { IsShaped (plain_module m.now) }
    requires spaces { AreSpaces spaces.now (plain_module m.now) }
    ensures { Faults result (memories_fault (plain_module m.now)) }
{
    let imported = spaces.imported_memories;
    check_limits(ValidKind::ManyMemories, MOST_PAGES, imported, &m.memories)
}

/// Imports, functions' types, tables and memories.
fn check_heads(m: &Module, spaces: &Spaces) -> Result<(), ValidStop>
    requires shaped { IsShaped (plain_module m.now) }
    requires spaces { AreSpaces spaces.now (plain_module m.now) }
    ensures { Faults result (heads_fault (plain_module m.now)) }
{
    check_imports(m)?;
    check_items(m, spaces, &m.funcs)?;
    check_tables(m, spaces)?;
    check_memories(m, spaces)
}

/// Globals, exports, elements, bodies and data.
fn check_contents(alloc: Global, m: &Module, spaces: &Spaces) -> Result<(), ValidStop>
    requires shaped { IsShaped (plain_module m.now) }
    requires spaces { AreSpaces spaces.now (plain_module m.now) }
    ensures { Faults result (contents_fault (plain_module m.now)) }
{
    check_items(m, spaces, &m.globals)?;
    check_exports(alloc, m, spaces)?;
    check_items(m, spaces, &m.elems)?;
    check_bodies(alloc, m, spaces)?;
    check_items(m, spaces, &m.segs)
}

/// Whether a module is valid by core 1.0, where also the offsets of elements and data name imported
/// globals alone; else its first fault.
pub fn valid(alloc: Global, m: &Module) -> Result<(), ValidStop>
    requires { HasSpelling (plain_module m.now) }
    ensures { Faults result (valid_fault (plain_module m.now)) }
{
    spelled_are_shaped();
    let spaces = Spaces::of(alloc, m)?;
    match check_heads(m, &spaces) {
        Ok(()) => check_contents(alloc, m, &spaces),
        Err(stop) => Err(stop),
    }
}
