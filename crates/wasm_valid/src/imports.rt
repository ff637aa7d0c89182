ghost use Rattle.std.specs.Prelude.{◌≡◌, List, length, map};
ghost use Rattle.wasm_types.specs.Plain.{PlainImport, plain_import, plain_module};
ghost use Rattle.wasm_types.specs.Laws.{AreFew};
ghost use Rattle.wasm_types.specs.Validity.{imported, table_in, memory_in, desc_kept, first_in};
ghost use Rattle.wasm_valid.specs.Stacks.{Ends};
ghost use Rattle.wasm_valid.specs.Spaces.{Faults};

use crate::items::is_there;
use crate::limits::check_one;
use crate::spaces::{memories_in, tables_in};
use crate::stop::ValidStop;
use wasm_types::{Desc, Import, Module, ValidKind};

/// The greatest size of a table, in elements, and of a memory, in pages.
pub const MOST_ELEMENTS: u32 = u32::MAX;

pub const MOST_PAGES: u32 = 65_536;

/// What is imported, behind so many other tables and memories.
fn check_desc(m: &Module, tables: usize, memories: usize, import: &Import) -> Result<(), ValidKind>
    ensures { (earlier : List PlainImport) → length (imported table_in earlier) ≡ tables → length (imported memory_in earlier) ≡ memories →
        Ends result (desc_kept (plain_module m.now) earlier import.now.desc) }
{
    match &import.desc {
        Desc::Func(ty) => is_there(ValidKind::TypeIndex, *ty, m.types.len()),
        Desc::Table(size) => check_one(ValidKind::ManyTables, MOST_ELEMENTS, tables, size),
        Desc::Memory(size) => check_one(ValidKind::ManyMemories, MOST_PAGES, memories, size),
        Desc::Global { .. } => Ok(()),
    }
}

pub fn check_imports(m: &Module) -> Result<(), ValidStop>
    requires few { AreFew m.now.imports.items }
    ensures { Faults result (first_in (λ earlier i. desc_kept (plain_module m.now) earlier i.desc)
        (map plain_import m.now.imports.items)) }
{
    let mut tables = 0;
    let mut memories = 0;
    let mut at = 0;
    while at < m.imports.len() {
        let import = &m.imports[at];
        match check_desc(m, tables, memories, import) {
            Ok(()) => {}
            Err(kind) => {
                return Err(ValidStop::Invalid {
                    func: None,
                    instr: at as u32,
                    kind,
                });
            }
        }
        tables += tables_in(import.desc);
        memories += memories_in(import.desc);
        at += 1;
    }
    Ok(())
}
