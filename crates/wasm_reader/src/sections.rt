ghost use Rattle.std.specs.Prelude.{◌≡◌, map, IfOk};
ghost use Rattle.wasm_types.specs.Place.{Reading};
ghost use Rattle.wasm_types.specs.Part.{sized_read};
ghost use Rattle.wasm_types.specs.ModuleText.{named_bytes, custom, customs, begins, section_read, end_read, module_part};
ghost use Rattle.wasm_types.specs.Types.{table};
ghost use Rattle.wasm_types.specs.Plain.{plain_module};
ghost use Rattle.wasm_types.specs.declared.limits.Limits.{Limits};
ghost use Rattle.wasm_types.specs.Part.{byte, marker};
ghost use Rattle.wasm_types.specs.declared.kind.ReadKind.TheVariants.{Section};
ghost use Rattle.wasm_reader.specs.Gives.{Gives, vector_read};
ghost use Rattle.wasm_reader.specs.CursorPlace.{place};

use crate::cursor::Cursor;
use crate::element::{Element, vector};
use crate::stop::{ReadStop, fault};
use crate::text::name;
use crate::types::table;
use std::alloc::{AllocError, Global};
use wasm_types::{Code, Limits, Module, ReadKind};

/// Whether the next byte is this one.
pub fn begins(cursor: &Cursor, wanted: u8) -> bool
    ensures { result ≡ begins wanted (place cursor.now).rest }
{
    match cursor.rest() {
        [] => false,
        [byte, ..] => *byte == wanted,
    }
}

/// The inside of a custom section: a name, and bytes that aren't looked at.
#[tactic(auto, unfolding(wasm_types::specs::Part::sized_read, wasm_types::specs::Part::used_up_read, wasm_types::specs::ModuleText::named_bytes))]
fn named_bytes(cursor: &mut Cursor) -> Result<(), ReadStop>
    ensures { Gives (λ _. tt) result (place cursor.new)
        (sized_read named_bytes.read (place cursor.old)) }
{
    let mut inside = cursor.part()?;
    name(&mut inside)?;
    Ok(())
}

/// The number of a section, which is known to stand here.
pub fn number(cursor: &mut Cursor, wanted: u8) -> Result<(), ReadStop>
    ensures { Gives (λ _. tt) result (place cursor.new)
        ((byte (marker wanted Section)).read (place cursor.old)) }
{
    let at = cursor.at();
    if cursor.byte(ReadKind::Cut)? != wanted {
        return Err(fault(at, ReadKind::Section));
    }
    Ok(())
}

#[tactic(auto, unfolding(wasm_types::specs::ModuleText::custom))]
fn custom(cursor: &mut Cursor) -> Result<(), ReadStop>
    ensures { Gives (λ _. tt) result (place cursor.new) (custom.read (place cursor.old)) }
{
    number(cursor, 0)?;
    named_bytes(cursor)?;
    Ok(())
}

/// The custom sections that stand here.
pub fn customs(cursor: &mut Cursor) -> Result<(), ReadStop>
    ensures { Gives (λ _. tt) result (place cursor.new) (customs.read (place cursor.old)) }
{
    while begins(cursor, 0) {
        custom(cursor)?;
    }
    Ok(())
}

/// The items of the section with this number, where it stands here: there are none where it doesn't.
#[tactic(auto, unfolding(wasm_types::specs::Part::sized_read, wasm_types::specs::ModuleText::section_read))]
pub fn section<T: Element>(
    alloc: Global,
    cursor: &mut Cursor,
    wanted: u8,
) -> Result<Vec<T>, ReadStop>
    ensures { Gives (λ v. map T.shown v.items) result (place cursor.new)
        (section_read wanted (vector_read T.reading) (place cursor.old)) }
{
    if !begins(cursor, wanted) {
        return Ok(Vec::new(alloc));
    }
    number(cursor, wanted)?;
    let mut inside = cursor.part()?;
    let items = vector(alloc, &mut inside)?;
    inside.finish()?;
    customs(cursor)?;
    Ok(items)
}

/// A table of functions, which is its size.
#[derive(Clone, Copy)]
struct Table(Limits);

impl Element for Table {
    ghost Shown = { Limits };

    ghost shown = { λ t. t.0 };

    ghost reading = { table.read };

    fn read_at(_alloc: Global, cursor: &mut Cursor) -> Result<Table, ReadStop> {
        let size = table(cursor)?;
        Ok(Table(size))
    }

    fn same(&self, other: &Table) -> bool {
        self.0 == other.0
    }
}

fn sizes(alloc: Global, tables: &[Table]) -> Result<Vec<Limits>, AllocError>
    ensures { IfOk result (λ v. v.items ≡ map (λ t. t.0) tables.now) }
{
    tables.iter().map(|table| table.0).collect(alloc)
}

pub fn tables(alloc: Global, cursor: &mut Cursor) -> Result<Vec<Limits>, ReadStop>
    ensures { Gives (λ v. v.items) result (place cursor.new)
        (section_read 4 (vector_read table.read) (place cursor.old)) }
{
    let tables: Vec<Table> = section(alloc, cursor, 4)?;
    Ok(sizes(alloc, &tables)?)
}

/// The end of the input, where there are as many functions as codes.
#[tactic(auto, unfolding(wasm_types::specs::ModuleText::end_read))]
pub fn end(cursor: &Cursor, funcs: usize, codes: usize) -> Result<(), ReadStop>
    ensures { Gives (λ _. tt) result (place cursor.now) (end_read funcs codes (place cursor.now)) }
{
    match cursor.rest() {
        [] => {
            if funcs == codes {
                Ok(())
            } else {
                Err(fault(cursor.at(), ReadKind::Count))
            }
        }
        [8, ..] => Err(fault(cursor.at(), ReadKind::Start)),
        _ => Err(fault(cursor.at(), ReadKind::Section)),
    }
}

/// The module that the whole input spells.
#[tactic(auto, unfolding(wasm_types::specs::ModuleText::module_part))]
pub fn whole(alloc: Global, cursor: &mut Cursor) -> Result<Module, ReadStop>
    ensures { Gives plain_module result (place cursor.new) (module_part.read (place cursor.old)) }
{
    cursor.header()?;
    customs(cursor)?;
    let types = section(alloc, cursor, 1)?;
    let imports = section(alloc, cursor, 2)?;
    let funcs = section(alloc, cursor, 3)?;
    let tables = tables(alloc, cursor)?;
    let memories = section(alloc, cursor, 5)?;
    let globals = section(alloc, cursor, 6)?;
    let exports = section(alloc, cursor, 7)?;
    let elems = section(alloc, cursor, 9)?;
    let codes: Vec<Code> = section(alloc, cursor, 10)?;
    let segs = section(alloc, cursor, 11)?;
    end(cursor, funcs.len(), codes.len())?;
    Ok(Module {
        types,
        imports,
        funcs,
        tables,
        memories,
        globals,
        exports,
        elems,
        codes,
        segs,
    })
}
