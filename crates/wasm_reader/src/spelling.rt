ghost use Rattle.std.specs.Prelude.{◌↔◌, IsTrue, IfOk, length, map};
ghost use Rattle.wasm_types.specs.Part.{times_read};
ghost use Rattle.wasm_types.specs.ModuleText.{IsModule, section_read, module_part};
ghost use Rattle.wasm_types.specs.Plain.{plain_module};
ghost use Rattle.wasm_types.specs.Types.{table};
ghost use Rattle.wasm_reader.specs.Gives.{Compares, vector_read};
ghost use Rattle.wasm_reader.specs.CursorPlace.{place};

use crate::cursor::Cursor;
use crate::element::Element;
use crate::sections::{begins, customs, end, number, tables};
use crate::stop::ReadStop;
use std::alloc::{AllocError, Global};
use wasm_types::{Limits, Module};

/// Whether these items stand here, each read and dropped in its turn.
fn same_items<T: Element>(alloc: Global, cursor: &mut Cursor, items: &[T]) -> Result<bool, ReadStop>
    ensures { Compares (map T.shown items.now) result (place cursor.new)
        (times_read T.reading (length items.now) (place cursor.old)) }
{
    for item in items {
        let read = T::read_at(alloc, cursor)?;
        if !read.same(item) {
            return Ok(false);
        }
    }
    Ok(true)
}

/// Whether a vector of these items stands here.
fn same_vector<T: Element>(
    alloc: Global,
    cursor: &mut Cursor,
    items: &[T],
) -> Result<bool, ReadStop>
    ensures { Compares (map T.shown items.now) result (place cursor.new)
        (vector_read T.reading (place cursor.old)) }
{
    let count = cursor.index()?;
    if count as usize != items.len() {
        return Ok(false);
    }
    let same = same_items(alloc, cursor, items)?;
    Ok(same)
}

/// Whether the section with this number has these items, where it stands here. There are none where
/// it doesn't.
#[tactic(auto, unfolding(wasm_types::specs::Part::sized_read, wasm_types::specs::ModuleText::section_read))]
fn same_section<T: Element>(
    alloc: Global,
    cursor: &mut Cursor,
    wanted: u8,
    items: &[T],
) -> Result<bool, ReadStop>
    ensures { Compares (map T.shown items.now) result (place cursor.new)
        (section_read wanted (vector_read T.reading) (place cursor.old)) }
{
    if !begins(cursor, wanted) {
        return Ok(items.is_empty());
    }
    number(cursor, wanted)?;
    let mut inside = cursor.part()?;
    if !same_vector(alloc, &mut inside, items)? {
        return Ok(false);
    }
    inside.finish()?;
    customs(cursor)?;
    Ok(true)
}

/// Whether the section of tables has these.
fn same_tables(alloc: Global, cursor: &mut Cursor, sizes: &[Limits]) -> Result<bool, ReadStop>
    ensures { Compares sizes.now result (place cursor.new)
        (section_read 4 (vector_read table.read) (place cursor.old)) }
{
    let read = tables(alloc, cursor)?;
    Ok(read.as_slice() == sizes)
}

/// Whether the whole input spells this module, part for part.
#[tactic(auto, unfolding(wasm_types::specs::ModuleText::module_part))]
fn same_module(alloc: Global, cursor: &mut Cursor, wanted: &Module) -> Result<bool, ReadStop>
    ensures { Compares (plain_module wanted.now) result (place cursor.new)
        (module_part.read (place cursor.old)) }
{
    cursor.header()?;
    customs(cursor)?;
    if !same_section(alloc, cursor, 1, &wanted.types)? {
        return Ok(false);
    }
    if !same_section(alloc, cursor, 2, &wanted.imports)? {
        return Ok(false);
    }
    if !same_section(alloc, cursor, 3, &wanted.funcs)? {
        return Ok(false);
    }
    if !same_tables(alloc, cursor, &wanted.tables)? {
        return Ok(false);
    }
    if !same_section(alloc, cursor, 5, &wanted.memories)? {
        return Ok(false);
    }
    if !same_section(alloc, cursor, 6, &wanted.globals)? {
        return Ok(false);
    }
    if !same_section(alloc, cursor, 7, &wanted.exports)? {
        return Ok(false);
    }
    if !same_section(alloc, cursor, 9, &wanted.elems)? {
        return Ok(false);
    }
    if !same_section(alloc, cursor, 10, &wanted.codes)? {
        return Ok(false);
    }
    if !same_section(alloc, cursor, 11, &wanted.segs)? {
        return Ok(false);
    }
    end(cursor, wanted.funcs.len(), wanted.codes.len())?;
    Ok(true)
}

/// Whether the bytes are a spelling of the module. It reads one item after the other, and keeps none.
pub fn spells(alloc: Global, wanted: &Module, code: &[u8]) -> Result<bool, AllocError>
    ensures { IfOk result (λ same. IsTrue same ↔ IsModule code.now (plain_module wanted.now)) }
{
    let mut cursor = Cursor::new(code);
    match same_module(alloc, &mut cursor, wanted) {
        Ok(same) => Ok(same),
        Err(ReadStop::Fault { .. }) => Ok(false),
        Err(ReadStop::NoMemory) => Err(AllocError),
    }
}
