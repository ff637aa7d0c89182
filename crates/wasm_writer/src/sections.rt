ghost use Rattle.std.specs.Prelude.{◌≡◌, ◌++◌, OnOk};
ghost use Rattle.std.specs.List.{flat_map};
ghost use Rattle.wasm_writer.specs.Spelling.{section_text, vector_text, table_text};

use crate::number::put_unsigned;
use crate::spell::{Spell, put_sized, put_vector};
use crate::types::put_table;
use std::alloc::AllocError;
use wasm_types::Limits;

/// The section with this number, left out where it has no items.
pub fn put_section<T: Spell>(out: &mut Vec<u8>, number: u8, items: &[T]) -> Result<(), AllocError>
    ensures { OnOk result (out.new.items ≡ out.old.items ++ section_text number T.text items.now) }
{
    if items.is_empty() {
        return Ok(());
    }
    let mut content = Vec::new(*out.allocator());
    put_vector(&mut content, items)?;
    out.push(number)?;
    put_sized(out, &content)
}

fn put_all_tables(out: &mut Vec<u8>, tables: &[Limits]) -> Result<(), AllocError>
    ensures { OnOk result (out.new.items ≡ out.old.items ++ flat_map table_text tables.now) }
{
    for size in tables {
        put_table(out, *size)?;
    }
    Ok(())
}

/// The number of tables, and the tables.
#[tactic(auto, unfolding(crate::specs::Spelling::vector_text))]
fn put_table_vector(out: &mut Vec<u8>, tables: &[Limits]) -> Result<(), AllocError>
    ensures { OnOk result (out.new.items ≡ out.old.items ++ vector_text table_text tables.now) }
{
    put_unsigned(out, tables.len())?;
    put_all_tables(out, tables)
}

/// The section of tables.
pub fn put_tables(out: &mut Vec<u8>, tables: &[Limits]) -> Result<(), AllocError>
    ensures { OnOk result (out.new.items ≡ out.old.items ++ section_text 4 table_text tables.now) }
{
    if tables.is_empty() {
        return Ok(());
    }
    let mut content = Vec::new(*out.allocator());
    put_table_vector(&mut content, tables)?;
    out.push(4)?;
    put_sized(out, &content)
}
