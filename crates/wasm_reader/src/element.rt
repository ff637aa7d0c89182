ghost use Rattle.std.specs.Prelude.{◌↔◌, IsTrue, ◌≡◌, map, vec_len, ◌+◌, ◌≤◌};
ghost use Rattle.wasm_types.specs.Place.{Place, Reading};
ghost use Rattle.wasm_types.specs.Part.{times_read};
ghost use Rattle.wasm_reader.specs.Gives.{Gives, vector_read, with_items};
ghost use Rattle.wasm_reader.specs.CursorPlace.{place};

use crate::cursor::Cursor;
use crate::stop::ReadStop;
use std::alloc::Global;

/// An item of which the format has vectors: their number, and then the items.
pub trait Element: Drop {
    /// The plain form of an item.
    ghost Shown: { Type 0 };

    ghost shown: { Self → Shown };

    /// What reading an item from a place gives.
    ghost reading: { Place → Reading Shown };

    fn read_at(alloc: Global, cursor: &mut Cursor) -> Result<Self, ReadStop>
        ensures { Gives shown result (place cursor.new) (reading (place cursor.old)) };

    /// Whether two items have one plain form.
    fn same(&self, other: &Self) -> bool
        ensures { IsTrue result ↔ (shown self.now ≡ shown other.now) };
}

/// So many items, behind those that are there.
pub fn items_into<T: Element>(
    alloc: Global,
    cursor: &mut Cursor,
    items: &mut Vec<T>,
    count: u32,
) -> Result<(), ReadStop>
    ensures { Gives (λ _. map T.shown items.new.items) result (place cursor.new)
        (with_items (map T.shown items.old.items) (times_read T.reading count (place cursor.old))) }
{
    for _ in 0..count {
        items.push(T::read_at(alloc, cursor)?)?;
    }
    Ok(())
}

/// A vector of items.
pub fn vector<T: Element>(alloc: Global, cursor: &mut Cursor) -> Result<Vec<T>, ReadStop>
    ensures { Gives (λ v. map T.shown v.items) result (place cursor.new)
        (vector_read T.reading (place cursor.old)) }
{
    let count = cursor.index()?;
    let mut items = Vec::new(alloc);
    items_into(alloc, cursor, &mut items, count)?;
    Ok(items)
}
