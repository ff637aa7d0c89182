ghost use Rattle.std.specs.Prelude.{string_bytes};
ghost use Rattle.wasm_types.specs.Part.{byte_list};
ghost use Rattle.wasm_types.specs.Types.{text};
ghost use Rattle.wasm_reader.specs.Gives.{Gives};
ghost use Rattle.wasm_reader.specs.CursorPlace.{place};

use crate::cursor::Cursor;
use crate::stop::{ReadStop, fault};
use std::alloc::Global;
use wasm_types::ReadKind;

/// A text, where it lies in the input.
#[tactic(auto, using(crate::proofs::Texts::no_text, crate::proofs::Texts::text_is, crate::proofs::Texts::text_is_none))]
pub fn name<'a>(cursor: &mut Cursor<'a>) -> Result<&'a str, ReadStop>
    ensures { Gives (λ s. s.now) result (place cursor.new) (text.read (place cursor.old)) }
{
    let part = cursor.part()?;
    match str::from_utf8(part.rest()) {
        Ok(name) => Ok(name),
        Err(_) => Err(fault(part.at(), ReadKind::Name)),
    }
}

/// A text.
pub fn string(alloc: Global, cursor: &mut Cursor) -> Result<String, ReadStop>
    ensures { Gives (λ s. string_bytes s) result (place cursor.new) (text.read (place cursor.old)) }
{
    let text = name(cursor)?;
    Ok(String::from_str(alloc, text)?)
}

/// A list of bytes.
#[tactic(auto, using(crate::proofs::Texts::no_bytes, crate::proofs::Texts::bytes_are))]
pub fn bytes(alloc: Global, cursor: &mut Cursor) -> Result<Vec<u8>, ReadStop>
    ensures { Gives (λ v. v.items) result (place cursor.new) (byte_list.read (place cursor.old)) }
{
    let part = cursor.part()?;
    Ok(Vec::from_slice(alloc, part.rest())?)
}
