ghost use Rattle.std.specs.Prelude.{◌≡◌, length, string_bytes, IfOk};
ghost use Rattle.module_file.specs.Form.{front_read, index, long, byte_list, text_of, utf8};
ghost use Rattle.module_file.specs.Gives.{Gives};

use crate::stop::Stop;
use std::alloc::Global;

/// So many bytes, and those after them.
#[tactic(auto, unfolding(crate::specs::Form::front_read))]
pub fn front_at(bytes: &[u8], count: usize) -> Result<(&[u8], &[u8]), Stop>
    ensures gives { Gives (λ x. (x.0.now, x.1.now)) result (front_read count bytes.now) }
    ensures long { IfOk result (λ x. length x.0.now ≡ count) }
{
    if bytes.len() < count {
        return Err(Stop::Unreadable);
    }
    Ok(bytes.split_at(count))
}

/// A number of four bytes, and the bytes after it.
#[tactic(auto, unfolding(crate::specs::Form::front_read, crate::specs::Form::index))]
pub fn index_at(bytes: &[u8]) -> Result<(u32, &[u8]), Stop>
    ensures { Gives (λ x. (x.0, x.1.now)) result (index.read bytes.now) }
{
    if bytes.len() < 4 {
        return Err(Stop::Unreadable);
    }
    let (front, rest) = bytes.split_at(4);
    let number = u32::from_le_bytes([front[0], front[1], front[2], front[3]]);
    Ok((number, rest))
}

/// A number of eight bytes, and the bytes after it.
#[tactic(auto, unfolding(crate::specs::Form::front_read, crate::specs::Form::long))]
pub fn long_at(bytes: &[u8]) -> Result<(u64, &[u8]), Stop>
    ensures { Gives (λ x. (x.0, x.1.now)) result (long.read bytes.now) }
{
    if bytes.len() < 8 {
        return Err(Stop::Unreadable);
    }
    let (front, rest) = bytes.split_at(8);
    let number = u64::from_le_bytes([
        front[0], front[1], front[2], front[3], front[4], front[5], front[6], front[7],
    ]);
    Ok((number, rest))
}

/// Bytes behind their number, and the bytes after them.
#[tactic(auto, unfolding(crate::specs::Form::byte_list))]
pub fn bytes_at(bytes: &[u8]) -> Result<(&[u8], &[u8]), Stop>
    ensures { Gives (λ x. (x.0.now, x.1.now)) result (byte_list.read bytes.now) }
{
    let (count, rest) = index_at(bytes)?;
    front_at(rest, count as usize)
}

/// The text that all of the bytes are.
#[tactic(auto, using(crate::proofs::Texts::text_is, crate::proofs::Texts::text_is_none))]
fn text_of(alloc: Global, bytes: &[u8]) -> Result<String, Stop>
    ensures { Gives (λ text. string_bytes text) result (text_of bytes.now) }
{
    match str::from_utf8(bytes) {
        Ok(text) => Ok(String::from_str(alloc, text)?),
        Err(_) => Err(Stop::Unreadable),
    }
}

/// A text behind its number of bytes, and the bytes after it.
#[tactic(auto, unfolding(crate::specs::Form::utf8))]
pub fn text_at(alloc: Global, bytes: &[u8]) -> Result<(String, &[u8]), Stop>
    ensures { Gives (λ x. (string_bytes x.0, x.1.now)) result (utf8.read bytes.now) }
{
    let (front, rest) = bytes_at(bytes)?;
    let text = text_of(alloc, front)?;
    Ok((text, rest))
}
