ghost use Rattle.std.specs.Prelude.{◌≡◌, length, string_bytes, IfOk};
ghost use Rattle.chain_records.specs.Reading.{Gives, end_of, front_at, number_at, number_of, text_of};

use crate::fault::Stop;
use std::alloc::Global;

/// Nothing is left.
pub fn end(bytes: &[u8]) -> Result<(), Stop>
    ensures { Gives (λ _. tt) result (end_of bytes.now) }
{
    if bytes.is_empty() {
        Ok(())
    } else {
        Err(Stop::Unreadable)
    }
}

/// So many bytes, and those after them.
#[tactic(auto, unfolding(crate::specs::Reading::front_at))]
pub fn front_at(bytes: &[u8], count: usize) -> Result<(&[u8], &[u8]), Stop>
    ensures gives { Gives (λ x. (x.0.now, x.1.now)) result (front_at count bytes.now) }
    ensures long { IfOk result (λ x. length x.0.now ≡ count) }
{
    if bytes.len() < count {
        return Err(Stop::Unreadable);
    }
    Ok(bytes.split_at(count))
}

/// A number of eight bytes, and the bytes after it.
#[tactic(auto, unfolding(crate::specs::Reading::front_at, crate::specs::Reading::number_at))]
pub fn number_at(bytes: &[u8]) -> Result<(u64, &[u8]), Stop>
    ensures { Gives (λ x. (x.0, x.1.now)) result (number_at bytes.now) }
{
    if bytes.len() < 8 {
        return Err(Stop::Unreadable);
    }
    let (front, rest) = bytes.split_at(8);
    let number = u64::from_be_bytes([
        front[0], front[1], front[2], front[3], front[4], front[5], front[6], front[7],
    ]);
    Ok((number, rest))
}

/// The number that all of the bytes are.
pub fn number_of(bytes: &[u8]) -> Result<u64, Stop>
    ensures { Gives (λ n. n) result (number_of bytes.now) }
{
    let (number, rest) = number_at(bytes)?;
    end(rest)?;
    Ok(number)
}

/// The text that all of the bytes are.
#[tactic(auto, using(crate::proofs::Texts::text_is, crate::proofs::Texts::text_is_none))]
pub fn text_of(alloc: Global, bytes: &[u8]) -> Result<String, Stop>
    ensures { Gives (λ text. string_bytes text) result (text_of bytes.now) }
{
    match str::from_utf8(bytes) {
        Ok(text) => Ok(String::from_str(alloc, text)?),
        Err(_) => Err(Stop::Unreadable),
    }
}
