ghost use Rattle.std.specs.Prelude.{◌≡◌, ◌++◌, ◌∷◌, [], ℕ, List, Option, map, length, OnOk, string_bytes};
ghost use Rattle.std.specs.Option.{option_map};
ghost use Rattle.chain_records.specs.Pieces.{be8, after_length, listed, optional, HasLength, IsText, IsNumber, AreListed, IsOptional};
ghost use Rattle.chain_records.specs.Records.{bytes_view, list_view};
ghost use Rattle.chain_records.specs.Puts.{Puts};
ghost use Rattle.chain_records.specs.Reading.{Gives, bytes_at, text_at, items_at, list_at, optional_at};

use crate::fault::Stop;
use crate::reading::{front_at, number_at, text_of};
use std::alloc::{AllocError, Global};

/// A part of a record that tells where it ends, of which there can be a list or none.
pub trait Field: Drop {
    /// The plain form of a value.
    ghost Shown: { Type 0 };

    ghost shown: { Self → Shown };

    /// Its bytes.
    ghost written: { Shown → List ℕ };

    /// What holds of every value.
    ghost holds: { Shown → Type 0 };

    /// What reading one from the front of bytes gives.
    ghost reading: { List ℕ → Option (Shown × List ℕ) };

    fn put(&self, bytes: &mut Vec<u8>) -> Result<(), AllocError>
        ensures { OnOk result (Puts written holds (shown self.now) bytes.old.items bytes.new.items) };

    fn read_at(alloc: Global, bytes: &[u8]) -> Result<(Self, &[u8]), Stop>
        ensures { Gives (λ x. (shown x.0, x.1.now)) result (reading bytes.now) };
}

pub fn put_number(bytes: &mut Vec<u8>, number: u64) -> Result<(), AllocError>
    ensures { OnOk result (Puts be8 IsNumber number bytes.old.items bytes.new.items) }
{
    bytes.extend_from_slice(&number.to_be_bytes())
}

/// Bytes behind their number.
pub fn put_bytes(bytes: &mut Vec<u8>, part: &[u8]) -> Result<(), AllocError>
    ensures { OnOk result (Puts after_length HasLength part.now bytes.old.items bytes.new.items) }
{
    put_number(bytes, part.len() as u64)?;
    bytes.extend_from_slice(part)
}

/// Items behind their number.
pub fn put_list<T: Field>(bytes: &mut Vec<u8>, items: &[T]) -> Result<(), AllocError>
    ensures { OnOk result (Puts (listed T.written) (AreListed T.holds) (map T.shown items.now)
        bytes.old.items bytes.new.items) }
{
    put_number(bytes, items.len() as u64)?;
    for item in items {
        item.put(bytes)?;
    }
    Ok(())
}

/// A byte that tells whether there is a value, and the value.
#[tactic(auto, unfolding(crate::specs::Pieces::optional))]
pub fn put_optional<T: Field>(bytes: &mut Vec<u8>, value: &Option<T>) -> Result<(), AllocError>
    ensures { OnOk result (Puts (optional T.written) (IsOptional T.holds) (option_map T.shown value.now)
        bytes.old.items bytes.new.items) }
{
    match value {
        None => bytes.push(0)?,
        Some(value) => {
            bytes.push(1)?;
            value.put(bytes)?;
        }
    }
    Ok(())
}

/// Bytes behind their number, and the bytes after them.
#[tactic(auto, unfolding(crate::specs::Reading::bytes_at))]
pub fn bytes_at(bytes: &[u8]) -> Result<(&[u8], &[u8]), Stop>
    ensures { Gives (λ x. (x.0.now, x.1.now)) result (bytes_at bytes.now) }
{
    let (count, rest) = number_at(bytes)?;
    front_at(rest, count as usize)
}

#[tactic(auto, unfolding(crate::specs::Reading::items_at))]
fn items_at<T: Field>(alloc: Global, bytes: &[u8], count: u64) -> Result<(Vec<T>, &[u8]), Stop>
    ensures { Gives (λ x. (map T.shown x.0.items, x.1.now)) result (items_at T.reading count bytes.now) }
{
    let mut items = Vec::new(alloc);
    let mut rest = bytes;
    for _ in 0..count {
        let (item, after) = T::read_at(alloc, rest)?;
        items.push(item)?;
        rest = after;
    }
    Ok((items, rest))
}

#[tactic(auto, unfolding(crate::specs::Reading::list_at))]
pub fn list_at<T: Field>(alloc: Global, bytes: &[u8]) -> Result<(Vec<T>, &[u8]), Stop>
    ensures { Gives (λ x. (map T.shown x.0.items, x.1.now)) result (list_at T.reading bytes.now) }
{
    let (count, rest) = number_at(bytes)?;
    items_at(alloc, rest, count)
}

#[tactic(auto, unfolding(crate::specs::Reading::optional_at))]
pub fn optional_at<T: Field>(alloc: Global, bytes: &[u8]) -> Result<(Option<T>, &[u8]), Stop>
    ensures { Gives (λ x. (option_map T.shown x.0, x.1.now)) result
        (optional_at T.reading bytes.now) }
{
    match bytes {
        [0, rest @ ..] => Ok((None, rest)),
        [1, rest @ ..] => {
            let (value, rest) = T::read_at(alloc, rest)?;
            Ok((Some(value), rest))
        }
        _ => Err(Stop::Unreadable),
    }
}

impl Field for Vec<u8> {
    ghost Shown = { List ℕ };

    ghost shown = { bytes_view };

    ghost written = { after_length };

    ghost holds = { HasLength };

    ghost reading = { bytes_at };

    fn put(&self, bytes: &mut Vec<u8>) -> Result<(), AllocError> {
        put_bytes(bytes, self)
    }

    fn read_at(alloc: Global, bytes: &[u8]) -> Result<(Vec<u8>, &[u8]), Stop> {
        let (front, rest) = bytes_at(bytes)?;
        let front = Vec::from_slice(alloc, front)?;
        Ok((front, rest))
    }
}

impl Field for String {
    ghost Shown = { List ℕ };

    ghost shown = { λ text. string_bytes text };

    ghost written = { after_length };

    ghost holds = { IsText };

    ghost reading = { text_at };

    fn put(&self, bytes: &mut Vec<u8>) -> Result<(), AllocError> {
        put_bytes(bytes, self.as_str().as_bytes())
    }

    #[tactic(auto, unfolding(crate::specs::Reading::text_at))]
    fn read_at(alloc: Global, bytes: &[u8]) -> Result<(String, &[u8]), Stop> {
        let (front, rest) = bytes_at(bytes)?;
        let text = text_of(alloc, front)?;
        Ok((text, rest))
    }
}

/// A list of addresses.
impl Field for Vec<Vec<u8>> {
    ghost Shown = { List (List ℕ) };

    ghost shown = { list_view };

    ghost written = { listed after_length };

    ghost holds = { AreListed HasLength };

    ghost reading = { list_at bytes_at };

    fn put(&self, bytes: &mut Vec<u8>) -> Result<(), AllocError> {
        put_list(bytes, self)
    }

    fn read_at(alloc: Global, bytes: &[u8]) -> Result<(Vec<Vec<u8>>, &[u8]), Stop> {
        list_at(alloc, bytes)
    }
}
