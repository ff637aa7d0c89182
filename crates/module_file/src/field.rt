ghost use Rattle.std.specs.Prelude.{◌≡◌, ◌++◌, ℕ, List, Option, All, map, OnOk, IfSome};
ghost use Rattle.std.specs.Option.{option_map};
ghost use Rattle.std.specs.List.{flat_map};
ghost use Rattle.wasm_types.specs.Bounds.{AreFewOf};
ghost use Rattle.wasm_types.specs.Laws.{AreFew};
ghost use Rattle.module_file.specs.Form.{index, byte_list, times_read, list_text, list_read, optional_text, optional_read};
ghost use Rattle.module_file.specs.Gives.{Gives};

use crate::reading::index_at;
use crate::stop::Stop;
use std::alloc::{AllocError, Global};

/// A part of a file that tells where it ends, of which there can be a list or none.
pub trait Field: Drop {
    /// The plain form of a value.
    ghost Shown: { Type 0 };

    ghost shown: { Self → Shown };

    /// Its bytes.
    ghost written: { Shown → List ℕ };

    /// What is known of a value that can be written.
    ghost holds: { Shown → Type 0 };

    /// What reading one from the front of bytes gives.
    ghost reading: { List ℕ → Option (Shown × List ℕ) };

    fn put(&self, bytes: &mut Vec<u8>) -> Result<(), AllocError>
        requires { holds (shown self.now) }
        ensures { OnOk result (bytes.new.items ≡ bytes.old.items ++ written (shown self.now)) };

    fn read_at(alloc: Global, bytes: &[u8]) -> Result<(Self, &[u8]), Stop>
        ensures { Gives (λ x. (shown x.0, x.1.now)) result (reading bytes.now) };
}

#[tactic(auto, unfolding(crate::specs::Form::index))]
pub fn put_index(bytes: &mut Vec<u8>, number: u32) -> Result<(), AllocError>
    ensures { OnOk result (bytes.new.items ≡ bytes.old.items ++ index.text number) }
{
    bytes.extend_from_slice(&number.to_le_bytes())
}

/// Bytes behind their number.
#[tactic(auto, unfolding(crate::specs::Form::byte_list))]
pub fn put_bytes(bytes: &mut Vec<u8>, part: &[u8]) -> Result<(), AllocError>
    requires { AreFew part.now }
    ensures { OnOk result (bytes.new.items ≡ bytes.old.items ++ byte_list.text part.now) }
{
    put_index(bytes, part.len() as u32)?;
    bytes.extend_from_slice(part)
}

fn put_items<T: Field>(bytes: &mut Vec<u8>, items: &[T]) -> Result<(), AllocError>
    requires { All T.holds (map T.shown items.now) }
    ensures { OnOk result (bytes.new.items
        ≡ bytes.old.items ++ flat_map T.written (map T.shown items.now)) }
{
    for item in items {
        item.put(bytes)?;
    }
    Ok(())
}

/// Items behind their number.
#[tactic(auto, unfolding(crate::specs::Form::list_text))]
pub fn put_list<T: Field>(bytes: &mut Vec<u8>, items: &[T]) -> Result<(), AllocError>
    requires { AreFewOf T.holds (map T.shown items.now) }
    ensures { OnOk result (bytes.new.items
        ≡ bytes.old.items ++ list_text T.written (map T.shown items.now)) }
{
    put_index(bytes, items.len() as u32)?;
    put_items(bytes, items)
}

#[tactic(auto, unfolding(crate::specs::Form::times_read))]
fn items_at<T: Field>(alloc: Global, bytes: &[u8], count: u32) -> Result<(Vec<T>, &[u8]), Stop>
    ensures { Gives (λ x. (map T.shown x.0.items, x.1.now)) result
        (times_read T.reading count bytes.now) }
{
    let mut items = Vec::new(alloc);
    let mut rest = bytes;
    for _ in 0..count {
        let (item, after) = T::read_at(alloc, rest)?;
        items.push(item)?;
        rest = after;
    }
    Ok((items, rest))
}

/// As many items as their number says. Room is made for each as it is read, whatever the number.
#[tactic(auto, unfolding(crate::specs::Form::list_read))]
pub fn list_at<T: Field>(alloc: Global, bytes: &[u8]) -> Result<(Vec<T>, &[u8]), Stop>
    ensures { Gives (λ x. (map T.shown x.0.items, x.1.now)) result (list_read T.reading bytes.now) }
{
    let (count, rest) = index_at(bytes)?;
    items_at(alloc, rest, count)
}

/// An index.
impl Field for u32 {
    ghost Shown = { ℕ };

    ghost shown = { λ n. n };

    ghost written = { index.text };

    ghost holds = { λ _. Unit {0} };

    ghost reading = { index.read };

    fn put(&self, bytes: &mut Vec<u8>) -> Result<(), AllocError> {
        put_index(bytes, *self)
    }

    fn read_at(_alloc: Global, bytes: &[u8]) -> Result<(u32, &[u8]), Stop> {
        index_at(bytes)
    }
}

/// A byte that tells whether there is a value, and the value.
#[tactic(auto, unfolding(crate::specs::Form::optional_text))]
pub fn put_optional<T: Field>(bytes: &mut Vec<u8>, value: &Option<T>) -> Result<(), AllocError>
    requires { IfSome (option_map T.shown value.now) T.holds }
    ensures { OnOk result (bytes.new.items
        ≡ bytes.old.items ++ optional_text T.written (option_map T.shown value.now)) }
{
    match value {
        None => bytes.push(0)?,
        Some(value) => {
            bytes.push(1)?;
            value.put(bytes)?;
        }
    }
    Ok(())
}

#[tactic(auto, unfolding(crate::specs::Form::optional_read))]
pub fn optional_at<T: Field>(alloc: Global, bytes: &[u8]) -> Result<(Option<T>, &[u8]), Stop>
    ensures { Gives (λ x. (option_map T.shown x.0, x.1.now)) result
        (optional_read T.reading bytes.now) }
{
    match bytes {
        [0, rest @ ..] => Ok((None, rest)),
        [1, rest @ ..] => {
            let (value, rest) = T::read_at(alloc, rest)?;
            Ok((Some(value), rest))
        }
        _ => Err(Stop::Unreadable),
    }
}
