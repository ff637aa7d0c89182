//! Which codes are pinned.

ghost use Rattle.std.specs.Prelude.{◌≡◌, ℕ, IfOk, option_map};
ghost use Rattle.std.specs.FinMap.{keys};
ghost use Rattle.chain_records.specs.Keys.{plain_key, key_bytes, IsKeyOf, counters, pin};
ghost use Rattle.chain_records.specs.Spelled.{OfEach, HasTyped};
ghost use Rattle.code_registry.specs.Steps.{IsPlace, IsNextPin, found_view};

use chain_records::{Key, RecordFault, bytes_tell_keys, key_bytes, key_of, keys_keep_their_order};
use kv_layers::{Base, Order};
use std::alloc::{AllocError, Global};

/// The ids of the pinned codes, rising.
pub fn pinned<B: Base>(alloc: Global, view: &B) -> Result<Vec<u64>, AllocError>
    requires { HasTyped (B.stands_for view.now) }
    ensures { IfOk result (λ ids. OfEach (B.stands_for view.now) (λ s. ids.items ≡ keys s.pins)) }
{
    keys_keep_their_order();
    let mut lo = key_bytes(alloc, &Key::Pin(0))?;
    let hi = key_bytes(alloc, &Key::Counters)?;
    let mut ids = Vec::new(alloc);
    'pins: while let Some((key, id)) = next_pin(alloc, view, &lo, &hi)? {
        ids.push(id)?;
        lo = key;
        lo.push(0)?;
    }
    Ok(ids)
}

/// The first pin from a key on, with its key. Its end is the key of the next kind.
fn next_pin<B: Base>(
    alloc: Global,
    view: &B,
    lo: &[u8],
    hi: &[u8],
) -> Result<Option<(Vec<u8>, u64)>, AllocError>
    requires from { (from : ℕ) × IsPlace lo.now from }
    requires to { hi.now ≡ key_bytes counters }
    requires typed { HasTyped (B.stands_for view.now) }
    ensures { IfOk result (λ found. (from : ℕ) → IsPlace lo.now from
        → OfEach (B.stands_for view.now) (λ s. IsNextPin s from (option_map found_view found))) }
{
    keys_keep_their_order();
    match view.next_in(alloc, Some(lo), Some(hi), Order::Ascending)? {
        Some((key, _mark)) => {
            let id = id_of(alloc, &key)?;
            Ok(Some((key, id)))
        }
        None => Ok(None),
    }
}

/// The number of the pin of which these are the key's bytes.
fn id_of(alloc: Global, place: &[u8]) -> Result<u64, AllocError>
    requires { (id : ℕ) × IsKeyOf place.now (pin id) }
    ensures { IfOk result (λ id. IsKeyOf place.now (pin id)) }
{
    bytes_tell_keys();
    match key_of(alloc, place) {
        Ok(key) => Ok(number_of(key)),
        Err(RecordFault::NoMemory) => Err(AllocError),
        Err(RecordFault::Bad(_)) => unreachable!(),
    }
}

/// The number of a pin's key.
fn number_of(key: Key) -> u64
    requires { (id : ℕ) × (plain_key key ≡ pin id) }
    ensures { plain_key key ≡ pin result }
{
    match key {
        Key::Pin(id) => id,
        _ => unreachable!(),
    }
}
