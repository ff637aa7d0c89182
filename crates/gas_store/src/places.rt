//! Places of a contract's keys in the map of the chain.

ghost use Rattle.std.specs.Prelude.{◌≡◌, ◌≢◌, ℕ, List, [], ◌++◌, true, IfOk, ◌≤◌, length, drop};
ghost use Rattle.std.specs.Ordering.{is_le, is_lt};
ghost use Rattle.kv_layers.specs.Bytes.{bytes_cmp};
ghost use Rattle.gas_store.specs.Ends.{end_of};

use std::alloc::{AllocError, Global};

/// The least bytes above all those that begin with the prefix.
pub(crate) fn end_of(alloc: Global, prefix: &[u8]) -> Result<Vec<u8>, AllocError>
    ensures { IfOk result (λ end. end.items ≡ end_of prefix.now) }
{
    let mut end = prefix.to_vec(alloc)?;
    'bytes: while let Some(last) = end.pop() {
        if last < u8::MAX {
            end.push(last + 1)?;
            return Ok(end);
        }
    }
    Ok(end)
}

/// The bytes of two parts, one behind the other.
pub(crate) fn joined(alloc: Global, front: &[u8], back: &[u8]) -> Result<Vec<u8>, AllocError>
    ensures { IfOk result (λ both. both.items ≡ front.now ++ back.now) }
{
    let mut both = Vec::with_capacity(alloc, front.len())?;
    both.extend_from_slice(front)?;
    both.extend_from_slice(back)?;
    Ok(both)
}

/// What stands behind the prefix, where the bytes begin with it: as all do from it on and below its end.
pub(crate) fn behind(alloc: Global, prefix: &[u8], place: &[u8]) -> Result<Vec<u8>, AllocError>
    ensures { IfOk result (λ key. (lo : List ℕ) → is_le (bytes_cmp (prefix.now ++ lo) place.now) ≡ true
        → is_lt (bytes_cmp place.now (end_of prefix.now)) ≡ true → place.now ≡ prefix.now ++ key.items) }
{
    tail(alloc, place, prefix.len())
}

/// The bytes from a place on.
fn tail(alloc: Global, bytes: &[u8], from: usize) -> Result<Vec<u8>, AllocError>
    ensures { IfOk result (λ rest. rest.items ≡ drop from bytes.now) }
{
    match bytes.get(from..) {
        Some(rest) => rest.to_vec(alloc),
        None => Ok(Vec::new(alloc)),
    }
}
