ghost use Rattle.std.specs.Prelude.{◌≡◌, ◌↔◌, length, reverse, IfOk, IsTrue};
ghost use Rattle.std.specs.Option.{option_map, option_copied};
ghost use Rattle.kv_layers.specs.Changes.{change_in};
ghost use Rattle.kv_layers.specs.Plain.{value_view, entry_view};

use std::alloc::AllocError;
use std::collections::BTreeMap;

/// A key, and its new value or none where it is removed.
pub type Change = (Vec<u8>, Option<Vec<u8>>);

/// The changes of one layer.
pub(crate) type Layer = BTreeMap<Vec<u8>, Option<Vec<u8>>>;

/// The newest change of the key in layers that are listed oldest first.
pub(crate) fn newest_change<'l>(layers: &'l [Layer], key: &[u8]) -> Option<&'l Option<Vec<u8>>>
    ensures { option_map value_view (option_copied result)
        ≡ change_in (reverse layers.now) key.now }
{
    let (newest, below) = layers.split_last()?;
    match newest.get(key) {
        Some(change) => Some(change),
        None => newest_change(below, key),
    }
}

/// A copy of the value.
pub fn owned_value(value: Option<&Vec<u8>>) -> Result<Option<Vec<u8>>, AllocError>
    ensures { IfOk result (λ owned. value_view owned ≡ value_view (option_copied value.entry)) }
{
    match value {
        Some(value) => Ok(Some(value.clone()?)),
        None => Ok(None),
    }
}

/// Copies of the key and the value.
pub fn owned_entry(
    entry: Option<(&Vec<u8>, &Vec<u8>)>,
) -> Result<Option<(Vec<u8>, Vec<u8>)>, AllocError>
    ensures { IfOk result (λ owned. option_map entry_view owned
        ≡ option_map (λ e. (e.0.now.items, e.1.now.items)) entry.entry) }
{
    match entry {
        Some((key, value)) => {
            let key = key.clone()?;
            let value = value.clone()?;
            Ok(Some((key, value)))
        }
        None => Ok(None),
    }
}

pub(crate) fn are_same(a: &Option<Vec<u8>>, b: &Option<Vec<u8>>) -> bool
    ensures { IsTrue result ↔ (value_view a.now ≡ value_view b.now) }
{
    match (a, b) {
        (Some(a), Some(b)) => a.as_slice() == b.as_slice(),
        (None, None) => true,
        _ => false,
    }
}
