ghost use Rattle.std.specs.Prelude.{◌≡◌, IsTrue};
ghost use Rattle.std.specs.Option.{option_map};
ghost use Rattle.kv_layers.specs.Next.{IsNext};
ghost use Rattle.kv_layers.specs.Sorted.{value_at, shown_entry, lower, upper};

use crate::bounds::Bounds;
use crate::order::Order;
use std::collections::BTreeMap;

/// The first entry of a sorted map within the bounds.
pub(crate) fn next_entry<'m, X>(
    map: &'m BTreeMap<Vec<u8>, X>,
    bounds: &Bounds,
    order: Order,
) -> Option<(&'m Vec<u8>, &'m X)>
    ensures { IsNext (value_at map.now) (lower bounds.now) (upper bounds.now) order
        (option_map shown_entry result) }
{
    if bounds.are_crossed() {
        return None;
    }
    let mut entries = map.range((bounds.start(), bounds.end()));
    match order {
        Order::Ascending => entries.next(),
        Order::Descending => entries.next_back(),
    }
}
