ghost use Rattle.std.specs.Prelude.{◌≡◌, ℕ, List, Option, reverse};
ghost use Rattle.std.specs.Option.{option_map, option_or};
ghost use Rattle.kv_layers.specs.Changes.{change_in};
ghost use Rattle.kv_layers.specs.Merge.{chosen, shown_change, as_change};
ghost use Rattle.kv_layers.specs.Next.{IsNext};
ghost use Rattle.kv_layers.specs.Plain.{entry_view};
ghost use Rattle.kv_layers.specs.Sorted.{lower, upper};

use crate::bounds::Bounds;
use crate::layer::Layer;
use crate::order::Order;
use crate::sorted::next_entry;

/// The first change within the bounds, in layers that are listed oldest first.
pub(crate) fn next_change<'l>(
    layers: &'l [Layer],
    bounds: &Bounds,
    order: Order,
) -> Option<(&'l Vec<u8>, &'l Option<Vec<u8>>)>
    ensures { IsNext (change_in (reverse layers.now)) (lower bounds.now) (upper bounds.now) order
        (option_map shown_change result) }
{
    let (newest, below) = layers.split_last()?;
    let change = next_entry(newest, bounds, order);
    let lower = next_change(below, bounds, order);
    first_change(change, lower, order)
}

/// The change that a scan meets first, and of two of one key the upper one. So the first of two lists
/// of changes, one above the other, is the first of the first ones of both.
pub fn first_change<'l>(
    upper: Option<(&'l Vec<u8>, &'l Option<Vec<u8>>)>,
    lower: Option<(&'l Vec<u8>, &'l Option<Vec<u8>>)>,
    order: Order,
) -> Option<(&'l Vec<u8>, &'l Option<Vec<u8>>)>
    ensures chosen { option_map shown_change result
        ≡ chosen order (option_map shown_change upper.entry) (option_map shown_change lower.entry) }
    ensures first { (above below : List ℕ → Option (Option (List ℕ))) (lo hi : Option (List ℕ)) →
        IsNext above lo hi order (option_map shown_change upper.entry) →
        IsNext below lo hi order (option_map shown_change lower.entry) →
        IsNext (λ key. option_or (above key) (below key)) lo hi order
        (option_map shown_change result) }
{
    let Some((key, change)) = upper else {
        return lower;
    };
    let Some((lower_key, lower_change)) = lower else {
        return Some((key, change));
    };
    if order.comes_before(lower_key, key) {
        Some((lower_key, lower_change))
    } else {
        Some((key, change))
    }
}

/// The change, unless a scan meets the entry below all changes before it.
pub(crate) fn unless_later<'l>(
    change: Option<(&'l Vec<u8>, &'l Option<Vec<u8>>)>,
    under: &Option<(Vec<u8>, Vec<u8>)>,
    order: Order,
) -> Option<(&'l Vec<u8>, &'l Option<Vec<u8>>)>
    ensures { chosen order (option_map shown_change change.entry)
        (option_map as_change (option_map entry_view under.now))
        ≡ option_or (option_map shown_change result)
        (option_map as_change (option_map entry_view under.now)) }
{
    let (key, value) = change?;
    let Some(entry) = under else {
        return Some((key, value));
    };
    if order.comes_before(&entry.0, key) {
        None
    } else {
        Some((key, value))
    }
}
