ghost use Rattle.std.specs.Prelude.{◌≡◌, [], map};
ghost use Rattle.std.specs.Option.{option_map, option_copied};
ghost use Rattle.std.specs.Ordering.{is_eq};
ghost use Rattle.kv_layers.specs.Bytes.{bytes_cmp};
ghost use Rattle.kv_layers.specs.Rising.{change_view, KeysRise, KeysRise-prop};

use kv_layers::{Bounds, Change, Order};
use std::alloc::Global;

/// Changes whose keys rise, which stay as they are once they are made.
#[derive(Debug, Drop)]
pub(crate) struct Run {
    pub(crate) changes: Vec<Change>,
    ghost rising: { KeysRise (map change_view changes.items) } by { KeysRise-prop (map change_view changes.items) },
}

impl Run {
    ghost use Rattle.std.specs.Ordering.{nat_cmp};
    ghost use Rattle.std.specs.Cmp.Lexicographic.{slice_cmp};
    ghost use Rattle.std.specs.FinMap.{find};
    ghost use Rattle.kv_layers.specs.Merge.{shown_change};
    ghost use Rattle.kv_layers.specs.Next.{IsNext};
    ghost use Rattle.kv_layers.specs.Plain.{value_view};
    ghost use Rattle.kv_layers.specs.Sorted.{lower, upper};
    ghost use Rattle.state_runs.specs.Places.{count_below, first_from, last_below, nearest};
    ghost use Rattle.state_runs.specs.Views.{run_view};

    /// Without changes.
    pub(crate) fn empty(alloc: Global) -> Run
        ensures { run_view result ≡ [] }
    {
        Run {
            changes: Vec::new(alloc),
        }
    }

    /// The same changes, with no room to spare in their list where there is memory to move them.
    pub(crate) fn fitted(self) -> Run
        ensures { run_view result ≡ run_view self }
    {
        let mut changes = self.changes;
        changes.shrink_to_fit();
        Run { changes }
    }

    /// The change of the key, if there is one.
    pub(crate) fn change(&self, key: &[u8]) -> Option<&Option<Vec<u8>>>
        ensures { option_map value_view (option_copied result)
            ≡ find (slice_cmp nat_cmp) key.now (run_view self.now) }
    {
        let change = self.first_from(Some(key))?;
        if is_at(change, key) {
            Some(&change.1)
        } else {
            None
        }
    }

    /// The first change within the bounds.
    pub(crate) fn next_change(
        &self,
        bounds: &Bounds,
        order: Order,
    ) -> Option<(&Vec<u8>, &Option<Vec<u8>>)>
        ensures { IsNext (λ key. find (slice_cmp nat_cmp) key (run_view self.now))
            (lower bounds.now) (upper bounds.now) order (option_map shown_change result) }
    {
        let change = self.nearest(bounds, order)?;
        if bounds.holds(&change.0) {
            Some((&change.0, &change.1))
        } else {
            None
        }
    }

    /// The only change that can be the first one within the bounds.
    fn nearest(&self, bounds: &Bounds, order: Order) -> Option<&Change>
        ensures { option_map change_view (option_copied result)
            ≡ nearest order (lower bounds.now) (upper bounds.now) (run_view self.now) }
    {
        match order {
            Order::Ascending => self.first_from(bounds.lo()),
            Order::Descending => self.last_below(bounds.hi()),
        }
    }

    /// The first change whose key is not below the bound.
    fn first_from(&self, lo: Option<&[u8]>) -> Option<&Change>
        ensures { option_map change_view (option_copied result)
            ≡ first_from (option_copied lo.entry) (run_view self.now) }
    {
        match lo {
            Some(lo) => self.changes.get(self.count_below(lo)),
            None => self.changes.first(),
        }
    }

    /// The last change whose key is below the bound.
    fn last_below(&self, hi: Option<&[u8]>) -> Option<&Change>
        ensures { option_map change_view (option_copied result)
            ≡ last_below (option_copied hi.entry) (run_view self.now) }
    {
        match hi {
            Some(hi) => self.changes.get(self.count_below(hi).checked_sub(1)?),
            None => self.changes.last(),
        }
    }

    /// How many keys are below this one.
    fn count_below(&self, key: &[u8]) -> usize
        ensures { result ≡ count_below key.now (run_view self.now) }
    {
        self.changes
            .partition_point(|change| Order::Ascending.comes_before(&change.0, key))
    }
}

/// Whether the change is at this key.
pub(crate) fn is_at(change: &Change, key: &[u8]) -> bool
    ensures { result ≡ is_eq (bytes_cmp key.now change.now.0.items) }
{
    change.0.as_slice() == key
}
