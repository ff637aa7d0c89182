ghost use Rattle.std.specs.Prelude.{◌≡◌, ◌++◌, ℕ, List, map, IfOk, is_some, if◌then◌else◌};
ghost use Rattle.std.specs.List.{filter};
ghost use Rattle.std.specs.Option.{option_or, option_copied};
ghost use Rattle.std.specs.Ordering.{nat_cmp};
ghost use Rattle.std.specs.Cmp.Lexicographic.{slice_cmp};
ghost use Rattle.std.specs.FinMap.{find};
ghost use Rattle.kv_layers.specs.Rising.{change_view};
ghost use Rattle.state_runs.specs.Places.{below, from, past};
ghost use Rattle.state_runs.specs.Views.{run_view};

use crate::run::{Run, is_at};
use kv_layers::{Change, is_below};
use std::alloc::{AllocError, Global};

impl Run {
    /// This run laid over an older one. Its own changes are moved, and those of the older one copied.
    pub(crate) fn over(self, alloc: Global, older: &Run) -> Result<Run, AllocError>
        ensures { IfOk result (λ both. (key : List ℕ) →
            find (slice_cmp nat_cmp) key (run_view both)
            ≡ option_or (find (slice_cmp nat_cmp) key (run_view self))
            (find (slice_cmp nat_cmp) key (run_view older.now))) }
    {
        let room = self.changes.len().saturating_add(older.changes.len());
        let mut both = Vec::with_capacity(alloc, room)?;
        let mut rest = older.changes.as_slice();
        for (key, value) in self.changes {
            rest = past(copy_below(&mut both, rest, Some(&key))?, &key);
            both.push((key, value))?;
        }
        copy_below(&mut both, rest, None)?;
        Ok(Run { changes: both })
    }

    /// Without the keys that are removed.
    pub(crate) fn without_removals(self) -> Run
        ensures { run_view result ≡ filter (λ change. is_some change.1) (run_view self) }
    {
        let mut changes = self.changes;
        changes.retain(|change| change.1.is_some());
        Run { changes }
    }
}

/// Copies the changes whose keys are below the bound, and gives the others.
fn copy_below<'o>(
    copies: &mut Vec<Change>,
    older: &'o [Change],
    end: Option<&[u8]>,
) -> Result<&'o [Change], AllocError>
    ensures copied { IfOk result (λ rest. map change_view copies.new.items
        ≡ map change_view copies.old.items
        ++ below (option_copied end.entry) (map change_view older.now)) }
    ensures rest { IfOk result (λ rest. map change_view rest.now
        ≡ from (option_copied end.entry) (map change_view older.now)) }
{
    let mut rest = older;
    while let Some((change, later)) = rest.split_first() {
        if !is_below(end, &change.0) {
            return Ok(rest);
        }
        copies.push(copied(change)?)?;
        rest = later;
    }
    Ok(rest)
}

fn copied(change: &Change) -> Result<Change, AllocError>
    ensures { IfOk result (λ copy. change_view copy ≡ change_view change.now) }
{
    let key = change.0.clone()?;
    let value = change.1.clone()?;
    Ok((key, value))
}

/// Without the first change, if it is at this key.
fn past<'o>(older: &'o [Change], key: &[u8]) -> &'o [Change]
    ensures { map change_view result.now ≡ past key.now (map change_view older.now) }
{
    let Some((change, later)) = older.split_first() else {
        return older;
    };
    if is_at(change, key) { later } else { older }
}
