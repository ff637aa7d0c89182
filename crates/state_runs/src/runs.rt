ghost use Rattle.std.specs.Prelude.{◌≡◌, ◌+◌, ◌++◌, ℕ, List, length, vec_len, IfOk};
ghost use Rattle.std.specs.Option.{option_map, option_copied};
ghost use Rattle.std.specs.Ordering.{nat_cmp};
ghost use Rattle.std.specs.Cmp.Lexicographic.{slice_cmp};
ghost use Rattle.std.specs.FinMap.{find};
ghost use Rattle.kv_layers.specs.Merge.{shown_change};
ghost use Rattle.kv_layers.specs.Next.{IsNext};
ghost use Rattle.kv_layers.specs.Plain.{value_view};
ghost use Rattle.kv_layers.specs.Sorted.{lower, upper};
ghost use Rattle.state_runs.specs.Runs.{entry_in};
ghost use Rattle.state_runs.specs.Views.{run_view, runs_view};

use crate::run::Run;
use kv_layers::{Bounds, Order, first_change};
use std::alloc::{AllocError, Global};
use std::sync::Arc;

/// With the runs shared at the end.
pub(crate) fn shared(
    shares: Vec<Arc<Run, Global>>,
    runs: &[Arc<Run, Global>],
) -> Result<Vec<Arc<Run, Global>>, AllocError>
    ensures view { IfOk result (λ all. runs_view all.items ≡ runs_view shares.items ++ runs_view runs.now) }
    ensures len { IfOk result (λ all. vec_len all ≡ vec_len shares + length runs.now) }
{
    let mut shares = shares;
    for run in runs {
        shares.push(Arc::try_clone(run)?)?;
    }
    Ok(shares)
}

/// All changes in one run, removals too.
pub(crate) fn merged(alloc: Global, runs: &[Arc<Run, Global>]) -> Result<Run, AllocError>
    ensures { IfOk result (λ run. (key : List ℕ) →
        find (slice_cmp nat_cmp) key (run_view run) ≡ entry_in (runs_view runs.now) key) }
{
    let mut merged = Run::empty(alloc);
    for run in runs {
        merged = merged.over(alloc, run)?;
    }
    Ok(merged)
}

/// The change of the newest run that has the key.
pub(crate) fn newest_change<'r>(
    runs: &'r [Arc<Run, Global>],
    key: &[u8],
) -> Option<&'r Option<Vec<u8>>>
    ensures { option_map value_view (option_copied result) ≡ entry_in (runs_view runs.now) key.now }
{
    for run in runs {
        if let Some(change) = run.change(key) {
            return Some(change);
        }
    }
    None
}

/// The first change within the bounds.
pub(crate) fn next_change<'r>(
    runs: &'r [Arc<Run, Global>],
    bounds: &Bounds,
    order: Order,
) -> Option<(&'r Vec<u8>, &'r Option<Vec<u8>>)>
    ensures { IsNext (entry_in (runs_view runs.now)) (lower bounds.now) (upper bounds.now) order
        (option_map shown_change result) }
{
    let mut first = None;
    for run in runs {
        first = first_change(first, run.next_change(bounds, order), order);
    }
    first
}
