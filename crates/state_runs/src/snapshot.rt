ghost use Rattle.std.specs.Prelude.{◌≡◌, ◌∷◌, [], ◌<◌, ◌^◌, length, vec_len, IfOk};

use crate::run::Run;
use crate::runs::{merged, newest_change, next_change, shared};
use kv_layers::{Base, Bounds, Delta, Order, Plain, owned_entry, owned_value};
use std::alloc::{AllocError, Global};
use std::marker::Model;
use std::sync::Arc;

/// A map of bytes as sorted runs of changes, of which the newest comes first. Snapshots share runs.
#[derive(Debug, Drop)]
pub struct Snapshot {
    runs: Vec<Arc<Run, Global>>,
    ghost few: { vec_len runs < 2 ^ 32 },
}

impl Model for Snapshot {
    ghost use Rattle.std.specs.Prelude.{List};
    ghost use Rattle.state_runs.specs.Runs.{Run};

    ghost Value = { List Run };

    ghost use Rattle.state_runs.specs.Views.{runs_view};

    ghost view = { λ s. runs_view s.runs.items };
}

impl Snapshot {
    ghost use Rattle.std.specs.FinMap.{find};
    ghost use Rattle.std.specs.Ordering.{nat_cmp};
    ghost use Rattle.std.specs.Cmp.Lexicographic.{slice_cmp};
    ghost use Rattle.kv_layers.specs.Bytes.{Bytes};
    ghost use Rattle.kv_layers.specs.Changes.{LeadsTo};
    ghost use Rattle.kv_layers.specs.Delta.{IsDelta, delta_view};
    ghost use Rattle.state_runs.specs.Runs.{map_of, with_run, IsWhole};
    ghost use Rattle.state_runs.specs.Views.{run_view};

    /// The map in one run. No key and no value is copied.
    pub fn from_plain(alloc: Global, plain: Plain) -> Result<Snapshot, AllocError>
        ensures whole { IfOk result (λ snapshot. IsWhole snapshot plain) }
        ensures map { IfOk result (λ snapshot. map_of snapshot ≡ plain) }
    {
        let Delta { changes } = plain.into_delta(alloc)?;
        Snapshot::lone(alloc, Run { changes })
    }

    /// The map with the changes done. The older runs are shared, and of the changes nothing is copied.
    /// Changes that are none make no run.
    pub fn with_delta(&self, alloc: Global, delta: Delta) -> Result<Snapshot, AllocError>
        ensures runs { IfOk result (λ snapshot. snapshot ≡ with_run (delta_view delta) self.now) }
        ensures map { IfOk result (λ snapshot. LeadsTo (map_of self.now)
            (λ key. find (slice_cmp nat_cmp) key (delta_view delta)) (map_of snapshot)) }
        ensures led { IfOk result (λ snapshot. (map : Bytes) →
            IsDelta (map_of self.now) (delta_view delta) map → map_of snapshot ≡ map) }
    {
        let Delta { changes } = delta;
        if changes.is_empty() {
            return self.share(alloc);
        }
        self.with_run(alloc, Run { changes })
    }

    /// The same map in one run, in which no key is removed.
    pub fn merge(&self, alloc: Global) -> Result<Snapshot, AllocError>
        ensures whole { IfOk result (λ snapshot. IsWhole snapshot (map_of self.now)) }
        ensures map { IfOk result (λ snapshot. map_of snapshot ≡ map_of self.now) }
    {
        let merged = merged(alloc, &self.runs)?;
        Snapshot::lone(alloc, merged.without_removals())
    }

    /// The same runs once more. No run is copied, and whatever is done with one share, the other stays.
    pub fn share(&self, alloc: Global) -> Result<Snapshot, AllocError>
        ensures { IfOk result (λ snapshot. snapshot ≡ self.now) }
    {
        let runs = Vec::with_capacity(alloc, self.runs.len())?;
        let runs = shared(runs, &self.runs)?;
        Ok(Snapshot { runs })
    }

    /// How many runs there are.
    pub fn runs(&self) -> u32
        ensures { result ≡ length self.now }
    {
        self.runs.len() as u32
    }

    fn lone(alloc: Global, run: Run) -> Result<Snapshot, AllocError>
        ensures { IfOk result (λ snapshot. snapshot ≡ run_view run ∷ []) }
    {
        let run = Arc::new(alloc, run.fitted())?;
        let mut runs = Vec::with_capacity(alloc, 1)?;
        runs.push(run)?;
        Ok(Snapshot { runs })
    }

    /// A number of runs that has no place in 32 bits is answered like want of memory.
    fn with_run(&self, alloc: Global, run: Run) -> Result<Snapshot, AllocError>
        ensures { IfOk result (λ snapshot. snapshot ≡ run_view run ∷ self.now) }
    {
        let number = self.runs.len();
        if number >= 0xFFFF_FFFF {
            return Err(AllocError);
        }
        let newest = Arc::new(alloc, run.fitted())?;
        let mut runs = Vec::with_capacity(alloc, number + 1)?;
        runs.push(newest)?;
        let runs = shared(runs, &self.runs)?;
        Ok(Snapshot { runs })
    }
}

impl Base for Snapshot {
    ghost use Rattle.state_runs.specs.Runs.{map_of};

    ghost stands_for = { λ snapshot map. map_of snapshot ≡ map };

    fn get(&self, _alloc: Global, key: &[u8]) -> Result<Option<Vec<u8>>, AllocError> {
        match newest_change(&self.runs, key) {
            Some(change) => owned_value(change.as_ref()),
            None => Ok(None),
        }
    }

    /// A removed key costs another look at each run.
    fn next_in(
        &self,
        alloc: Global,
        lo: Option<&[u8]>,
        hi: Option<&[u8]>,
        order: Order,
    ) -> Result<Option<(Vec<u8>, Vec<u8>)>, AllocError> {
        let mut bounds = Bounds::new(alloc, lo, hi)?;
        'scan: loop {
            let Some((key, value)) = next_change(&self.runs, &bounds, order) else {
                return Ok(None);
            };
            match value {
                Some(value) => return owned_entry(Some((key, value))),
                None => bounds.narrow_past(Vec::from_slice(alloc, key)?, order)?,
            }
        }
    }
}
