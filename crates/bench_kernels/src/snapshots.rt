use crate::state::{base, change};
use kv_layers::{Delta, Layers, Plain};
use state_runs::Snapshot;
use std::alloc::{AllocError, Global};

/// How often a change is made, and how often the runs are merged.
const DELTAS: u32 = 10_000;

const MERGES: u32 = 10;

/// How many keys a change sets.
const CHANGES: u32 = 100;

/// The map with a hundred values changed, in one run more.
fn grown(
    alloc: Global,
    snapshot: &Snapshot,
    layer: u32,
    count: u32,
) -> Result<Snapshot, AllocError> {
    let mut layers = Layers::new(alloc, snapshot);
    change(alloc, &mut layers, layer, count)?;
    let delta = layers.into_delta();
    snapshot.with_delta(alloc, delta)
}

/// A map of so many keys in so many runs, of which each but the oldest has a hundred changes.
pub fn snapshot(alloc: Global, count: u32, runs: u32) -> Result<Snapshot, AllocError> {
    let mut snapshot = Snapshot::from_plain(alloc, base(alloc, count)?)?;
    for layer in 1..runs {
        snapshot = grown(alloc, &snapshot, layer, count)?;
    }
    Ok(snapshot)
}

/// A hundred changes, the first of which is at this key.
fn delta(alloc: Global, first: u32) -> Result<Delta, AllocError> {
    let mut plain = Plain::new(alloc);
    for turn in 0..CHANGES {
        let key = first.wrapping_add(turn).to_be_bytes().to_vec(alloc)?;
        plain.insert(key, turn.to_le_bytes().to_vec(alloc)?)?;
    }
    plain.into_delta(alloc)
}

/// Makes a hundred changes so often, each time of the same map, and answers how many runs come of them.
pub fn change_all(alloc: Global, snapshot: &Snapshot) -> Result<u64, AllocError> {
    let mut sum = 0u64;
    for turn in 0..DELTAS {
        let changed = snapshot.with_delta(alloc, delta(alloc, turn)?)?;
        sum = sum.wrapping_add(u64::from(changed.runs()));
    }
    Ok(sum)
}

/// Merges the runs so often, and answers how many runs come of them.
pub fn merge_all(alloc: Global, snapshot: &Snapshot) -> Result<u64, AllocError> {
    let mut sum = 0u64;
    for _ in 0..MERGES {
        let merged = snapshot.merge(alloc)?;
        sum = sum.wrapping_add(u64::from(merged.runs()));
    }
    Ok(sum)
}
