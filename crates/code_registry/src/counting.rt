//! How many ids are pinned.

ghost use Rattle.std.specs.Prelude.{◌≡◌, IfOk, OnOk, length};
ghost use Rattle.std.specs.FinMap.{keys};
ghost use Rattle.chain_records.specs.Spelled.{OfEach, HasTyped};
ghost use Rattle.code_registry.specs.Codes.{Pins, pins_with};

use crate::pins::pinned;
use kv_layers::Base;
use std::alloc::{AllocError, Global};
use std::collections::BTreeSet;

/// How many ids would be pinned with these.
pub(crate) fn how_many_with<B: Base>(
    alloc: Global,
    view: &B,
    ids: &[u64],
) -> Result<usize, AllocError>
    requires { HasTyped (B.stands_for view.now) }
    ensures { IfOk result (λ n. OfEach (B.stands_for view.now)
        (λ s. n ≡ length (keys (pins_with s.pins ids.now)))) }
{
    let before = pinned(alloc, view)?;
    let mut all = BTreeSet::new(alloc);
    add_all(&mut all, &before)?;
    add_all(&mut all, ids)?;
    Ok(all.len())
}

/// Adds ids to those of a set.
fn add_all(set: &mut BTreeSet<u64>, ids: &[u64]) -> Result<(), AllocError>
    ensures { OnOk result ((pins : Pins) → set.old.keys ≡ keys pins
        → set.new.keys ≡ keys (pins_with pins ids.now)) }
{
    for id in ids {
        set.insert(*id)?;
    }
    Ok(())
}
