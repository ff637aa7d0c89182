ghost use Rattle.std.specs.Prelude.{◌≡◌};
ghost use Rattle.kv_layers.specs.Layers.{depth};

use kv_layers::{Base, Delta, Layers, Order, Plain};
use state_runs::Snapshot;
use std::alloc::{AllocError, Global};
use std::collections::BTreeMap;
use std::test::Fail;

fn bytes(alloc: Global, byte: u8) -> Result<Vec<u8>, AllocError> {
    let mut bytes = Vec::with_capacity(alloc, 1)?;
    bytes.push(byte)?;
    Ok(bytes)
}

/// The map with this one key.
fn lone(alloc: Global, key: u8, value: u8) -> Result<Snapshot, AllocError> {
    let mut plain = Plain::new(alloc);
    plain.insert(bytes(alloc, key)?, bytes(alloc, value)?)?;
    Snapshot::from_plain(alloc, plain)
}

fn change<B: Base>(
    layers: &mut Layers<B>,
    alloc: Global,
    key: u8,
    value: Option<u8>,
) -> Result<(), AllocError>
    ensures { depth layers.new ≡ depth layers.old }
{
    match value {
        Some(value) => layers.set(alloc, &[key], &[value]),
        None => layers.remove(alloc, &[key]),
    }
}

/// This one change, which is made on a map of its own.
fn lone_delta(alloc: Global, key: u8, value: Option<u8>) -> Result<Delta, AllocError> {
    let mut plain = Plain::new(alloc);
    if value.is_none() {
        plain.insert(bytes(alloc, key)?, bytes(alloc, 0)?)?;
    }
    let mut layers = Layers::new(alloc, plain);
    change(&mut layers, alloc, key, value)?;
    Ok(layers.into_delta())
}

/// One more run, of two changes that are made in a layer.
fn layered(
    alloc: Global,
    snapshot: &Snapshot,
    first: (u8, Option<u8>),
    second: (u8, Option<u8>),
) -> Result<Snapshot, AllocError> {
    let mut layers = Layers::new(alloc, snapshot);
    change(&mut layers, alloc, first.0, first.1)?;
    change(&mut layers, alloc, second.0, second.1)?;
    snapshot.with_delta(alloc, layers.into_delta())
}

fn value_at(alloc: Global, snapshot: &Snapshot, key: u8) -> Result<Option<u8>, AllocError> {
    let Some(value) = snapshot.get(alloc, &[key])? else {
        return Ok(None);
    };
    let first = value.first().copied();
    Ok(first)
}

/// The first key and its value, by their first bytes.
fn next<B: Base>(
    alloc: Global,
    base: &B,
    lo: Option<&[u8]>,
    hi: Option<&[u8]>,
    order: Order,
) -> Result<Option<(u8, u8)>, AllocError> {
    let Some((key, value)) = base.next_in(alloc, lo, hi, order)? else {
        return Ok(None);
    };
    let pair = (
        key.first().copied().unwrap_or(0),
        value.first().copied().unwrap_or(0),
    );
    Ok(Some(pair))
}

/// The same, between bounds of one byte.
fn next_between<B: Base>(
    alloc: Global,
    base: &B,
    lo: Option<u8>,
    hi: Option<u8>,
    order: Order,
) -> Result<Option<(u8, u8)>, AllocError> {
    match (lo, hi) {
        (Some(lo), Some(hi)) => next(alloc, base, Some(&[lo]), Some(&[hi]), order),
        (Some(lo), None) => next(alloc, base, Some(&[lo]), None, order),
        (None, Some(hi)) => next(alloc, base, None, Some(&[hi]), order),
        (None, None) => next(alloc, base, None, None, order),
    }
}

/// Whether the first entry is this one, byte for byte.
fn begins_with(
    alloc: Global,
    snapshot: &Snapshot,
    order: Order,
    key: &[u8],
    value: &[u8],
) -> Result<bool, AllocError> {
    match snapshot.next_in(alloc, None, None, order)? {
        Some((found, entry)) => Ok(found.as_slice() == key && entry.as_slice() == value),
        None => Ok(false),
    }
}

/// The first pair where a layer above the lowest one removes these keys.
fn next_left(
    alloc: Global,
    snapshot: &Snapshot,
    removed: [u8; 3],
    order: Order,
) -> Result<Option<(u8, u8)>, AllocError> {
    let mut layers = Layers::new(alloc, snapshot);
    layers.push_layer(alloc)?;
    for key in &removed {
        layers.remove(alloc, &[*key])?;
    }
    next(alloc, &layers, None, None, order)
}

fn is_shareable<S: Send + Sync>(_snapshot: &S) -> bool {
    true
}

#[test]
fn each_delta_but_an_empty_one_makes_a_run_and_the_merge_has_one(
    rt: HostRuntime,
) -> Result<(), Fail> {
    let alloc = rt.alloc();
    let first = lone(alloc, 0x01, 0xAA)?;
    let second = first.with_delta(alloc, lone_delta(alloc, 0x02, Some(0xBB))?)?;
    let third = second.with_delta(alloc, lone_delta(alloc, 0x01, None)?)?;
    let last = layered(alloc, &third, (0x02, Some(0xBB)), (0x01, None))?;
    assert_eq!(rt; first.runs(), 1);
    assert_eq!(rt; second.runs(), 2);
    assert_eq!(rt; third.runs(), 3);
    assert_eq!(rt; last.runs(), 3);
    assert_eq!(rt; value_at(alloc, &last, 0x01)?, None);
    assert_eq!(rt; value_at(alloc, &first, 0x01)?, Some(0xAA));
    let merged = last.merge(alloc)?;
    assert_eq!(rt; merged.runs(), 1);
    for (lo, hi, order, want) in [
        (None, None, Order::Ascending, Some((0x02, 0xBB))),
        (Some(0x03), None, Order::Ascending, None),
        (None, None, Order::Descending, Some((0x02, 0xBB))),
        (None, Some(0x02), Order::Descending, None),
    ] {
        assert_eq!(rt; next_between(alloc, &last, lo, hi, order)?, want);
        assert_eq!(rt; next_between(alloc, &merged, lo, hi, order)?, want);
    }
    Ok(())
}

#[test]
fn a_scan_down_with_no_upper_bound_begins_at_the_last_key_of_all_runs(
    rt: HostRuntime,
) -> Result<(), Fail> {
    let alloc = rt.alloc();
    let first = lone(alloc, 0x01, 0xAA)?;
    let second = layered(alloc, &first, (0x02, Some(0xBB)), (0x05, Some(0xEE)))?;
    let third = second.with_delta(alloc, lone_delta(alloc, 0x05, None)?)?;
    let last = third.with_delta(alloc, lone_delta(alloc, 0x03, Some(0xCC))?)?;
    assert_eq!(rt; last.runs(), 4);
    for (lo, hi, want) in [
        (None, None, Some((0x03, 0xCC))),
        (Some(0x03), None, Some((0x03, 0xCC))),
        (Some(0x04), None, None),
        (None, Some(0x03), Some((0x02, 0xBB))),
        (Some(0x01), Some(0x02), Some((0x01, 0xAA))),
        (None, Some(0x01), None),
    ] {
        assert_eq!(rt;
            next_between(alloc, &last, lo, hi, Order::Descending)?,
            want
        );
    }
    Ok(())
}

#[test]
fn a_plain_map_of_two_keys_is_one_run_with_all_their_bytes(rt: HostRuntime) -> Result<(), Fail> {
    let alloc = rt.alloc();
    let mut plain = Plain::new(alloc);
    plain.insert(b"key".to_vec(alloc)?, b"a value".to_vec(alloc)?)?;
    plain.insert(b"ke".to_vec(alloc)?, Vec::new(alloc))?;
    let first = Snapshot::from_plain(alloc, plain)?;
    assert_eq!(rt; first.runs(), 1);
    assert!(rt; begins_with(alloc, &first, Order::Ascending, b"ke", b"")?);
    assert!(rt; begins_with(alloc, &first, Order::Descending, b"key", b"a value")?);
    let mut layers = Layers::new(alloc, &first);
    layers.set(alloc, b"keys", b"other values")?;
    layers.remove(alloc, b"ke")?;
    let last = first.with_delta(alloc, layers.into_delta())?;
    for snapshot in [last.merge(alloc)?, last] {
        assert!(rt; begins_with(alloc, &snapshot, Order::Ascending, b"key", b"a value")?);
        assert!(rt;
            begins_with(
                alloc,
                &snapshot,
                Order::Descending,
                b"keys",
                b"other values"
            )?
        );
    }
    Ok(())
}

#[test]
fn layers_pass_the_keys_that_they_remove_before_at_and_after_the_first_one_below(
    rt: HostRuntime,
) -> Result<(), Fail> {
    let alloc = rt.alloc();
    let first = lone(alloc, 0x02, 0x22)?;
    let last = layered(alloc, &first, (0x04, Some(0x44)), (0x06, Some(0x66)))?;
    // the keys that are removed, and the first pair up and down
    for (removed, up, down) in [
        ([0x01, 0x05, 0x07], Some((0x02, 0x22)), Some((0x06, 0x66))),
        ([0x01, 0x02, 0x03], Some((0x04, 0x44)), Some((0x06, 0x66))),
        ([0x05, 0x06, 0x07], Some((0x02, 0x22)), Some((0x04, 0x44))),
        ([0x02, 0x03, 0x06], Some((0x04, 0x44)), Some((0x04, 0x44))),
        ([0x02, 0x03, 0x04], Some((0x06, 0x66)), Some((0x06, 0x66))),
        ([0x04, 0x05, 0x06], Some((0x02, 0x22)), Some((0x02, 0x22))),
        ([0x02, 0x04, 0x06], None, None),
    ] {
        assert_eq!(rt; next_left(alloc, &last, removed, Order::Ascending)?, up);
        assert_eq!(rt; next_left(alloc, &last, removed, Order::Descending)?, down);
    }
    Ok(())
}

#[test]
fn a_merged_snapshot_has_one_run_with_the_pairs_that_are_left(rt: HostRuntime) -> Result<(), Fail> {
    let alloc = rt.alloc();
    let first = lone(alloc, 0x01, 0xAA)?;
    let last = layered(alloc, &first, (0x02, Some(0xBB)), (0x01, None))?;
    let merged = last.merge(alloc)?;
    let shared = last.share(alloc)?;
    assert_eq!(rt; merged.runs(), 1);
    assert_eq!(rt; shared.runs(), 2);
    assert_eq!(rt;
        next(alloc, &merged, None, None, Order::Ascending)?,
        Some((0x02, 0xBB))
    );
    assert_eq!(rt;
        next(alloc, &merged, None, None, Order::Descending)?,
        Some((0x02, 0xBB))
    );
    assert_eq!(rt; value_at(alloc, &merged, 0x01)?, None);
    assert_eq!(rt; value_at(alloc, &shared, 0x02)?, Some(0xBB));
    assert!(rt; is_shareable(&merged));
    Ok(())
}

/// A snapshot beside which a plain map is changed.
#[derive(Drop)]
struct Beside {
    snapshot: Snapshot,
    map: BTreeMap<u8, u8>,
}

impl Beside {
    fn note(&mut self, key: u8, value: Option<u8>) -> Result<(), AllocError> {
        match value {
            Some(value) => {
                self.map.insert(key, value)?;
            }
            None => {
                self.map.remove(&key);
            }
        }
        Ok(())
    }

    /// A lone change as it is given.
    fn force(&mut self, alloc: Global, key: u8, value: Option<u8>) -> Result<(), AllocError> {
        self.note(key, value)?;
        self.snapshot = self
            .snapshot
            .with_delta(alloc, lone_delta(alloc, key, value)?)?;
        Ok(())
    }

    /// Two changes in a layer.
    fn layer(
        &mut self,
        alloc: Global,
        first: (u8, Option<u8>),
        second: (u8, Option<u8>),
    ) -> Result<(), AllocError> {
        self.note(first.0, first.1)?;
        self.note(second.0, second.1)?;
        self.snapshot = layered(alloc, &self.snapshot, first, second)?;
        Ok(())
    }

    /// The first pair of the plain map between the bounds.
    fn expected(&self, lo: u8, hi: u8, order: Order) -> Option<(u8, u8)> {
        let mut found = None;
        for (key, value) in self.map.iter() {
            let is_within = lo <= *key && *key < hi;
            if is_within && (found.is_none() || order == Order::Descending) {
                found = Some((*key, *value));
            }
        }
        found
    }

    fn agrees_within(&self, alloc: Global, lo: u8, hi: u8) -> Result<bool, AllocError> {
        let up = next(
            alloc,
            &self.snapshot,
            Some(&[lo]),
            Some(&[hi]),
            Order::Ascending,
        )?;
        let down = next(
            alloc,
            &self.snapshot,
            Some(&[lo]),
            Some(&[hi]),
            Order::Descending,
        )?;
        Ok(
            up == self.expected(lo, hi, Order::Ascending)
                && down == self.expected(lo, hi, Order::Descending),
        )
    }

    fn agrees_at(&self, alloc: Global, key: u8) -> Result<bool, AllocError> {
        let value = value_at(alloc, &self.snapshot, key)?;
        Ok(value == self.map.get(&key).copied())
    }

    /// At each of the first keys, and between each of them and the one given.
    fn agrees(&self, alloc: Global, bound: u8) -> Result<bool, AllocError> {
        for key in 0..12 {
            if !self.agrees_at(alloc, key)?
                || !self.agrees_within(alloc, key, bound)?
                || !self.agrees_within(alloc, bound, key)?
            {
                return Ok(false);
            }
        }
        Ok(true)
    }
}

fn wanted(number: u8) -> Option<u8> {
    if number % 3 == 0 { None } else { Some(number) }
}

fn act(
    beside: &mut Beside,
    alloc: Global,
    [key, value, other, last]: [u8; 4],
) -> Result<(), AllocError> {
    if last < 100 {
        beside.force(alloc, key % 12, wanted(value))
    } else {
        beside.layer(alloc, (key % 12, wanted(value)), (other % 12, wanted(last)))
    }
}

fn merge_at(beside: &mut Beside, alloc: Global, turn: u32) -> Result<bool, AllocError> {
    if turn % 17 != 0 {
        return Ok(true);
    }
    beside.snapshot = beside.snapshot.merge(alloc)?;
    Ok(beside.snapshot.runs() == 1)
}

#[test]
fn scripted_deltas_agree_with_a_plain_map_kept_beside(rt: HostRuntime) -> Result<(), Fail> {
    let alloc = rt.alloc();
    let mut beside = Beside {
        snapshot: Snapshot::from_plain(alloc, Plain::new(alloc))?,
        map: BTreeMap::new(alloc),
    };
    let mut seed = 1u32;
    for turn in 1..400u32 {
        seed = seed.wrapping_mul(1_664_525).wrapping_add(1_013_904_223);
        let chosen = seed.to_be_bytes();
        act(&mut beside, alloc, chosen)?;
        assert!(rt; beside.agrees(alloc, chosen[0] % 12)?);
        assert!(rt; merge_at(&mut beside, alloc, turn)?);
        assert!(rt; beside.agrees(alloc, chosen[2] % 12)?);
    }
    Ok(())
}
