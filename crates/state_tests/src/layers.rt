use kv_layers::{Base, Layers, Order, Plain};
use std::alloc::{AllocError, Global};
use std::collections::BTreeMap;
use std::test::Fail;

fn plain(alloc: Global, key: u8, value: u8) -> Result<Plain, AllocError> {
    let mut plain = Plain::new(alloc);
    plain.insert([key].to_vec(alloc)?, [value].to_vec(alloc)?)?;
    Ok(plain)
}

/// The first byte of the first key.
fn next_key(
    alloc: Global,
    layers: &Layers<Plain>,
    lo: Option<&[u8]>,
    hi: Option<&[u8]>,
    order: Order,
) -> Result<Option<u8>, AllocError> {
    let Some((key, _)) = layers.next_in(alloc, lo, hi, order)? else {
        return Ok(None);
    };
    let first = key.first().copied();
    Ok(first)
}

/// All keys and values of one byte, in the order.
fn scanned(
    alloc: Global,
    layers: &Layers<Plain>,
    order: Order,
) -> Result<Vec<(u8, u8)>, AllocError> {
    let mut found = Vec::new(alloc);
    let mut last = Vec::new(alloc);
    for turn in 0..300u32 {
        let next = match order {
            Order::Ascending if turn == 0 => layers.next_in(alloc, None, None, order)?,
            Order::Ascending => layers.next_in(alloc, Some(&last), None, order)?,
            Order::Descending if turn == 0 => layers.next_in(alloc, None, None, order)?,
            Order::Descending => layers.next_in(alloc, None, Some(&last), order)?,
        };
        let Some((key, value)) = next else {
            break;
        };
        found.push((
            key.first().copied().unwrap_or(0),
            value.first().copied().unwrap_or(0),
        ))?;
        last = key;
        if order == Order::Ascending {
            last.push(0)?;
        }
    }
    Ok(found)
}

#[test]
fn a_dropped_layer_leaves_the_earlier_map_and_a_kept_one_its_changes(
    rt: HostRuntime,
) -> Result<(), Fail> {
    let alloc = rt.alloc();
    let mut layers = Layers::new(alloc, plain(alloc, 1, 0xAA)?);
    layers.push_layer(alloc)?;
    layers.set(alloc, &[2], &[0xBB])?;
    layers.remove(alloc, &[1])?;
    assert_eq!(rt;
        next_key(alloc, &layers, None, None, Order::Ascending)?,
        Some(2)
    );
    assert_eq!(rt;
        next_key(alloc, &layers, None, Some(&[2]), Order::Descending)?,
        None
    );
    assert_eq!(rt;
        next_key(alloc, &layers, Some(&[2]), None, Order::Descending)?,
        Some(2)
    );
    if layers.depth() > 0 {
        layers.drop_layer();
    }
    assert_eq!(rt;
        next_key(alloc, &layers, None, None, Order::Ascending)?,
        Some(1)
    );
    layers.push_layer(alloc)?;
    layers.set(alloc, &[1], &[0xAA])?;
    layers.set(alloc, &[2], &[0xBB])?;
    if layers.depth() > 0 {
        layers.keep_layer(alloc)?;
    }
    assert!(rt; layers.get(alloc, &[2])?.is_some());
    assert_eq!(rt; layers.depth(), 0);
    let delta = layers.into_delta();
    assert_eq!(rt; delta.changes.len(), 1);
    assert_eq!(rt; delta.changes[0].0.as_slice(), [2].as_slice());
    assert!(rt; delta.changes[0].1.is_some());
    Ok(())
}

/// A map of bytes in layers beside which a plain map is copied at each layer.
#[derive(Drop)]
struct Beside {
    layers: Layers<Plain>,
    current: BTreeMap<u8, u8>,
    saved: Vec<BTreeMap<u8, u8>>,
}

impl Beside {
    fn act(&mut self, alloc: Global, action: u32, key: u8, value: u8) -> Result<(), AllocError> {
        match action {
            0 => {
                self.layers.push_layer(alloc)?;
                self.saved.push(self.current.clone()?)?;
            }
            1 if self.layers.depth() > 0 => {
                self.layers.drop_layer();
                if let Some(earlier) = self.saved.pop() {
                    self.current = earlier;
                }
            }
            2 if self.layers.depth() > 0 => {
                self.layers.keep_layer(alloc)?;
                let _ = self.saved.pop();
            }
            3 | 4 => {
                self.layers.remove(alloc, &[key])?;
                let _ = self.current.remove(&key);
            }
            _ => {
                self.layers.set(alloc, &[key], &[value])?;
                self.current.insert(key, value)?;
            }
        }
        Ok(())
    }

    fn agrees(&self, alloc: Global) -> Result<bool, AllocError> {
        let rising: Vec<(u8, u8)> = self.current.iter().map(|(k, v)| (*k, *v)).collect(alloc)?;
        let falling: Vec<(u8, u8)> = rising.iter().rev().copied().collect(alloc)?;
        Ok(
            scanned(alloc, &self.layers, Order::Ascending)? == rising
                && scanned(alloc, &self.layers, Order::Descending)? == falling,
        )
    }
}

#[test]
fn scripted_calls_agree_with_a_plain_map_kept_beside(rt: HostRuntime) -> Result<(), Fail> {
    let alloc = rt.alloc();
    let mut current = BTreeMap::new(alloc);
    current.insert(7, 1)?;
    let mut beside = Beside {
        layers: Layers::new(alloc, plain(alloc, 7, 1)?),
        current,
        saved: Vec::new(alloc),
    };
    let mut seed = 1u32;
    for _ in 0..300u32 {
        seed = seed.wrapping_mul(1_664_525).wrapping_add(1_013_904_223);
        let [key, value, _, action] = seed.to_be_bytes();
        beside.act(alloc, u32::from(action % 9), key % 12, value % 3)?;
        assert!(rt; beside.agrees(alloc)?);
    }
    Ok(())
}
