ghost use Rattle.std.specs.Prelude.{◌≡◌};
ghost use Rattle.kv_layers.specs.Layers.{depth};

use kv_layers::{Base, Layers, Order, Plain};
use std::alloc::{AllocError, Global};

/// How many layers lie on the base, and how many changes each has.
const LAYERS: u32 = 32;

const CHANGES: u32 = 100;

/// How often the layers are kept.
const ROUNDS: u32 = 10;

/// A map of so many keys.
pub fn base(alloc: Global, count: u32) -> Result<Plain, AllocError> {
    let mut plain = Plain::new(alloc);
    for turn in 0..count {
        let key = turn.to_be_bytes().to_vec(alloc)?;
        let value = turn.to_le_bytes().to_vec(alloc)?;
        plain.insert(key, value)?;
    }
    Ok(plain)
}

/// Changes a hundred values in the newest layer.
pub fn change<B: Base>(
    alloc: Global,
    layers: &mut Layers<B>,
    layer: u32,
    count: u32,
) -> Result<(), AllocError>
    ensures { depth layers.new ≡ depth layers.old }
{
    for turn in 0..CHANGES {
        let at = layer
            .wrapping_mul(CHANGES)
            .wrapping_add(turn)
            .wrapping_mul(0x9E37_79B1)
            % count.max(1);
        layers.set(alloc, &at.to_be_bytes(), &turn.to_be_bytes())?;
    }
    Ok(())
}

/// Puts layers of changes on top.
fn push(alloc: Global, layers: &mut Layers<Plain>, count: u32) -> Result<(), AllocError> {
    for layer in 0..LAYERS {
        layers.push_layer(alloc)?;
        change(alloc, layers, layer, count)?;
    }
    Ok(())
}

/// Keeps all layers.
fn keep(alloc: Global, layers: &mut Layers<Plain>) -> Result<(), AllocError> {
    for _ in 0..LAYERS {
        if layers.depth() > 0 {
            layers.keep_layer(alloc)?;
        }
    }
    Ok(())
}

/// A base of so many keys under layers of changes.
pub fn layers(alloc: Global, count: u32) -> Result<Layers<Plain>, AllocError> {
    let mut layers = Layers::new(alloc, base(alloc, count)?);
    push(alloc, &mut layers, count)?;
    Ok(layers)
}

/// The number that the bytes of a value write, the lowest byte first.
fn number(value: &[u8]) -> u64 {
    let mut sum = 0u64;
    for byte in value.iter().rev() {
        sum = sum.wrapping_mul(256).wrapping_add(u64::from(*byte));
    }
    sum
}

/// Sums the values of so many keys.
pub fn get<B: Base>(alloc: Global, map: &B, count: u32) -> Result<u64, AllocError> {
    let mut sum = 0u64;
    for turn in 0..count {
        let at = turn.wrapping_mul(0x9E37_79B1) % count;
        if let Some(value) = map.get(alloc, &at.to_be_bytes())? {
            sum = sum.wrapping_add(number(&value));
        }
    }
    Ok(sum)
}

/// Sums the values of so many entries, in the order of their keys.
pub fn next<B: Base>(alloc: Global, map: &B, count: u32) -> Result<u64, AllocError> {
    let mut sum = 0u64;
    let mut from = Vec::new(alloc);
    for _ in 0..count {
        let Some((key, value)) = map.next_in(alloc, Some(&from), None, Order::Ascending)? else {
            break;
        };
        sum = sum.wrapping_add(number(&value));
        from = key;
        from.push(0)?;
    }
    Ok(sum)
}

/// Keeps all layers and puts others on top, some times, and answers how many changes are left.
pub fn keep_all(alloc: Global, mut layers: Layers<Plain>, count: u32) -> Result<u64, AllocError> {
    for _ in 0..ROUNDS {
        keep(alloc, &mut layers)?;
        push(alloc, &mut layers, count)?;
    }
    keep(alloc, &mut layers)?;
    Ok(changes(layers))
}

/// How many changes layers have that are all kept.
fn changes(layers: Layers<Plain>) -> u64 {
    if layers.depth() != 0 {
        return 0;
    }
    layers.into_delta().changes.len() as u64
}
