ghost use Rattle.std.specs.Prelude.{◌≡◌};
ghost use Rattle.linear_memory.specs.Numbers.{IsWidth};

use linear_memory::Memory;
use std::alloc::{AllocError, Global};

const PAGES: u32 = 16;

/// How many numbers of eight bytes the memory has.
const NUMBERS: u32 = 0x2_0000;

/// How far apart the places of two turns lie.
const STRIDE: u64 = 61 * 8;

/// The place of a turn, at which eight bytes lie in the memory.
fn place(turn: u32) -> u64 {
    (u64::from(turn) * STRIDE) & 0xF_FFF8
}

/// A memory of some pages, of whose numbers each is another.
pub fn filled(alloc: Global) -> Result<Memory, AllocError> {
    let mut memory = Memory::new(alloc, PAGES)?;
    for number in 0..NUMBERS {
        let _ = memory.store(
            u64::from(number) * 8,
            8,
            u64::from(number).wrapping_mul(0x9E37_79B9_7F4A_7C15),
        );
    }
    Ok(memory)
}

/// Sums what is loaded at moving places.
pub fn load(memory: &Memory, width: u8, count: u32) -> u64
    requires { IsWidth width }
{
    let mut sum = 0u64;
    for turn in 0..count {
        if let Ok(value) = memory.load(place(turn), width) {
            sum = sum.wrapping_add(value);
        }
    }
    sum
}

/// Stores the turns at moving places, and then sums the memory.
pub fn store(memory: &mut Memory, width: u8, count: u32) -> u64
    requires { IsWidth width }
{
    for turn in 0..count {
        let _ = memory.store(place(turn), width, u64::from(turn));
    }
    load(memory, 8, NUMBERS)
}
