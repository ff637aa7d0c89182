ghost use Rattle.std.specs.Prelude.{◌≡◌, ◌+◌, ◌-◌, ◌^◌, ◌<◌, ◌≤◌, length, Ok, Err, IfErr, OnOk, OnErr};
ghost use Rattle.linear_memory.specs.Numbers.{number_at};
ghost use Rattle.linear_memory.specs.Regions.{region, region_read, region_written, Tells};

use crate::memory::Memory;
use crate::numbers::{bytes32, number32};
use std::alloc::Global;
use thiserror::Error;

/// Why a Region can't be read or written: the first that holds.
#[derive(Clone, Copy, Debug, PartialEq, Eq, Error)]
pub enum RegionBad {
    #[error("the region's own 12 bytes pass the end of the memory")]
    Pointer,
    #[error("the region's offset is 0")]
    Offset,
    #[error("the region's length is above its capacity")]
    Length,
    #[error("the region's offset and capacity together are above 2^32 - 1")]
    Range,
    #[error("the region's bytes pass the end of the memory")]
    End,
    /// The limit of a write is the capacity.
    #[error("{length} bytes, of which there may be {limit}")]
    TooLong { length: u32, limit: u32 },
}

/// Why a Region was not read.
#[derive(Clone, Copy, Debug, PartialEq, Eq, Error)]
pub enum RegionFault {
    #[error(transparent)]
    Bad(RegionBad),
    #[error("out of memory")]
    NoMemory,
}

/// The three numbers of a Region.
#[derive(Drop)]
struct Region {
    offset: u32,
    capacity: u32,
    length: u32,
}

impl Memory {
    /// The bytes of the Region at a pointer, of which there may be so many.
    pub fn read_region(
        &self,
        alloc: Global,
        pointer: u32,
        limit: u32,
    ) -> Result<Vec<u8>, RegionFault>
        ensures { Tells result (region_read self.now pointer limit) }
    {
        let region = match self.region(pointer) {
            Ok(region) => region,
            Err(bad) => return Err(RegionFault::Bad(bad)),
        };
        let start = region.offset as usize;
        let end = start + region.length as usize;
        if end > self.bytes().len() {
            return Err(RegionFault::Bad(RegionBad::End));
        }
        if region.length > limit {
            let length = region.length;
            return Err(RegionFault::Bad(RegionBad::TooLong { length, limit }));
        }
        match Vec::from_slice(alloc, &self.bytes()[start..end]) {
            Ok(bytes) => Ok(bytes),
            Err(_) => Err(RegionFault::NoMemory),
        }
    }

    /// Writes bytes to the Region at a pointer, and then its length.
    pub fn write_region(&mut self, pointer: u32, bytes: &[u8]) -> Result<(), RegionBad>
        requires { length bytes.now < 2 ^ 32 }
        ensures ok { OnOk result (region_written self.old pointer bytes.now ≡ Ok self.new) }
        ensures bad { IfErr result (λ bad. region_written self.old pointer bytes.now ≡ Err bad) }
        ensures err { OnErr result (self.new ≡ self.old) }
        ensures size { length self.new ≡ length self.old }
    {
        let region = match self.region(pointer) {
            Ok(region) => region,
            Err(bad) => return Err(bad),
        };
        let end = u64::from(region.offset) + bytes.len() as u64;
        if end > self.bytes().len() as u64 {
            return Err(RegionBad::End);
        }
        let length = bytes.len() as u32;
        let limit = region.capacity;
        if length > limit {
            return Err(RegionBad::TooLong { length, limit });
        }
        self.put(region.offset as usize, bytes);
        self.put(pointer as usize + 8, &bytes32(u64::from(length)));
        Ok(())
    }

    /// The Region at a pointer.
    fn region(&self, pointer: u32) -> Result<Region, RegionBad>
        ensures { result ≡ region self.now pointer }
    {
        let bytes = self.bytes();
        let start = pointer as usize;
        if start + 12 > bytes.len() {
            return Err(RegionBad::Pointer);
        }
        let region = Region {
            offset: number_at(bytes, start),
            capacity: number_at(bytes, start + 4),
            length: number_at(bytes, start + 8),
        };
        if region.offset == 0 {
            return Err(RegionBad::Offset);
        }
        if region.length > region.capacity {
            return Err(RegionBad::Length);
        }
        if region.offset > u32::MAX - region.capacity {
            return Err(RegionBad::Range);
        }
        Ok(region)
    }
}

/// The number of four bytes at a place.
fn number_at(bytes: &[u8], at: usize) -> u32
    requires { at + 4 ≤ length bytes.now }
    ensures { result ≡ number_at bytes.now at 4 }
{
    number32(&bytes[at..at + 4])
}
