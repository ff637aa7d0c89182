ghost use Rattle.std.specs.Prelude.{◌≡◌, ◌+◌, ◌*◌, ◌^◌, ◌<◌, ◌≤◌, ◌↔◌, length, IsTrue, IsErr, IfOk, OnOk, OnErr, None, Ok};
ghost use Rattle.linear_memory.specs.Numbers.{number_at, bytes_of, overwritten, IsWidth};
ghost use Rattle.linear_memory.specs.Pages.{page_size, most_pages, pages_of, zeros, Grows};

use crate::numbers::{bytes16, bytes32, bytes64, number16, number32, number64};
use std::alloc::{AllocError, Global};
use std::marker::Model;
use thiserror::Error;

/// A place that lies past the end of the memory.
#[derive(Clone, Copy, Debug, PartialEq, Eq, Error)]
#[error("past the end of the memory")]
pub struct OutOfBounds;

/// The bytes of a memory, in whole pages of 65,536 bytes, of which there are at most 512.
#[derive(Drop)]
pub struct Memory {
    bytes: Vec<u8>,
}

impl Model for Memory {
    ghost use Rattle.std.specs.Prelude.{List, ℕ};

    ghost Value = { List ℕ };

    ghost use Rattle.linear_memory.specs.Pages.{IsPaged};

    ghost view = { λ m. m.bytes.items };

    ghost invariant = { λ m. IsPaged m.bytes.items };
}

impl Memory {
    pub const PAGE_SIZE: usize = 65_536;

    pub const MOST_PAGES: u32 = 512;

    /// So many pages of zeros.
    pub fn new(alloc: Global, pages: u32) -> Result<Memory, AllocError>
        requires { pages ≤ most_pages }
        ensures { IfOk result (λ memory. memory ≡ zeros pages) }
    {
        let bytes = vec![in alloc; 0; Memory::PAGE_SIZE * pages as usize]?;
        Ok(Memory { bytes })
    }

    /// How many pages there are.
    pub fn pages(&self) -> u32
        ensures pages { result ≡ pages_of self.now }
        ensures bytes { length self.now ≡ page_size * result }
        ensures most { result ≤ most_pages }
    {
        (self.bytes.len() / Memory::PAGE_SIZE) as u32
    }

    pub fn bytes(&self) -> &[u8]
        ensures { result.now ≡ self.now }
    {
        &self.bytes
    }

    /// The number of `width` bytes at a place.
    #[inline]
    pub fn load(&self, at: u64, width: u8) -> Result<u64, OutOfBounds>
        requires { IsWidth width }
        ensures refused { IsErr result ↔ (length self.now < at + width) }
        ensures ok { IfOk result (λ value. value ≡ number_at self.now at width) }
        ensures bound { IfOk result (λ value. value < 2 ^ (8 * width)) }
    {
        if !self.has(at, u64::from(width)) {
            return Err(OutOfBounds);
        }
        let at = at as usize;
        Ok(match width {
            1 => u64::from(self.bytes[at]),
            2 => u64::from(number16(&self.bytes[at..at + 2])),
            4 => u64::from(number32(&self.bytes[at..at + 4])),
            _ => number64(&self.bytes[at..at + 8]),
        })
    }

    /// Writes the lowest `width` bytes of a number at a place.
    #[inline]
    pub fn store(&mut self, at: u64, width: u8, value: u64) -> Result<(), OutOfBounds>
        requires { IsWidth width }
        ensures refused { IsErr result ↔ (length self.old < at + width) }
        ensures ok { OnOk result (self.new ≡ overwritten self.old at (bytes_of width value)) }
        ensures err { OnErr result (self.new ≡ self.old) }
        ensures size { length self.new ≡ length self.old }
    {
        if !self.has(at, u64::from(width)) {
            return Err(OutOfBounds);
        }
        let at = at as usize;
        match width {
            1 => self.put(at, &[(value & 0xFF) as u8]),
            2 => self.put(at, &bytes16(value)),
            4 => self.put(at, &bytes32(value)),
            _ => self.put(at, &bytes64(value)),
        }
        Ok(())
    }

    /// Writes bytes at a place.
    pub fn write(&mut self, at: u64, bytes: &[u8]) -> Result<(), OutOfBounds>
        ensures refused { IsErr result ↔ (length self.old < at + length bytes.now) }
        ensures ok { OnOk result (self.new ≡ overwritten self.old at bytes.now) }
        ensures err { OnErr result (self.new ≡ self.old) }
        ensures size { length self.new ≡ length self.old }
    {
        if !self.has(at, bytes.len() as u64) {
            return Err(OutOfBounds);
        }
        self.put(at as usize, bytes);
        Ok(())
    }

    /// Writes bytes at a place where they fit.
    #[inline]
    pub(crate) fn put(&mut self, at: usize, bytes: &[u8])
        requires { at + length bytes.now ≤ length self.old }
        ensures bytes { self.new ≡ overwritten self.old at bytes.now }
        ensures size { length self.new ≡ length self.old }
    {
        self.bytes[at..at + bytes.len()].copy_from_slice(bytes);
    }

    /// Whether so many bytes from a place on lie within the memory. The sum is never made.
    #[inline]
    fn has(&self, at: u64, count: u64) -> bool
        ensures { IsTrue result ↔ (at + count ≤ length self.now) }
    {
        let size = self.bytes.len() as u64;
        count <= size && at <= size - count
    }

    /// Adds pages of zeros, and answers how many pages there were. `None` is refused growth.
    pub fn grow(&mut self, alloc: Global, by: u32) -> Result<Option<u32>, AllocError>
        ensures refused { (result ≡ Ok None) ↔ (most_pages < pages_of self.old + by) }
        ensures ok { IfOk result (λ answer. Grows self.old self.new by answer) }
        ensures err { OnErr result (self.new ≡ self.old) }
    {
        let pages = self.pages();
        if by > Memory::MOST_PAGES - pages {
            return Ok(None);
        }
        let size = Memory::PAGE_SIZE * (pages + by) as usize;
        self.make_room(alloc, size)?;
        self.bytes.resize(size, 0)?;
        Ok(Some(pages))
    }

    /// Makes room for so many bytes. Room doubles, up to that of all pages.
    fn make_room(&mut self, alloc: Global, size: usize) -> Result<(), AllocError>
        ensures { self.new ≡ self.old }
    {
        if size <= self.bytes.capacity() {
            return Ok(());
        }
        let most = Memory::PAGE_SIZE * Memory::MOST_PAGES as usize;
        let room = size.max(self.bytes.len() * 2).min(most);
        let mut bytes = Vec::with_capacity(alloc, room)?;
        bytes.extend_from_slice(&self.bytes)?;
        self.bytes = bytes;
        Ok(())
    }
}
