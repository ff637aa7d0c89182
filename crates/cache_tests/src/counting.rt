//! Codes, a shelf that counts its calls, and one that has no memory for them.

use gatekeeper::{ValidCode, check};
use outside_io::{Shelf, ShelfFault};
use std::alloc::Global;
use std::sync::atomic::{AtomicU64, Ordering};
use std::test::Fail;
use wasm_writer::{echo, write};

/// A code of the module of `echo`, behind which a note has this number.
pub(crate) fn code(alloc: Global, number: u8) -> Result<ValidCode, Fail> {
    let mut bytes = write(alloc, &echo(alloc)?)?;
    bytes.extend_from_slice(&[0x00, 0x03, 0x02, b'n', number])?;
    Ok(check(alloc, bytes, &[])?)
}

/// The codes of the numbers below this one.
pub(crate) fn codes(alloc: Global, count: u8) -> Result<Vec<ValidCode>, Fail> {
    let mut codes = Vec::new(alloc);
    for number in 0..count {
        codes.push(code(alloc, number)?)?;
    }
    Ok(codes)
}

/// A shelf that holds nothing and takes nothing, and counts its calls.
#[derive(Drop)]
pub(crate) struct CountingShelf<'a> {
    calls: &'a AtomicU64,
}

impl<'a> CountingShelf<'a> {
    pub(crate) fn new(calls: &'a AtomicU64) -> CountingShelf<'a> {
        CountingShelf { calls }
    }
}

impl Shelf for CountingShelf<'_> {
    ghost faults = { λ _. 0 };

    fn place(&mut self, _folder: &str) -> Result<(), ShelfFault> {
        Ok(())
    }

    fn get(&mut self, _alloc: Global, _name: &str) -> Result<Option<Vec<u8>>, ShelfFault> {
        self.calls.fetch_add(1, Ordering::SeqCst);
        Ok(None)
    }

    fn put(&mut self, _name: &str, _bytes: &[u8]) -> Result<(), ShelfFault> {
        self.calls.fetch_add(1, Ordering::SeqCst);
        Ok(())
    }
}

/// A shelf that has no memory for any call.
#[derive(Drop)]
pub(crate) struct FullShelf;

impl Shelf for FullShelf {
    ghost faults = { λ _. 0 };

    fn place(&mut self, _folder: &str) -> Result<(), ShelfFault> {
        Err(ShelfFault::NoMemory)
    }

    fn get(&mut self, _alloc: Global, _name: &str) -> Result<Option<Vec<u8>>, ShelfFault> {
        Err(ShelfFault::NoMemory)
    }

    fn put(&mut self, _name: &str, _bytes: &[u8]) -> Result<(), ShelfFault> {
        Err(ShelfFault::NoMemory)
    }
}
