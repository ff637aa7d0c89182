ghost use Rattle.std.specs.Prelude.{◌≡◌, ◌≤◌, ◌↔◌, ◌<◌, IsErr, IfErr, is_err, IfSome, Err, vec_len};
ghost use Rattle.outside_io.specs.Cause.{Rose};
ghost use Rattle.outside_io.specs.Memory.{no_calls, after_call, IsListed};
ghost use Rattle.module_shelves.specs.Shelves.{calls_of};

use outside_io::{Shelf, ShelfFault};
use std::alloc::{AllocError, Global};

/// A shelf of files in memory, which fails at chosen calls. Until it is placed it gives and takes nothing.
#[derive(Debug, Drop)]
pub struct MemShelf {
    files: Vec<(String, Vec<u8>)>,
    placed: bool,
    made: u64,
    failing: Vec<u64>,
    faults: u64,
}

impl MemShelf {
    /// The calls that will fail are given by their numbers, from 0 on. Failed calls count too.
    pub fn new(files: Vec<(String, Vec<u8>)>, failing: Vec<u64>) -> MemShelf
        ensures { calls_of result ≡ no_calls failing.items }
    {
        MemShelf {
            files,
            placed: false,
            made: 0,
            failing,
            faults: 0,
        }
    }

    /// Counts a call, which fails where it is listed.
    fn admit(&mut self) -> Result<(), ShelfFault>
        ensures fails { IsErr result ↔ IsListed (calls_of self.old) }
        ensures fault { IfErr result (λ fault. fault ≡ ShelfFault.Failed) }
        ensures after { calls_of self.new ≡ after_call (calls_of self.old) (is_err result) }
        ensures kept { self.old.faults ≤ self.new.faults }
        ensures cause { IsErr result → Rose self.old.faults self.new.faults }
    {
        let fails = self.failing.contains(&self.made);
        self.made = self.made.saturating_add(1);
        if fails {
            self.faults = self.faults.saturating_add(1);
            return Err(ShelfFault::Failed);
        }
        Ok(())
    }

    /// A copy of the file.
    fn copy_of(&self, alloc: Global, name: &str) -> Result<Option<Vec<u8>>, AllocError> {
        for (known, bytes) in &self.files {
            if known.as_str() == name {
                return Ok(Some(Vec::from_slice(alloc, bytes)?));
            }
        }
        Ok(None)
    }

    fn place_of(&self, name: &str) -> Option<usize>
        ensures { IfSome result (λ at. at < vec_len self.now.files) }
    {
        self.files.iter().position(|file| file.0.as_str() == name)
    }

    /// The file is these bytes from now on.
    fn keep(&mut self, name: &str, bytes: &[u8]) -> Result<(), AllocError>
        ensures { calls_of self.new ≡ calls_of self.old }
    {
        let alloc = *self.files.allocator();
        let copy = Vec::from_slice(alloc, bytes)?;
        match self.place_of(name) {
            Some(at) => self.files[at].1 = copy,
            None => self.files.push((String::from_str(alloc, name)?, copy))?,
        }
        Ok(())
    }
}

/// Want of memory is no fault that is counted.
fn memory_fault(_: AllocError) -> ShelfFault
    ensures { result ≡ ShelfFault.NoMemory }
{
    ShelfFault::NoMemory
}

impl Shelf for MemShelf {
    ghost faults = { λ s. s.faults };

    fn place(&mut self, _folder: &str) -> Result<(), ShelfFault>
        ensures kept { self.old.faults ≤ self.new.faults }
        ensures cause { result ≡ Err ShelfFault.Failed → Rose self.old.faults self.new.faults }

        ensures fails { IsErr result ↔ IsListed (calls_of self.old) }
        ensures calls { calls_of self.new ≡ after_call (calls_of self.old) (is_err result) }
    {
        self.admit()?;
        self.placed = true;
        Ok(())
    }

    fn get(&mut self, alloc: Global, name: &str) -> Result<Option<Vec<u8>>, ShelfFault>
        ensures kept { self.old.faults ≤ self.new.faults }
        ensures cause { result ≡ Err ShelfFault.Failed → Rose self.old.faults self.new.faults }

        ensures fails { result ≡ Err ShelfFault.Failed ↔ IsListed (calls_of self.old) }
    {
        match self.admit() {
            Ok(()) => {}
            Err(fault) => return Err(fault),
        }
        if !self.placed {
            return Ok(None);
        }
        self.copy_of(alloc, name).map_err(memory_fault)
    }

    fn put(&mut self, name: &str, bytes: &[u8]) -> Result<(), ShelfFault>
        ensures kept { self.old.faults ≤ self.new.faults }
        ensures cause { result ≡ Err ShelfFault.Failed → Rose self.old.faults self.new.faults }

        ensures fails { result ≡ Err ShelfFault.Failed ↔ IsListed (calls_of self.old) }
    {
        match self.admit() {
            Ok(()) => {}
            Err(fault) => return Err(fault),
        }
        if !self.placed {
            return Ok(());
        }
        self.keep(name, bytes).map_err(memory_fault)
    }
}
