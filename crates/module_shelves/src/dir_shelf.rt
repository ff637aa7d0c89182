ghost use Rattle.std.specs.Prelude.{◌≡◌, ◌≤◌, [], IfErr};
ghost use Rattle.outside_io.specs.Cause.{Rose};
ghost use Rattle.module_shelves.specs.Shelves.{dir_faults};

use outside_io::{Shelf, ShelfFault};
use std::alloc::{AllocError, Global};
use std::fs::File;
use std::io::{Error, ErrorKind, Read};
use std::rt::Files;
use std::{fs, io};

/// The longest file that is given, in bytes.
const LONGEST: usize = 64 * 1024 * 1024;

/// The files of a folder of the system. Each error of std is a fault and raises the count. It tells no
/// content.
#[derive(Drop)]
pub struct DirShelf<'a, R> {
    rt: &'a R,
    folder: Option<String>,
    faults: u64,
}

impl<'a, R: Files + AllocGlobal + Sync> DirShelf<'a, R> {
    /// It is not placed yet, and gives and takes nothing until it is.
    pub fn new(rt: &'a R) -> DirShelf<'a, R>
        ensures { dir_faults result ≡ 0 }
    {
        DirShelf {
            rt,
            folder: None,
            faults: 0,
        }
    }
}

impl<R: Files + AllocGlobal> DirShelf<'_, R> {
    /// Counts a failed call.
    fn failed(&mut self) -> ShelfFault
        ensures rose { Rose self.old.faults self.new.faults }
        ensures kept { self.old.faults ≤ self.new.faults }
        ensures fault { result ≡ ShelfFault.Failed }
    {
        self.faults = self.faults.saturating_add(1);
        ShelfFault::Failed
    }

    /// Counts the error.
    fn fault(&mut self, error: Error) -> ShelfFault
        ensures rose { Rose self.old.faults self.new.faults }
        ensures kept { self.old.faults ≤ self.new.faults }
    {
        let failed = self.failed();
        match error.kind() {
            ErrorKind::OutOfMemory => ShelfFault::NoMemory,
            _ => failed,
        }
    }

    /// A file that isn't there is no failure, but its error is counted.
    fn nothing_found(&mut self, error: Error) -> Result<Option<Vec<u8>>, ShelfFault>
        ensures kept { self.old.faults ≤ self.new.faults }
        ensures cause { Rose self.old.faults self.new.faults }
    {
        let missing = error.kind() == ErrorKind::NotFound;
        let fault = self.fault(error);
        if missing { Ok(None) } else { Err(fault) }
    }

    /// The path of the file in the folder.
    fn path_of(&self, name: &str) -> Result<Option<String>, AllocError> {
        let Some(folder) = &self.folder else {
            return Ok(None);
        };
        let mut path = String::from_str(self.rt.alloc(), folder.as_str())?;
        path.push('/')?;
        path.push_str(name)?;
        Ok(Some(path))
    }
}

/// The bytes of the file, unless it is longer than what is given.
fn read_file<R: Files>(rt: &R, alloc: Global, path: &str) -> io::Result<Option<Vec<u8>>> {
    let file = File::open(rt, path)?;
    let mut bytes = Vec::new(alloc);
    file.take(LONGEST as u64 + 1).read_to_end(&mut bytes)?;
    if bytes.len() > LONGEST {
        Ok(None)
    } else {
        Ok(Some(bytes))
    }
}

impl<R: Files + AllocGlobal + Sync> Shelf for DirShelf<'_, R> {
    ghost faults = { dir_faults };

    /// Makes the folder where there is none. An empty text names no folder, and is a fault.
    fn place(&mut self, folder: &str) -> Result<(), ShelfFault>
        ensures kept { dir_faults self.old ≤ dir_faults self.new }
        ensures cause { result ≡ Err ShelfFault.Failed → Rose (dir_faults self.old) (dir_faults self.new) }
        ensures named { folder.now ≡ [] → result ≡ Err ShelfFault.Failed }
    {
        if folder.is_empty() {
            return Err(self.failed());
        }
        if let Err(error) = fs::create_dir_all(self.rt, folder) {
            return Err(self.fault(error));
        }
        match String::from_str(self.rt.alloc(), folder) {
            Ok(copy) => {
                self.folder = Some(copy);
                Ok(())
            }
            Err(_) => Err(ShelfFault::NoMemory),
        }
    }

    fn get(&mut self, alloc: Global, name: &str) -> Result<Option<Vec<u8>>, ShelfFault>
        ensures kept { dir_faults self.old ≤ dir_faults self.new }
        ensures cause { result ≡ Err ShelfFault.Failed → Rose (dir_faults self.old) (dir_faults self.new) }
    {
        let path = match self.path_of(name) {
            Ok(Some(path)) => path,
            Ok(None) => return Ok(None),
            Err(_) => return Err(ShelfFault::NoMemory),
        };
        match read_file(self.rt, alloc, &path) {
            Ok(found) => Ok(found),
            Err(error) => self.nothing_found(error),
        }
    }

    fn put(&mut self, name: &str, bytes: &[u8]) -> Result<(), ShelfFault>
        ensures kept { dir_faults self.old ≤ dir_faults self.new }
        ensures cause { result ≡ Err ShelfFault.Failed → Rose (dir_faults self.old) (dir_faults self.new) }
    {
        let path = match self.path_of(name) {
            Ok(Some(path)) => path,
            Ok(None) => return Ok(()),
            Err(_) => return Err(ShelfFault::NoMemory),
        };
        match fs::write(self.rt, &path, bytes) {
            Ok(()) => Ok(()),
            Err(error) => Err(self.fault(error)),
        }
    }
}
