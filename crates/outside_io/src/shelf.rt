ghost use Rattle.std.specs.Prelude.{ℕ, ◌≤◌, ◌≡◌, IsOk};
ghost use Rattle.outside_io.specs.Cause.{Rose};

use std::alloc::Global;
use thiserror::Error;

/// Why a call of a shelf failed.
#[derive(Clone, Copy, Debug, PartialEq, Eq, Error)]
pub enum ShelfFault {
    #[error("a call of a shelf failed")]
    Failed,
    #[error("out of memory")]
    NoMemory,
}

/// A folder of files by name. Nothing is known of what it gives: whoever reads a file has to prove
/// what it is.
pub trait Shelf {
    /// How many calls have failed. It stands still at 2^64 - 1.
    ghost faults: { Self → ℕ };

    /// Names the folder, which every later call is about.
    fn place(&mut self, folder: &str) -> Result<(), ShelfFault>
        ensures kept { faults self.old ≤ faults self.new }
        ensures cause { result ≡ Err ShelfFault.Failed →
            Rose (faults self.old) (faults self.new) };

    /// The bytes of the file, or `None` where there is none.
    fn get(&mut self, alloc: Global, name: &str) -> Result<Option<Vec<u8>>, ShelfFault>
        ensures kept { faults self.old ≤ faults self.new }
        ensures cause { result ≡ Err ShelfFault.Failed →
            Rose (faults self.old) (faults self.new) };

    /// Writes the file.
    fn put(&mut self, name: &str, bytes: &[u8]) -> Result<(), ShelfFault>
        ensures kept { faults self.old ≤ faults self.new }
        ensures cause { result ≡ Err ShelfFault.Failed →
            Rose (faults self.old) (faults self.new) };
}

/// A shelf that is never placed: it has no file, and takes none.
#[derive(Clone, Copy, Debug, PartialEq, Eq)]
pub struct NoShelf;

impl Shelf for NoShelf {
    ghost faults = { λ _. 0 };

    fn place(&mut self, _folder: &str) -> Result<(), ShelfFault>
        ensures { IsOk result }
    {
        Ok(())
    }

    fn get(&mut self, _alloc: Global, _name: &str) -> Result<Option<Vec<u8>>, ShelfFault>
        ensures { result ≡ Ok None }
    {
        Ok(None)
    }

    fn put(&mut self, _name: &str, _bytes: &[u8]) -> Result<(), ShelfFault>
        ensures { IsOk result }
    {
        Ok(())
    }
}
