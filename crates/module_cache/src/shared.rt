ghost use Rattle.std.specs.Prelude.{◌≤◌};

use crate::state::CacheState;
use crate::user::User;
use outside_io::Shelf;
use std::alloc::{AllocError, Global};
use std::sync::{Mutex, Wait};

/// A cache that several threads share, over a shelf of files. Each of the two has a lock of its own.
#[derive(Drop)]
pub struct Shared<F> {
    pub(crate) cache: Mutex<CacheState>,
    pub(crate) shelf: Mutex<F>,
}

impl<F: Shelf + Drop> Shared<F> {
    /// Holds no code, and will keep this many recent ones.
    pub fn new(alloc: Global, recent: u32, shelf: F) -> Result<Shared<F>, AllocError>
        requires some { 1 ≤ recent }
        requires few { recent ≤ 128 }
    {
        let cache = CacheState::new(alloc, recent)?;
        Ok(Shared {
            cache: Mutex::new(cache),
            shelf: Mutex::new(shelf),
        })
    }

    /// The cache as one thread uses it, which waits for the locks by the handle.
    pub fn user<'a, R: Wait + Sync>(&'a self, rt: &'a R) -> User<'a, F, R> {
        User::new(self, rt)
    }
}
