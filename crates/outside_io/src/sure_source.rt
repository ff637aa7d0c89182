ghost use Rattle.std.specs.Prelude.{◌≡◌, ◌<◌, length, min, Some, Ok};
ghost use Rattle.std.specs.Io.{ReadsAtMost};
ghost use Rattle.std.specs.Io.KnownBytes.{ReadConsumes};

use crate::source::{Failed, Source};
use crate::unread::Unread;
use std::marker::Model;

/// A source of bytes in memory that never fails. Contracts see it as the bytes still to come.
#[derive(Debug, Drop)]
pub struct SureSource {
    bytes: Unread,
}

impl Model for SureSource {
    ghost use Rattle.std.specs.Prelude.{List, ℕ};

    ghost Value = { List ℕ };

    ghost view = { λ s. s.bytes };
}

impl SureSource {
    pub fn new(bytes: Vec<u8>) -> SureSource
        ensures { result ≡ bytes.items }
    {
        SureSource {
            bytes: Unread::new(bytes),
        }
    }
}

impl Source for SureSource {
    ghost left = { λ bytes. Some bytes };

    ghost faults = { λ _. 0 };

    /// Gives as many bytes as are left and fit.
    fn take(&mut self, buf: &mut [u8]) -> Result<usize, Failed>
        requires { 0 < length buf.old }
        ensures bound { ReadsAtMost result buf.new }
        ensures bytes { ReadConsumes (Some self.old) (Some self.new) result buf.new }
        ensures succeeds { result ≡ Ok (min (length self.old) (length buf.old)) }
    {
        Ok(self.bytes.move_into(buf))
    }
}
