ghost use Rattle.std.specs.Prelude.{◌≡◌, ◌≤◌, List, ℕ, length, take, drop, min};

use std::marker::Model;

/// Bytes in memory of which a front was read.
#[derive(Debug, Drop)]
pub(crate) struct Unread {
    bytes: Vec<u8>,
    place: usize,
}

impl Model for Unread {
    ghost use Rattle.std.specs.Prelude.{◌≤◌, List, ℕ, drop, vec_len};

    ghost Value = { List ℕ };

    ghost view = { λ u. drop u.place u.bytes.items };

    ghost invariant = { λ u. u.place ≤ vec_len u.bytes };
}

impl Unread {
    pub(crate) fn new(bytes: Vec<u8>) -> Unread
        ensures { result ≡ bytes.items }
    {
        Unread { bytes, place: 0 }
    }

    /// Moves as many bytes as there are, and as fit, into the front of the buffer.
    pub(crate) fn move_into(&mut self, buf: &mut [u8]) -> usize
        ensures count { result ≡ min (length self.old) (length buf.old) }
        ensures moved { take result buf.new ≡ take result self.old }
        ensures rest { self.new ≡ drop result self.old }
    {
        let rest = &self.bytes[self.place..];
        let count = rest.len().min(buf.len());
        buf[..count].copy_from_slice(&rest[..count]);
        self.place += count;
        count
    }
}
