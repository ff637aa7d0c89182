ghost use Rattle.std.specs.Prelude.{if◌then◌else◌, nat_le, length};
ghost use Rattle.std.specs.Hash.FoldHasher as folding;

use std::hash::{FoldHasher, Hasher};

/// A hasher that leaves out each byte that is written alone. So a list of bytes has the hash of its length, which takes
/// no look at the bytes.
#[derive(Clone, Copy, Default)]
pub(crate) struct ByLength {
    rest: FoldHasher,
}

impl Hasher for ByLength {
    ghost write = { λ s bytes. if nat_le (length bytes) 1 then s else record { rest = folding.write s.rest bytes } };

    ghost finish = { λ s. folding.finish s.rest };

    fn finish(&self) -> u64 {
        self.rest.finish()
    }

    fn write(&mut self, bytes: &[u8]) {
        if bytes.len() <= 1 {
            return;
        }
        self.rest.write(bytes);
    }
}
