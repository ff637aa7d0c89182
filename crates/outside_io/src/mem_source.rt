ghost use Rattle.std.specs.Prelude.{◌≡◌, ◌<◌, ◌↔◌, length, take, drop, min, Some, IfOk, IsErr, is_err};
ghost use Rattle.std.specs.Io.{ReadsAtMost};
ghost use Rattle.std.specs.Io.KnownBytes.{ReadConsumes};
ghost use Rattle.outside_io.specs.Cause.{HasCause};
ghost use Rattle.outside_io.specs.Memory.{no_calls, after_call, IsListed};

use crate::counted_calls::CountedCalls;
use crate::source::{Failed, Source};
use crate::unread::Unread;
use std::marker::Model;

/// A source of bytes in memory, which fails at chosen calls of `take`.
#[derive(Debug, Drop)]
pub struct MemSource {
    bytes: Unread,
    calls: CountedCalls,
}

impl Model for MemSource {
    ghost use Rattle.outside_io.specs.Memory.{KnownSource};

    ghost Value = { KnownSource };

    ghost view = { λ s. record { left = s.bytes; calls = s.calls } };
}

impl MemSource {
    /// The calls that will fail are given by their numbers, from 0 on. Failed calls count too.
    pub fn new(bytes: Vec<u8>, failing: Vec<u64>) -> MemSource
        ensures left { result.left ≡ bytes.items }
        ensures calls { result.calls ≡ no_calls failing.items }
    {
        MemSource {
            bytes: Unread::new(bytes),
            calls: CountedCalls::new(failing),
        }
    }
}

impl Source for MemSource {
    ghost left = { λ s. Some s.left };

    ghost faults = { λ s. s.calls.faults };

    /// Gives as many bytes as are left and fit.
    fn take(&mut self, buf: &mut [u8]) -> Result<usize, Failed>
        requires { 0 < length buf.old }
        ensures bound { ReadsAtMost result buf.new }
        ensures bytes { ReadConsumes (Some self.old.left) (Some self.new.left) result buf.new }
        ensures cause { HasCause self.old.calls.faults self.new.calls.faults result }

        ensures most { IfOk result (λ n. n ≡ min (length self.old.left) (length buf.old)) }
        ensures fails { IsErr result ↔ IsListed self.old.calls }
        ensures calls { self.new.calls ≡ after_call self.old.calls (is_err result) }
    {
        self.calls.admit(true)?;
        Ok(self.bytes.move_into(buf))
    }
}
