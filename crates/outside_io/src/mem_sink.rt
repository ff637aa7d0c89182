ghost use Rattle.std.specs.Prelude.{◌≡◌, ◌-◌, ◌<◌, ◌≤◌, ◌↔◌, ◌⊎◌, [], length, min, Some, IfOk, IsErr, is_err};
ghost use Rattle.std.specs.Io.KnownBytes.{WriteAppends};
ghost use Rattle.outside_io.specs.Cause.{HasCause};
ghost use Rattle.outside_io.specs.Memory.{no_calls, after_call, IsListed};
ghost use Rattle.outside_io.specs.Pieces.{TakesSome};

use crate::counted_calls::CountedCalls;
use crate::sink::Sink;
use crate::source::Failed;
use std::alloc::{AllocError, Global};
use std::marker::Model;

/// A sink in memory with room for so many bytes, which fails at chosen calls of `put`, and where no
/// room is left.
#[derive(Debug, Drop)]
pub struct MemSink {
    bytes: Vec<u8>,
    room: usize,
    calls: CountedCalls,
}

impl Model for MemSink {
    ghost use Rattle.std.specs.Prelude.{◌≤◌, vec_len, vec_capacity};
    ghost use Rattle.outside_io.specs.Memory.{KnownSink};

    ghost Value = { KnownSink };

    ghost view = { λ s. record { written = s.bytes.items; room = s.room; calls = s.calls } };

    ghost invariant = { λ s. (vec_len s.bytes ≤ s.room) × (s.room ≤ vec_capacity s.bytes) };
}

impl MemSink {
    /// Takes the room at once, in bytes. The calls that will fail are given by their numbers, from 0
    /// on. Failed calls count too.
    pub fn new(alloc: Global, room: usize, failing: Vec<u64>) -> Result<MemSink, AllocError>
        ensures written { IfOk result (λ sink. sink.written ≡ []) }
        ensures room { IfOk result (λ sink. sink.room ≡ room) }
        ensures calls { IfOk result (λ sink. sink.calls ≡ no_calls failing.items) }
    {
        Ok(MemSink {
            bytes: Vec::with_capacity(alloc, room)?,
            room,
            calls: CountedCalls::new(failing),
        })
    }

    /// What was written.
    pub fn bytes(&self) -> &[u8]
        ensures { result.now ≡ self.now.written }
    {
        &self.bytes
    }
}

impl Sink for MemSink {
    ghost written = { λ s. Some s.written };

    ghost faults = { λ s. s.calls.faults };

    /// Takes as much of the piece as there is room for.
    fn put(&mut self, piece: &[u8]) -> Result<usize, Failed>
        requires { 0 < length piece.now }
        ensures bound { TakesSome result piece.now }
        ensures bytes { WriteAppends (Some self.old.written) (Some self.new.written) result
            piece.now }
        ensures cause { HasCause self.old.calls.faults self.new.calls.faults result }

        ensures most { IfOk result
            (λ n. n ≡ min (length piece.now) (self.old.room - length self.old.written)) }
        ensures fails { IsErr result ↔
            (IsListed self.old.calls ⊎ (self.old.room ≤ length self.old.written)) }
        ensures calls { self.new.calls ≡ after_call self.old.calls (is_err result) }
        ensures room { self.new.room ≡ self.old.room }
    {
        let left = self.room - self.bytes.len();
        self.calls.admit(left > 0)?;
        let count = piece.len().min(left);
        self.bytes.extend_from_slice(&piece[..count]).unwrap();
        Ok(count)
    }
}
