ghost use Rattle.std.specs.Prelude.{ℕ, List, Option, ◌<◌, length, OnOk};
ghost use Rattle.std.specs.Io.KnownBytes.{WriteAppends, Appends};
ghost use Rattle.outside_io.specs.Cause.{HasCause};
ghost use Rattle.outside_io.specs.Pieces.{TakesSome, AppendsFront};

use crate::source::Failed;

/// Where bytes go to.
pub trait Sink {
    /// The bytes taken so far, where the sink tells them.
    ghost written: { Self → Option (List ℕ) };

    /// How many calls have failed. It stands still at 2^64 - 1.
    ghost faults: { Self → ℕ };

    /// Takes a front of the piece, and answers how many bytes: at least one.
    fn put(&mut self, piece: &[u8]) -> Result<usize, Failed>
        requires { 0 < length piece.now }
        ensures bound { TakesSome result piece.now }
        ensures bytes { WriteAppends (written self.old) (written self.new) result piece.now }
        ensures cause { HasCause (faults self.old) (faults self.new) result };
}

/// Puts all the bytes, piece after piece. After a fault some front of them was taken.
pub fn write_all<K: Sink>(sink: &mut K, bytes: &[u8]) -> Result<(), Failed>
    ensures ok { OnOk result (Appends (K.written sink.old) (K.written sink.new) bytes.now) }
    ensures front { AppendsFront (K.written sink.old) (K.written sink.new) bytes.now }
    ensures cause { HasCause (K.faults sink.old) (K.faults sink.new) result }
{
    let mut rest = bytes;
    while !rest.is_empty() {
        let taken = sink.put(rest)?;
        rest = &rest[taken..];
    }
    Ok(())
}
