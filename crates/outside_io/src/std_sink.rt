ghost use Rattle.std.specs.Prelude.{◌≡◌, ◌<◌, length};
ghost use Rattle.std.specs.Io.KnownBytes.{WriteAppends};
ghost use Rattle.outside_io.specs.Cause.{HasCause};
ghost use Rattle.outside_io.specs.Pieces.{TakesSome};
ghost use Rattle.outside_io.specs.Streams.{writer_of, write_faults};

use crate::sink::Sink;
use crate::source::Failed;
use std::io::Write;

/// A writer of std as a sink. It tells no content.
///
/// Each error of a write is a fault and raises the count, an interrupted write's too, and so does a
/// write that takes nothing. Nothing is flushed: a writer that keeps bytes back has to be flushed by
/// whoever lends it, and std's `Stdout` and `File` keep none.
#[derive(Debug, Drop)]
pub struct StdSink<W> {
    writer: W,
    faults: u64,
}

impl<W: Write> StdSink<W> {
    pub fn new(writer: W) -> StdSink<W>
        ensures writer { writer_of result ≡ writer }
        ensures faults { write_faults result ≡ 0 }
    {
        StdSink { writer, faults: 0 }
    }
}

impl<W: Write> Sink for StdSink<W> {
    ghost use Rattle.std.specs.Prelude.{None};

    ghost written = { λ _. None };

    ghost faults = { write_faults };

    fn put(&mut self, piece: &[u8]) -> Result<usize, Failed>
        requires { 0 < length piece.now }
        ensures bound { TakesSome result piece.now }
        ensures cause { HasCause (write_faults self.old) (write_faults self.new) result }

        // Where the writer tells its bytes, they grew by those that were taken.
        ensures passed { WriteAppends (W.contents (writer_of self.old))
            (W.contents (writer_of self.new)) result piece.now }
    {
        match self.writer.write(piece) {
            Ok(0) | Err(_) => {
                self.faults = self.faults.saturating_add(1);
                Err(Failed)
            }
            Ok(count) => Ok(count),
        }
    }
}
