ghost use Rattle.std.specs.Prelude.{◌≡◌};
ghost use Rattle.wasmnode.specs.Halts.{stop_of_line, stop_of_parse};

use line_protocol::{BadKind, LineStop, ParseStop};
use std::alloc::AllocError;

/// Why a run ends before the end of its input.
#[derive(Clone, Copy, Debug, PartialEq, Eq)]
pub(crate) enum Stop {
    /// The line of this number is bad.
    Bad { number: u64, kind: BadKind },
    NoMemory,
    ReadFault,
    WriteFault,
}

impl From<AllocError> for Stop {
    ghost use Rattle.wasmnode.specs.declared.stop.Stop.TheVariants.{NoMemory};

    ghost from_gives = { λ _ stop. stop ≡ NoMemory };

    fn from(_error: AllocError) -> Stop {
        Stop::NoMemory
    }
}

impl From<LineStop> for Stop {
    ghost from_gives = { λ line stop. stop ≡ stop_of_line line };

    fn from(stop: LineStop) -> Stop {
        match stop {
            LineStop::Bad { number, kind } => Stop::Bad { number, kind },
            LineStop::ReadFault => Stop::ReadFault,
            LineStop::NoMemory => Stop::NoMemory,
        }
    }
}

/// Why the line of this number stops a run that says nothing.
pub(crate) fn stop_of_parse(number: u64, stop: ParseStop) -> Stop
    ensures { result ≡ stop_of_parse number stop }
{
    match stop {
        ParseStop::Bad(kind) => Stop::Bad { number, kind },
        ParseStop::NoMemory => Stop::NoMemory,
    }
}
