ghost use Rattle.std.specs.Prelude.{◌≡◌};
ghost use Rattle.std.specs.Process.{exit_status};
ghost use Rattle.wasmnode.specs.Words.{number_of};

use std::process::ExitCode;

/// How a run ends.
#[derive(Clone, Copy, Debug, PartialEq, Eq)]
pub enum Status {
    /// Each line was answered.
    Done,
    /// The words are none that the program takes.
    Usage,
    /// A line is bad. Those before it were answered, and then it.
    BadLine,
    NoMemory,
    ReadFault,
    WriteFault,
}

impl Status {
    /// The exit status of the program.
    pub fn code(self) -> ExitCode
        ensures { exit_status result ≡ number_of self }
    {
        ExitCode::from(match self {
            Status::Done => 0,
            Status::Usage => 2,
            Status::BadLine => 3,
            Status::NoMemory => 4,
            Status::ReadFault => 5,
            Status::WriteFault => 6,
        })
    }
}
