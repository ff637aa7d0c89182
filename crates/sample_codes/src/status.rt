ghost use Rattle.std.specs.Prelude.{◌≡◌};
ghost use Rattle.std.specs.Process.{exit_status};
ghost use Rattle.sample_codes.specs.Answers.{number_of};

use std::process::ExitCode;

/// How a run ends.
#[derive(Clone, Copy, Debug, PartialEq, Eq)]
pub enum Status {
    /// The code was written.
    Done,
    /// The words are none that the program takes.
    Usage,
    NoMemory,
    WriteFault,
}

impl Status {
    /// The exit status of the program.
    pub fn code(self) -> ExitCode
        ensures { exit_status result ≡ number_of self }
    {
        ExitCode::from(match self {
            Status::Done => 0,
            Status::Usage => 2,
            Status::NoMemory => 4,
            Status::WriteFault => 6,
        })
    }
}
