ghost use Rattle.std.specs.Prelude.{◌≡◌};
ghost use Rattle.wasm_reader.specs.declared.stop.ReadStop.TheVariants.{NoMemory};

use std::alloc::{AllocError, AllocFailed};
use thiserror::Error;
use wasm_types::ReadKind;

/// Why reading stopped.
#[derive(Clone, Copy, Debug, PartialEq, Eq, Error)]
pub enum ReadStop {
    /// The bytes spell no module: the place of the first part that can't be read, and why.
    #[error("{kind:?} at byte {at}")]
    Fault { at: usize, kind: ReadKind },
    #[error("out of memory")]
    NoMemory,
}

impl From<AllocError> for ReadStop {
    ghost from_gives = { λ _ e. e ≡ NoMemory };

    fn from(_e: AllocError) -> ReadStop {
        ReadStop::NoMemory
    }
}

impl<T: Drop> From<AllocFailed<T>> for ReadStop {
    ghost from_gives = { λ _ e. e ≡ NoMemory };

    fn from(_e: AllocFailed<T>) -> ReadStop {
        ReadStop::NoMemory
    }
}

pub fn fault(at: usize, kind: ReadKind) -> ReadStop
    ensures { result ≡ ReadStop.Fault at kind }
{
    ReadStop::Fault { at, kind }
}
