ghost use Rattle.std.specs.Prelude.{◌≡◌};
ghost use Rattle.code_registry.specs.declared.stop.CodeStop.TheVariants.{NoMemory};

use std::alloc::{AllocError, AllocFailed};
use thiserror::Error;
use wasm_types::GateRefusal;

/// Why a code isn't stored, or ids are neither pinned nor unpinned.
#[derive(Debug, Drop, Error)]
pub enum CodeStop {
    /// The first rule of the gate that the code breaks.
    #[error("the gate refuses the code")]
    Refused(GateRefusal),
    #[error("the sender isn't the chain's authority")]
    NotAuthority,
    /// The first id of which there is no code.
    #[error("there is no code {0}")]
    NoSuchCode(u64),
    #[error("no code can be stored any more")]
    TooManyCodes,
    #[error("more than 64 codes would be pinned")]
    TooManyPins,
    #[error("out of memory")]
    NoMemory,
}

impl From<AllocError> for CodeStop {
    ghost from_gives = { λ _ stop. stop ≡ NoMemory };

    fn from(_error: AllocError) -> CodeStop {
        CodeStop::NoMemory
    }
}

impl<T: Drop> From<AllocFailed<T>> for CodeStop {
    ghost from_gives = { λ _ stop. stop ≡ NoMemory };

    fn from(_error: AllocFailed<T>) -> CodeStop {
        CodeStop::NoMemory
    }
}
