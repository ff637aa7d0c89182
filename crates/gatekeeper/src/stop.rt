ghost use Rattle.std.specs.Prelude.{◌≡◌};
ghost use Rattle.gatekeeper.specs.declared.stop.GateStop.TheVariants.{NoMemory};

use std::alloc::{AllocError, AllocFailed};
use thiserror::Error;
use wasm_types::GateRefusal;

/// Why a code isn't taken.
#[derive(Debug, Drop, PartialEq, Eq, Error)]
pub enum GateStop {
    /// The first rule that it breaks.
    #[error("the code is refused: {0:?}")]
    Refused(GateRefusal),
    #[error("memory ran out")]
    NoMemory,
}

impl From<AllocError> for GateStop {
    ghost from_gives = { λ _ e. e ≡ NoMemory };

    fn from(_e: AllocError) -> GateStop {
        GateStop::NoMemory
    }
}

impl<T: Drop> From<AllocFailed<T>> for GateStop {
    ghost from_gives = { λ _ e. e ≡ NoMemory };

    fn from(_e: AllocFailed<T>) -> GateStop {
        GateStop::NoMemory
    }
}
