ghost use Rattle.std.specs.Prelude.{◌≡◌};
ghost use Rattle.wasm_valid.specs.declared.stop.ValidStop.TheVariants as valid_stops;
ghost use Rattle.wasm_valid.specs.declared.stop.TypingStop.TheVariants as typing_stops;

use std::alloc::{AllocError, AllocFailed};
use thiserror::Error;
use wasm_types::ValidKind;

/// Why a module wasn't found valid.
#[derive(Clone, Copy, Debug, PartialEq, Eq, Error)]
pub enum ValidStop {
    /// The first fault. `func` is the place of a body among the codes, and then `instr` that of an
    /// instruction in it; elsewhere `instr` is the place of an item in its list.
    #[error("the module is not valid: {kind:?} at place {instr}")]
    Invalid {
        func: Option<u32>,
        instr: u32,
        kind: ValidKind,
    },
    #[error("memory ran out")]
    NoMemory,
}

impl From<AllocError> for ValidStop {
    ghost from_gives = { λ _ e. e ≡ valid_stops.NoMemory };

    fn from(_e: AllocError) -> ValidStop {
        ValidStop::NoMemory
    }
}

impl<T: Drop> From<AllocFailed<T>> for ValidStop {
    ghost from_gives = { λ _ e. e ≡ valid_stops.NoMemory };

    fn from(_e: AllocFailed<T>) -> ValidStop {
        ValidStop::NoMemory
    }
}

/// Why an instruction isn't typed.
#[derive(Clone, Copy, Debug, PartialEq, Eq)]
pub enum TypingStop {
    Wrong(ValidKind),
    NoMemory,
}

impl From<AllocError> for TypingStop {
    ghost from_gives = { λ _ e. e ≡ typing_stops.NoMemory };

    fn from(_e: AllocError) -> TypingStop {
        TypingStop::NoMemory
    }
}

impl<T: Drop> From<AllocFailed<T>> for TypingStop {
    ghost from_gives = { λ _ e. e ≡ typing_stops.NoMemory };

    fn from(_e: AllocFailed<T>) -> TypingStop {
        TypingStop::NoMemory
    }
}

impl From<ValidKind> for TypingStop {
    ghost from_gives = { λ kind e. e ≡ typing_stops.Wrong kind };

    fn from(kind: ValidKind) -> TypingStop {
        TypingStop::Wrong(kind)
    }
}
