ghost use Rattle.std.specs.Prelude.{◌≡◌};

use std::alloc::{AllocError, AllocFailed};
use thiserror::Error;

/// What belongs in a place.
#[derive(Clone, Copy, Debug, PartialEq, Eq, Error)]
pub enum Want {
    #[error("a text")]
    Text,
    #[error("an integer from 0 to 2^64 - 1")]
    Number,
    #[error("a list")]
    List,
    #[error("a text in base64")]
    Binary,
    #[error("an object of one field")]
    Variant,
}

/// Why a text gives no JSON value.
#[derive(Clone, Copy, Debug, PartialEq, Eq, Error)]
pub enum JsonStop {
    #[error("no JSON of nesting at most 127")]
    NoReading,
    #[error("a number that is no integer of 64 bits")]
    NotWhole,
    #[error("out of memory")]
    NoMemory,
}

impl From<AllocError> for JsonStop {
    ghost use Rattle.json_shapes.specs.declared.stop.JsonStop.TheVariants.{NoMemory};

    ghost from_gives = { λ _ stop. stop ≡ NoMemory };

    fn from(_error: AllocError) -> JsonStop {
        JsonStop::NoMemory
    }
}

/// Why a value was not read by a form.
#[derive(Debug, PartialEq, Eq, Drop, Error)]
pub enum ShapeStop {
    /// At the path, the names of fields and the places in lists joined by dots, something else belongs.
    #[error("{want} belongs at `{path}`")]
    Shape { path: String, want: Want },
    #[error("out of memory")]
    NoMemory,
}

impl From<AllocError> for ShapeStop {
    ghost use Rattle.json_shapes.specs.declared.stop.ShapeStop.TheVariants.{NoMemory};

    ghost from_gives = { λ _ stop. stop ≡ NoMemory };

    fn from(_error: AllocError) -> ShapeStop {
        ShapeStop::NoMemory
    }
}

impl<T: Drop> From<AllocFailed<T>> for ShapeStop {
    ghost use Rattle.json_shapes.specs.declared.stop.ShapeStop.TheVariants.{NoMemory};

    ghost from_gives = { λ _ stop. stop ≡ NoMemory };

    fn from(_error: AllocFailed<T>) -> ShapeStop {
        ShapeStop::NoMemory
    }
}
