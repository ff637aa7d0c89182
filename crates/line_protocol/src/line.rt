ghost use Rattle.std.specs.Prelude.{◌≡◌};

use crate::kind::BadKind;
use chain_msgs::{Block, Genesis};
use json_shapes::{JsonStop, ShapeStop};
use std::alloc::{AllocError, AllocFailed};
use thiserror::Error;

/// A query as it was asked by a client.
#[derive(Debug, Drop)]
pub struct Question {
    /// The number of its line.
    pub line: u64,
    pub client: u32,
    /// The height that it asks, if it names one.
    pub height: Option<u64>,
    /// The compact JSON text of the request.
    pub request: Vec<u8>,
}

/// What a line says.
#[derive(Debug, Drop)]
pub enum Line {
    Empty,
    Genesis(Genesis),
    Block(Block),
    Query(Question),
}

/// Why a line says nothing.
#[derive(Clone, Copy, Debug, PartialEq, Eq, Error)]
pub enum ParseStop {
    #[error("bad line: {0}")]
    Bad(BadKind),
    #[error("out of memory")]
    NoMemory,
}

impl From<AllocError> for ParseStop {
    ghost use Rattle.line_protocol.specs.declared.line.ParseStop.TheVariants.{NoMemory};

    ghost from_gives = { λ _ stop. stop ≡ NoMemory };

    fn from(_error: AllocError) -> ParseStop {
        ParseStop::NoMemory
    }
}

impl<T: Drop> From<AllocFailed<T>> for ParseStop {
    ghost use Rattle.line_protocol.specs.declared.line.ParseStop.TheVariants.{NoMemory};

    ghost from_gives = { λ _ stop. stop ≡ NoMemory };

    fn from(_error: AllocFailed<T>) -> ParseStop {
        ParseStop::NoMemory
    }
}

impl From<JsonStop> for ParseStop {
    ghost use Rattle.line_protocol.specs.Reads.{json_stop};

    ghost from_gives = { λ stop parsed. parsed ≡ json_stop stop };

    fn from(stop: JsonStop) -> ParseStop {
        match stop {
            JsonStop::NoReading => ParseStop::Bad(BadKind::Json),
            JsonStop::NotWhole => ParseStop::Bad(BadKind::Number),
            JsonStop::NoMemory => ParseStop::NoMemory,
        }
    }
}

impl From<ShapeStop> for ParseStop {
    ghost use Rattle.line_protocol.specs.Reads.{shape_stop};

    ghost from_gives = { λ stop parsed. parsed ≡ shape_stop stop };

    fn from(stop: ShapeStop) -> ParseStop {
        match stop {
            ShapeStop::Shape { .. } => ParseStop::Bad(BadKind::Shape),
            ShapeStop::NoMemory => ParseStop::NoMemory,
        }
    }
}
