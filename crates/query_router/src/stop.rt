ghost use Rattle.std.specs.Prelude.{◌≡◌};
ghost use Rattle.query_router.specs.declared.stop.QueryStop.TheVariants as stops;

use gas_meter::OutOfGas;
use std::alloc::AllocError;
use thiserror::Error;

/// Why a query has no answer.
#[derive(Clone, Copy, Debug, PartialEq, Eq, Error)]
pub enum QueryStop {
    /// It costs more than what was left. All gas is used.
    #[error("out of gas")]
    OutOfGas,
    #[error("out of memory")]
    NoMemory,
}

impl From<OutOfGas> for QueryStop {
    ghost from_gives = { λ _ stop. stop ≡ stops.OutOfGas };

    fn from(_error: OutOfGas) -> QueryStop {
        QueryStop::OutOfGas
    }
}

impl From<AllocError> for QueryStop {
    ghost from_gives = { λ _ stop. stop ≡ stops.NoMemory };

    fn from(_error: AllocError) -> QueryStop {
        QueryStop::NoMemory
    }
}
