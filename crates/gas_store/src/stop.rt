ghost use Rattle.std.specs.Prelude.{◌≡◌};
ghost use Rattle.gas_store.specs.declared.stop.StoreStop.TheVariants.{NoMemory};

use std::alloc::{AllocError, AllocFailed};
use thiserror::Error;

/// Why a call on a contract's storage did nothing.
#[derive(Clone, Copy, Debug, PartialEq, Eq, Error)]
pub enum StoreStop {
    /// The cost was more than what was left. All gas is used.
    #[error("out of gas")]
    OutOfGas,
    /// A write or a removal in a query.
    #[error("a write in a query")]
    WriteInQuery,
    #[error("an empty value")]
    EmptyValue,
    #[error("no scan has this number")]
    NoSuchScan,
    /// A call has at most 65,536 scans, and their bounds have at most 16 MiB together.
    #[error("too many scans, or too many bytes in their bounds")]
    TooManyScans,
    #[error("out of memory")]
    NoMemory,
}

impl From<AllocError> for StoreStop {
    ghost from_gives = { λ _ stop. stop ≡ NoMemory };

    fn from(_error: AllocError) -> StoreStop {
        StoreStop::NoMemory
    }
}

impl<T: Drop> From<AllocFailed<T>> for StoreStop {
    ghost from_gives = { λ _ stop. stop ≡ NoMemory };

    fn from(_error: AllocFailed<T>) -> StoreStop {
        StoreStop::NoMemory
    }
}
