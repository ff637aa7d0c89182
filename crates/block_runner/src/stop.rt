ghost use Rattle.std.specs.Prelude.{◌≡◌};
ghost use Rattle.block_runner.specs.declared.stop.GenesisStop.TheVariants.{NoMemory};

use std::alloc::{AllocError, AllocFailed};
use thiserror::Error;

/// Why a genesis opens no chain: the first of its faults, in this order, unless memory ran out.
#[derive(Clone, Copy, Debug, PartialEq, Eq, Error)]
pub enum GenesisStop {
    /// The authority's address or an account's can't be read, or two accounts have the same.
    #[error("an address that can't be read, or that two accounts have")]
    Address,
    /// Coins of an account can't be read.
    #[error("coins that can't be read")]
    Coins,
    /// The accounts together have more than 2^128 - 1 of a denom.
    #[error("more than 2^128 - 1 of a denom")]
    Supply,
    #[error("out of memory")]
    NoMemory,
}

impl From<AllocError> for GenesisStop {
    ghost from_gives = { λ _ stop. stop ≡ NoMemory };

    fn from(_error: AllocError) -> GenesisStop {
        GenesisStop::NoMemory
    }
}

impl<T: Drop> From<AllocFailed<T>> for GenesisStop {
    ghost from_gives = { λ _ stop. stop ≡ NoMemory };

    fn from(_error: AllocFailed<T>) -> GenesisStop {
        GenesisStop::NoMemory
    }
}
