ghost use Rattle.std.specs.Prelude.{◌≡◌};
ghost use Rattle.bank_ledger.specs.declared.stop.BankStop.TheVariants.{NoMemory};

use std::alloc::{AllocError, AllocFailed};
use thiserror::Error;

/// Why coins were neither sent nor burned.
#[derive(Debug, Drop, PartialEq, Eq, Error)]
pub enum BankStop {
    /// The first denom, in the order of the coins, of which the account has less than is wanted.
    #[error("not enough of `{denom}`: {have}, and {want} are wanted")]
    NotEnough {
        denom: String,
        have: u128,
        want: u128,
    },
    #[error("out of memory")]
    NoMemory,
}

impl From<AllocError> for BankStop {
    ghost from_gives = { λ _ stop. stop ≡ NoMemory };

    fn from(_error: AllocError) -> BankStop {
        BankStop::NoMemory
    }
}

impl<T: Drop> From<AllocFailed<T>> for BankStop {
    ghost from_gives = { λ _ stop. stop ≡ NoMemory };

    fn from(_error: AllocFailed<T>) -> BankStop {
        BankStop::NoMemory
    }
}
