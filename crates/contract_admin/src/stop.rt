ghost use Rattle.std.specs.Prelude.{◌≡◌};
ghost use Rattle.contract_admin.specs.declared.stop.AdminStop.TheVariants.{NoMemory};

use std::alloc::{AllocError, AllocFailed};
use thiserror::Error;

/// Why a contract is neither made nor changed.
#[derive(Debug, Drop, PartialEq, Eq, Error)]
pub enum AdminStop {
    #[error("there is no such contract")]
    NoSuchContract,
    #[error("the sender isn't the contract's admin")]
    NotAdmin,
    #[error("there is no code {0}")]
    NoSuchCode(u64),
    #[error("the sender may not instantiate the code")]
    MayNotInstantiate,
    #[error("there is a contract with this address")]
    AddressTaken,
    #[error("the label is empty or too long")]
    LabelBad,
    #[error("out of memory")]
    NoMemory,
}

impl From<AllocError> for AdminStop {
    ghost from_gives = { λ _ stop. stop ≡ NoMemory };

    fn from(_error: AllocError) -> AdminStop {
        AdminStop::NoMemory
    }
}

impl<T: Drop> From<AllocFailed<T>> for AdminStop {
    ghost from_gives = { λ _ stop. stop ≡ NoMemory };

    fn from(_error: AllocFailed<T>) -> AdminStop {
        AdminStop::NoMemory
    }
}
