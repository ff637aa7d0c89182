ghost use Rattle.std.specs.Prelude.{◌≡◌};
ghost use Rattle.submsg_dispatch.specs.declared.stop.HandleStop.TheVariants.{OutOfGas, NoMemory};

use chain_msgs::Failure;
use std::alloc::{AllocError, AllocFailed};
use thiserror::Error;

/// Why a message was not done.
#[derive(Debug, Drop, Error)]
pub enum HandleStop {
    /// It failed, which the caller may go on from.
    #[error("the message failed")]
    Failed(Failure),
    /// Nothing is left of the gas.
    #[error("out of gas")]
    OutOfGas,
    #[error("out of memory")]
    NoMemory,
}

impl From<gas_meter::OutOfGas> for HandleStop {
    ghost from_gives = { λ _ stop. stop ≡ OutOfGas };

    fn from(_error: gas_meter::OutOfGas) -> HandleStop {
        HandleStop::OutOfGas
    }
}

impl From<AllocError> for HandleStop {
    ghost from_gives = { λ _ stop. stop ≡ NoMemory };

    fn from(_error: AllocError) -> HandleStop {
        HandleStop::NoMemory
    }
}

impl<T: Drop> From<AllocFailed<T>> for HandleStop {
    ghost from_gives = { λ _ stop. stop ≡ NoMemory };

    fn from(_error: AllocFailed<T>) -> HandleStop {
        HandleStop::NoMemory
    }
}
