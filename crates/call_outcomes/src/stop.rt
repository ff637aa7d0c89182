ghost use Rattle.std.specs.Prelude.{◌≡◌};
ghost use Rattle.call_outcomes.specs.declared.stop.CallStop.TheVariants.{NoMemory};

use chain_msgs::Failure;
use std::alloc::AllocError;
use thiserror::Error;

/// Why a call gives no response.
#[derive(Debug, Drop, Error)]
pub enum CallStop {
    #[error("the call failed")]
    Failed(Failure),
    #[error("out of memory")]
    NoMemory,
}

impl From<AllocError> for CallStop {
    ghost from_gives = { λ _ stop. stop ≡ NoMemory };

    fn from(_error: AllocError) -> CallStop {
        CallStop::NoMemory
    }
}
