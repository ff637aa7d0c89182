ghost use Rattle.std.specs.Prelude.{◌≡◌};

use crate::turn::TrapKind;
use std::alloc::AllocError;

/// Why a run ends before its call does.
#[derive(Clone, Copy, Debug, PartialEq, Eq)]
pub(crate) enum Stop {
    Trap(TrapKind),
    OutOfGas,
    NoMemory,
}

impl From<AllocError> for Stop {
    ghost use Rattle.std.specs.Prelude.{◌≡◌};
    ghost use Rattle.wasm_machine.specs.declared.stop.Stop.TheVariants.{NoMemory};

    ghost from_gives = { λ _ e. e ≡ NoMemory };

    fn from(_error: AllocError) -> Stop {
        Stop::NoMemory
    }
}

/// An instruction that stands where no valid module has it.
pub(crate) const MISPLACED: Stop = Stop::Trap(TrapKind::Unreachable);
