ghost use Rattle.std.specs.Prelude.{◌≡◌};
ghost use Rattle.int_ops.specs.Numerics.{truth};

use thiserror::Error;

/// An integer of 32 or of 64 bits, which by itself has no sign.
#[derive(Clone, Copy, Debug, PartialEq, Eq)]
pub enum Num {
    I32(u32),
    I64(u64),
}

/// Why a division or a remainder has no value.
#[derive(Clone, Copy, Debug, PartialEq, Eq, Error)]
pub enum NumTrap {
    #[error("division by zero")]
    DivideByZero,
    #[error("the quotient is above the greatest integer")]
    IntegerOverflow,
}

/// 1 for true.
#[inline(always)]
pub(crate) fn truth(holds: bool) -> Num
    ensures { result ≡ truth holds }
{
    Num::I32(u32::from(holds))
}
