ghost use Rattle.std.specs.Prelude.{◌≡◌, ◌+◌, ◌*◌, ◌<◌, ◌≤◌, OnOk, IfErr};
ghost use Rattle.gas_meter.specs.Gas.{spent, exhausted};

use crate::stop::StoreStop;
use gas_meter::{Meter, OutOfGas};

/// What so many bytes cost with a number that doesn't depend on them.
pub(crate) fn cost_of(base: u64, per_byte: u8, first: usize, second: usize) -> u128
    ensures { result ≡ base + per_byte * (first + second) }
{
    u128::from(base) + u128::from(per_byte) * (first as u128 + second as u128)
}

/// Charges the cost of a call. Where too little gas is left, all of that is used.
pub(crate) fn charge(meter: &mut Meter, cost: u128) -> Result<(), StoreStop>
    ensures ok { OnOk result ((cost ≤ meter.old.left) × (meter.new ≡ spent meter.old cost)) }
    ensures err { IfErr result (λ stop. (stop ≡ StoreStop.OutOfGas) × (meter.old.left < cost)
        × (meter.new ≡ exhausted meter.old)) }
{
    match meter.charge_wide(cost) {
        Ok(()) => Ok(()),
        Err(OutOfGas) => Err(StoreStop::OutOfGas),
    }
}
