//! What messages cost. Where too little gas is left, all of it is used.

ghost use Rattle.std.specs.Prelude.{◌≡◌, ◌+◌, ◌-◌, ◌<◌, ◌≤◌, length, OnOk, IfErr};
ghost use Rattle.coin_amounts.specs.Coins.{coins_view};
ghost use Rattle.gas_meter.specs.Costs.{coins_cost, store_code_cost};
ghost use Rattle.submsg_dispatch.specs.declared.stop.HandleStop.TheVariants.{OutOfGas};

use crate::stop::HandleStop;
use coin_amounts::Coins;
use gas_meter::{Meter, Schedule};

/// Charges a message itself.
pub(crate) fn charge_message(meter: &mut Meter, costs: &Schedule) -> Result<(), HandleStop>
    ensures ok { OnOk result ((costs.now.message ≤ meter.old.left)
        × (meter.new.left ≡ meter.old.left - costs.now.message)) }
    ensures err { IfErr result (λ stop. (stop ≡ OutOfGas)
        × (meter.old.left < costs.now.message) × (meter.new.left ≡ 0)) }
    ensures gas { meter.new.left + meter.new.used ≡ meter.old.left + meter.old.used }
{
    meter.charge(costs.message)?;
    Ok(())
}

/// Charges the coins of a message.
pub(crate) fn charge_coins(
    meter: &mut Meter,
    costs: &Schedule,
    coins: &Coins,
) -> Result<(), HandleStop>
    ensures ok { OnOk result ((coins_cost costs.now (length (coins_view coins.now)) ≤ meter.old.left)
        × (meter.new.left ≡ meter.old.left - coins_cost costs.now (length (coins_view coins.now)))) }
    ensures err { IfErr result (λ stop. (stop ≡ OutOfGas)
        × (meter.old.left < coins_cost costs.now (length (coins_view coins.now)))
        × (meter.new.left ≡ 0)) }
    ensures gas { meter.new.left + meter.new.used ≡ meter.old.left + meter.old.used }
{
    meter.charge_wide(u128::from(costs.coin) * coins.len() as u128)?;
    Ok(())
}

/// Charges the code that a message stores.
pub(crate) fn charge_code(
    meter: &mut Meter,
    costs: &Schedule,
    code: &[u8],
) -> Result<(), HandleStop>
    ensures ok { OnOk result ((store_code_cost costs.now (length code.now) ≤ meter.old.left)
        × (meter.new.left ≡ meter.old.left - store_code_cost costs.now (length code.now))) }
    ensures err { IfErr result (λ stop. (stop ≡ OutOfGas)
        × (meter.old.left < store_code_cost costs.now (length code.now))
        × (meter.new.left ≡ 0)) }
    ensures gas { meter.new.left + meter.new.used ≡ meter.old.left + meter.old.used }
{
    let bytes = u128::from(costs.store_code_byte) * code.len() as u128;
    meter.charge_wide(u128::from(costs.store_code) + bytes)?;
    Ok(())
}
