ghost use Rattle.std.specs.Prelude.{◌≡◌, ◌+◌, ◌<◌, ◌≤◌, length, OnOk, IfErr};
ghost use Rattle.coin_amounts.specs.Coins.{coins_view};
ghost use Rattle.gas_meter.specs.Costs.{answered_coins_cost};
ghost use Rattle.gas_meter.specs.Gas.{spent, exhausted};

use crate::stop::QueryStop;
use coin_amounts::Coins;
use gas_meter::{Meter, OutOfGas};

/// What each coin of an answer costs.
const ANSWERED_COIN: u128 = 100;

/// What an answer of these coins costs besides the query.
pub(crate) fn cost_of(coins: &Coins) -> u128
    ensures { result ≡ answered_coins_cost (length (coins_view coins.now)) }
{
    ANSWERED_COIN * coins.len() as u128
}

/// Charges a cost. Where too little gas is left, all of that is used.
pub(crate) fn charge(meter: &mut Meter, cost: u128) -> Result<(), QueryStop>
    ensures ok { OnOk result ((cost ≤ meter.old.left) × (meter.new ≡ spent meter.old cost)) }
    ensures err { IfErr result (λ stop. (stop ≡ QueryStop.OutOfGas) × (meter.old.left < cost)
        × (meter.new ≡ exhausted meter.old)) }
    ensures gas { meter.new.left + meter.new.used ≡ meter.old.left + meter.old.used }
    ensures spends { meter.new.left ≤ meter.old.left }
{
    match meter.charge_wide(cost) {
        Ok(()) => Ok(()),
        Err(OutOfGas) => Err(QueryStop::OutOfGas),
    }
}
