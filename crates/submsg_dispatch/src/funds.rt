//! Coins that go along with messages.

ghost use Rattle.std.specs.Prelude.{◌≡◌, ◌+◌, Option, map};
ghost use Rattle.std.specs.Result.{result_ok};
ghost use Rattle.coin_amounts.specs.Coins.{coins_view, coins_of};
ghost use Rattle.coin_amounts.specs.Plain.{raw_coin_view};
ghost use Rattle.chain_records.specs.Keys.{IsAddress};
ghost use Rattle.kv_layers.specs.Layers as stacks;
ghost use Rattle.kv_layers.specs.Layers.{HasCurrent};
ghost use Rattle.gatekeeper.specs.Cache.{Tally};
ghost use Rattle.query_router.specs.Lawful.{HasLawfulUnder};
ghost use Rattle.submsg_dispatch.specs.Calling.{pays};
ghost use Rattle.submsg_dispatch.specs.Failures as failures;
ghost use Rattle.submsg_dispatch.specs.Under.{Finds, LeadsOn, events_view};

use crate::bank::transfers;
use crate::failures::{coins_bad, stop_of};
use crate::stop::HandleStop;
use chain_msgs::Event;
use coin_amounts::{Coins, CoinsFault, RawCoin, read_coins};
use gas_meter::{Meter, Schedule};
use kv_layers::{Base, Layers};
use std::alloc::Global;

/// Coins, of which there may be none.
pub(crate) fn funds_in(alloc: Global, raws: &[RawCoin]) -> Result<Coins, HandleStop>
    ensures { Finds coins_view result failures.coins_bad
        (result_ok (coins_of (map raw_coin_view raws.now))) }
{
    match read_coins(alloc, raws) {
        Ok(coins) => Ok(coins),
        Err(CoinsFault::NoMemory) => Err(HandleStop::NoMemory),
        Err(_) => Err(stop_of(coins_bad(alloc))),
    }
}

/// Sends the coins that go along with a message, if there are any, and tells of it.
pub(crate) fn pay<B: Base>(
    alloc: Global,
    layers: &mut Layers<B>,
    prefix: &str,
    from: &[u8],
    to: &[u8],
    coins: &Coins,
    meter: &mut Meter,
    costs: &Schedule,
) -> Result<Vec<Event>, HandleStop>
    requires from { IsAddress from.now }
    requires to { IsAddress to.now }
    requires lawful { HasLawfulUnder prefix.now (HasCurrent B.stands_for layers.old) }
    ensures leads { (tally : Option Tally) → LeadsOn prefix.now B.stands_for
        layers.old layers.new tally tally meter.old.left meter.new.left
        (pays costs.now from.now to.now (coins_view coins.now)) events_view result }
    ensures gas { meter.new.left + meter.new.used ≡ meter.old.left + meter.old.used }
    ensures layers { stacks.depth layers.new ≡ stacks.depth layers.old }
{
    if coins.is_empty() {
        return Ok(Vec::new(alloc));
    }
    transfers(alloc, layers, prefix, from, to, coins, meter, costs)
}
