//! Messages of the bank.

ghost use Rattle.std.specs.Prelude.{◌≡◌, ◌+◌, ◌∷◌, [], ℕ, Option, map, IfOk};
ghost use Rattle.coin_amounts.specs.Plain.{raw_coin_view};
ghost use Rattle.coin_amounts.specs.Coins.{coins_view};
ghost use Rattle.kv_layers.specs.Layers as stacks;
ghost use Rattle.kv_layers.specs.Layers.{HasCurrent};
ghost use Rattle.chain_records.specs.Keys.{IsAddress};
ghost use Rattle.gatekeeper.specs.Cache.{Tally};
ghost use Rattle.submsg_dispatch.specs.Messages.{transfers, send_coins, burn_coins};
ghost use Rattle.submsg_dispatch.specs.Views.{outcome_view};
ghost use Rattle.submsg_dispatch.specs.Under.{LeadsUnder, HasLawfulUnder, Lacks, moves_told, burns_told, events_view};

use crate::charges::charge_coins;
use crate::events;
use crate::failures::{not_enough, stop_of};
use crate::outcome::{Outcome, only_events};
use crate::reading::{address_in, coins_in};
use crate::stop::HandleStop;
use bank_ledger::{BankStop, burn, send};
use chain_msgs::Event;
use coin_amounts::{Coins, RawCoin};
use gas_meter::{Meter, Schedule};
use kv_layers::{Base, Layers};
use std::alloc::{AllocError, Global};

/// The stop of a bank that has too little.
fn bank_stop(alloc: Global, stop: BankStop) -> HandleStop
    ensures { Lacks stop result }
{
    match stop {
        BankStop::NotEnough { denom, have, want } => stop_of(not_enough(alloc, denom, have, want)),
        BankStop::NoMemory => HandleStop::NoMemory,
    }
}

/// Moves coins that are paid for, and tells of it.
fn move_coins<B: Base>(
    alloc: Global,
    layers: &mut Layers<B>,
    prefix: &str,
    from: &[u8],
    to: &[u8],
    coins: &Coins,
) -> Result<Vec<Event>, HandleStop>
    requires from { IsAddress from.now }
    requires to { IsAddress to.now }
    requires lawful { HasLawfulUnder prefix.now (HasCurrent B.stands_for layers.old) }
    ensures leads { (tally : Option Tally) (left : ℕ) → LeadsUnder prefix.now B.stands_for
        layers.old layers.new tally tally left left
        (moves_told from.now to.now (coins_view coins.now)) events_view result }
    ensures layers { stacks.depth layers.new ≡ stacks.depth layers.old }
{
    match send(alloc, layers, from, to, coins) {
        Ok(()) => {
            let event = events::transfer(alloc, prefix, from, to, coins)?;
            Ok(events::one(alloc, event)?)
        }
        Err(stop) => Err(bank_stop(alloc, stop)),
    }
}

/// Burns coins that are paid for, and tells of it.
fn burn_paid<B: Base>(
    alloc: Global,
    layers: &mut Layers<B>,
    prefix: &str,
    from: &[u8],
    coins: &Coins,
) -> Result<Outcome, HandleStop>
    requires from { IsAddress from.now }
    requires lawful { HasLawfulUnder prefix.now (HasCurrent B.stands_for layers.old) }
    ensures leads { (tally : Option Tally) (left : ℕ) → LeadsUnder prefix.now B.stands_for
        layers.old layers.new tally tally left left
        (burns_told from.now (coins_view coins.now)) outcome_view result }
    ensures layers { stacks.depth layers.new ≡ stacks.depth layers.old }
{
    match burn(alloc, layers, from, coins) {
        Ok(()) => {
            let event = events::burn(alloc, prefix, from, coins)?;
            Ok(only_events(events::one(alloc, event)?))
        }
        Err(stop) => Err(bank_stop(alloc, stop)),
    }
}

/// Charges coins, moves them, and tells of it.
pub(crate) fn transfers<B: Base>(
    alloc: Global,
    layers: &mut Layers<B>,
    prefix: &str,
    from: &[u8],
    to: &[u8],
    coins: &Coins,
    meter: &mut Meter,
    costs: &Schedule,
) -> Result<Vec<Event>, HandleStop>
    requires from { IsAddress from.now }
    requires to { IsAddress to.now }
    requires lawful { HasLawfulUnder prefix.now (HasCurrent B.stands_for layers.old) }
    ensures leads { (tally : Option Tally) → LeadsUnder prefix.now B.stands_for
        layers.old layers.new tally tally meter.old.left meter.new.left
        (transfers costs.now from.now to.now (coins_view coins.now)) events_view result }
    ensures gas { meter.new.left + meter.new.used ≡ meter.old.left + meter.old.used }
    ensures layers { stacks.depth layers.new ≡ stacks.depth layers.old }
{
    charge_coins(meter, costs, coins)?;
    move_coins(alloc, layers, prefix, from, to, coins)
}

/// A send.
pub(crate) fn send_coins<B: Base>(
    alloc: Global,
    layers: &mut Layers<B>,
    prefix: &str,
    sender: &[u8],
    to: &str,
    raws: &[RawCoin],
    meter: &mut Meter,
    costs: &Schedule,
) -> Result<Outcome, HandleStop>
    requires sender { IsAddress sender.now }
    requires lawful { HasLawfulUnder prefix.now (HasCurrent B.stands_for layers.old) }
    ensures leads { (tally : Option Tally) → LeadsUnder prefix.now B.stands_for
        layers.old layers.new tally tally meter.old.left meter.new.left
        (send_coins costs.now sender.now to.now (map raw_coin_view raws.now)) outcome_view result }
    ensures gas { meter.new.left + meter.new.used ≡ meter.old.left + meter.old.used }
    ensures layers { stacks.depth layers.new ≡ stacks.depth layers.old }
{
    let to = address_in(alloc, prefix, to)?;
    let coins = coins_in(alloc, raws)?;
    match transfers(alloc, layers, prefix, sender, &to, &coins, meter, costs) {
        Ok(events) => Ok(only_events(events)),
        Err(stop) => Err(stop),
    }
}

/// A burn.
pub(crate) fn burn_coins<B: Base>(
    alloc: Global,
    layers: &mut Layers<B>,
    prefix: &str,
    sender: &[u8],
    raws: &[RawCoin],
    meter: &mut Meter,
    costs: &Schedule,
) -> Result<Outcome, HandleStop>
    requires sender { IsAddress sender.now }
    requires lawful { HasLawfulUnder prefix.now (HasCurrent B.stands_for layers.old) }
    ensures leads { (tally : Option Tally) → LeadsUnder prefix.now B.stands_for
        layers.old layers.new tally tally meter.old.left meter.new.left
        (burn_coins costs.now sender.now (map raw_coin_view raws.now)) outcome_view result }
    ensures gas { meter.new.left + meter.new.used ≡ meter.old.left + meter.old.used }
    ensures layers { stacks.depth layers.new ≡ stacks.depth layers.old }
{
    let coins = coins_in(alloc, raws)?;
    charge_coins(meter, costs, &coins)?;
    burn_paid(alloc, layers, prefix, sender, &coins)
}
