ghost use Rattle.std.specs.Prelude.{◌≡◌, OnOk, IfErr};
ghost use Rattle.coin_amounts.specs.Plain.{coin_view};
ghost use Rattle.coin_amounts.specs.Coins.{coins_view};
ghost use Rattle.kv_layers.specs.Layers.{depth, HasCurrent};
ghost use Rattle.chain_records.specs.Keys.{IsAddress};
ghost use Rattle.chain_records.specs.Spelled.{OfSome, OfEach};
ghost use Rattle.kv_layers.specs.Spelling.{Becomes, Writes};
ghost use Rattle.chain_records.specs.State.{Spells};
ghost use Rattle.bank_ledger.specs.Lawful.{HasLawful, HasLawfulAmounts};
ghost use Rattle.bank_ledger.specs.Balances.{shortfall};
ghost use Rattle.bank_ledger.specs.Accounts.{balance};
ghost use Rattle.bank_ledger.specs.Effects.{IsBurned, IsStop, Leaves, UnlessNoMemory};
ghost use Rattle.bank_ledger.specs.Steps.{burned_leaving, CanBurn};

use crate::amounts::{lower, set_amount};
use crate::keys::{balance_key, supply_key};
use crate::shortfall::amounts_left;
use crate::stop::BankStop;
use coin_amounts::{Coin, Coins};
use kv_layers::{Base, Layers};
use std::alloc::{AllocError, Global};

/// Takes coins from an address and from the supply.
pub fn burn<B: Base>(
    alloc: Global,
    layers: &mut Layers<B>,
    from: &[u8],
    coins: &Coins,
) -> Result<(), BankStop>
    requires from { IsAddress from.now }
    requires lawful { HasLawful (HasCurrent B.stands_for layers.old) }
    ensures burned { OnOk result (Becomes Spells HasLawfulAmounts B.stands_for layers.old layers.new
        (λ s t. IsBurned s from.now (coins_view coins.now) t)) }
    ensures stop { IfErr result (λ stop. OfEach (HasCurrent B.stands_for layers.old)
        (λ s. IsStop stop (shortfall (balance s) from.now (coins_view coins.now)))) }
    ensures lawful { OnOk result (HasLawful (HasCurrent B.stands_for layers.new)) }
    ensures still_lawful { IfErr result (λ stop. UnlessNoMemory stop
        (HasLawful (HasCurrent B.stands_for layers.new))) }
    ensures unchanged { IfErr result (Leaves B.stands_for layers.old layers.new) }
    ensures depth { depth layers.new ≡ depth layers.old }
{
    let left = amounts_left(alloc, &*layers, from, coins)?;
    for (place, coin) in coins.list.iter().enumerate() {
        burn_coin(alloc, layers, from, coin, left[place])?;
    }
    Ok(())
}

/// Burns one coin, and leaves the address this much of its denom.
fn burn_coin<B: Base>(
    alloc: Global,
    layers: &mut Layers<B>,
    from: &[u8],
    coin: &Coin,
    left: u128,
) -> Result<(), AllocError>
    requires from { IsAddress from.now }
    requires can { OfSome (HasCurrent B.stands_for layers.old) (CanBurn (coin_view coin.now)) }
    ensures ok { OnOk result (Writes Spells B.stands_for layers.old layers.new
        (λ s. burned_leaving s from.now (coin_view coin.now) left)) }
    ensures depth { depth layers.new ≡ depth layers.old }
{
    let source = balance_key(alloc, from, coin.denom.as_str())?;
    set_amount(alloc, layers, &source, left)?;
    let supply = supply_key(alloc, coin.denom.as_str())?;
    lower(alloc, layers, &supply, coin.amount)?;
    Ok(())
}
