ghost use Rattle.std.specs.Prelude.{◌≡◌, IfOk, IfErr, None};
ghost use Rattle.coin_amounts.specs.Coins.{coins_view};
ghost use Rattle.chain_records.specs.Keys.{IsAddress};
ghost use Rattle.chain_records.specs.Spelled.{OfEach, HasTyped};
ghost use Rattle.bank_ledger.specs.Balances.{shortfall};
ghost use Rattle.bank_ledger.specs.Accounts.{balance};
ghost use Rattle.bank_ledger.specs.Effects.{IsStop};
ghost use Rattle.bank_ledger.specs.Steps.{amounts_left};

use crate::readers::balance;
use crate::stop::BankStop;
use coin_amounts::Coins;
use kv_layers::Base;
use std::alloc::Global;

/// What the account has without each of the coins, in their order. Refuses the first coin that it has too
/// little of.
pub(crate) fn amounts_left<B: Base>(
    alloc: Global,
    view: &B,
    from: &[u8],
    coins: &Coins,
) -> Result<Vec<u128>, BankStop>
    requires from { IsAddress from.now }
    requires typed { HasTyped (B.stands_for view.now) }
    ensures enough { IfOk result (λ left. OfEach (B.stands_for view.now)
        (λ s. shortfall (balance s) from.now (coins_view coins.now) ≡ None)) }
    ensures left { IfOk result (λ left. OfEach (B.stands_for view.now)
        (λ s. left.items ≡ amounts_left (balance s) from.now (coins_view coins.now))) }
    ensures stop { IfErr result (λ stop. OfEach (B.stands_for view.now)
        (λ s. IsStop stop (shortfall (balance s) from.now (coins_view coins.now)))) }
{
    let mut left = Vec::with_capacity(alloc, coins.len())?;
    for coin in &coins.list {
        let have = balance(alloc, view, from, coin.denom.as_str())?;
        if have < coin.amount {
            return Err(BankStop::NotEnough {
                denom: coin.denom.clone()?,
                have,
                want: coin.amount,
            });
        }
        left.push(have - coin.amount)?;
    }
    Ok(left)
}
