ghost use Rattle.std.specs.Prelude.{All, map, IfOk};
ghost use Rattle.std.specs.Result.{result_ok};
ghost use Rattle.coin_amounts.specs.Coins.{coins_view, coins_of};
ghost use Rattle.coin_amounts.specs.Plain.{raw_coin_view};
ghost use Rattle.chain_msgs.specs.Plain.{holding_view};
ghost use Rattle.block_runner.specs.Crediting.{HaveDenoms};
ghost use Rattle.block_runner.specs.Opening.{bad_coins, all_read};
ghost use Rattle.block_runner.specs.Reads.{Reads};

use crate::stop::GenesisStop;
use coin_amounts::{Coins, CoinsFault, RawCoin, coins_are_lawful, read_coins};
use std::alloc::Global;

/// The coins of one account.
fn coins_of(alloc: Global, list: &[RawCoin]) -> Result<Coins, GenesisStop>
    ensures reads { Reads bad_coins coins_view result
        (result_ok (coins_of (map raw_coin_view list.now))) }
    ensures denoms { IfOk result (λ coins. HaveDenoms (coins_view coins)) }
{
    coins_are_lawful();
    match read_coins(alloc, list) {
        Ok(coins) => Ok(coins),
        Err(CoinsFault::NoMemory) => Err(GenesisStop::NoMemory),
        Err(_) => Err(GenesisStop::Coins),
    }
}

/// What the accounts hold, in their order.
pub(crate) fn all_coins(
    alloc: Global,
    holdings: &[(String, Vec<RawCoin>)],
) -> Result<Vec<Coins>, GenesisStop>
    ensures reads { Reads bad_coins (λ all. map coins_view all.items) result
        (all_read (λ h. result_ok (coins_of h.1)) (map holding_view holdings.now)) }
    ensures denoms { IfOk result (λ all. All (λ coins. HaveDenoms (coins_view coins)) all.items) }
{
    let mut all = Vec::with_capacity(alloc, holdings.len())?;
    for holding in holdings {
        all.push(coins_of(alloc, &holding.1)?)?;
    }
    Ok(all)
}
