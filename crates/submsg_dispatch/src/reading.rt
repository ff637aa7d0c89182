//! What is read of a message: addresses and coins.

ghost use Rattle.std.specs.Prelude.{◌≡◌, ℕ, List, Option, None, Result, Err, IfOk, map};
ghost use Rattle.std.specs.Result.{result_ok};
ghost use Rattle.coin_amounts.specs.declared.read.CoinsFault.{CoinsFault as Fault};
ghost use Rattle.coin_amounts.specs.Plain.{Coin as PlainCoin, raw_coin_view};
ghost use Rattle.coin_amounts.specs.Coins.{coins_view, coins_of, IsFaultOf};
ghost use Rattle.chain_addr.specs.Address.{address_of, Decodes};
ghost use Rattle.chain_addr.specs.Letters.{IsPrefix};
ghost use Rattle.chain_records.specs.Keys.{IsAddress};
ghost use Rattle.chain_msgs.specs.Plain.{failure_view};
ghost use Rattle.submsg_dispatch.specs.Failures as failures;
ghost use Rattle.submsg_dispatch.specs.Messages.{not_empty, some_coins};
ghost use Rattle.submsg_dispatch.specs.Under.{Finds, Misses, bytes_view};

use crate::failures::{address_bad, coins_bad, stop_of};
use crate::stop::HandleStop;
use chain_addr::{AddrFault, decode};
use chain_msgs::Failure;
use coin_amounts::{Coins, CoinsFault, RawCoin, read_coins};
use std::alloc::{AllocError, Global};

/// The failure of a text that is no address.
pub(crate) fn address_failure(alloc: Global, fault: AddrFault) -> Result<Failure, AllocError>
    ensures { (found : Option (List ℕ)) → Decodes (Err fault) found
        → IfOk result (λ failure. (found ≡ None) × (failure_view failure ≡ failures.address_bad)) }
{
    match fault {
        AddrFault::Bad { .. } => address_bad(alloc),
        AddrFault::NoMemory => Err(AllocError),
    }
}

/// The bytes of an address.
pub(crate) fn address_in(alloc: Global, prefix: &str, text: &str) -> Result<Vec<u8>, HandleStop>
    requires { IsPrefix prefix.now }
    ensures found { Finds bytes_view result failures.address_bad (address_of prefix.now text.now) }
    ensures address { IfOk result (λ bytes. IsAddress bytes.items) }
{
    match decode(alloc, prefix, text) {
        Ok(bytes) => Ok(bytes),
        Err(fault) => Err(stop_of(address_failure(alloc, fault))),
    }
}

/// The stop of coins that can't be read.
fn coins_stop(alloc: Global, fault: CoinsFault) -> HandleStop
    ensures { (read : Result (List PlainCoin) Fault) → IsFaultOf fault read
        → Misses result failures.coins_bad (some_coins (result_ok read)) }
{
    match fault {
        CoinsFault::NoMemory => HandleStop::NoMemory,
        _ => stop_of(coins_bad(alloc)),
    }
}

/// Coins, of which there have to be some.
fn not_empty(alloc: Global, coins: Coins) -> Result<Coins, HandleStop>
    ensures { Finds coins_view result failures.coins_bad (not_empty (coins_view coins)) }
{
    if coins.is_empty() {
        return Err(stop_of(coins_bad(alloc)));
    }
    Ok(coins)
}

/// Coins, of which there have to be some.
pub(crate) fn coins_in(alloc: Global, raws: &[RawCoin]) -> Result<Coins, HandleStop>
    ensures { Finds coins_view result failures.coins_bad
        (some_coins (result_ok (coins_of (map raw_coin_view raws.now)))) }
{
    match read_coins(alloc, raws) {
        Ok(coins) => not_empty(alloc, coins),
        Err(fault) => Err(coins_stop(alloc, fault)),
    }
}
