ghost use Rattle.std.specs.Prelude.{◌≡◌, ◌≢◌, map, IfOk, IfErr, IsErr};
ghost use Rattle.coin_amounts.specs.Plain.{coin_view, raw_coin_view};
ghost use Rattle.coin_amounts.specs.Fault.{FaultsComeFirst};
ghost use Rattle.coin_amounts.specs.Entry.{coin_from};
ghost use Rattle.coin_amounts.specs.Coins.{coins_view, coin_at, coins_of, IsFaultOf, CoinsAreLawful};

use crate::amount::read_amount;
use crate::coin::{Coin, RawCoin};
use crate::coins::Coins;
use crate::denom::is_denom;
use std::alloc::{AllocError, AllocFailed, Global};
use std::collections::BTreeMap;
use thiserror::Error;

/// Why a list of coins can't be read, and at which place of the list, counted from 0.
#[derive(Clone, Copy, Debug, PartialEq, Eq, Error)]
pub enum CoinsFault {
    #[error("coin {0}: not a denom")]
    DenomBad(usize),
    #[error("coin {0}: not an amount")]
    AmountBad(usize),
    #[error("coin {0}: an amount of zero")]
    AmountZero(usize),
    /// The same denom stands at an earlier place.
    #[error("coin {0}: its denom stands at an earlier place")]
    DenomTwice(usize),
    #[error("out of memory")]
    NoMemory,
}

impl From<AllocError> for CoinsFault {
    ghost use Rattle.std.specs.Prelude.{◌≡◌};
    ghost use Rattle.coin_amounts.specs.declared.read.CoinsFault.TheVariants.{NoMemory};

    ghost from_gives = { λ _ fault. fault ≡ NoMemory };

    fn from(_error: AllocError) -> CoinsFault {
        CoinsFault::NoMemory
    }
}

impl<T: Drop> From<AllocFailed<T>> for CoinsFault {
    ghost use Rattle.std.specs.Prelude.{◌≡◌};
    ghost use Rattle.coin_amounts.specs.declared.read.CoinsFault.TheVariants.{NoMemory};

    ghost from_gives = { λ _ fault. fault ≡ NoMemory };

    fn from(_error: AllocFailed<T>) -> CoinsFault {
        CoinsFault::NoMemory
    }
}

/// Reads the coins and puts them in the order of their denoms. A fault is that of the earliest place,
/// and at one place the first in the order of `CoinsFault`.
pub fn read_coins(alloc: Global, list: &[RawCoin]) -> Result<Coins, CoinsFault>
    ensures ok { IfOk result (λ coins. coins_of (map raw_coin_view list.now) ≡ Ok (coins_view coins)) }
    ensures err { IfErr result (λ fault. IsFaultOf fault (coins_of (map raw_coin_view list.now))) }
    ensures refused { IfErr result (λ fault. fault ≢ CoinsFault.NoMemory → IsErr (coins_of (map raw_coin_view list.now))) }
{
    let mut amounts = BTreeMap::new(alloc);
    for (place, raw) in list.iter().enumerate() {
        let coin = read_coin(alloc, place, raw)?;
        if amounts.insert(coin.denom, coin.amount)?.is_some() {
            return Err(CoinsFault::DenomTwice(place));
        }
    }
    let list = coin_list(alloc, amounts)?;
    Ok(Coins { list })
}

fn coin_list(alloc: Global, amounts: BTreeMap<String, u128>) -> Result<Vec<Coin>, AllocError>
    ensures { IfOk result (λ list. list.items ≡ map coin_from amounts.entries) }
{
    amounts
        .into_iter()
        .map(|(denom, amount)| Coin { denom, amount })
        .collect(alloc)
}

fn read_coin(alloc: Global, place: usize, raw: &RawCoin) -> Result<Coin, CoinsFault>
    ensures ok { IfOk result (λ coin. coin_at place (raw_coin_view raw.now) ≡ Ok (coin_view coin)) }
    ensures err { IfErr result (λ fault. IsFaultOf fault (coin_at place (raw_coin_view raw.now))) }
{
    if !is_denom(raw.denom.as_str()) {
        return Err(CoinsFault::DenomBad(place));
    }
    match read_amount(raw.amount.as_str()) {
        Err(_) => Err(CoinsFault::AmountBad(place)),
        Ok(0) => Err(CoinsFault::AmountZero(place)),
        Ok(amount) => {
            let denom = raw.denom.clone()?;
            Ok(Coin { denom, amount })
        }
    }
}

/// What coins that were read are: their denoms rise and are denoms, their amounts are above 0 and below
/// 2^128, and they are the coins of the list in another order.
pub fn coins_are_lawful()
    ensures { CoinsAreLawful }
{}

/// What a fault says: the coins before its place can be read, and the coin there is wrong in that way.
pub fn faults_come_first()
    ensures { FaultsComeFirst }
{}
