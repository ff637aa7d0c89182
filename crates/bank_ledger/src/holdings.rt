//! All that an address has.

ghost use Rattle.std.specs.Prelude.{◌≡◌, List, ℕ, IfOk, option_map, string_bytes, length, ◌≤◌, [], ◌∷◌, ◌++◌};
ghost use Rattle.coin_amounts.specs.Plain.{coin_view};
ghost use Rattle.coin_amounts.specs.Plain as plain;
ghost use Rattle.coin_amounts.specs.Coins.{coins_view};
ghost use Rattle.chain_records.specs.Keys.{plain_key, key_bytes, IsKeyOf, IsAddress};
ghost use Rattle.chain_records.specs.Keys as keys;
ghost use Rattle.chain_records.specs.Spelled.{OfEach};
ghost use Rattle.bank_ledger.specs.Accounts.{held};
ghost use Rattle.bank_ledger.specs.Lawful.{HasLawfulAmounts, HasLawful};
ghost use Rattle.bank_ledger.specs.Steps.{IsNextHeld, IsBalance, found_view};

use crate::amounts::amount_of;
use crate::keys::balance_key;
use chain_records::{
    Key, RecordFault, bytes_tell_keys, bytes_tell_records, key_bytes, key_of, maps_give_records,
};
use coin_amounts::{Coin, Coins};
use kv_layers::{Base, Order};
use std::alloc::{AllocError, Global};

/// All that an address has, denoms rising.
pub fn all_balances<B: Base>(alloc: Global, view: &B, addr: &[u8]) -> Result<Coins, AllocError>
    requires address { IsAddress addr.now }
    requires lawful { HasLawful (B.stands_for view.now) }
    ensures { IfOk result (λ coins. OfEach (B.stands_for view.now)
        (λ s. HasLawfulAmounts s → coins_view coins ≡ held s addr.now)) }
{
    let mut lo = key_bytes(alloc, &balance_key(alloc, addr, "")?)?;
    let mut hi = lo.to_vec(alloc)?;
    hi.push(u8::MAX)?;
    let mut list = Vec::new(alloc);
    'coins: while let Some((key, coin)) = next_coin(alloc, view, addr, &lo, &hi)? {
        list.push(coin)?;
        lo = key;
        lo.push(0)?;
    }
    Ok(Coins { list })
}

/// The first coin of an address from a key on, with its own key. No denom begins with a byte 255.
fn next_coin<B: Base>(
    alloc: Global,
    view: &B,
    addr: &[u8],
    lo: &[u8],
    hi: &[u8],
) -> Result<Option<(Vec<u8>, Coin)>, AllocError>
    requires from { (from : List ℕ) × (lo.now ≡ key_bytes (keys.balance addr.now from)) }
    requires to { hi.now ≡ key_bytes (keys.balance addr.now (255 ∷ [])) }
    requires lawful { HasLawful (B.stands_for view.now) }
    ensures { IfOk result (λ found. (from : List ℕ) → lo.now ≡ key_bytes (keys.balance addr.now from)
        → OfEach (B.stands_for view.now) (λ s. HasLawfulAmounts s
        → IsNextHeld s addr.now from (option_map found_view found))) }
{
    maps_give_records();
    bytes_tell_keys();
    bytes_tell_records();
    match view.next_in(alloc, Some(lo), Some(hi), Order::Ascending)? {
        Some((key, bytes)) => {
            let coin = coin_at(alloc, &key, &bytes)?;
            Ok(Some((key, coin)))
        }
        None => Ok(None),
    }
}

/// The coin of which these are the bytes of its key and its record.
fn coin_at(alloc: Global, place: &[u8], bytes: &[u8]) -> Result<Coin, AllocError>
    requires { (coin : plain.Coin) × IsBalance place.now bytes.now coin }
    ensures { IfOk result (λ coin. IsBalance place.now bytes.now (coin_view coin)) }
{
    bytes_tell_keys();
    let key = match key_of(alloc, place) {
        Ok(key) => key,
        Err(RecordFault::NoMemory) => return Err(AllocError),
        Err(RecordFault::Bad(_)) => unreachable!(),
    };
    let amount = amount_of(alloc, &key, bytes)?;
    Ok(Coin {
        denom: denom_of(key),
        amount,
    })
}

/// The denom of a balance's key.
fn denom_of(key: Key) -> String
    requires { (addr denom : List ℕ) × (plain_key key ≡ keys.balance addr denom) }
    ensures { (addr : List ℕ) × (plain_key key ≡ keys.balance addr (string_bytes result)) }
{
    match key {
        Key::Balance { denom, .. } => denom,
        _ => unreachable!(),
    }
}
