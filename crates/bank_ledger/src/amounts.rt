//! Amounts under their keys.

ghost use Rattle.std.specs.Prelude.{◌≡◌, ℕ, ◌+◌, ◌<◌, ◌≤◌, ◌^◌, IfOk, OnOk};
ghost use Rattle.chain_records.specs.Keys.{plain_key};
ghost use Rattle.chain_records.specs.Records.{plain_stored, amount, IsRecordUnder};
ghost use Rattle.kv_layers.specs.Layers.{depth, HasCurrent};
ghost use Rattle.chain_records.specs.Spelled.{OfSome, OfEach, HasTyped};
ghost use Rattle.kv_layers.specs.Spelling.{Writes};
ghost use Rattle.chain_records.specs.State.{Spells};
ghost use Rattle.bank_ledger.specs.Amounts.{amount_under, with_amount, with_more};
ghost use Rattle.bank_ledger.specs.Steps.{IsAmountKey, with_less};

use chain_records::{
    Key, RecordFault, Stored, bytes_tell_records, key_bytes, maps_give_records, one_record_changes,
    stored_bytes, stored_of,
};
use kv_layers::{Base, Layers};
use std::alloc::{AllocError, Global};

/// The amount under a key, and 0 where there is none.
pub(crate) fn amount_at<B: Base>(alloc: Global, view: &B, key: &Key) -> Result<u128, AllocError>
    requires key { IsAmountKey (plain_key key.now) }
    requires typed { HasTyped (B.stands_for view.now) }
    ensures { IfOk result (λ n. OfEach (B.stands_for view.now)
        (λ s. n ≡ amount_under s (plain_key key.now))) }
{
    maps_give_records();
    bytes_tell_records();
    let place = key_bytes(alloc, key)?;
    match view.get(alloc, &place)? {
        Some(bytes) => amount_of(alloc, key, &bytes),
        None => Ok(0),
    }
}

/// The amount that is written as these bytes.
pub(crate) fn amount_of(alloc: Global, key: &Key, bytes: &[u8]) -> Result<u128, AllocError>
    requires { (n : ℕ) × IsRecordUnder (plain_key key.now) bytes.now (amount n) }
    ensures { IfOk result (λ n. IsRecordUnder (plain_key key.now) bytes.now (amount n)) }
{
    bytes_tell_records();
    match stored_of(alloc, key, bytes) {
        Ok(stored) => Ok(amount_in(stored)),
        Err(RecordFault::NoMemory) => Err(AllocError),
        Err(RecordFault::Bad(_)) => unreachable!(),
    }
}

/// The amount that a record is.
fn amount_in(stored: Stored) -> u128
    requires { (n : ℕ) × (plain_stored stored ≡ amount n) }
    ensures { plain_stored stored ≡ amount result }
{
    match stored {
        Stored::Amount(n) => n,
        _ => unreachable!(),
    }
}

/// Writes an amount under a key, or removes the key where the amount is 0.
pub(crate) fn set_amount<B: Base>(
    alloc: Global,
    layers: &mut Layers<B>,
    key: &Key,
    amount: u128,
) -> Result<(), AllocError>
    requires { IsAmountKey (plain_key key.now) }
    ensures ok { OnOk result (Writes Spells B.stands_for layers.old layers.new
        (λ s. with_amount s (plain_key key.now) amount)) }
    ensures depth { depth layers.new ≡ depth layers.old }
{
    one_record_changes();
    let place = key_bytes(alloc, key)?;
    if amount == 0 {
        layers.remove(alloc, &place)?;
    } else {
        let bytes = stored_bytes(alloc, &Stored::Amount(amount))?;
        layers.set(alloc, &place, &bytes)?;
    }
    Ok(())
}

/// Takes from the amount under a key.
pub(crate) fn lower<B: Base>(
    alloc: Global,
    layers: &mut Layers<B>,
    key: &Key,
    amount: u128,
) -> Result<(), AllocError>
    requires key { IsAmountKey (plain_key key.now) }
    requires enough { OfSome (HasCurrent B.stands_for layers.old)
        (λ s. amount ≤ amount_under s (plain_key key.now)) }
    ensures ok { OnOk result (Writes Spells B.stands_for layers.old layers.new
        (λ s. with_less s (plain_key key.now) amount)) }
    ensures depth { depth layers.new ≡ depth layers.old }
{
    let have = amount_at(alloc, &*layers, key)?;
    set_amount(alloc, layers, key, have - amount)?;
    Ok(())
}

/// Adds to the amount under a key.
pub(crate) fn raise<B: Base>(
    alloc: Global,
    layers: &mut Layers<B>,
    key: &Key,
    amount: u128,
) -> Result<(), AllocError>
    requires key { IsAmountKey (plain_key key.now) }
    requires room { OfSome (HasCurrent B.stands_for layers.old)
        (λ s. amount_under s (plain_key key.now) + amount < 2 ^ 128) }
    ensures ok { OnOk result (Writes Spells B.stands_for layers.old layers.new
        (λ s. with_more s (plain_key key.now) amount)) }
    ensures depth { depth layers.new ≡ depth layers.old }
{
    let have = amount_at(alloc, &*layers, key)?;
    set_amount(alloc, layers, key, have + amount)?;
    Ok(())
}
