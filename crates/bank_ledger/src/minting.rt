//! The records of a chain that begins, before there are layers over them.

ghost use Rattle.std.specs.Prelude.{◌≡◌, ◌↔◌, ◌+◌, ◌<◌, ◌^◌, true, false, Ok, IfOk, OnOk, IsTrue};
ghost use Rattle.coin_amounts.specs.Denom.{IsDenom};
ghost use Rattle.chain_records.specs.Keys.{plain_key, IsAddress};
ghost use Rattle.chain_records.specs.Records.{plain_facts};
ghost use Rattle.chain_records.specs.State.{State, Spells};
ghost use Rattle.bank_ledger.specs.Accounts.{supply};
ghost use Rattle.bank_ledger.specs.Lawful.{HasLawfulAmounts};
ghost use Rattle.bank_ledger.specs.Minted.{opening, IsMinted, HasLawfulRecords};
ghost use Rattle.bank_ledger.specs.Amounts.{with_amount};
ghost use Rattle.bank_ledger.specs.Steps.{IsAmountKey};

use crate::keys::{balance_key, supply_key};
use crate::readers::{balance, supply};
use chain_records::{
    Counters, Facts, Key, Stored, facts_and_counters_begin_a_chain, key_bytes, one_record_changes,
    stored_bytes,
};
use kv_layers::Plain;
use std::alloc::{AllocError, Global};

/// The records of a chain without amounts: its facts, and counters that begin at 1.
pub fn opened(alloc: Global, facts: Facts) -> Result<Plain, AllocError>
    ensures spelled { IfOk result (λ plain. Spells plain (opening (plain_facts facts))) }
    ensures lawful { IfOk result (λ plain. HasLawfulAmounts (opening (plain_facts facts))) }
    ensures records { IfOk result (λ plain. HasLawfulRecords plain) }
{
    let counters = Counters {
        next_code: 1,
        next_instance: 1,
    };
    facts_and_counters_begin_a_chain();
    let mut plain = Plain::new(alloc);
    let key = key_bytes(alloc, &Key::Facts)?;
    plain.insert(key, stored_bytes(alloc, &Stored::Facts(facts))?)?;
    let key = key_bytes(alloc, &Key::Counters)?;
    plain.insert(key, stored_bytes(alloc, &Stored::Counters(counters))?)?;
    Ok(plain)
}

/// Writes an amount above 0 under a key.
fn put_amount(alloc: Global, plain: &mut Plain, key: &Key, amount: u128) -> Result<(), AllocError>
    requires key { IsAmountKey (plain_key key.now) }
    requires amount { 0 < amount }
    ensures { OnOk result ((s : State) → Spells plain.old s
        → Spells plain.new (with_amount s (plain_key key.now) amount)) }
{
    one_record_changes();
    let place = key_bytes(alloc, key)?;
    let bytes = stored_bytes(alloc, &Stored::Amount(amount))?;
    plain.insert(place, bytes)?;
    Ok(())
}

/// Adds an amount to what an address has and to the supply. Where the supply would pass 2^128 - 1, the
/// answer is `false`, and nothing is changed.
pub fn mint(
    alloc: Global,
    plain: &mut Plain,
    to: &[u8],
    denom: &str,
    amount: u128,
) -> Result<bool, AllocError>
    requires to { IsAddress to.now }
    requires denom { IsDenom denom.now }
    requires amount { 0 < amount }
    requires lawful { HasLawfulRecords plain.old }
    ensures fits { IfOk result (λ minted. (s : State) → Spells plain.old s
        → IsTrue minted ↔ (supply s denom.now + amount < 2 ^ 128)) }
    ensures minted { result ≡ Ok true → (s : State) → Spells plain.old s → HasLawfulAmounts s
        → (t : State) × Spells plain.new t × IsMinted s to.now denom.now amount t }
    ensures unchanged { result ≡ Ok false → plain.new ≡ plain.old }
    ensures lawful { OnOk result (HasLawfulRecords plain.new) }
{
    let Some(total) = supply(alloc, &*plain, denom)?.checked_add(amount) else {
        return Ok(false);
    };
    let have = balance(alloc, &*plain, to, denom)?;
    let account = balance_key(alloc, to, denom)?;
    put_amount(alloc, plain, &account, have + amount)?;
    let whole = supply_key(alloc, denom)?;
    put_amount(alloc, plain, &whole, total)?;
    Ok(true)
}
