//! Records that are written and removed.

ghost use Rattle.std.specs.Prelude.{◌≡◌, OnOk, Some, None};
ghost use Rattle.chain_records.specs.Keys.{plain_key, HasShortAddress};
ghost use Rattle.chain_records.specs.Records.{plain_facts, plain_contract, plain_stored};
ghost use Rattle.chain_records.specs.State.{Spells};
ghost use Rattle.kv_layers.specs.Layers.{depth};
ghost use Rattle.kv_layers.specs.Spelling.{Writes};
ghost use Rattle.state_records.specs.Records.{with_facts, with_counters, with_contract, with_pin, without_pin};
ghost use Rattle.state_records.specs.Writing.{Puts};

use chain_records::{
    Contract, Counters, Facts, Key, Stored, key_bytes, one_record_changes, stored_bytes,
};
use kv_layers::{Base, Layers};
use std::alloc::{AllocError, Global};

/// Writes what holds of the whole chain.
pub fn set_facts<B: Base>(
    alloc: Global,
    layers: &mut Layers<B>,
    facts: Facts,
) -> Result<(), AllocError>
    ensures ok { OnOk result (Writes Spells B.stands_for layers.old layers.new
        (λ s. with_facts s (plain_facts facts))) }
    ensures depth { depth layers.new ≡ depth layers.old }
{
    set_record(alloc, layers, &Key::Facts, &Stored::Facts(facts))
}

/// Writes the numbers that the next code and the next instance get.
pub fn set_counters<B: Base>(
    alloc: Global,
    layers: &mut Layers<B>,
    counters: Counters,
) -> Result<(), AllocError>
    ensures ok { OnOk result (Writes Spells B.stands_for layers.old layers.new
        (λ s. with_counters s counters)) }
    ensures depth { depth layers.new ≡ depth layers.old }
{
    set_record(alloc, layers, &Key::Counters, &Stored::Counters(counters))
}

/// Writes a contract under its address.
pub fn set_contract<B: Base>(
    alloc: Global,
    layers: &mut Layers<B>,
    addr: &[u8],
    contract: Contract,
) -> Result<(), AllocError>
    ensures ok { OnOk result (Writes Spells B.stands_for layers.old layers.new
        (λ s. with_contract s addr.now (plain_contract contract))) }
    ensures depth { depth layers.new ≡ depth layers.old }
{
    let name = Vec::from_slice(alloc, addr)?;
    set_record(
        alloc,
        layers,
        &Key::Contract(name),
        &Stored::Contract(contract),
    )
}

/// Pins an id.
pub fn set_pin<B: Base>(alloc: Global, layers: &mut Layers<B>, id: u64) -> Result<(), AllocError>
    ensures ok { OnOk result (Writes Spells B.stands_for layers.old layers.new
        (λ s. with_pin s id)) }
    ensures depth { depth layers.new ≡ depth layers.old }
{
    set_record(alloc, layers, &Key::Pin(id), &Stored::Mark)
}

/// Unpins an id.
pub fn remove_pin<B: Base>(alloc: Global, layers: &mut Layers<B>, id: u64) -> Result<(), AllocError>
    ensures ok { OnOk result (Writes Spells B.stands_for layers.old layers.new
        (λ s. without_pin s id)) }
    ensures depth { depth layers.new ≡ depth layers.old }
{
    remove_record(alloc, layers, &Key::Pin(id))
}

/// Writes a record under a key.
fn set_record<B: Base>(
    alloc: Global,
    layers: &mut Layers<B>,
    key: &Key,
    stored: &Stored,
) -> Result<(), AllocError>
    requires { HasShortAddress (plain_key key.now) }
    ensures ok { OnOk result (Puts B.stands_for layers.old layers.new (plain_key key.now)
        (Some (plain_stored stored.now))) }
    ensures depth { depth layers.new ≡ depth layers.old }
{
    one_record_changes();
    let place = key_bytes(alloc, key)?;
    let bytes = stored_bytes(alloc, stored)?;
    layers.set(alloc, &place, &bytes)?;
    Ok(())
}

/// Removes the record under a key.
fn remove_record<B: Base>(
    alloc: Global,
    layers: &mut Layers<B>,
    key: &Key,
) -> Result<(), AllocError>
    requires { HasShortAddress (plain_key key.now) }
    ensures ok { OnOk result (Puts B.stands_for layers.old layers.new (plain_key key.now) None) }
    ensures depth { depth layers.new ≡ depth layers.old }
{
    one_record_changes();
    let place = key_bytes(alloc, key)?;
    layers.remove(alloc, &place)?;
    Ok(())
}
