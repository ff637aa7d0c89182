//! Records that are read.

ghost use Rattle.std.specs.Prelude.{◌≡◌, IfOk, option_map};
ghost use Rattle.std.specs.Option.{is_some};
ghost use Rattle.std.specs.FinMap.{get};
ghost use Rattle.chain_records.specs.Keys.{plain_key, HasShortAddress};
ghost use Rattle.chain_records.specs.Records.{PlainStored, plain_facts, plain_code_info, plain_contract, plain_stored, IsRecordUnder};
ghost use Rattle.chain_records.specs.Spelled.{OfEach, HasTyped};
ghost use Rattle.chain_records.specs.State.{entry_of};
ghost use Rattle.state_records.specs.Records.{info_at};

use crate::views::{code_info_in, contract_in, counters_in, facts_in};
use chain_records::{
    CodeInfo, Contract, Counters, Facts, Key, RecordFault, Stored, bytes_tell_records, key_bytes,
    maps_give_records, stored_of,
};
use kv_layers::Base;
use std::alloc::{AllocError, Global};

/// What holds of the whole chain.
pub fn facts<B: Base>(alloc: Global, view: &B) -> Result<Facts, AllocError>
    requires { HasTyped (B.stands_for view.now) }
    ensures { IfOk result (λ found. OfEach (B.stands_for view.now)
        (λ s. plain_facts found ≡ s.facts)) }
{
    let found = record_at(alloc, view, &Key::Facts)?;
    Ok(facts_in(found))
}

/// The numbers that the next code and the next instance get.
pub fn counters<B: Base>(alloc: Global, view: &B) -> Result<Counters, AllocError>
    requires { HasTyped (B.stands_for view.now) }
    ensures { IfOk result (λ found. OfEach (B.stands_for view.now) (λ s. found ≡ s.counters)) }
{
    let found = record_at(alloc, view, &Key::Counters)?;
    Ok(counters_in(found))
}

/// What is known of a code besides its bytes, if there is one with this id.
pub fn code_info<B: Base>(alloc: Global, view: &B, id: u64) -> Result<Option<CodeInfo>, AllocError>
    requires { HasTyped (B.stands_for view.now) }
    ensures { IfOk result (λ found. OfEach (B.stands_for view.now)
        (λ s. option_map plain_code_info found ≡ info_at s id)) }
{
    let found = record_at(alloc, view, &Key::CodeInfo(id))?;
    Ok(code_info_in(found))
}

/// The contract with this address, if there is one.
pub fn contract<B: Base>(
    alloc: Global,
    view: &B,
    addr: &[u8],
) -> Result<Option<Contract>, AllocError>
    requires { HasTyped (B.stands_for view.now) }
    ensures { IfOk result (λ found. OfEach (B.stands_for view.now)
        (λ s. option_map plain_contract found ≡ get s.contracts addr.now)) }
{
    let name = Vec::from_slice(alloc, addr)?;
    let found = record_at(alloc, view, &Key::Contract(name))?;
    Ok(contract_in(found))
}

/// Whether there is a record under a key. It isn't decoded.
pub fn is_there<B: Base>(alloc: Global, view: &B, key: &Key) -> Result<bool, AllocError>
    requires key { HasShortAddress (plain_key key.now) }
    requires typed { HasTyped (B.stands_for view.now) }
    ensures { IfOk result (λ there. OfEach (B.stands_for view.now)
        (λ s. there ≡ is_some (entry_of s (plain_key key.now)))) }
{
    maps_give_records();
    let place = key_bytes(alloc, key)?;
    let found = view.get(alloc, &place)?;
    Ok(found.is_some())
}

/// The record under a key, if there is one.
fn record_at<B: Base>(alloc: Global, view: &B, key: &Key) -> Result<Option<Stored>, AllocError>
    requires key { HasShortAddress (plain_key key.now) }
    requires typed { HasTyped (B.stands_for view.now) }
    ensures { IfOk result (λ found. OfEach (B.stands_for view.now)
        (λ s. option_map plain_stored found ≡ entry_of s (plain_key key.now))) }
{
    maps_give_records();
    bytes_tell_records();
    let place = key_bytes(alloc, key)?;
    match view.get(alloc, &place)? {
        Some(bytes) => Ok(Some(record_of(alloc, key, &bytes)?)),
        None => Ok(None),
    }
}

/// The record that is written as these bytes.
fn record_of(alloc: Global, key: &Key, bytes: &[u8]) -> Result<Stored, AllocError>
    requires { (stored : PlainStored) × IsRecordUnder (plain_key key.now) bytes.now stored }
    ensures { IfOk result (λ found. IsRecordUnder (plain_key key.now) bytes.now
        (plain_stored found)) }
{
    match stored_of(alloc, key, bytes) {
        Ok(found) => Ok(found),
        Err(RecordFault::NoMemory) => Err(AllocError),
        Err(RecordFault::Bad(_)) => unreachable!(),
    }
}
