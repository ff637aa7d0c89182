ghost use Rattle.std.specs.Prelude.{◌≡◌, IfOk, IfErr};
ghost use Rattle.chain_records.specs.Keys.{plain_key};
ghost use Rattle.chain_records.specs.Records.{plain_facts, plain_code_info, plain_contract, plain_stored, IsRecordUnder};
ghost use Rattle.chain_records.specs.Faults.{IsRefused};
ghost use Rattle.chain_records.specs.Reading.{Gives, ended};
ghost use Rattle.chain_records.specs.RecordReading.{facts_at, counters_at, amount_at, code_info_at, contract_at, whole, mark_of, stored_of};
ghost use Rattle.chain_records.specs.Records as records;

use crate::fault::{RecordFault, Stop};
use crate::field::{Field, list_at, optional_at};
use crate::key::Key;
use crate::reading::{end, front_at, number_at};
use crate::record::{CodeInfo, Contract, Counters, Facts, Stored};
use std::alloc::Global;

/// The record that the bytes are those of, under the key.
pub fn stored_of(alloc: Global, key: &Key, bytes: &[u8]) -> Result<Stored, RecordFault>
    ensures ok { IfOk result (λ stored. IsRecordUnder (plain_key key.now) bytes.now (plain_stored stored)) }
    ensures bad { IfErr result (λ fault. IsRefused (IsRecordUnder (plain_key key.now)) bytes.now fault) }
{
    match read(alloc, key, bytes) {
        Ok(stored) => Ok(stored),
        Err(Stop::Unreadable) => Err(RecordFault::Bad(bytes.len())),
        Err(Stop::NoMemory) => Err(RecordFault::NoMemory),
    }
}

#[tactic(auto, unfolding(crate::specs::RecordReading::stored_of))]
fn read(alloc: Global, key: &Key, bytes: &[u8]) -> Result<Stored, Stop>
    ensures { Gives plain_stored result (stored_of (plain_key key.now) bytes.now) }
{
    match key {
        Key::Facts => facts_of(alloc, bytes),
        Key::Counters => counters_of(bytes),
        Key::Balance { .. } | Key::Supply(_) => amount_of(bytes),
        Key::Code(_) => Ok(Stored::CodeBytes(Vec::from_slice(alloc, bytes)?)),
        Key::CodeInfo(_) => code_info_of(alloc, bytes),
        Key::Pin(_) => mark_of(bytes),
        Key::Contract(_) => contract_of(alloc, bytes),
        Key::Storage { .. } => Ok(Stored::Value(Vec::from_slice(alloc, bytes)?)),
    }
}

#[tactic(auto, unfolding(crate::specs::RecordReading::facts_at))]
fn facts_of(alloc: Global, bytes: &[u8]) -> Result<Stored, Stop>
    ensures { Gives plain_stored result (whole records.facts (facts_at bytes.now)) }
{
    let (chain_id, rest) = String::read_at(alloc, bytes)?;
    let (prefix, rest) = String::read_at(alloc, rest)?;
    let (authority, rest) = optional_at(alloc, rest)?;
    let (caps, rest) = list_at(alloc, rest)?;
    let (query_gas, rest) = number_at(rest)?;
    let (height, rest) = number_at(rest)?;
    let (time, rest) = number_at(rest)?;
    end(rest)?;
    Ok(Stored::Facts(Facts {
        chain_id,
        prefix,
        authority,
        caps,
        query_gas,
        height,
        time,
    }))
}

#[tactic(auto, unfolding(crate::specs::RecordReading::counters_at))]
fn counters_of(bytes: &[u8]) -> Result<Stored, Stop>
    ensures { Gives plain_stored result (whole records.counters (counters_at bytes.now)) }
{
    let (next_code, rest) = number_at(bytes)?;
    let (next_instance, rest) = number_at(rest)?;
    end(rest)?;
    Ok(Stored::Counters(Counters {
        next_code,
        next_instance,
    }))
}

/// A number of sixteen bytes.
#[tactic(auto, unfolding(crate::specs::RecordReading::amount_at))]
fn amount_of(bytes: &[u8]) -> Result<Stored, Stop>
    ensures { Gives plain_stored result (whole records.amount (amount_at bytes.now)) }
{
    let (high, rest) = number_at(bytes)?;
    let (low, rest) = number_at(rest)?;
    end(rest)?;
    Ok(Stored::Amount((u128::from(high) << 64) + u128::from(low)))
}

#[tactic(auto, unfolding(crate::specs::RecordReading::code_info_at))]
fn code_info_of(alloc: Global, bytes: &[u8]) -> Result<Stored, Stop>
    ensures { Gives plain_stored result (whole records.code_info (code_info_at bytes.now)) }
{
    let (creator, rest) = Vec::read_at(alloc, bytes)?;
    let (front, rest) = front_at(rest, 32)?;
    let (allow, rest) = optional_at(alloc, rest)?;
    end(rest)?;
    let mut checksum = [0; 32];
    checksum.copy_from_slice(front);
    Ok(Stored::CodeInfo(CodeInfo {
        creator,
        checksum,
        allow,
    }))
}

/// A byte 1.
#[tactic(auto, unfolding(crate::specs::RecordReading::mark_of))]
fn mark_of(bytes: &[u8]) -> Result<Stored, Stop>
    ensures { Gives plain_stored result (mark_of bytes.now) }
{
    match bytes {
        [1] => Ok(Stored::Mark),
        _ => Err(Stop::Unreadable),
    }
}

#[tactic(auto, unfolding(crate::specs::RecordReading::contract_at))]
fn contract_of(alloc: Global, bytes: &[u8]) -> Result<Stored, Stop>
    ensures { Gives plain_stored result (whole records.contract (contract_at bytes.now)) }
{
    let (code_id, rest) = number_at(bytes)?;
    let (creator, rest) = Vec::read_at(alloc, rest)?;
    let (admin, rest) = optional_at(alloc, rest)?;
    let (label, rest) = String::read_at(alloc, rest)?;
    end(rest)?;
    Ok(Stored::Contract(Contract {
        code_id,
        creator,
        admin,
        label,
    }))
}
