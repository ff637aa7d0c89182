ghost use Rattle.std.specs.Prelude.{◌≡◌, IfOk, IfErr};
ghost use Rattle.chain_records.specs.Keys.{plain_key, IsKeyOf};
ghost use Rattle.chain_records.specs.Faults.{IsRefused};
ghost use Rattle.chain_records.specs.Reading.{Gives};
ghost use Rattle.chain_records.specs.KeyReading.{short_at, balance_of, storage_of, supply_of, key_behind, key_of};

use crate::fault::{RecordFault, Stop};
use crate::key::Key;
use crate::reading::{end, front_at, number_of, text_of};
use std::alloc::Global;

/// The key that the bytes are those of.
pub fn key_of(alloc: Global, bytes: &[u8]) -> Result<Key, RecordFault>
    ensures ok { IfOk result (λ key. IsKeyOf bytes.now (plain_key key)) }
    ensures bad { IfErr result (λ fault. IsRefused IsKeyOf bytes.now fault) }
{
    match read(alloc, bytes) {
        Ok(key) => Ok(key),
        Err(Stop::Unreadable) => Err(RecordFault::Bad(bytes.len())),
        Err(Stop::NoMemory) => Err(RecordFault::NoMemory),
    }
}

#[tactic(auto, unfolding(crate::specs::KeyReading::key_of))]
fn read(alloc: Global, bytes: &[u8]) -> Result<Key, Stop>
    ensures { Gives plain_key result (key_of bytes.now) }
{
    match bytes {
        [] => Err(Stop::Unreadable),
        [tag, rest @ ..] => read_behind(alloc, *tag, rest),
    }
}

/// The key behind the byte that tells its kind.
#[tactic(auto, unfolding(crate::specs::KeyReading::key_behind))]
fn read_behind(alloc: Global, tag: u8, bytes: &[u8]) -> Result<Key, Stop>
    ensures { Gives plain_key result (key_behind tag bytes.now) }
{
    match tag {
        0 => {
            end(bytes)?;
            Ok(Key::Facts)
        }
        1 => balance_of(alloc, bytes),
        2 => Ok(Key::Code(number_of(bytes)?)),
        3 => Ok(Key::CodeInfo(number_of(bytes)?)),
        4 => Ok(Key::Contract(Vec::from_slice(alloc, bytes)?)),
        5 => storage_of(alloc, bytes),
        6 => Ok(Key::Pin(number_of(bytes)?)),
        7 => {
            end(bytes)?;
            Ok(Key::Counters)
        }
        8 => Ok(Key::Supply(text_of(alloc, bytes)?)),
        _ => Err(Stop::Unreadable),
    }
}

fn balance_of(alloc: Global, bytes: &[u8]) -> Result<Key, Stop>
    ensures { Gives plain_key result (balance_of bytes.now) }
{
    let (addr, rest) = short_at(bytes)?;
    let denom = text_of(alloc, rest)?;
    let addr = Vec::from_slice(alloc, addr)?;
    Ok(Key::Balance { addr, denom })
}

fn storage_of(alloc: Global, bytes: &[u8]) -> Result<Key, Stop>
    ensures { Gives plain_key result (storage_of bytes.now) }
{
    let (addr, rest) = short_at(bytes)?;
    let addr = Vec::from_slice(alloc, addr)?;
    let key = Vec::from_slice(alloc, rest)?;
    Ok(Key::Storage { addr, key })
}

/// An address behind a byte with its length, and the bytes after it.
#[tactic(auto, unfolding(crate::specs::KeyReading::short_at))]
fn short_at(bytes: &[u8]) -> Result<(&[u8], &[u8]), Stop>
    ensures { Gives (λ x. (x.0.now, x.1.now)) result (short_at bytes.now) }
{
    match bytes {
        [] => Err(Stop::Unreadable),
        [count, rest @ ..] => front_at(rest, *count as usize),
    }
}
