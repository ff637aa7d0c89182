ghost use Rattle.std.specs.Prelude.{◌≡◌, ◌++◌, ◌∷◌, ◌≤◌, length, IfOk, OnOk};
ghost use Rattle.chain_records.specs.Pieces.{be8};
ghost use Rattle.chain_records.specs.Keys.{plain_key, key_bytes, HasShortAddress, IsKey, IsKeyOf};
ghost use Rattle.chain_records.specs.Puts.{Puts};

use crate::key::Key;
use std::alloc::{AllocError, Global};

/// The bytes of a key.
pub fn key_bytes(alloc: Global, key: &Key) -> Result<Vec<u8>, AllocError>
    requires { HasShortAddress (plain_key key.now) }
    ensures { IfOk result (λ bytes. IsKeyOf bytes.items (plain_key key.now)) }
{
    let mut bytes = Vec::new(alloc);
    put(&mut bytes, key)?;
    Ok(bytes)
}

#[tactic(auto, unfolding(crate::specs::Keys::key_bytes))]
fn put(bytes: &mut Vec<u8>, key: &Key) -> Result<(), AllocError>
    requires { HasShortAddress (plain_key key.now) }
    ensures { OnOk result (Puts key_bytes IsKey (plain_key key.now)
        bytes.old.items bytes.new.items) }
{
    match key {
        Key::Facts => bytes.push(0)?,
        Key::Balance { addr, denom } => put_two(bytes, 1, addr, denom.as_str().as_bytes())?,
        Key::Code(id) => put_number(bytes, 2, *id)?,
        Key::CodeInfo(id) => put_number(bytes, 3, *id)?,
        Key::Contract(addr) => put_one(bytes, 4, addr)?,
        Key::Storage { addr, key } => put_two(bytes, 5, addr, key)?,
        Key::Pin(id) => put_number(bytes, 6, *id)?,
        Key::Counters => bytes.push(7)?,
        Key::Supply(denom) => put_one(bytes, 8, denom.as_str().as_bytes())?,
    }
    Ok(())
}

fn put_number(bytes: &mut Vec<u8>, tag: u8, id: u64) -> Result<(), AllocError>
    ensures { OnOk result (bytes.new.items ≡ bytes.old.items ++ tag ∷ be8 id) }
{
    bytes.push(tag)?;
    bytes.extend_from_slice(&id.to_be_bytes())
}

fn put_one(bytes: &mut Vec<u8>, tag: u8, name: &[u8]) -> Result<(), AllocError>
    ensures { OnOk result (bytes.new.items ≡ bytes.old.items ++ tag ∷ name.now) }
{
    bytes.push(tag)?;
    bytes.extend_from_slice(name)
}

fn put_two(bytes: &mut Vec<u8>, tag: u8, addr: &[u8], name: &[u8]) -> Result<(), AllocError>
    requires { length addr.now ≤ 255 }
    ensures { OnOk result (bytes.new.items
        ≡ bytes.old.items ++ tag ∷ length addr.now ∷ addr.now ++ name.now) }
{
    bytes.push(tag)?;
    bytes.push(addr.len() as u8)?;
    bytes.extend_from_slice(addr)?;
    bytes.extend_from_slice(name)
}
