//! The data of a reply, as a protobuf message.

ghost use Rattle.std.specs.Prelude.{◌≡◌, ◌≤◌, ◌++◌, [], option_map, unwrap_or, IfOk, OnOk};
ghost use Rattle.chain_msgs.specs.Plain.{out_view};
ghost use Rattle.chain_msgs.specs.Protobuf.{varint_in, bytes_field, reply_bytes};

use std::alloc::{AllocError, Global};

#[tactic(auto, unfolding(crate::specs::Protobuf::varint_in))]
fn push_varint_in(out: &mut Vec<u8>, n: usize, most: u32) -> Result<(), AllocError>
    ensures { OnOk result (out.new.items ≡ out.old.items ++ varint_in most n) }
{
    if most == 0 {
        return Ok(());
    }
    if n < 128 {
        out.push(n as u8)?;
        return Ok(());
    }
    out.push((n % 128) as u8 + 128)?;
    push_varint_in(out, n / 128, most - 1)
}

/// A field of bytes, which is absent where it has none.
fn push_field(out: &mut Vec<u8>, number: u8, bytes: &[u8]) -> Result<(), AllocError>
    requires { number ≤ 15 }
    ensures { OnOk result (out.new.items ≡ out.old.items ++ bytes_field number bytes.now) }
{
    if bytes.is_empty() {
        return Ok(());
    }
    out.push(8 * number + 2)?;
    push_varint_in(out, bytes.len(), 10)?;
    out.extend_from_slice(bytes)?;
    Ok(())
}

/// The bytes, or none.
fn bytes_of(out: &Option<Vec<u8>>) -> &[u8]
    ensures { result.now ≡ unwrap_or (out_view out.now) [] }
{
    match out {
        Some(bytes) => bytes.as_slice(),
        None => &[],
    }
}

fn one_field(alloc: Global, bytes: &[u8]) -> Result<Vec<u8>, AllocError>
    ensures { IfOk result (λ message. message.items ≡ bytes_field 1 bytes.now) }
{
    let mut message = Vec::new(alloc);
    push_field(&mut message, 1, bytes)?;
    Ok(message)
}

fn two_fields(alloc: Global, address: &str, bytes: &[u8]) -> Result<Vec<u8>, AllocError>
    ensures { IfOk result (λ message. message.items
        ≡ bytes_field 1 address.now ++ bytes_field 2 bytes.now) }
{
    let mut message = one_field(alloc, address.as_bytes())?;
    push_field(&mut message, 2, bytes)?;
    Ok(message)
}

/// What a reply has as its data: of an instantiation the new contract's address and what it gave back,
/// of other calls what they gave back.
pub fn reply_bytes(
    alloc: Global,
    address: Option<&str>,
    out: &Option<Vec<u8>>,
) -> Result<Vec<u8>, AllocError>
    ensures { IfOk result (λ bytes. bytes.items
        ≡ reply_bytes (option_map (λ text. text.now) address.entry) (out_view out.now)) }
{
    let given = bytes_of(out);
    match address {
        None => one_field(alloc, given),
        Some(address) => two_fields(alloc, address, given),
    }
}
