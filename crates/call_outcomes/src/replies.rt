//! When a contract is told what became of its submessage, and what it is told.

ghost use Rattle.std.specs.Prelude.{◌≡◌, IfOk, string_bytes};
ghost use Rattle.chain_msgs.specs.Plain.{failure_view, out_view};
ghost use Rattle.call_outcomes.specs.Replies as plain;

use chain_msgs::{Failure, ReplyOn, reply_bytes};
use std::alloc::{AllocError, Global};
use std::fmt::Write;

/// Whether a contract wants to be told of a submessage that succeeded or failed.
pub fn wants_reply(on: ReplyOn, succeeded: bool) -> bool
    ensures { result ≡ plain.wants_reply on succeeded }
{
    match on {
        ReplyOn::Always => true,
        ReplyOn::Error => !succeeded,
        ReplyOn::Success => succeeded,
        ReplyOn::Never => false,
    }
}

/// What a contract is told of a submessage that failed.
pub fn failure_told(alloc: Global, failure: &Failure) -> Result<String, AllocError>
    ensures { IfOk result (λ text. string_bytes text ≡ plain.failure_told (failure_view failure.now)) }
{
    let mut text = String::new(alloc);
    write!(
        text,
        "codespace: {}, code: {}",
        failure.codespace, failure.code
    )?;
    Ok(text)
}

fn unless_empty(bytes: Vec<u8>) -> Option<Vec<u8>>
    ensures { out_view result ≡ plain.unless_empty bytes.items }
{
    if bytes.is_empty() { None } else { Some(bytes) }
}

/// What a reply is told of the data of an execute or a migrate.
pub fn data_told(alloc: Global, out: &Option<Vec<u8>>) -> Result<Option<Vec<u8>>, AllocError>
    ensures { IfOk result (λ told. out_view told ≡ plain.data_told (out_view out.now)) }
{
    Ok(unless_empty(reply_bytes(alloc, None, out)?))
}

/// What a reply is told of an instantiate: the contract's address, in text, and the data.
pub fn address_told(
    alloc: Global,
    contract: &str,
    out: &Option<Vec<u8>>,
) -> Result<Option<Vec<u8>>, AllocError>
    ensures { IfOk result (λ told. out_view told ≡ plain.address_told contract.now (out_view out.now)) }
{
    Ok(unless_empty(reply_bytes(alloc, Some(contract), out)?))
}
