//! The failures of messages.

ghost use Rattle.std.specs.Prelude.{◌≡◌, IfOk, string_bytes};
ghost use Rattle.chain_msgs.specs.Plain.{kind_view, failure_view};
ghost use Rattle.submsg_dispatch.specs.Failures as plain;
ghost use Rattle.submsg_dispatch.specs.Under.{stop_from};

use crate::stop::HandleStop;
use chain_msgs::{FailKind, Failure};
use std::alloc::{AllocError, Global};
use std::fmt::Write;

/// The codespace of the chain's own failures.
const SDK: &str = "sdk";

/// That of its contracts.
const WASM: &str = "wasm";

/// The stop of a failure that was made, or of want of memory.
pub(crate) fn stop_of(made: Result<Failure, AllocError>) -> HandleStop
    ensures { result ≡ stop_from made }
{
    match made {
        Ok(failure) => HandleStop::Failed(failure),
        Err(_) => HandleStop::NoMemory,
    }
}

fn sdk(alloc: Global, kind: FailKind, code: u32, detail: &str) -> Result<Failure, AllocError>
    ensures { IfOk result (λ failure. failure_view failure
        ≡ plain.sdk (kind_view kind) code detail.now) }
{
    Ok(Failure {
        kind,
        codespace: String::from_str(alloc, SDK)?,
        code,
        detail: String::from_str(alloc, detail)?,
    })
}

fn wasm(alloc: Global, kind: FailKind, code: u32, detail: &str) -> Result<Failure, AllocError>
    ensures { IfOk result (λ failure. failure_view failure
        ≡ plain.wasm (kind_view kind) code detail.now) }
{
    Ok(Failure {
        kind,
        codespace: String::from_str(alloc, WASM)?,
        code,
        detail: String::from_str(alloc, detail)?,
    })
}

/// An account has less of a denom than is wanted.
pub(crate) fn not_enough(
    alloc: Global,
    denom: String,
    have: u128,
    want: u128,
) -> Result<Failure, AllocError>
    ensures { IfOk result (λ failure. failure_view failure
        ≡ plain.not_enough (record { denom = string_bytes denom; have = have; want = want })) }
{
    let mut detail = String::new(alloc);
    write!(detail, "NotEnough {} {} {}", denom, have, want)?;
    Ok(Failure {
        kind: FailKind::NotEnough { denom, have, want },
        codespace: String::from_str(alloc, SDK)?,
        code: 5,
        detail,
    })
}

pub(crate) fn not_authority(alloc: Global) -> Result<Failure, AllocError>
    ensures { IfOk result (λ failure. failure_view failure ≡ plain.not_authority) }
{
    sdk(alloc, FailKind::NotAuthority, 4, "NotAuthority")
}

pub(crate) fn not_admin(alloc: Global) -> Result<Failure, AllocError>
    ensures { IfOk result (λ failure. failure_view failure ≡ plain.not_admin) }
{
    sdk(alloc, FailKind::NotAdmin, 4, "NotAdmin")
}

pub(crate) fn may_not_instantiate(alloc: Global) -> Result<Failure, AllocError>
    ensures { IfOk result (λ failure. failure_view failure ≡ plain.may_not_instantiate) }
{
    sdk(alloc, FailKind::MayNotInstantiate, 4, "MayNotInstantiate")
}

pub(crate) fn address_bad(alloc: Global) -> Result<Failure, AllocError>
    ensures { IfOk result (λ failure. failure_view failure ≡ plain.address_bad) }
{
    sdk(alloc, FailKind::AddressBad, 7, "AddressBad")
}

pub(crate) fn coins_bad(alloc: Global) -> Result<Failure, AllocError>
    ensures { IfOk result (λ failure. failure_view failure ≡ plain.coins_bad) }
{
    sdk(alloc, FailKind::CoinsBad, 10, "CoinsBad")
}

pub(crate) fn out_of_gas(alloc: Global) -> Result<Failure, AllocError>
    ensures { IfOk result (λ failure. failure_view failure ≡ plain.out_of_gas) }
{
    sdk(alloc, FailKind::OutOfGas, 11, "OutOfGas")
}

pub(crate) fn message_bad(alloc: Global) -> Result<Failure, AllocError>
    ensures { IfOk result (λ failure. failure_view failure ≡ plain.message_bad) }
{
    sdk(alloc, FailKind::MessageBad, 18, "MessageBad")
}

pub(crate) fn no_messages(alloc: Global) -> Result<Failure, AllocError>
    ensures { IfOk result (λ failure. failure_view failure ≡ plain.no_messages) }
{
    sdk(alloc, FailKind::NoMessages, 18, "NoMessages")
}

pub(crate) fn label_bad(alloc: Global) -> Result<Failure, AllocError>
    ensures { IfOk result (λ failure. failure_view failure ≡ plain.label_bad) }
{
    sdk(alloc, FailKind::LabelBad, 18, "LabelBad")
}

pub(crate) fn salt_bad(alloc: Global) -> Result<Failure, AllocError>
    ensures { IfOk result (λ failure. failure_view failure ≡ plain.salt_bad) }
{
    sdk(alloc, FailKind::SaltBad, 18, "SaltBad")
}

/// The gate refuses a code, for this reason.
pub(crate) fn store_refused(alloc: Global, text: String) -> Result<Failure, AllocError>
    ensures { IfOk result (λ failure. failure_view failure
        ≡ plain.store_refused (string_bytes text)) }
{
    let mut detail = String::new(alloc);
    write!(detail, "StoreRefused {}", text)?;
    wasm(alloc, FailKind::StoreRefused(text), 2, detail.as_str())
}

pub(crate) fn address_taken(alloc: Global) -> Result<Failure, AllocError>
    ensures { IfOk result (λ failure. failure_view failure ≡ plain.address_taken) }
{
    wasm(alloc, FailKind::AddressTaken, 3, "AddressTaken")
}

pub(crate) fn no_such_code(alloc: Global, id: u64) -> Result<Failure, AllocError>
    ensures { IfOk result (λ failure. failure_view failure ≡ plain.no_such_code id) }
{
    let mut detail = String::new(alloc);
    write!(detail, "NoSuchCode {}", id)?;
    wasm(alloc, FailKind::NoSuchCode(id), 8, detail.as_str())
}

pub(crate) fn too_deep(alloc: Global) -> Result<Failure, AllocError>
    ensures { IfOk result (λ failure. failure_view failure ≡ plain.too_deep) }
{
    wasm(alloc, FailKind::TooDeep, 13, "TooDeep")
}

/// No message of this kind is built.
pub(crate) fn unsupported(alloc: Global, kind: &str) -> Result<Failure, AllocError>
    ensures { IfOk result (λ failure. failure_view failure ≡ plain.unsupported kind.now) }
{
    let mut detail = String::new(alloc);
    write!(detail, "Unsupported {}", kind)?;
    let kind = FailKind::Unsupported(String::from_str(alloc, kind)?);
    wasm(alloc, kind, 20, detail.as_str())
}

pub(crate) fn too_many_codes(alloc: Global) -> Result<Failure, AllocError>
    ensures { IfOk result (λ failure. failure_view failure ≡ plain.too_many_codes) }
{
    wasm(alloc, FailKind::TooManyCodes, 18, "TooManyCodes")
}

pub(crate) fn too_many_pins(alloc: Global) -> Result<Failure, AllocError>
    ensures { IfOk result (λ failure. failure_view failure ≡ plain.too_many_pins) }
{
    wasm(alloc, FailKind::TooManyPins, 18, "TooManyPins")
}

/// There is no contract with the address that this is the text of.
pub(crate) fn no_such_contract(alloc: Global, text: String) -> Result<Failure, AllocError>
    ensures { IfOk result (λ failure. failure_view failure
        ≡ plain.no_such_contract (string_bytes text)) }
{
    let mut detail = String::new(alloc);
    write!(detail, "NoSuchContract {}", text)?;
    wasm(alloc, FailKind::NoSuchContract(text), 22, detail.as_str())
}
