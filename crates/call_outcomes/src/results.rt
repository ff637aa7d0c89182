//! What the result of a call tells, and how a call is told that failed.

ghost use Rattle.std.specs.Prelude.{◌≡◌, ◌++◌, IfOk, codes, string_bytes};
ghost use Rattle.chain_msgs.specs.Plain.{failure_view};
ghost use Rattle.host_imports.specs.Faults.{fault_view};
ghost use Rattle.call_outcomes.specs.Results.{call_code, failed_with, faulted_with, response_of};
ghost use Rattle.call_outcomes.specs.Views.{IsUnread, Says, stop_from};

use crate::stop::CallStop;
use chain_msgs::{FailKind, Failure, Response, ResponseStop, Told, read_response};
use contract_call::{CallFault, Entry};
use std::alloc::{AllocError, Global};

/// The codespace of contracts.
const WASM: &str = "wasm";

/// The code of a failed call of an entry.
fn call_code(entry: Entry) -> u32
    ensures { result ≡ call_code entry }
{
    match entry {
        Entry::Instantiate => 4,
        Entry::Migrate => 11,
        Entry::Execute | Entry::Sudo | Entry::Reply | Entry::Query => 5,
    }
}

/// The failure of a call of an entry, with this text.
fn call_failure(alloc: Global, entry: Entry, detail: String) -> Result<Failure, AllocError>
    ensures { IfOk result (λ failure. failure_view failure ≡ failed_with entry (string_bytes detail)) }
{
    Ok(Failure {
        kind: FailKind::CallFailed,
        codespace: String::from_str(alloc, WASM)?,
        code: call_code(entry),
        detail,
    })
}

/// The failure of a call of an entry that faulted.
pub fn fault_failure(alloc: Global, entry: Entry, fault: &CallFault) -> Result<Failure, AllocError>
    ensures { IfOk result (λ failure. failure_view failure ≡ faulted_with entry (fault_view fault.now)) }
{
    let detail = fault.to_string(alloc)?;
    call_failure(alloc, entry, detail)
}

/// The stop of a failure that was made, or of want of memory.
fn stop_of(made: Result<Failure, AllocError>) -> CallStop
    ensures { result ≡ stop_from made }
{
    match made {
        Ok(failure) => CallStop::Failed(failure),
        Err(_) => CallStop::NoMemory,
    }
}

/// The failure of a call of an entry by which the contract tells of this error.
fn error_failure(alloc: Global, entry: Entry, text: &str) -> Result<Failure, AllocError>
    ensures { IfOk result (λ failure. failure_view failure
        ≡ failed_with entry (codes "ContractError " ++ text.now)) }
{
    let detail = format!(in alloc; "ContractError {text}")?;
    call_failure(alloc, entry, detail)
}

/// The stop of a result that wasn't read.
fn unread(alloc: Global, entry: Entry, stop: ResponseStop) -> CallStop
    ensures { IsUnread entry stop result }
{
    match stop {
        ResponseStop::NoMemory => CallStop::NoMemory,
        ResponseStop::Event(_) => stop_of(fault_failure(alloc, entry, &CallFault::BadEvent)),
        ResponseStop::Json | ResponseStop::Shape { .. } => {
            stop_of(fault_failure(alloc, entry, &CallFault::BadResult))
        }
    }
}

/// What the result of a call of this entry tells.
pub fn read_result(alloc: Global, entry: Entry, bytes: &[u8]) -> Result<Response, CallStop>
    ensures { Says result (response_of entry bytes.now) }
{
    match read_response(alloc, bytes) {
        Ok(Told::Ok(response)) => Ok(response),
        Ok(Told::Error(text)) => Err(stop_of(error_failure(alloc, entry, &text))),
        Err(stop) => Err(unread(alloc, entry, stop)),
    }
}
