//! What a contract says as it aborts.

ghost use Rattle.std.specs.Prelude.{◌≡◌, ◌<◌, ◌++◌, ℕ, map, IfOk, OnOk, string_bytes};
ghost use Rattle.host_imports.specs.Allocation.{shown, abort_fault};
ghost use Rattle.host_imports.specs.Faults.{fault_view};
ghost use Rattle.host_imports.specs.Parts.{Moves};

use crate::fault::CallFault;
use crate::regions::read_region;
use crate::stop::Stop;
use std::alloc::{AllocError, Global};
use wasm_machine::Machine;

/// The most bytes of a text for debugging, of one of `abort` and of a query.
pub(crate) const LONGEST_TEXT: u32 = 65_536;

/// A byte of ASCII that can be printed, and `?` for any other.
fn shown(byte: u8) -> u8
    ensures shown { result ≡ shown byte }
    ensures ascii { result < 128 }
{
    if byte < 0x20 || byte > 0x7E {
        0x3F
    } else {
        byte
    }
}

/// Appends these bytes, as they are shown.
fn push_shown(text: &mut String, bytes: &[u8]) -> Result<(), AllocError>
    ensures { OnOk result (string_bytes text.new ≡ string_bytes text.old ++ map shown bytes.now) }
{
    for byte in bytes {
        text.push(char::from(shown(*byte)))?;
    }
    Ok(())
}

/// What is told of a text of these bytes.
fn shown_text(alloc: Global, bytes: &[u8]) -> Result<String, AllocError>
    ensures { IfOk result (λ text. string_bytes text ≡ map shown bytes.now) }
{
    let mut text = String::new(alloc);
    push_shown(&mut text, bytes)?;
    Ok(text)
}

/// The fault of a call that the contract ends with the text at a pointer.
pub(crate) fn abort_fault(alloc: Global, machine: &Machine, text: u32) -> Result<CallFault, Stop>
    ensures { (left : ℕ) → Moves machine.now machine.now left left (abort_fault text) fault_view result }
{
    let bytes = match read_region(alloc, machine, text, LONGEST_TEXT) {
        Ok(bytes) => bytes,
        Err(stop) => return Err(stop),
    };
    match shown_text(alloc, &bytes) {
        Ok(text) => Ok(CallFault::Aborted(text)),
        Err(_) => Err(Stop::NoMemory),
    }
}
