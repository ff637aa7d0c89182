//! The imports on addresses.

ghost use Rattle.std.specs.Prelude.{◌≡◌, ◌+◌, ◌≤◌, ◌<◌, ◌^◌, ℕ, List, Result, length, IfOk, option_map};
ghost use Rattle.std.specs.List.{list_any};
ghost use Rattle.chain_addr.specs.Letters.{IsPrefix};
ghost use Rattle.chain_addr.specs.Reading.{is_upper};
ghost use Rattle.gas_meter.specs.Ranges.{IsInRange};
ghost use Rattle.wasm_machine.specs.Machine.{module_of, phase_of};
ghost use Rattle.host_imports.specs.Addresses.{canonical, human, refused};
ghost use Rattle.host_imports.specs.Imports.{answers_found, puts, addr_validate, addr_canonicalize, addr_humanize};
ghost use Rattle.host_imports.specs.Parts.{Moves, settled_view, IsSettled};
ghost use Rattle.host_imports.specs.Refused.{refusal_text, Reads};

use crate::address_stop::{AddressRefusal, AddressStop, refusal_text};
use crate::answering::{answer, answer_with};
use crate::charge::charge;
use crate::regions::{read_region, write_region};
use crate::settled::Settled;
use crate::stop::Stop;
use chain_addr::{AddrFault, decode, encode};
use gas_meter::{Meter, Schedule};
use std::alloc::{AllocError, Global};
use std::str;
use wasm_machine::{Machine, Phase};
use wasm_types::Value;

/// The most bytes of the text of an address, as it is handed over.
const LONGEST_TEXT: u32 = 256;

/// The most bytes of an address.
const LONGEST_ADDRESS: u32 = 64;

/// The bytes of an address.
fn canonical(alloc: Global, prefix: &str, text: &[u8]) -> Result<Vec<u8>, AddressStop>
    requires { IsPrefix prefix.now }
    ensures reads { Reads result (canonical prefix.now text.now) }
    ensures short { IfOk result (λ bytes. length bytes.items < 2 ^ 32) }
{
    let text = match str::from_utf8(text) {
        Ok(text) => text,
        Err(_) => return Err(AddressStop::Refused(AddressRefusal::NotUtf8)),
    };
    match decode(alloc, prefix, text) {
        Ok(bytes) => Ok(bytes),
        Err(AddrFault::Bad { kind: _, at: _ }) => {
            Err(AddressStop::Refused(AddressRefusal::BadAddress))
        }
        Err(AddrFault::NoMemory) => Err(AddressStop::NoMemory),
    }
}

/// The text of an address.
fn human(alloc: Global, prefix: &str, bytes: &[u8]) -> Result<Vec<u8>, AddressStop>
    requires prefix { IsPrefix prefix.now }
    requires few { length bytes.now ≤ 64 }
    ensures reads { Reads result (human prefix.now bytes.now) }
    ensures short { IfOk result (λ text. length text.items < 2 ^ 32) }
{
    if bytes.is_empty() {
        return Err(AddressStop::Refused(AddressRefusal::BadLength));
    }
    match encode(alloc, prefix, bytes) {
        Ok(text) => Ok(text.into_bytes()),
        Err(_) => Err(AddressStop::NoMemory),
    }
}

fn is_upper(c: u8) -> bool
    ensures { result ≡ is_upper c }
{
    65 <= c && c <= 90
}

fn has_upper(text: &[u8]) -> bool
    ensures { result ≡ list_any is_upper text.now }
{
    text.iter().any(|c| is_upper(*c))
}

/// Why a text isn't that of an address in lower case, if it isn't.
fn refused(alloc: Global, prefix: &str, text: &[u8]) -> Result<Option<AddressRefusal>, AllocError>
    requires { IsPrefix prefix.now }
    ensures { IfOk result (λ why. option_map refusal_text why ≡ refused prefix.now text.now) }
{
    match canonical(alloc, prefix, text) {
        Ok(_) if has_upper(text) => Ok(Some(AddressRefusal::NotNormalized)),
        Ok(_) => Ok(None),
        Err(AddressStop::Refused(why)) => Ok(Some(why)),
        Err(AddressStop::NoMemory) => Err(AllocError),
    }
}

/// Writes bytes to a second Region, or answers why there are none.
fn put(
    alloc: Global,
    target: u32,
    found: Result<Vec<u8>, AddressStop>,
    machine: &mut Machine,
    meter: &mut Meter,
    costs: &Schedule,
) -> Result<Settled, Stop>
    requires phase { phase_of machine.old ≡ Phase.Asked }
    requires costs { IsInRange costs.now }
    requires short { IfOk found (λ bytes. length bytes.items < 2 ^ 32) }
    ensures moves { (read : Result (List ℕ) (List ℕ)) → Reads found read
        → Moves machine.old machine.new meter.old.left meter.new.left (puts costs.now target read) settled_view result }
    ensures settled { IfOk result (λ settled. IsSettled settled machine.new) }
    ensures module { module_of machine.new ≡ module_of machine.old }
    ensures spends { meter.new.left ≤ meter.old.left }
    ensures used { meter.new.left + meter.new.used ≡ meter.old.left + meter.old.used }
{
    match found {
        Ok(bytes) => match write_region(machine, target, &bytes) {
            Ok(()) => answer(machine, Some(Value::I32(0))),
            Err(stop) => Err(stop),
        },
        Err(AddressStop::Refused(why)) => {
            answer_with(alloc, machine, refusal_text(why).as_bytes(), meter, costs)
        }
        Err(AddressStop::NoMemory) => Err(Stop::NoMemory),
    }
}

/// Answers 0, or the pointer to a new Region of the text that says why not.
fn answer_refused(
    alloc: Global,
    why: Option<AddressRefusal>,
    machine: &mut Machine,
    meter: &mut Meter,
    costs: &Schedule,
) -> Result<Settled, Stop>
    requires phase { phase_of machine.old ≡ Phase.Asked }
    requires costs { IsInRange costs.now }
    ensures moves { Moves machine.old machine.new meter.old.left meter.new.left
        (answers_found costs.now (option_map refusal_text why)) settled_view result }
    ensures settled { IfOk result (λ settled. IsSettled settled machine.new) }
    ensures module { module_of machine.new ≡ module_of machine.old }
    ensures spends { meter.new.left ≤ meter.old.left }
    ensures used { meter.new.left + meter.new.used ≡ meter.old.left + meter.old.used }
{
    match why {
        Some(why) => answer_with(alloc, machine, refusal_text(why).as_bytes(), meter, costs),
        None => answer(machine, Some(Value::I32(0))),
    }
}

pub(crate) fn addr_validate(
    alloc: Global,
    text: u32,
    machine: &mut Machine,
    prefix: &str,
    meter: &mut Meter,
    costs: &Schedule,
) -> Result<Settled, Stop>
    requires phase { phase_of machine.old ≡ Phase.Asked }
    requires costs { IsInRange costs.now }
    requires prefix { IsPrefix prefix.now }
    ensures moves { Moves machine.old machine.new meter.old.left meter.new.left
        (addr_validate costs.now prefix.now text) settled_view result }
    ensures settled { IfOk result (λ settled. IsSettled settled machine.new) }
    ensures module { module_of machine.new ≡ module_of machine.old }
    ensures spends { meter.new.left ≤ meter.old.left }
    ensures used { meter.new.left + meter.new.used ≡ meter.old.left + meter.old.used }
{
    let text = match read_region(alloc, &*machine, text, LONGEST_TEXT) {
        Ok(text) => text,
        Err(stop) => return Err(stop),
    };
    match charge(meter, costs.address) {
        Ok(()) => {}
        Err(stop) => return Err(stop),
    }
    match refused(alloc, prefix, &text) {
        Ok(why) => answer_refused(alloc, why, machine, meter, costs),
        Err(_) => Err(Stop::NoMemory),
    }
}

pub(crate) fn addr_canonicalize(
    alloc: Global,
    text: u32,
    target: u32,
    machine: &mut Machine,
    prefix: &str,
    meter: &mut Meter,
    costs: &Schedule,
) -> Result<Settled, Stop>
    requires phase { phase_of machine.old ≡ Phase.Asked }
    requires costs { IsInRange costs.now }
    requires prefix { IsPrefix prefix.now }
    ensures moves { Moves machine.old machine.new meter.old.left meter.new.left
        (addr_canonicalize costs.now prefix.now text target) settled_view result }
    ensures settled { IfOk result (λ settled. IsSettled settled machine.new) }
    ensures module { module_of machine.new ≡ module_of machine.old }
    ensures spends { meter.new.left ≤ meter.old.left }
    ensures used { meter.new.left + meter.new.used ≡ meter.old.left + meter.old.used }
{
    let text = match read_region(alloc, &*machine, text, LONGEST_TEXT) {
        Ok(text) => text,
        Err(stop) => return Err(stop),
    };
    match charge(meter, costs.address) {
        Ok(()) => {}
        Err(stop) => return Err(stop),
    }
    let found = canonical(alloc, prefix, &text);
    put(alloc, target, found, machine, meter, costs)
}

pub(crate) fn addr_humanize(
    alloc: Global,
    bytes: u32,
    target: u32,
    machine: &mut Machine,
    prefix: &str,
    meter: &mut Meter,
    costs: &Schedule,
) -> Result<Settled, Stop>
    requires phase { phase_of machine.old ≡ Phase.Asked }
    requires costs { IsInRange costs.now }
    requires prefix { IsPrefix prefix.now }
    ensures moves { Moves machine.old machine.new meter.old.left meter.new.left
        (addr_humanize costs.now prefix.now bytes target) settled_view result }
    ensures settled { IfOk result (λ settled. IsSettled settled machine.new) }
    ensures module { module_of machine.new ≡ module_of machine.old }
    ensures spends { meter.new.left ≤ meter.old.left }
    ensures used { meter.new.left + meter.new.used ≡ meter.old.left + meter.old.used }
{
    let bytes = match read_region(alloc, &*machine, bytes, LONGEST_ADDRESS) {
        Ok(bytes) => bytes,
        Err(stop) => return Err(stop),
    };
    match charge(meter, costs.address) {
        Ok(()) => {}
        Err(stop) => return Err(stop),
    }
    let found = human(alloc, prefix, &bytes);
    put(alloc, target, found, machine, meter, costs)
}
