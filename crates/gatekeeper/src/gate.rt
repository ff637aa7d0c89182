ghost use Rattle.std.specs.Prelude.{◌≡◌, map, string_bytes, IfOk, OnOk, None};
ghost use Rattle.wasm_types.specs.Plain.{plain_module};
ghost use Rattle.wasm_types.specs.ModuleText.{HasSpelling, IsModule, reading_of};
ghost use Rattle.wasm_types.specs.Laws.{IsShaped};
ghost use Rattle.wasm_types.specs.Gate.{gzip_rule, size_rule, invalid_rule, first_some, module_rules, reading_rules, gate};
ghost use Rattle.gatekeeper.specs.Judging.{Judges};
ghost use Rattle.gatekeeper.specs.Rules.{bytes_rules};
ghost use Rattle.gatekeeper.specs.Accepted.{TakenIsAccepted};
ghost use Rattle.gatekeeper.specs.CodeBytes.{code_bytes};

use crate::code::ValidCode;
use crate::exports::check_exports;
use crate::imports::check_imports;
use crate::segments::check_segments;
use crate::sizes::{check_memory, check_table};
use crate::stop::GateStop;
use std::alloc::Global;
use wasm_reader::{ReadStop, read};
use wasm_types::{GateRefusal, Module, bytes_spell_or_break, spelled_are_shaped};
use wasm_valid::{ValidStop, valid};

const GZIP: [u8; 3] = [0x1F, 0x8B, 0x08];

/// In bytes.
const MOST_BYTES: usize = 819_200;

/// What is taken under any list of capabilities is accepted.
pub fn taken_is_accepted()
    ensures { TakenIsAccepted }
{}

fn check_valid(alloc: Global, m: &Module) -> Result<(), GateStop>
    requires { HasSpelling (plain_module m.now) }
    ensures { Judges result (invalid_rule (plain_module m.now)) }
{
    match valid(alloc, m) {
        Ok(()) => Ok(()),
        Err(ValidStop::Invalid { kind, .. }) => {
            Err(GateStop::Refused(GateRefusal::Invalid(kind)))
        }
        Err(ValidStop::NoMemory) => Err(GateStop::NoMemory),
    }
}

fn check_module(alloc: Global, m: &Module, caps: &[String]) -> Result<(), GateStop>
    requires { HasSpelling (plain_module m.now) }
    ensures { Judges result (first_some (module_rules (map string_bytes caps.now) (plain_module m.now))) }
{
    spelled_are_shaped();
    check_valid(alloc, m)?;
    check_imports(m)?;
    check_memory(m)?;
    check_table(m)?;
    check_segments(m)?;
    check_exports(alloc, m, caps)
}

fn check_reading(alloc: Global, code: &[u8], caps: &[String]) -> Result<(), GateStop>
    ensures { Judges result (reading_rules (map string_bytes caps.now) (reading_of code.now)) }
{
    bytes_spell_or_break();
    match read(alloc, code) {
        Ok(m) => check_module(alloc, &m, caps),
        Err(ReadStop::Fault { at, kind }) => {
            Err(GateStop::Refused(GateRefusal::Read { kind, at }))
        }
        Err(ReadStop::NoMemory) => Err(GateStop::NoMemory),
    }
}

fn check_bytes(code: &[u8]) -> Result<(), GateStop>
    ensures { Judges result (first_some (bytes_rules code.now)) }
{
    if code.starts_with(&GZIP) {
        return Err(GateStop::Refused(GateRefusal::Gzip));
    }
    if code.len() > MOST_BYTES {
        return Err(GateStop::Refused(GateRefusal::TooLarge(code.len())));
    }
    Ok(())
}

/// Lets a code through the gate of a chain that has these capabilities, or refuses it with the first
/// rule that it breaks.
pub fn check(alloc: Global, code: Vec<u8>, caps: &[String]) -> Result<ValidCode, GateStop>
    ensures judged { Judges result (gate code.items (map string_bytes caps.now)) }
    ensures bytes { IfOk result (λ c. code_bytes c ≡ code.items) }
{
    taken_is_accepted();
    match check_bytes(&code) {
        Ok(()) => {}
        Err(stop) => return Err(stop),
    }
    match check_reading(alloc, &code, caps) {
        Ok(()) => Ok(ValidCode::of_checked(code)?),
        Err(stop) => Err(stop),
    }
}
