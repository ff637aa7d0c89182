ghost use Rattle.std.specs.Prelude.{◌≡◌, ◌∷◌, [], IfOk, OnOk, Option, Some, None};
ghost use Rattle.std.specs.Arc.{arc_value};
ghost use Rattle.wasm_types.specs.Plain.{plain_module};
ghost use Rattle.wasm_types.specs.ModuleText.{module_of};
ghost use Rattle.gatekeeper.specs.declared.served.Served.TheVariants as tiers;
ghost use Rattle.wasm_reader.specs.Answers.{IsFault};
ghost use Rattle.gatekeeper.specs.CodeBytes.{code_bytes};
ghost use Rattle.gatekeeper.specs.Cache.{Tally};
ghost use Rattle.gatekeeper.specs.Fetches.{Tallies, ServesHeld};

use crate::code::ValidCode;
use crate::laws::accepted_are_contracts;
use crate::served::Served;
use std::alloc::{AllocError, Global};
use std::sync::Arc;
use wasm_reader::{ReadStop, read};
use wasm_types::{Module, bytes_spell_or_break};

/// Where modules of codes come from. The module is that of the code, always.
pub trait Modules {
    /// What is kept and how fetches were served, where it tells.
    ghost tally: { Self → Option Tally };

    fn fetch(
        &mut self,
        alloc: Global,
        code: &ValidCode,
    ) -> Result<(Arc<Module>, Served), AllocError>
        ensures module_is { IfOk result (λ found. module_of (code_bytes code.now) ≡ Some (plain_module (arc_value found.0))) }
        ensures tallies { OnOk result (Tallies (tally self.old) (code_bytes code.now ∷ []) (tally self.new)) }
        ensures serves { IfOk result (λ found. ServesHeld (tally self.old) (code_bytes code.now) found.1) };
}

/// Decodes a module at each fetch.
#[derive(Clone, Copy, Debug, Drop, PartialEq, Eq)]
pub struct Decoding;

impl Decoding {
    pub fn new() -> Decoding {
        Decoding
    }
}

/// The answer to a stop of a reading that breaks nowhere.
fn memory_stop(stop: ReadStop) -> AllocError
    requires { IsFault stop None }
{
    match stop {
        ReadStop::NoMemory => AllocError,
        ReadStop::Fault { .. } => unreachable!(),
    }
}

/// The module of a code, which is spelled, since the code was accepted.
fn decode(alloc: Global, code: &ValidCode) -> Result<Module, AllocError>
    ensures { IfOk result (λ m. module_of (code_bytes code.now) ≡ Some (plain_module m)) }
{
    bytes_spell_or_break();
    accepted_are_contracts();
    code.is_accepted();
    match read(alloc, code.bytes()) {
        Ok(m) => Ok(m),
        Err(stop) => Err(memory_stop(stop)),
    }
}

impl Modules for Decoding {
    ghost tally = { λ _. None };

    fn fetch(
        &mut self,
        alloc: Global,
        code: &ValidCode,
    ) -> Result<(Arc<Module>, Served), AllocError>
        ensures module_is { IfOk result (λ found. module_of (code_bytes code.now) ≡ Some (plain_module (arc_value found.0))) }
        ensures tallies { OnOk result (Tallies None (code_bytes code.now ∷ []) None) }
        ensures serves { IfOk result (λ found. ServesHeld None (code_bytes code.now) found.1) }
        ensures decoded { IfOk result (λ found. found.1 ≡ tiers.Decoded) }
    {
        let module = decode(alloc, code)?;
        Ok((Arc::new(alloc, module)?, Served::Decoded))
    }
}
