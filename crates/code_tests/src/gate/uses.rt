//! What callers make of the laws.

ghost use Rattle.std.specs.Prelude.{◌∷◌, [], map, string_bytes, IfOk, OnOk};
ghost use Rattle.std.specs.Arc.{arc_value};
ghost use Rattle.wasm_types.specs.Plain.{PlainModule, plain_module};
ghost use Rattle.wasm_types.specs.ModuleText.{HasSpelling};
ghost use Rattle.gatekeeper.specs.CodeBytes.{code_bytes};
ghost use Rattle.gatekeeper.specs.Contract.{IsContract};
ghost use Rattle.gatekeeper.specs.Fetches.{Tallies};

use gatekeeper::{
    GateStop, Modules, ValidCode, check, decoded_are_spelled, fetches_join, taken_are_contracts,
};
use std::alloc::{AllocError, Global};
use std::sync::Arc;
use wasm_types::Module;

/// Fetches two codes, one after the other, and gives the module of the second.
pub(super) fn fetch_both<M: Modules>(
    alloc: Global,
    modules: &mut M,
    first: &ValidCode,
    second: &ValidCode,
) -> Result<Arc<Module>, AllocError>
    ensures tallies { OnOk result (Tallies (M.tally modules.old)
        (code_bytes first.now ∷ code_bytes second.now ∷ []) (M.tally modules.new)) }
    ensures spelled { IfOk result (λ found. HasSpelling (plain_module (arc_value found))) }
{
    fetches_join();
    decoded_are_spelled();
    second.is_accepted();
    let _ = modules.fetch(alloc, first)?;
    let (found, _) = modules.fetch(alloc, second)?;
    Ok(found)
}

/// A code that a chain takes keeps each rule on contracts there.
pub(super) fn contract_of(
    alloc: Global,
    code: Vec<u8>,
    caps: &[String],
) -> Result<ValidCode, GateStop>
    ensures { IfOk result (λ _. (m : PlainModule)
        × IsContract (map string_bytes caps.now) code.items m) }
{
    taken_are_contracts();
    check(alloc, code, caps)
}
