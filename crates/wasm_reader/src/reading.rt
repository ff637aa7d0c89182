ghost use Rattle.std.specs.Prelude.{◌≡◌, ◌⊎◌, IfOk, IfErr, MatchResult, Some, Ok, Err};
ghost use Rattle.wasm_types.specs.Plain.{PlainModule, plain_module};
ghost use Rattle.wasm_types.specs.Place.{Broken};
ghost use Rattle.wasm_types.specs.ModuleText.{IsModule, broken};
ghost use Rattle.wasm_reader.specs.Answers.{IsFault};

use crate::cursor::Cursor;
use crate::sections::whole;
use crate::stop::ReadStop;
use std::alloc::Global;
use wasm_types::Module;

/// The module that the bytes spell; else the place at which they break first, and why.
pub fn read(alloc: Global, code: &[u8]) -> Result<Module, ReadStop>
    ensures found { IfOk result (λ m. IsModule code.now (plain_module m)) }
    ensures fault { IfErr result (λ e. IsFault e (broken code.now)) }

    // What is spelled is read, and where the bytes break there is no module, unless memory runs out.
    ensures spelled { (m : PlainModule) → IsModule code.now m
        → MatchResult result (λ found. plain_module found ≡ m) (λ e. e ≡ ReadStop.NoMemory) }
    ensures broken { (f : Broken) → broken code.now ≡ Some f
        → (result ≡ Err (ReadStop.Fault f.at f.kind)) ⊎ (result ≡ Err ReadStop.NoMemory) }
{
    let mut cursor = Cursor::new(code);
    whole(alloc, &mut cursor)
}
