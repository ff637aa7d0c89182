ghost use Rattle.std.specs.Prelude.{◌≡◌, IfOk, IfSome, None, string_bytes, map};
ghost use Rattle.wasm_types.specs.Plain.{plain_module};
ghost use Rattle.wasm_types.specs.ModuleText.{HasSpelling};
ghost use Rattle.wasm_writer.specs.Shortest.{IsShortest};
ghost use Rattle.wasm_writer.specs.Spelling.{spelling_of};
ghost use Rattle.sample_codes.specs.Samples.{Names, NamesNone, module_of};

use std::alloc::{AllocError, Global};
use wasm_types::Module;
use wasm_writer::{common, echo, keeper, sign, spin, write};

/// A sample contract.
#[derive(Clone, Copy, Debug, PartialEq, Eq)]
pub enum Sample {
    Echo,
    Spin,
    Keeper,
    Common,
    Sign,
}

impl Sample {
    /// The sample that the words name, where they are one word that names one.
    pub fn in_words(words: &[String]) -> Option<Sample>
        ensures some { IfSome result (λ sample. Names (map string_bytes words.now) sample) }
        ensures none { result ≡ None → NamesNone (map string_bytes words.now) }
    {
        let [word] = words else {
            return None;
        };
        match word.as_str() {
            "echo" => Some(Sample::Echo),
            "spin" => Some(Sample::Spin),
            "keeper" => Some(Sample::Keeper),
            "common" => Some(Sample::Common),
            "sign" => Some(Sample::Sign),
            _ => None,
        }
    }

    /// The module of the contract.
    pub fn module(self, alloc: Global) -> Result<Module, AllocError>
        ensures module { IfOk result (λ m. plain_module m ≡ module_of self) }
        ensures spelled { IfOk result (λ m. HasSpelling (plain_module m)) }
    {
        match self {
            Sample::Echo => echo(alloc),
            Sample::Spin => spin(alloc),
            Sample::Keeper => keeper(alloc),
            Sample::Common => common(alloc),
            Sample::Sign => sign(alloc),
        }
    }

    /// The code of the contract: the shortest spelling of its module.
    pub fn code(self, alloc: Global) -> Result<Vec<u8>, AllocError>
        ensures exact { IfOk result (λ bytes. bytes.items ≡ spelling_of (module_of self)) }
        ensures shortest { IfOk result (λ bytes. IsShortest bytes.items (module_of self)) }
    {
        let module = self.module(alloc)?;
        write(alloc, &module)
    }
}
