ghost use Rattle.std.specs.Prelude.{◌≡◌, IfOk};
ghost use Rattle.wasm_types.specs.Plain.{plain_module};
ghost use Rattle.wasm_types.specs.ModuleText.{HasSpelling};
ghost use Rattle.module_file.specs.ModuleFile.{file_text};

use crate::lists::put_lists;
use std::alloc::{AllocError, Global};
use wasm_types::{Module, spelled_are_bounded};

/// What the bytes of every file begin with: `WMF1`.
pub const MAGIC: [u8; 4] = [0x57, 0x4D, 0x46, 0x31];

/// The file of a module.
#[tactic(auto, unfolding(crate::specs::ModuleFile::file))]
pub fn file_of(alloc: Global, wanted: &Module) -> Result<Vec<u8>, AllocError>
    requires { HasSpelling (plain_module wanted.now) }
    ensures { IfOk result (λ bytes. bytes.items ≡ file_text (plain_module wanted.now)) }
{
    spelled_are_bounded();
    let mut bytes = Vec::from_slice(alloc, &MAGIC)?;
    put_lists(&mut bytes, wanted)?;
    Ok(bytes)
}
