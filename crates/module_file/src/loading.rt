ghost use Rattle.std.specs.Prelude.{◌≡◌, bytes_eq, IfOk};
ghost use Rattle.std.specs.Option.{option_map};
ghost use Rattle.wasm_types.specs.Plain.{plain_module};
ghost use Rattle.wasm_types.specs.ModuleText.{HasSpelling};
ghost use Rattle.gatekeeper.specs.CodeBytes.{code_bytes};
ghost use Rattle.module_file.specs.Form.{word_read};
ghost use Rattle.module_file.specs.ModuleFile.{magic, file, file_text, module_in, IsLoaded};
ghost use Rattle.module_file.specs.Gives.{Gives};

use crate::lists::lists_at;
use crate::stop::Stop;
use crate::writing::{MAGIC, file_of};
use gatekeeper::ValidCode;
use std::alloc::{AllocError, Global};
use wasm_reader::{ReadStop, read, spells};
use wasm_types::{Module, bytes_spell_or_break, spelled_are_bounded};

/// What stands behind the first four bytes of a file.
#[tactic(auto, unfolding(crate::specs::Form::word_read))]
fn behind_magic(bytes: &[u8]) -> Result<&[u8], Stop>
    ensures { Gives (λ rest. (tt, rest.now)) result (word_read magic bytes.now) }
{
    if bytes.starts_with(&MAGIC) {
        Ok(&bytes[MAGIC.len()..])
    } else {
        Err(Stop::Unreadable)
    }
}

/// The module whose file the bytes are. Time and memory grow with the number of bytes, whatever counts
/// they claim.
#[tactic(auto, unfolding(crate::specs::ModuleFile::file, crate::specs::ModuleFile::module_in))]
fn module_in(alloc: Global, bytes: &[u8]) -> Result<Module, Stop>
    ensures { Gives plain_module result (module_in bytes.now) }
{
    let rest = behind_magic(bytes)?;
    let (found, rest) = lists_at(alloc, rest)?;
    if rest.is_empty() {
        Ok(found)
    } else {
        Err(Stop::Unreadable)
    }
}

/// The module, where the bytes are the file of the code's module. What the bytes are read as is compared
/// with the code.
fn load_read(alloc: Global, bytes: &[u8], code: &ValidCode) -> Result<Option<Module>, AllocError>
    ensures { IfOk result (λ found.
        IsLoaded bytes.now (code_bytes code.now) (option_map plain_module found)) }
{
    bytes_spell_or_break();
    spelled_are_bounded();
    code.is_accepted();
    let found = match module_in(alloc, bytes) {
        Ok(found) => found,
        Err(Stop::Unreadable) => return Ok(None),
        Err(Stop::NoMemory) => return Err(AllocError),
    };
    let same = spells(alloc, &found, code.bytes())?;
    if same { Ok(Some(found)) } else { Ok(None) }
}

/// Whether the bytes are the file of the module.
fn is_file_of(alloc: Global, bytes: &[u8], wanted: &Module) -> Result<bool, AllocError>
    requires { HasSpelling (plain_module wanted.now) }
    ensures { IfOk result (λ same. same ≡ bytes_eq (file_text (plain_module wanted.now)) bytes.now) }
{
    let file = file_of(alloc, wanted)?;
    Ok(file.as_slice() == bytes)
}

/// The module, where the bytes are the file of the code's module. The code is decoded, and the bytes are
/// compared with the file that it has, so memory grows with the code's module whatever the bytes are.
fn load_decoded(alloc: Global, bytes: &[u8], code: &ValidCode) -> Result<Option<Module>, AllocError>
    ensures { IfOk result (λ found.
        IsLoaded bytes.now (code_bytes code.now) (option_map plain_module found)) }
{
    bytes_spell_or_break();
    code.is_accepted();
    let decoded = match read(alloc, code.bytes()) {
        Ok(decoded) => decoded,
        Err(ReadStop::NoMemory) => return Err(AllocError),
        Err(ReadStop::Fault { .. }) => return Ok(None),
    };
    let same = is_file_of(alloc, bytes, &decoded)?;
    if same { Ok(Some(decoded)) } else { Ok(None) }
}

/// How many bytes of a file are read as a module for each byte of the code. Only a code of very many locals
/// has a longer file, since many of them are one part of the code and each is a byte of the file.
const BYTES_READ: usize = 6;

/// The module, where the bytes are the file of the code's module. Nothing of the bytes is trusted, and
/// how much memory they take is bounded by the code and its module.
pub fn load(alloc: Global, bytes: &[u8], code: &ValidCode) -> Result<Option<Module>, AllocError>
    ensures { IfOk result (λ found.
        IsLoaded bytes.now (code_bytes code.now) (option_map plain_module found)) }
{
    if bytes.len() / BYTES_READ > code.bytes().len() {
        load_decoded(alloc, bytes, code)
    } else {
        load_read(alloc, bytes, code)
    }
}
