//! Modules from outside the cache: from a file of a shelf, or decoded.

ghost use Rattle.std.specs.Prelude.{◌≡◌, ◌++◌, codes, string_bytes, IfOk, IfSome, None};
ghost use Rattle.std.specs.Arc.{arc_value};
ghost use Rattle.wasm_types.specs.Plain.{plain_module};
ghost use Rattle.gatekeeper.specs.CodeBytes.{code_bytes};
ghost use Rattle.gatekeeper.specs.Fetches.{found_in_cache};
ghost use Rattle.module_file.specs.ModuleFile.{file_text};
ghost use Rattle.module_cache.specs.Right.{IsModuleOf};
ghost use Rattle.module_cache.specs.FileName.{file_name_of};

use gatekeeper::{Decoding, Modules, Served, ValidCode, decoded_are_spelled};
use module_file::{file_of, load};
use outside_io::Shelf;
use std::alloc::{AllocError, Global};
use std::sync::Arc;
use wasm_types::Module;

/// The name of the file of the code's module. It proves nothing.
pub(crate) fn file_name(alloc: Global, code: &ValidCode) -> Result<String, AllocError>
    ensures { IfOk result (λ name. string_bytes name ≡ file_name_of (code_bytes code.now)) }
{
    let mut name = hex::encode(alloc, code.checksum())?;
    name.push_str(".wmf")?;
    Ok(name)
}

/// What the shelf gives under the name. A fault counts as nothing found.
pub(crate) fn file_at<F: Shelf>(alloc: Global, shelf: &mut F, name: &str) -> Option<Vec<u8>> {
    match shelf.get(alloc, name) {
        Ok(found) => found,
        Err(_) => None,
    }
}

/// The module of the code, where the bytes are its file.
fn loaded(
    alloc: Global,
    file: Option<Vec<u8>>,
    code: &ValidCode,
) -> Result<Option<Module>, AllocError>
    ensures { IfOk result (λ found. IfSome found (IsModuleOf (code_bytes code.now))) }
{
    match file {
        Some(bytes) => load(alloc, &bytes, code),
        None => Ok(None),
    }
}

/// The module of the code from its file, or else decoded.
pub(crate) fn module_outside(
    alloc: Global,
    file: Option<Vec<u8>>,
    code: &ValidCode,
) -> Result<(Arc<Module>, Served), AllocError>
    ensures right { IfOk result (λ r. IsModuleOf (code_bytes code.now) (arc_value r.0)) }
    ensures missed { IfOk result (λ r. found_in_cache r.1 ≡ None) }
{
    match loaded(alloc, file, code)? {
        Some(found) => Ok((Arc::new(alloc, found)?, Served::File)),
        None => Decoding::new().fetch(alloc, code),
    }
}

/// The file of the code's module.
pub(crate) fn file_bytes(
    alloc: Global,
    code: &ValidCode,
    made: &Module,
) -> Result<Vec<u8>, AllocError>
    requires { IsModuleOf (code_bytes code.now) made.now }
    ensures { IfOk result (λ bytes. bytes.items ≡ file_text (plain_module made.now)) }
{
    decoded_are_spelled();
    code.is_accepted();
    file_of(alloc, made)
}

/// Puts the file on the shelf. A fault counts as nothing done.
pub(crate) fn put_file<F: Shelf>(shelf: &mut F, name: &str, bytes: &[u8]) {
    let _ = shelf.put(name, bytes);
}
