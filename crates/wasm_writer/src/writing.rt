ghost use Rattle.std.specs.Prelude.{◌≡◌, IfOk, Some};
ghost use Rattle.wasm_types.specs.Plain.{plain_module};
ghost use Rattle.wasm_types.specs.ModuleText.{module_of, HasSpelling};
ghost use Rattle.wasm_writer.specs.Spelling.{spelling_of};
ghost use Rattle.wasm_writer.specs.Shortest.{IsShortest};

use crate::sections::{put_section, put_tables};
use std::alloc::{AllocError, Global};
use wasm_types::{HEADER, Module};

pub fn written(alloc: Global, wanted: &Module) -> Result<Vec<u8>, AllocError>
    ensures { IfOk result (λ bytes. bytes.items ≡ spelling_of (plain_module wanted.now)) }
{
    let mut out = Vec::from_slice(alloc, &HEADER)?;
    put_section(&mut out, 1, &wanted.types)?;
    put_section(&mut out, 2, &wanted.imports)?;
    put_section(&mut out, 3, &wanted.funcs)?;
    put_tables(&mut out, &wanted.tables)?;
    put_section(&mut out, 5, &wanted.memories)?;
    put_section(&mut out, 6, &wanted.globals)?;
    put_section(&mut out, 7, &wanted.exports)?;
    put_section(&mut out, 9, &wanted.elems)?;
    put_section(&mut out, 10, &wanted.codes)?;
    put_section(&mut out, 11, &wanted.segs)?;
    Ok(out)
}

/// The shortest spelling of a module that has one: each number is as short as it can be, each run of
/// locals of one type is one group, and sections without items are left out.
pub fn write(alloc: Global, wanted: &Module) -> Result<Vec<u8>, AllocError>
    requires { HasSpelling (plain_module wanted.now) }
    ensures shortest { IfOk result (λ bytes. IsShortest bytes.items (plain_module wanted.now)) }
    ensures exact { IfOk result (λ bytes. bytes.items ≡ spelling_of (plain_module wanted.now)) }

    // Reading the bytes gives the module again.
    ensures again { IfOk result (λ bytes. module_of bytes.items ≡ Some (plain_module wanted.now)) }
{
    let bytes = written(alloc, wanted)?;
    Ok(bytes)
}
