ghost use Rattle.std.specs.Prelude.{◌≡◌, ◌++◌, OnOk};
ghost use Rattle.wasm_types.specs.Plain.{plain_module};
ghost use Rattle.wasm_types.specs.Bounds.{IsBounded};
ghost use Rattle.module_file.specs.ModuleFile.{lists};
ghost use Rattle.module_file.specs.Gives.{Gives};

use crate::field::{list_at, put_list};
use crate::stop::Stop;
use std::alloc::{AllocError, Global};
use wasm_types::Module;

/// The lists of a module, in the order of its fields.
pub fn put_lists(bytes: &mut Vec<u8>, wanted: &Module) -> Result<(), AllocError>
    requires { IsBounded (plain_module wanted.now) }
    ensures { OnOk result (bytes.new.items
        ≡ bytes.old.items ++ lists.text (plain_module wanted.now)) }
{
    put_list(bytes, &wanted.types)?;
    put_list(bytes, &wanted.imports)?;
    put_list(bytes, &wanted.funcs)?;
    put_list(bytes, &wanted.tables)?;
    put_list(bytes, &wanted.memories)?;
    put_list(bytes, &wanted.globals)?;
    put_list(bytes, &wanted.exports)?;
    put_list(bytes, &wanted.elems)?;
    put_list(bytes, &wanted.codes)?;
    put_list(bytes, &wanted.segs)?;
    Ok(())
}

/// The module whose lists stand here, and the bytes after them.
#[tactic(auto, unfolding(crate::specs::ModuleFile::lists, crate::specs::ModuleFile::later_lists))]
pub fn lists_at(alloc: Global, bytes: &[u8]) -> Result<(Module, &[u8]), Stop>
    ensures { Gives (λ x. (plain_module x.0, x.1.now)) result (lists.read bytes.now) }
{
    let (types, rest) = list_at(alloc, bytes)?;
    let (imports, rest) = list_at(alloc, rest)?;
    let (funcs, rest) = list_at(alloc, rest)?;
    let (tables, rest) = list_at(alloc, rest)?;
    let (memories, rest) = list_at(alloc, rest)?;
    let (globals, rest) = list_at(alloc, rest)?;
    let (exports, rest) = list_at(alloc, rest)?;
    let (elems, rest) = list_at(alloc, rest)?;
    let (codes, rest) = list_at(alloc, rest)?;
    let (segs, rest) = list_at(alloc, rest)?;
    Ok((
        Module {
            types,
            imports,
            funcs,
            tables,
            memories,
            globals,
            exports,
            elems,
            codes,
            segs,
        },
        rest,
    ))
}
