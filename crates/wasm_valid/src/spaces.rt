ghost use Rattle.std.specs.Prelude.{◌≡◌, ◌≤◌, ◌++◌, length, map, option_to_list, IfOk, OnOk};
ghost use Rattle.wasm_types.specs.Plain.{plain_import, plain_module};
ghost use Rattle.wasm_types.specs.Validity.{func_in, table_in, memory_in, global_in, imported, declared, funcs_of};
ghost use Rattle.wasm_types.specs.Laws.{IsShaped};
ghost use Rattle.wasm_valid.specs.Contexts.{plain_global};
ghost use Rattle.wasm_valid.specs.Spaces.{AreSpaces};

use crate::context::GlobalType;
use std::alloc::{AllocError, Global};
use wasm_types::{Desc, GlobalVar, Import, Module};

/// The index spaces of a module, in which the imported ones come first.
#[derive(Debug, Drop)]
pub struct Spaces {
    /// The type of each function.
    pub funcs: Vec<u32>,
    pub tables: usize,
    pub memories: usize,
    pub globals: Vec<GlobalType>,
    pub imported_tables: usize,
    pub imported_memories: usize,
    pub imported_globals: usize,
}

/// Adds the type of a function that is imported.
fn keep_func(funcs: &mut Vec<u32>, desc: Desc) -> Result<(), AllocError>
    ensures { OnOk result (funcs.new.items ≡ funcs.old.items ++ option_to_list (func_in desc)) }
{
    match desc {
        Desc::Func(ty) => funcs.push(ty)?,
        Desc::Table(_) | Desc::Memory(_) | Desc::Global { .. } => {}
    }
    Ok(())
}

fn imported_funcs(alloc: Global, imports: &[Import]) -> Result<Vec<u32>, AllocError>
    ensures { IfOk result (λ funcs. funcs.items ≡ imported func_in (map plain_import imports.now)) }
{
    let mut funcs = Vec::new(alloc);
    for import in imports {
        keep_func(&mut funcs, import.desc)?;
    }
    Ok(funcs)
}

/// Adds the type of a global that is imported.
fn keep_global(globals: &mut Vec<GlobalType>, desc: Desc) -> Result<(), AllocError>
    ensures { OnOk result (map plain_global globals.new.items
        ≡ map plain_global globals.old.items ++ option_to_list (global_in desc)) }
{
    match desc {
        Desc::Global { ty, mutable } => globals.push(GlobalType { ty, mutable })?,
        Desc::Func(_) | Desc::Table(_) | Desc::Memory(_) => {}
    }
    Ok(())
}

fn imported_globals(alloc: Global, imports: &[Import]) -> Result<Vec<GlobalType>, AllocError>
    ensures { IfOk result (λ globals. map plain_global globals.items
        ≡ imported global_in (map plain_import imports.now)) }
{
    let mut globals = Vec::new(alloc);
    for import in imports {
        keep_global(&mut globals, import.desc)?;
    }
    Ok(globals)
}

fn add_declared(globals: &mut Vec<GlobalType>, vars: &[GlobalVar]) -> Result<(), AllocError>
    ensures { OnOk result (map plain_global globals.new.items
        ≡ map plain_global globals.old.items ++ map declared vars.now) }
{
    for var in vars {
        globals.push(GlobalType {
            ty: var.ty,
            mutable: var.mutable,
        })?;
    }
    Ok(())
}

/// How many tables an import brings.
pub fn tables_in(desc: Desc) -> usize
    ensures count { result ≡ length (option_to_list (table_in desc)) }
    ensures most { result ≤ 1 }
{
    match desc {
        Desc::Table(_) => 1,
        Desc::Func(_) | Desc::Memory(_) | Desc::Global { .. } => 0,
    }
}

/// How many memories an import brings.
pub fn memories_in(desc: Desc) -> usize
    ensures count { result ≡ length (option_to_list (memory_in desc)) }
    ensures most { result ≤ 1 }
{
    match desc {
        Desc::Memory(_) => 1,
        Desc::Func(_) | Desc::Table(_) | Desc::Global { .. } => 0,
    }
}

fn count_tables(imports: &[Import]) -> usize
    ensures count { result ≡ length (imported table_in (map plain_import imports.now)) }
    ensures most { result ≤ length imports.now }
{
    let mut count = 0;
    for import in imports {
        count += tables_in(import.desc);
    }
    count
}

fn count_memories(imports: &[Import]) -> usize
    ensures count { result ≡ length (imported memory_in (map plain_import imports.now)) }
    ensures most { result ≤ length imports.now }
{
    let mut count = 0;
    for import in imports {
        count += memories_in(import.desc);
    }
    count
}

/// The type of each function of a module, the imported ones first.
pub fn function_types(alloc: Global, m: &Module) -> Result<Vec<u32>, AllocError>
    ensures { IfOk result (λ funcs. funcs.items ≡ funcs_of (plain_module m.now)) }
{
    let mut funcs = imported_funcs(alloc, &m.imports)?;
    funcs.extend_from_slice(&m.funcs)?;
    Ok(funcs)
}

impl Spaces {
    /// The index spaces of a module.
    pub fn of(alloc: Global, m: &Module) -> Result<Spaces, AllocError>
        requires shaped { IsShaped (plain_module m.now) }
        ensures { IfOk result (λ spaces. AreSpaces spaces (plain_module m.now)) }
    {
        let funcs = function_types(alloc, m)?;
        let mut globals = imported_globals(alloc, &m.imports)?;
        let imported_globals = globals.len();
        add_declared(&mut globals, &m.globals)?;
        let imported_tables = count_tables(&m.imports);
        let imported_memories = count_memories(&m.imports);
        Ok(Spaces {
            funcs,
            tables: imported_tables + m.tables.len(),
            memories: imported_memories + m.memories.len(),
            globals,
            imported_tables,
            imported_memories,
            imported_globals,
        })
    }
}
