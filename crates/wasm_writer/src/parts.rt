//! The parts that sample contracts are made of.

ghost use Rattle.std.specs.Prelude.{◌≡◌, ℕ, ◌+◌, ◌++◌, ◌≤◌, List, length, map, replicate, IfOk};
ghost use Rattle.wasm_types.specs.Plain.{plain_func_type, plain_import, plain_export, plain_seg, plain_code};
ghost use Rattle.wasm_writer.specs.Samples.{signature, env_import, exported, data_at, mutable_i32, code_of};

use std::alloc::{AllocError, Global};
use wasm_types::{
    Code, Desc, Export, Ext, FuncType, GlobalVar, Import, Init, Instr, Seg, ValType, Value,
};

/// So many i32, and what is given for them.
fn signature(alloc: Global, params: usize, gives: Option<ValType>) -> Result<FuncType, AllocError>
    ensures { IfOk result (λ t. plain_func_type t ≡ signature (params, gives)) }
{
    Ok(FuncType {
        params: vec![in alloc; ValType::I32; params]?,
        result: gives,
    })
}

pub fn signatures(
    alloc: Global,
    list: &[(usize, Option<ValType>)],
) -> Result<Vec<FuncType>, AllocError>
    ensures { IfOk result (λ v. map plain_func_type v.items ≡ map signature list.now) }
{
    let mut all = Vec::new(alloc);
    for (params, gives) in list {
        all.push(signature(alloc, *params, *gives)?)?;
    }
    Ok(all)
}

/// A function of the module `env`.
pub fn env_import(alloc: Global, name: &str, ty: u32) -> Result<Import, AllocError>
    ensures { IfOk result (λ i. plain_import i ≡ env_import (name.now, ty)) }
{
    Ok(Import {
        module: String::from_str(alloc, "env")?,
        name: String::from_str(alloc, name)?,
        desc: Desc::Func(ty),
    })
}

pub fn env_imports(alloc: Global, list: &[(&str, u32)]) -> Result<Vec<Import>, AllocError>
    ensures { IfOk result (λ v.
        map plain_import v.items ≡ map (λ i. env_import (i.0.now, i.1)) list.now) }
{
    let mut all = Vec::new(alloc);
    for (name, ty) in list {
        all.push(env_import(alloc, name, *ty)?)?;
    }
    Ok(all)
}

/// An i32 that may be set.
pub fn mutable_i32(n: u32) -> GlobalVar
    ensures { result ≡ mutable_i32 n }
{
    GlobalVar {
        ty: ValType::I32,
        mutable: true,
        init: Init::Const(Value::I32(n)),
    }
}

/// Bytes at a place of the memory.
pub fn data_at(alloc: Global, at: u32, bytes: &[u8]) -> Result<Seg, AllocError>
    ensures { IfOk result (λ s. plain_seg s ≡ data_at (at, bytes.now)) }
{
    Ok(Seg {
        memory: 0,
        offset: Init::Const(Value::I32(at)),
        bytes: Vec::from_slice(alloc, bytes)?,
    })
}

/// A body, and the `end` behind it.
fn code_of(alloc: Global, body: &[Instr]) -> Result<Code, AllocError>
    ensures { IfOk result (λ c. plain_code c ≡ code_of body.now) }
{
    let mut instrs = Vec::from_slice(alloc, body)?;
    instrs.push(Instr::End)?;
    Ok(Code {
        locals: Vec::new(alloc),
        targets: Vec::new(alloc),
        body: instrs,
    })
}

pub fn codes(alloc: Global, bodies: &[&[Instr]]) -> Result<Vec<Code>, AllocError>
    ensures { IfOk result (λ v. map plain_code v.items ≡ map (λ b. code_of b.now) bodies.now) }
{
    let mut all = Vec::new(alloc);
    for body in bodies {
        all.push(code_of(alloc, body)?)?;
    }
    Ok(all)
}

fn exported(alloc: Global, name: &str, func: u32) -> Result<Export, AllocError>
    ensures { IfOk result (λ e. plain_export e ≡ record { name = name.now; ext = Ext.Func func }) }
{
    Ok(Export {
        name: String::from_str(alloc, name)?,
        ext: Ext::Func(func),
    })
}

/// The functions from the first on, under these names.
pub fn exports(alloc: Global, first: u32, names: &[&str]) -> Result<Vec<Export>, AllocError>
    requires { first + length names.now ≤ 1000 }
    ensures { IfOk result (λ v.
        map plain_export v.items ≡ exported first (map (λ n. n.now) names.now)) }
{
    let mut all = Vec::new(alloc);
    let mut func = first;
    for name in names {
        all.push(exported(alloc, name, func)?)?;
        func += 1;
    }
    Ok(all)
}
