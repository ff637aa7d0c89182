ghost use Rattle.std.specs.Prelude.{◌≡◌, ◌++◌, ◌∷◌, OnOk};
ghost use Rattle.wasm_types.specs.Plain.{PlainImport, plain_import, PlainExport, plain_export};
ghost use Rattle.wasm_types.specs.Bounds.{IsImport, IsExport};
ghost use Rattle.module_file.specs.Form.{index};
ghost use Rattle.module_file.specs.Parts.{desc, import_, ext, export_};
ghost use Rattle.module_file.specs.Gives.{Gives};

use crate::field::{Field, put_bytes, put_index};
use crate::reading::{index_at, text_at};
use crate::stop::Stop;
use crate::types::{flag_at, put_flag};
use std::alloc::{AllocError, Global};
use wasm_types::{Desc, Export, Ext, Import, Limits, ValType};

#[tactic(auto, unfolding(crate::specs::Parts::desc))]
fn put_desc(bytes: &mut Vec<u8>, what: Desc) -> Result<(), AllocError>
    ensures { OnOk result (bytes.new.items ≡ bytes.old.items ++ desc.text what) }
{
    match what {
        Desc::Func(ty) => put_tagged(bytes, 0, ty),
        Desc::Table(size) => {
            bytes.push(1)?;
            size.put(bytes)
        }
        Desc::Memory(size) => {
            bytes.push(2)?;
            size.put(bytes)
        }
        Desc::Global { ty, mutable } => {
            bytes.push(3)?;
            ty.put(bytes)?;
            put_flag(bytes, mutable)
        }
    }
}

/// A byte, and an index.
pub fn put_tagged(bytes: &mut Vec<u8>, tag: u8, number: u32) -> Result<(), AllocError>
    ensures { OnOk result (bytes.new.items ≡ bytes.old.items ++ tag ∷ index.text number) }
{
    bytes.push(tag)?;
    put_index(bytes, number)
}

#[tactic(auto, unfolding(crate::specs::Parts::desc))]
fn desc_at(alloc: Global, bytes: &[u8]) -> Result<(Desc, &[u8]), Stop>
    ensures { Gives (λ x. (x.0, x.1.now)) result (desc.read bytes.now) }
{
    match bytes {
        [0, rest @ ..] => {
            let (ty, rest) = index_at(rest)?;
            Ok((Desc::Func(ty), rest))
        }
        [1, rest @ ..] => {
            let (size, rest) = Limits::read_at(alloc, rest)?;
            Ok((Desc::Table(size), rest))
        }
        [2, rest @ ..] => {
            let (size, rest) = Limits::read_at(alloc, rest)?;
            Ok((Desc::Memory(size), rest))
        }
        [3, rest @ ..] => {
            let (ty, rest) = ValType::read_at(alloc, rest)?;
            let (mutable, rest) = flag_at(rest)?;
            Ok((Desc::Global { ty, mutable }, rest))
        }
        _ => Err(Stop::Unreadable),
    }
}

impl Field for Import {
    ghost Shown = { PlainImport };

    ghost shown = { plain_import };

    ghost written = { import_.text };

    ghost holds = { IsImport };

    ghost reading = { import_.read };

    #[tactic(auto, unfolding(crate::specs::Parts::import_, crate::specs::Form::utf8))]
    fn put(&self, bytes: &mut Vec<u8>) -> Result<(), AllocError> {
        put_bytes(bytes, self.module.as_bytes())?;
        put_bytes(bytes, self.name.as_bytes())?;
        put_desc(bytes, self.desc)
    }

    #[tactic(auto, unfolding(crate::specs::Parts::import_))]
    fn read_at(alloc: Global, bytes: &[u8]) -> Result<(Import, &[u8]), Stop> {
        let (from, rest) = text_at(alloc, bytes)?;
        let (name, rest) = text_at(alloc, rest)?;
        let (desc, rest) = desc_at(alloc, rest)?;
        Ok((
            Import {
                module: from,
                name,
                desc,
            },
            rest,
        ))
    }
}

#[tactic(auto, unfolding(crate::specs::Parts::ext))]
fn put_ext(bytes: &mut Vec<u8>, what: Ext) -> Result<(), AllocError>
    ensures { OnOk result (bytes.new.items ≡ bytes.old.items ++ ext.text what) }
{
    match what {
        Ext::Func(index) => put_tagged(bytes, 0, index),
        Ext::Table(index) => put_tagged(bytes, 1, index),
        Ext::Memory(index) => put_tagged(bytes, 2, index),
        Ext::Global(index) => put_tagged(bytes, 3, index),
    }
}

#[tactic(auto, unfolding(crate::specs::Parts::ext))]
fn ext_at(bytes: &[u8]) -> Result<(Ext, &[u8]), Stop>
    ensures { Gives (λ x. (x.0, x.1.now)) result (ext.read bytes.now) }
{
    match bytes {
        [0, rest @ ..] => {
            let (index, rest) = index_at(rest)?;
            Ok((Ext::Func(index), rest))
        }
        [1, rest @ ..] => {
            let (index, rest) = index_at(rest)?;
            Ok((Ext::Table(index), rest))
        }
        [2, rest @ ..] => {
            let (index, rest) = index_at(rest)?;
            Ok((Ext::Memory(index), rest))
        }
        [3, rest @ ..] => {
            let (index, rest) = index_at(rest)?;
            Ok((Ext::Global(index), rest))
        }
        _ => Err(Stop::Unreadable),
    }
}

impl Field for Export {
    ghost Shown = { PlainExport };

    ghost shown = { plain_export };

    ghost written = { export_.text };

    ghost holds = { IsExport };

    ghost reading = { export_.read };

    #[tactic(auto, unfolding(crate::specs::Parts::export_, crate::specs::Form::utf8))]
    fn put(&self, bytes: &mut Vec<u8>) -> Result<(), AllocError> {
        put_bytes(bytes, self.name.as_bytes())?;
        put_ext(bytes, self.ext)
    }

    #[tactic(auto, unfolding(crate::specs::Parts::export_))]
    fn read_at(alloc: Global, bytes: &[u8]) -> Result<(Export, &[u8]), Stop> {
        let (name, rest) = text_at(alloc, bytes)?;
        let (ext, rest) = ext_at(rest)?;
        Ok((Export { name, ext }, rest))
    }
}
