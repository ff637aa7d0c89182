ghost use Rattle.wasm_types.specs.Types.{desc, import_, ext, export_};
ghost use Rattle.wasm_types.specs.Plain.{PlainImport, plain_import, PlainExport, plain_export};
ghost use Rattle.wasm_reader.specs.Gives.{Gives};
ghost use Rattle.wasm_reader.specs.CursorPlace.{place};

use crate::cursor::Cursor;
use crate::element::Element;
use crate::stop::{ReadStop, fault};
use crate::text::string;
use crate::types::{flag, limits, table, val_type};
use std::alloc::Global;
use wasm_types::{Desc, Export, Ext, Import, ReadKind};

#[tactic(auto, unfolding(wasm_types::specs::Types::desc, wasm_types::specs::Types::global_desc))]
fn desc(cursor: &mut Cursor) -> Result<Desc, ReadStop>
    ensures { Gives (λ d. d) result (place cursor.new) (desc.read (place cursor.old)) }
{
    let at = cursor.at();
    match cursor.byte(ReadKind::Cut)? {
        0 => {
            let ty = cursor.index()?;
            Ok(Desc::Func(ty))
        }
        1 => {
            let size = table(cursor)?;
            Ok(Desc::Table(size))
        }
        2 => {
            let size = limits(cursor)?;
            Ok(Desc::Memory(size))
        }
        3 => {
            let ty = val_type(cursor)?;
            let mutable = flag(cursor)?;
            Ok(Desc::Global { ty, mutable })
        }
        _ => Err(fault(at, ReadKind::Kind)),
    }
}

impl Element for Import {
    ghost Shown = { PlainImport };

    ghost shown = { plain_import };

    ghost reading = { import_.read };

    #[tactic(auto, unfolding(wasm_types::specs::Types::import_))]
    fn read_at(alloc: Global, cursor: &mut Cursor) -> Result<Import, ReadStop> {
        let module = string(alloc, cursor)?;
        let name = string(alloc, cursor)?;
        let desc = desc(cursor)?;
        Ok(Import { module, name, desc })
    }

    fn same(&self, other: &Import) -> bool {
        self == other
    }
}

#[tactic(auto, unfolding(wasm_types::specs::Types::ext))]
fn ext(cursor: &mut Cursor) -> Result<Ext, ReadStop>
    ensures { Gives (λ e. e) result (place cursor.new) (ext.read (place cursor.old)) }
{
    let at = cursor.at();
    match cursor.byte(ReadKind::Cut)? {
        0 => {
            let index = cursor.index()?;
            Ok(Ext::Func(index))
        }
        1 => {
            let index = cursor.index()?;
            Ok(Ext::Table(index))
        }
        2 => {
            let index = cursor.index()?;
            Ok(Ext::Memory(index))
        }
        3 => {
            let index = cursor.index()?;
            Ok(Ext::Global(index))
        }
        _ => Err(fault(at, ReadKind::Kind)),
    }
}

impl Element for Export {
    ghost Shown = { PlainExport };

    ghost shown = { plain_export };

    ghost reading = { export_.read };

    #[tactic(auto, unfolding(wasm_types::specs::Types::export_))]
    fn read_at(alloc: Global, cursor: &mut Cursor) -> Result<Export, ReadStop> {
        let name = string(alloc, cursor)?;
        let ext = ext(cursor)?;
        Ok(Export { name, ext })
    }

    fn same(&self, other: &Export) -> bool {
        self == other
    }
}
