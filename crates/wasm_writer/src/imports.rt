ghost use Rattle.std.specs.Prelude.{◌≡◌, ◌++◌, OnOk};
ghost use Rattle.wasm_types.specs.Plain.{plain_import, plain_export};
ghost use Rattle.wasm_writer.specs.Spelling.{desc_text, import_text, ext_text, export_text};

use crate::number::put_unsigned;
use crate::spell::{Spell, put_sized};
use crate::types::{flag_byte, put_table, val_type_byte};
use std::alloc::AllocError;
use wasm_types::{Desc, Export, Ext, Import};

fn put_desc(out: &mut Vec<u8>, desc: Desc) -> Result<(), AllocError>
    ensures { OnOk result (out.new.items ≡ out.old.items ++ desc_text desc) }
{
    match desc {
        Desc::Func(ty) => {
            out.push(0)?;
            put_unsigned(out, ty as usize)
        }
        Desc::Table(size) => {
            out.push(1)?;
            put_table(out, size)
        }
        Desc::Memory(size) => {
            out.push(2)?;
            size.put(out)
        }
        Desc::Global { ty, mutable } => {
            out.extend_from_slice(&[3, val_type_byte(ty), flag_byte(mutable)])
        }
    }
}

impl Spell for Import {
    ghost text = { λ i. import_text (plain_import i) };

    fn put(&self, out: &mut Vec<u8>) -> Result<(), AllocError> {
        put_sized(out, self.module.as_bytes())?;
        put_sized(out, self.name.as_bytes())?;
        put_desc(out, self.desc)
    }
}

fn put_ext(out: &mut Vec<u8>, ext: Ext) -> Result<(), AllocError>
    ensures { OnOk result (out.new.items ≡ out.old.items ++ ext_text ext) }
{
    let (sort, index) = match ext {
        Ext::Func(index) => (0, index),
        Ext::Table(index) => (1, index),
        Ext::Memory(index) => (2, index),
        Ext::Global(index) => (3, index),
    };
    out.push(sort)?;
    put_unsigned(out, index as usize)
}

impl Spell for Export {
    ghost text = { λ e. export_text (plain_export e) };

    fn put(&self, out: &mut Vec<u8>) -> Result<(), AllocError> {
        put_sized(out, self.name.as_bytes())?;
        put_ext(out, self.ext)
    }
}
