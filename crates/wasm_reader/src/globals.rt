ghost use Rattle.wasm_types.specs.declared.global.GlobalVar.{GlobalVar};
ghost use Rattle.wasm_types.specs.Opcodes.{const_op};
ghost use Rattle.wasm_types.specs.Part.{byte};
ghost use Rattle.wasm_types.specs.Types.{const_value, const_end, init, global, elem, seg};
ghost use Rattle.wasm_types.specs.Plain.{PlainElem, plain_elem, PlainSeg, plain_seg};
ghost use Rattle.wasm_reader.specs.Gives.{Gives};
ghost use Rattle.wasm_reader.specs.CursorPlace.{place};

use crate::cursor::Cursor;
use crate::element::{Element, vector};
use crate::stop::{ReadStop, fault};
use crate::text::bytes;
use crate::types::{flag, val_type};
use std::alloc::Global;
use wasm_types::{
    ConstOp, Elem, GlobalVar, Init, ReadKind, Seg, Shape, Value, const_op_of, shape_of,
};

fn const_op(cursor: &mut Cursor) -> Result<ConstOp, ReadStop>
    ensures { Gives (λ op. op) result (place cursor.new) ((byte const_op).read (place cursor.old)) }
{
    let at = cursor.at();
    match const_op_of(cursor.byte(ReadKind::Cut)?) {
        Ok(op) => Ok(op),
        Err(kind) => Err(fault(at, kind)),
    }
}

#[tactic(auto, unfolding(wasm_types::specs::Types::const_value))]
fn const_value(cursor: &mut Cursor) -> Result<Init, ReadStop>
    ensures { Gives (λ i. i) result (place cursor.new) (const_value.read (place cursor.old)) }
{
    match const_op(cursor)? {
        ConstOp::I32Const => {
            let n = cursor.s32()?;
            Ok(Init::Const(Value::I32(n)))
        }
        ConstOp::I64Const => {
            let n = cursor.s64()?;
            Ok(Init::Const(Value::I64(n)))
        }
        ConstOp::GlobalGet => {
            let index = cursor.index()?;
            Ok(Init::Global(index))
        }
    }
}

#[tactic(auto, unfolding(wasm_types::specs::Types::const_end))]
fn const_end(cursor: &mut Cursor) -> Result<(), ReadStop>
    ensures { Gives (λ _. tt) result (place cursor.new) (const_end.read (place cursor.old)) }
{
    let at = cursor.at();
    match shape_of(cursor.byte(ReadKind::Cut)?) {
        Ok(Shape::End) => Ok(()),
        Ok(_) => Err(fault(at, ReadKind::Opcode)),
        Err(kind) => Err(fault(at, kind)),
    }
}

#[tactic(auto, unfolding(wasm_types::specs::Types::init))]
fn init(cursor: &mut Cursor) -> Result<Init, ReadStop>
    ensures { Gives (λ i. i) result (place cursor.new) (init.read (place cursor.old)) }
{
    let value = const_value(cursor)?;
    const_end(cursor)?;
    Ok(value)
}

impl Element for GlobalVar {
    ghost Shown = { GlobalVar };

    ghost shown = { λ g. g };

    ghost reading = { global.read };

    #[tactic(auto, unfolding(wasm_types::specs::Types::global))]
    fn read_at(_alloc: Global, cursor: &mut Cursor) -> Result<GlobalVar, ReadStop> {
        let ty = val_type(cursor)?;
        let mutable = flag(cursor)?;
        let init = init(cursor)?;
        Ok(GlobalVar { ty, mutable, init })
    }

    fn same(&self, other: &GlobalVar) -> bool {
        self == other
    }
}

impl Element for Elem {
    ghost Shown = { PlainElem };

    ghost shown = { plain_elem };

    ghost reading = { elem.read };

    #[tactic(auto, unfolding(wasm_types::specs::Types::elem))]
    fn read_at(alloc: Global, cursor: &mut Cursor) -> Result<Elem, ReadStop> {
        let table = cursor.index()?;
        let offset = init(cursor)?;
        let funcs = vector(alloc, cursor)?;
        Ok(Elem {
            table,
            offset,
            funcs,
        })
    }

    fn same(&self, other: &Elem) -> bool {
        self == other
    }
}

impl Element for Seg {
    ghost Shown = { PlainSeg };

    ghost shown = { plain_seg };

    ghost reading = { seg.read };

    #[tactic(auto, unfolding(wasm_types::specs::Types::seg))]
    fn read_at(alloc: Global, cursor: &mut Cursor) -> Result<Seg, ReadStop> {
        let memory = cursor.index()?;
        let offset = init(cursor)?;
        let bytes = bytes(alloc, cursor)?;
        Ok(Seg {
            memory,
            offset,
            bytes,
        })
    }

    fn same(&self, other: &Seg) -> bool {
        self == other
    }
}
