ghost use Rattle.wasm_types.specs.Plain.{PlainElem, plain_elem, PlainSeg, plain_seg};
ghost use Rattle.wasm_types.specs.Bounds.{IsElem, IsSeg};
ghost use Rattle.module_file.specs.Parts.{elem, seg};

use crate::field::{Field, list_at, put_bytes, put_index, put_list};
use crate::globals::{init_at, put_init};
use crate::reading::{bytes_at, index_at};
use crate::stop::Stop;
use std::alloc::{AllocError, Global};
use wasm_types::{Elem, Seg};

impl Field for Elem {
    ghost Shown = { PlainElem };

    ghost shown = { plain_elem };

    ghost written = { elem.text };

    ghost holds = { IsElem };

    ghost reading = { elem.read };

    #[tactic(auto, unfolding(crate::specs::Parts::elem))]
    fn put(&self, bytes: &mut Vec<u8>) -> Result<(), AllocError> {
        put_index(bytes, self.table)?;
        put_init(bytes, self.offset)?;
        put_list(bytes, &self.funcs)
    }

    #[tactic(auto, unfolding(crate::specs::Parts::elem))]
    fn read_at(alloc: Global, bytes: &[u8]) -> Result<(Elem, &[u8]), Stop> {
        let (table, rest) = index_at(bytes)?;
        let (offset, rest) = init_at(rest)?;
        let (funcs, rest) = list_at(alloc, rest)?;
        Ok((
            Elem {
                table,
                offset,
                funcs,
            },
            rest,
        ))
    }
}

impl Field for Seg {
    ghost Shown = { PlainSeg };

    ghost shown = { plain_seg };

    ghost written = { seg.text };

    ghost holds = { IsSeg };

    ghost reading = { seg.read };

    #[tactic(auto, unfolding(crate::specs::Parts::seg))]
    fn put(&self, bytes: &mut Vec<u8>) -> Result<(), AllocError> {
        put_index(bytes, self.memory)?;
        put_init(bytes, self.offset)?;
        put_bytes(bytes, &self.bytes)
    }

    #[tactic(auto, unfolding(crate::specs::Parts::seg))]
    fn read_at(alloc: Global, bytes: &[u8]) -> Result<(Seg, &[u8]), Stop> {
        let (memory, rest) = index_at(bytes)?;
        let (offset, rest) = init_at(rest)?;
        let (front, rest) = bytes_at(rest)?;
        let bytes = Vec::from_slice(alloc, front)?;
        Ok((
            Seg {
                memory,
                offset,
                bytes,
            },
            rest,
        ))
    }
}
