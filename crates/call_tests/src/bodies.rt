//! A contract that may call all imports, whose functions have other bodies than those of a sample.

use std::alloc::{AllocError, Global};
use wasm_types::{Init, Instr, Module, Seg, Value};
use wasm_writer::common;

/// The body of a function without its last `end`.
pub(crate) type Body = &'static [Instr];

/// The places of functions behind the imports.
pub(crate) const ALLOCATE: usize = 1;

pub(crate) const DEALLOCATE: usize = 2;

pub(crate) const EXECUTE: usize = 4;

pub(crate) const QUERY: usize = 7;

pub(crate) const GET_0: Instr = Instr::Index { op: 0x20, index: 0 };

pub(crate) const GET_1: Instr = Instr::Index { op: 0x20, index: 1 };

pub(crate) const GET_2: Instr = Instr::Index { op: 0x20, index: 2 };

pub(crate) const DROP: Instr = Instr::Op(0x1A);

pub(crate) const CALL_DB_WRITE: Instr = Instr::Index { op: 0x10, index: 1 };

pub(crate) const CALL_DEBUG: Instr = Instr::Index { op: 0x10, index: 8 };

pub(crate) const CALL_QUERY_CHAIN: Instr = Instr::Index { op: 0x10, index: 9 };

pub(crate) const CALL_ABORT: Instr = Instr::Index {
    op: 0x10,
    index: 10,
};

pub(crate) const UNREACHABLE: Instr = Instr::Op(0x00);

/// A Region of 13 bytes of text.
pub(crate) const AT_TEXT: Instr = Instr::Const(Value::I32(64));

/// Regions in the memory of the contract, which ends at 1,114,112, by their places.
const REGIONS: [(u32, [u32; 3]); 9] = [
    (64, [256, 13, 13]),
    (76, [1_024, 1_048_576, 1_048_576]),
    (88, [1_024, 1_048_577, 1_048_577]),
    (100, [0, 5, 0]),
    (112, [1_024, 5, 6]),
    (124, [1_024, 0xFFFF_FFFF, 0]),
    (136, [1_114_108, 5, 5]),
    (148, [1_114_112, 0, 0]),
    (160, [128, 4, 4]),
];

fn bytes_of(alloc: Global, numbers: &[u32]) -> Result<Vec<u8>, AllocError> {
    let mut bytes = Vec::new(alloc);
    for number in numbers {
        bytes.extend_from_slice(&number.to_le_bytes())?;
    }
    Ok(bytes)
}

fn segment(at: u32, bytes: Vec<u8>) -> Seg {
    Seg {
        memory: 0,
        offset: Init::Const(Value::I32(at)),
        bytes,
    }
}

/// Gives a function this body.
pub(crate) fn put_body(
    alloc: Global,
    module: &mut Module,
    place: usize,
    body: &[Instr],
) -> Result<(), AllocError> {
    let mut instrs = Vec::from_slice(alloc, body)?;
    instrs.push(Instr::End)?;
    if let Some(code) = module.codes.get_mut(place) {
        code.body = instrs;
    }
    Ok(())
}

/// A contract that may call all imports, with the Regions, in which one function has this body.
pub(crate) fn contract(alloc: Global, place: usize, body: &[Instr]) -> Result<Module, AllocError> {
    let mut module = common(alloc)?;
    put_body(alloc, &mut module, place, body)?;
    for (at, numbers) in &REGIONS {
        let bytes = bytes_of(alloc, numbers.as_slice())?;
        module.segs.push(segment(*at, bytes))?;
    }
    let text = Vec::from_slice(alloc, b"{\"ok\":\"aGk=\"}")?;
    module.segs.push(segment(256, text))?;
    Ok(module)
}
