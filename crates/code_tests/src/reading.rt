use std::alloc::{AllocError, Global};
use std::test::Fail;
use wasm_reader::{ReadStop, read, spells};
use wasm_types::{HEADER, Instr, ReadKind, ValType, Value};

/// Behind the header: two custom sections, and one of each other sort.
const SECTIONS: [u8; 115] = [
    0x00, 0x05, 0x04, 0x6E, 0x6F, 0x74, 0x65, // a note
    0x01, 0x0A, 0x02, 0x60, 0x02, 0x7F, 0x7E, 0x01, 0x7F, 0x60, 0x00, 0x00, // types
    0x02, 0x07, 0x01, 0x01, 0x65, 0x01, 0x66, 0x00, 0x01, // imports
    0x03, 0x02, 0x01, 0x00, // functions
    0x04, 0x05, 0x01, 0x70, 0x01, 0x01, 0x02, // tables
    0x05, 0x03, 0x01, 0x00, 0x01, // memories
    0x06, 0x06, 0x01, 0x7E, 0x01, 0x42, 0x7F, 0x0B, // globals
    0x07, 0x05, 0x01, 0x01, 0x6D, 0x02, 0x00, // exports
    0x09, 0x07, 0x01, 0x00, 0x41, 0x00, 0x0B, 0x01, 0x00, // elements
    0x0A, 0x1F, 0x01, 0x1D, 0x01, 0x02, 0x7F, // codes, and two locals
    0x02, 0x40, 0x20, 0x00, 0x0E, 0x01, 0x00, 0x00, 0x0B, // a block with a table of labels
    0x20, 0x00, 0x04, 0x7F, 0x41, 0x01, 0x05, 0x41, 0x7F, 0x0B, // an if with an else
    0x28, 0x02, 0x04, 0x11, 0x01, 0x00, 0x0B, // a load and an indirect call
    0x0B, 0x08, 0x01, 0x00, 0x41, 0x10, 0x0B, 0x02, 0x68, 0x69, // data
    0x00, 0x02, 0x01, 0x78, // another note
];

const BODY: [Instr; 13] = [
    Instr::Block {
        result: None,
        end: 3,
    },
    Instr::Index { op: 0x20, index: 0 },
    Instr::BrTable {
        first: 0,
        count: 1,
        default: 0,
    },
    Instr::End,
    Instr::Index { op: 0x20, index: 0 },
    Instr::If {
        result: Some(ValType::I32),
        els: Some(7),
        end: 9,
    },
    Instr::Const(Value::I32(1)),
    Instr::Else { end: 9 },
    Instr::Const(Value::I32(4294967295)),
    Instr::End,
    Instr::Mem {
        op: 0x28,
        align: 2,
        offset: 4,
    },
    Instr::CallIndirect { ty: 1 },
    Instr::End,
];

fn behind_header(alloc: Global, rest: &[u8]) -> Result<Vec<u8>, AllocError> {
    let mut bytes = Vec::from_slice(alloc, &HEADER)?;
    bytes.extend_from_slice(rest)?;
    Ok(bytes)
}

#[test]
fn modules_are_read_and_spelled(rt: HostRuntime) -> Result<(), Fail> {
    let alloc = rt.alloc();
    let bytes = behind_header(alloc, &SECTIONS)?;
    let module = read(alloc, &bytes)?;
    assert_eq!(rt; module.types.len(), 2);
    assert_eq!(rt; module.imports.len(), 1);
    assert_eq!(rt; module.funcs.as_slice(), [0].as_slice());
    assert_eq!(rt; module.tables.len() + module.memories.len(), 2);
    assert_eq!(rt; module.globals.len() + module.exports.len(), 2);
    assert_eq!(rt; module.elems.len() + module.segs.len(), 2);
    assert_eq!(rt; module.codes.len(), 1);
    assert_eq!(rt; module.codes[0].body.as_slice(), BODY.as_slice());
    assert_eq!(rt; module.codes[0].targets.as_slice(), [0].as_slice());
    assert!(rt; spells(alloc, &module, &bytes)?);
    assert!(rt; !spells(alloc, &module, &HEADER)?);

    let module = read(alloc, &HEADER)?;
    assert!(rt; module.types.is_empty() && module.codes.is_empty() && module.segs.is_empty());
    assert!(rt; spells(alloc, &module, &HEADER)?);
    assert!(rt; !spells(alloc, &module, &[])?);
    Ok(())
}

#[test]
fn deep_nesting_takes_no_stack(rt: HostRuntime) -> Result<(), Fail> {
    let section = [0x0A, 0xC6, 0xCF, 0x24, 0x01, 0xC2, 0xCF, 0x24, 0x00];
    let mut bytes = behind_header(rt.alloc(), &section)?;
    for _ in 0..200_000 {
        bytes.extend_from_slice(&[0x02, 0x40])?;
    }
    for _ in 0..200_001 {
        bytes.push(0x0B)?;
    }
    // The code is read to its end, where the function of it is missing.
    let fault = ReadStop::Fault {
        at: bytes.len(),
        kind: ReadKind::Count,
    };
    assert_eq!(rt; read(rt.alloc(), &bytes).err(), Some(fault));
    Ok(())
}

/// All of the input, and the kind of its first fault, at the first byte.
const FAULTS_OF_HEADERS: [(&[u8], ReadKind); 4] = [
    (&[], ReadKind::Cut),
    (&[0x00, 0x61, 0x73], ReadKind::Cut),
    (&[0x01], ReadKind::Magic),
    (
        &[0x00, 0x61, 0x73, 0x6D, 0x02, 0x00, 0x00, 0x00],
        ReadKind::Magic,
    ),
];

/// Sections, and the place and kind of their first fault.
const FAULTS_OF_SECTIONS: &[(&[u8], usize, ReadKind)] = &[
    (&[0x0C, 0x00], 8, ReadKind::Section),
    (&[0x01, 0x01, 0x00, 0x01, 0x01, 0x00], 11, ReadKind::Section),
    (&[0x02, 0x01, 0x00, 0x01, 0x01, 0x00], 11, ReadKind::Section),
    (&[0x08, 0x01, 0x00], 8, ReadKind::Start),
    (&[0x02, 0x01, 0x00, 0x08, 0x00], 11, ReadKind::Start),
    (&[0x01], 9, ReadKind::Cut),
    (&[0x01, 0x05, 0x00], 9, ReadKind::Cut),
    (&[0x01, 0x80, 0x80], 9, ReadKind::Cut),
    (&[0x01, 0x01, 0x80], 10, ReadKind::Cut),
    (&[0x00, 0x02, 0x05, 0x61], 10, ReadKind::Cut),
    (&[0x01, 0x04, 0x01, 0x60, 0x00, 0x82], 13, ReadKind::Cut),
    (&[0x06, 0x03, 0x01, 0x7F, 0x00], 13, ReadKind::Cut),
    (
        &[0x0B, 0x06, 0x01, 0x00, 0x41, 0x00, 0x0B, 0x05],
        15,
        ReadKind::Cut,
    ),
    (&[0x01, 0xFF, 0xFF, 0xFF, 0xFF, 0x1F], 9, ReadKind::Leb),
    (&[0x01, 0x85, 0x80, 0x80, 0x80, 0x10], 9, ReadKind::Leb),
    (
        &[0x01, 0x06, 0xFF, 0xFF, 0xFF, 0xFF, 0x1F, 0x00],
        10,
        ReadKind::Leb,
    ),
    (&[0x01, 0x02, 0x00, 0x00], 11, ReadKind::Size),
    (&[0x05, 0x02, 0x00, 0x00], 11, ReadKind::Size),
    (&[0x00, 0x03, 0x02, 0xC3, 0x28], 11, ReadKind::Name),
    (
        &[0x02, 0x06, 0x01, 0x01, 0xFF, 0x00, 0x00, 0x00],
        12,
        ReadKind::Name,
    ),
    (&[0x01, 0x02, 0x01, 0x7C], 11, ReadKind::Form),
    (
        &[0x01, 0x05, 0x02, 0x60, 0x00, 0x00, 0x40],
        14,
        ReadKind::Form,
    ),
    (
        &[0x01, 0x04, 0x01, 0x60, 0x01, 0x6F],
        13,
        ReadKind::ValueType,
    ),
    (&[0x04, 0x02, 0x01, 0x7D], 11, ReadKind::ValueType),
    (
        &[0x01, 0x05, 0x01, 0x60, 0x01, 0x7D, 0x00],
        13,
        ReadKind::Float,
    ),
    (&[0x06, 0x02, 0x01, 0x7C], 11, ReadKind::Float),
    (&[0x06, 0x04, 0x01, 0x7F, 0x00, 0x43], 13, ReadKind::Float),
    (&[0x01, 0x04, 0x01, 0x60, 0x00, 0x02], 13, ReadKind::Results),
    (
        &[0x01, 0x07, 0x02, 0x60, 0x00, 0x00, 0x60, 0x00, 0x03],
        16,
        ReadKind::Results,
    ),
    (&[0x02, 0x04, 0x01, 0x00, 0x00, 0x04], 13, ReadKind::Kind),
    (&[0x07, 0x03, 0x01, 0x00, 0x04], 12, ReadKind::Kind),
    (&[0x05, 0x02, 0x01, 0x02], 11, ReadKind::Flag),
    (&[0x06, 0x03, 0x01, 0x7F, 0x02], 12, ReadKind::Flag),
    (&[0x06, 0x04, 0x01, 0x7F, 0x00, 0x7C], 13, ReadKind::Opcode),
    (
        &[0x06, 0x06, 0x01, 0x7F, 0x00, 0x41, 0x00, 0x01],
        15,
        ReadKind::Opcode,
    ),
    (&[0x03, 0x02, 0x01, 0x00], 12, ReadKind::Count),
];

/// Bodies, and the place and kind of their first fault.
const FAULTS_OF_BODIES: &[(&[u8], usize, ReadKind)] = &[
    (&[0x0A, 0x02, 0x01, 0x00], 12, ReadKind::Cut),
    (&[0x0A, 0x04, 0x01, 0x02, 0x00, 0x02], 14, ReadKind::Cut),
    (&[0x0A, 0x04, 0x01, 0x02, 0x00, 0x3F], 14, ReadKind::Cut),
    (
        &[0x0A, 0x05, 0x01, 0x03, 0x00, 0x20, 0x80],
        14,
        ReadKind::Cut,
    ),
    (
        &[
            0x0A, 0x0A, 0x01, 0x08, 0x00, 0x20, 0xFF, 0xFF, 0xFF, 0xFF, 0x1F, 0x0B,
        ],
        14,
        ReadKind::Leb,
    ),
    (
        &[
            0x0A, 0x0A, 0x01, 0x08, 0x00, 0x41, 0xFF, 0xFF, 0xFF, 0xFF, 0x0F, 0x0B,
        ],
        14,
        ReadKind::Leb,
    ),
    (&[0x0A, 0x04, 0x01, 0x02, 0x00, 0x06], 13, ReadKind::Opcode),
    (&[0x0A, 0x04, 0x01, 0x02, 0x00, 0x43], 13, ReadKind::Float),
    (
        &[0x0A, 0x05, 0x01, 0x03, 0x00, 0x02, 0x6F],
        14,
        ReadKind::ValueType,
    ),
    (
        &[0x0A, 0x05, 0x01, 0x03, 0x00, 0x02, 0x7D],
        14,
        ReadKind::Float,
    ),
    (
        &[0x0A, 0x06, 0x01, 0x04, 0x00, 0x11, 0x00, 0x01],
        15,
        ReadKind::Reserved,
    ),
    (
        &[0x0A, 0x05, 0x01, 0x03, 0x00, 0x3F, 0x01],
        14,
        ReadKind::Reserved,
    ),
    (&[0x0A, 0x03, 0x01, 0x01, 0x00], 13, ReadKind::Nesting),
    (
        &[0x0A, 0x05, 0x01, 0x03, 0x00, 0x02, 0x40],
        15,
        ReadKind::Nesting,
    ),
    (&[0x0A, 0x04, 0x01, 0x02, 0x00, 0x05], 13, ReadKind::Nesting),
    (
        &[0x0A, 0x07, 0x01, 0x05, 0x00, 0x02, 0x40, 0x05, 0x0B],
        15,
        ReadKind::Nesting,
    ),
    (
        &[
            0x0A, 0x09, 0x01, 0x07, 0x00, 0x04, 0x40, 0x05, 0x05, 0x0B, 0x0B,
        ],
        16,
        ReadKind::Nesting,
    ),
    (
        &[0x0A, 0x06, 0x01, 0x04, 0x01, 0x81, 0x20, 0x7D],
        13,
        ReadKind::Locals,
    ),
    (
        &[
            0x0A, 0x09, 0x01, 0x07, 0x02, 0x80, 0x20, 0x7F, 0x01, 0x7F, 0x0B,
        ],
        16,
        ReadKind::Locals,
    ),
    (
        &[0x0A, 0x06, 0x01, 0x04, 0x00, 0x0B, 0x00, 0x00],
        14,
        ReadKind::Size,
    ),
    (
        &[0x0A, 0x05, 0x01, 0x03, 0x00, 0x01, 0x0B],
        15,
        ReadKind::Count,
    ),
];

#[test]
fn faults_stand_at_the_first_part_that_cannot_be_read(rt: HostRuntime) -> Result<(), Fail> {
    let alloc = rt.alloc();
    for (bytes, kind) in FAULTS_OF_HEADERS {
        let fault = ReadStop::Fault { at: 0, kind };
        assert_eq!(rt; read(alloc, bytes).err(), Some(fault), "at {bytes:?}");
    }
    for table in [FAULTS_OF_SECTIONS, FAULTS_OF_BODIES] {
        for (rest, at, kind) in table {
            let bytes = behind_header(alloc, rest)?;
            let fault = ReadStop::Fault {
                at: *at,
                kind: *kind,
            };
            assert_eq!(rt; read(alloc, &bytes).err(), Some(fault), "at {rest:?}");
        }
    }
    Ok(())
}

#[test]
fn what_stopped_reading_is_told_in_plain_words(rt: HostRuntime) -> Result<(), Fail> {
    let fault = ReadStop::Fault {
        at: 13,
        kind: ReadKind::Float,
    };
    assert_eq!(rt;
        format!(in rt.alloc(); "{fault}")?.as_str(),
        "Float at byte 13"
    );
    let stop = ReadStop::NoMemory;
    assert_eq!(rt; format!(in rt.alloc(); "{stop}")?.as_str(), "out of memory");
    Ok(())
}
