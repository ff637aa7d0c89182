mod bodies;
mod contracts;
mod faults;
mod rules;
mod uses;

use bodies::{BODIES, FRAME, UNREACHED};
use contracts::{Change, OF_COMMON, OF_ECHO};
use faults::SECTIONS;
use gatekeeper::{Decoding, GateStop, Modules, Served, check};
use rules::{EXPORTS, IMPORTS, SIZES};
use std::alloc::{AllocError, Global};
use std::process::Abort;
use std::test::Fail;
use uses::{contract_of, fetch_both};
use wasm_reader::read;
use wasm_types::{HEADER, ValidKind};
use wasm_valid::{ValidStop, valid};
use wasm_writer::{common, echo, sign, write};

fn words_of(alloc: Global, texts: &[&str]) -> Result<Vec<String>, AllocError> {
    let mut words = Vec::new(alloc);
    for text in texts {
        words.push(String::from_str(alloc, text)?)?;
    }
    Ok(words)
}

/// What the gate says of a code.
fn said(alloc: Global, code: Vec<u8>, caps: &[&str]) -> Result<String, AllocError> {
    let caps = words_of(alloc, caps)?;
    match check(alloc, code, &caps) {
        Ok(_) => String::from_str(alloc, "taken"),
        Err(GateStop::Refused(refusal)) => format!(in alloc; "{refusal:?}"),
        Err(GateStop::NoMemory) => Err(AllocError),
    }
}

fn behind_header(alloc: Global, rest: &[u8]) -> Result<Vec<u8>, AllocError> {
    let mut code = Vec::from_slice(alloc, &HEADER)?;
    code.extend_from_slice(rest)?;
    Ok(code)
}

/// Adds a section, whose length is written in three bytes.
fn put_section(code: &mut Vec<u8>, number: u8, content: &[u8]) -> Result<(), AllocError> {
    let len = content.len();
    let low = (len % 128) as u8 | 0x80;
    let middle = (len / 128 % 128) as u8 | 0x80;
    let high = (len / 16_384 % 128) as u8;
    code.extend_from_slice(&[number, low, middle, high])?;
    code.extend_from_slice(content)
}

fn expect_all(rt: &impl Abort, alloc: Global, table: &[(&str, &[u8], &str)]) -> Result<(), Fail> {
    for (what, sections, wanted) in table {
        let code = behind_header(alloc, sections)?;
        assert_eq!(rt; said(alloc, code, &[])?.as_str(), *wanted, "{what}");
    }
    Ok(())
}

#[test]
fn the_first_rule_that_sections_break(rt: HostRuntime) -> Result<(), Fail> {
    for table in [SECTIONS, IMPORTS, SIZES] {
        expect_all(&rt, rt.alloc(), table)?;
    }
    Ok(())
}

fn expect_bodies(
    rt: &impl Abort,
    alloc: Global,
    table: &[(&str, &[u8], &str)],
) -> Result<(), Fail> {
    for (what, body, wanted) in table {
        assert!(rt; body.len() < 128);
        let mut content = Vec::from_slice(alloc, &[1, body.len() as u8])?;
        content.extend_from_slice(body)?;
        let mut code = behind_header(alloc, FRAME)?;
        put_section(&mut code, 10, &content)?;
        assert_eq!(rt; said(alloc, code, &[])?.as_str(), *wanted, "{what}");
    }
    Ok(())
}

#[test]
fn the_first_fault_of_a_body(rt: HostRuntime) -> Result<(), Fail> {
    expect_bodies(&rt, rt.alloc(), BODIES)?;
    expect_bodies(&rt, rt.alloc(), UNREACHED)
}

/// What a row shows, the instructions that are repeated behind `unreachable`, how often, and what the
/// gate says. Function 1 takes 2,000 i32.
const CALLS: [(&str, &[u8], usize, &str); 4] = [
    (
        "no operands are left behind a branch",
        &[0x10, 0x01],
        2_000,
        "MemoryMissing",
    ),
    (
        "an i32 for each call",
        &[0x41, 0x00, 0x10, 0x01],
        1_000,
        "MemoryMissing",
    ),
    (
        "an i64 for a call",
        &[0x42, 0x00, 0x10, 0x01],
        1_000,
        "Invalid(Mismatch)",
    ),
    (
        "an i64 below an i32",
        &[0x42, 0x00, 0x41, 0x00, 0x10, 0x01],
        1,
        "Invalid(Mismatch)",
    ),
];

/// A code of a function that is `unreachable` and then so often calls, and one of many parameters.
fn calling(alloc: Global, calls: &[u8], count: usize) -> Result<Vec<u8>, AllocError> {
    let mut types = Vec::from_slice(alloc, &[0x02, 0x60, 0x00, 0x00, 0x60, 0xD0, 0x0F])?;
    for _ in 0..2_000 {
        types.push(0x7F)?;
    }
    types.push(0x00)?;
    let mut body = Vec::from_slice(alloc, &[0x00, 0x00])?;
    for _ in 0..count {
        body.extend_from_slice(calls)?;
    }
    body.push(0x0B)?;
    let len = body.len();
    let low = (len % 128) as u8 | 0x80;
    let high = (len / 128 % 128) as u8;
    let mut codes = Vec::from_slice(alloc, &[0x02, low, high])?;
    codes.extend_from_slice(&body)?;
    codes.extend_from_slice(&[0x02, 0x00, 0x0B])?;
    let mut code = behind_header(alloc, &[])?;
    put_section(&mut code, 1, &types)?;
    put_section(&mut code, 3, &[0x02, 0x00, 0x01])?;
    put_section(&mut code, 10, &codes)?;
    Ok(code)
}

#[test]
fn calls_behind_a_branch(rt: HostRuntime) -> Result<(), Fail> {
    let alloc = rt.alloc();
    for (what, calls, count, wanted) in CALLS {
        let code = calling(alloc, calls, count)?;
        assert_eq!(rt; said(alloc, code, &[])?.as_str(), wanted, "{what}");
    }
    Ok(())
}

/// Sections behind the header, and the body, the place and the kind of the first fault.
const PLACES: [(&[u8], Option<u32>, u32, ValidKind); 3] = [
    (
        &[
            0x01, 0x04, 0x01, 0x60, 0x00, 0x00, 0x02, 0x0D, 0x02, 0x01, 0x6D, 0x01, 0x66, 0x00,
            0x00, 0x01, 0x6D, 0x01, 0x67, 0x00, 0x01,
        ],
        None,
        1,
        ValidKind::TypeIndex,
    ),
    (
        &[
            0x01, 0x04, 0x01, 0x60, 0x00, 0x00, 0x03, 0x03, 0x02, 0x00, 0x00, 0x0A, 0x0A, 0x02,
            0x02, 0x00, 0x0B, 0x05, 0x00, 0x01, 0x01, 0x1A, 0x0B,
        ],
        Some(1),
        2,
        ValidKind::Underflow,
    ),
    // An if without else, at its end.
    (
        &[
            0x01, 0x04, 0x01, 0x60, 0x00, 0x00, 0x03, 0x02, 0x01, 0x00, 0x0A, 0x0C, 0x01, 0x0A,
            0x00, 0x41, 0x00, 0x04, 0x7F, 0x41, 0x00, 0x0B, 0x1A, 0x0B,
        ],
        Some(0),
        3,
        ValidKind::Underflow,
    ),
];

#[test]
fn the_place_of_a_fault(rt: HostRuntime) -> Result<(), Fail> {
    let alloc = rt.alloc();
    for (sections, func, instr, kind) in PLACES {
        let module = read(alloc, &behind_header(alloc, sections)?)?;
        let fault = ValidStop::Invalid { func, instr, kind };
        assert_eq!(rt; valid(alloc, &module), Err(fault), "{sections:?}");
    }
    let module = echo(alloc)?;
    assert_eq!(rt; valid(alloc, &module), Ok(()));
    Ok(())
}

/// The number of imports, the last one of them, and what the gate says. The others are `abort`.
const COUNTS: [(u8, &[u8], &str); 4] = [
    (100, b"\x03env\x05debug\x00\x00", "MemoryMissing"),
    (101, b"\x03env\x05debug\x00\x00", "ImportCount(101)"),
    (101, b"\x03env\x05debut\x00\x00", "ImportCount(101)"),
    (101, b"\x03env\x05debug\x02\x00\x00", "ImportKind(100)"),
];

#[test]
fn at_most_a_hundred_imports(rt: HostRuntime) -> Result<(), Fail> {
    let alloc = rt.alloc();
    for (count, last, wanted) in COUNTS {
        let mut imports = Vec::from_slice(alloc, &[count])?;
        for _ in 1..count {
            imports.extend_from_slice(b"\x03env\x05abort\x00\x00")?;
        }
        imports.extend_from_slice(last)?;
        let mut code = behind_header(alloc, &[0x01, 0x05, 0x01, 0x60, 0x01, 0x7F, 0x00])?;
        put_section(&mut code, 2, &imports)?;
        assert_eq!(rt;
            said(alloc, code, &[])?.as_str(),
            wanted,
            "{count} and {last:?}"
        );
    }
    Ok(())
}

#[test]
fn the_first_rule_on_exports(rt: HostRuntime) -> Result<(), Fail> {
    let alloc = rt.alloc();
    for (what, names, wanted) in EXPORTS {
        let mut exports = Vec::from_slice(alloc, &[names.len() as u8])?;
        for name in *names {
            exports.push(name.len() as u8)?;
            exports.extend_from_slice(name.as_bytes())?;
            exports.extend_from_slice(&[0x02, 0x00])?;
        }
        let mut code = behind_header(alloc, &[0x05, 0x03, 0x01, 0x00, 0x01])?;
        put_section(&mut code, 7, &exports)?;
        assert_eq!(rt; said(alloc, code, &[])?.as_str(), *wanted, "{what}");
    }
    Ok(())
}

/// The code with other bytes in the first place where these stand, if there is one.
fn changed(alloc: Global, code: &[u8], change: Change) -> Result<Option<Vec<u8>>, AllocError> {
    let (old, new) = change;
    for at in 0..code.len() {
        if let Some(rest) = code[at..].strip_prefix(old) {
            let mut other = Vec::from_slice(alloc, &code[..at])?;
            other.extend_from_slice(new)?;
            other.extend_from_slice(rest)?;
            return Ok(Some(other));
        }
    }
    Ok(None)
}

fn expect_changed(
    rt: &impl Abort,
    alloc: Global,
    sample: &[u8],
    table: &[(&str, &[Change], &[&str], &str)],
) -> Result<(), Fail> {
    for (what, changes, caps, wanted) in table {
        let mut code = Vec::from_slice(alloc, sample)?;
        for change in *changes {
            match changed(alloc, &code, *change)? {
                Some(other) => code = other,
                None => assert!(rt; false, "nothing is changed: {what}"),
            }
        }
        assert_eq!(rt; said(alloc, code, caps)?.as_str(), *wanted, "{what}");
    }
    Ok(())
}

#[test]
fn whole_contracts(rt: HostRuntime) -> Result<(), Fail> {
    let alloc = rt.alloc();
    expect_changed(&rt, alloc, &write(alloc, &echo(alloc)?)?, OF_ECHO)?;
    let mut code = write(alloc, &common(alloc)?)?;
    expect_changed(&rt, alloc, &code, OF_COMMON)?;
    code.extend_from_slice(b"\x00\x05\x04note")?;
    assert_eq!(rt; said(alloc, code, &[])?.as_str(), "taken");
    let code = write(alloc, &sign(alloc)?)?;
    assert_eq!(rt; said(alloc, code, &[])?.as_str(), "taken");
    Ok(())
}

/// Codes that are refused before a module is read from them, or when it can't be read.
const NO_MODULES: [(&[u8], &str); 5] = [
    (&[0x1F, 0x8B, 0x08], "Gzip"),
    (&[0x1F, 0x8B, 0x09], "Read { kind: Magic, at: 0 }"),
    (&[0x1F, 0x8B], "Read { kind: Magic, at: 0 }"),
    (&[], "Read { kind: Cut, at: 0 }"),
    (
        b"\x00asm\x01\x00\x00\x00\x03\x02\x01\x00",
        "Read { kind: Count, at: 12 }",
    ),
];

/// The code and a custom section of so many bytes behind its number and its length.
fn filled(alloc: Global, code: &[u8], len: usize) -> Result<Vec<u8>, AllocError> {
    let mut longer = Vec::from_slice(alloc, code)?;
    put_section(&mut longer, 0, &vec![in alloc; 0; len]?)?;
    Ok(longer)
}

#[test]
fn the_bytes_come_before_the_module(rt: HostRuntime) -> Result<(), Fail> {
    let alloc = rt.alloc();
    for (bytes, wanted) in NO_MODULES {
        let code = Vec::from_slice(alloc, bytes)?;
        assert_eq!(rt; said(alloc, code, &[])?.as_str(), wanted, "{bytes:?}");
    }
    let echo = write(alloc, &echo(alloc)?)?;
    assert_eq!(rt;
        said(alloc, filled(alloc, &echo, 818_904)?, &[])?.as_str(),
        "taken"
    );
    let longer = filled(alloc, &echo, 818_905)?;
    assert_eq!(rt; said(alloc, longer, &[])?.as_str(), "TooLarge(819201)");
    let longer = filled(alloc, &HEADER[1..], 900_000)?;
    assert_eq!(rt; said(alloc, longer, &[])?.as_str(), "TooLarge(900011)");
    let longer = filled(alloc, &[0x1F, 0x8B, 0x08], 900_000)?;
    assert_eq!(rt; said(alloc, longer, &[])?.as_str(), "Gzip");
    Ok(())
}

/// The SHA-256 of the code of `echo`.
const DIGEST: [u8; 32] = [
    0x6F, 0x0D, 0x71, 0xD4, 0x07, 0x4A, 0x88, 0x24, 0xEE, 0x18, 0x92, 0x0C, 0xEF, 0xED, 0xE8, 0xC2,
    0x22, 0xF8, 0x60, 0x18, 0x21, 0x87, 0x0E, 0xC3, 0xB9, 0x7B, 0x85, 0x80, 0x6B, 0x0D, 0x9D, 0x74,
];

#[test]
fn a_code_that_is_taken_is_decoded(rt: HostRuntime) -> Result<(), Fail> {
    let alloc = rt.alloc();
    let bytes = write(alloc, &echo(alloc)?)?;
    let code = contract_of(alloc, bytes.clone()?, &[])?;
    assert_eq!(rt; code.bytes(), bytes.as_slice());
    assert_eq!(rt; code.checksum(), DIGEST);
    let (module, served) = Decoding::new().fetch(alloc, &code)?;
    assert!(rt; *module == echo(alloc)?);
    assert_eq!(rt; served, Served::Decoded);
    let module = fetch_both(alloc, &mut Decoding::new(), &code, &code)?;
    assert!(rt; *module == echo(alloc)?);
    Ok(())
}
