ghost use Rattle.std.specs.Prelude.{◌≡◌, IfOk};
ghost use Rattle.wasm_machine.specs.Machine.{phase_of};

use crate::contract::{ALLOCATE, GIVEN, Imported, machine, put, put_region};
use gas_meter::{Meter, Schedule};
use host_imports::{Given, exported_function, give, release};
use std::alloc::{AllocError, Global};
use std::process::Abort;
use std::test::Fail;
use wasm_machine::{Machine, Phase};
use wasm_types::{Instr, Value};

const DEBUG: Imported = ("debug", 1);

const ABORT: Imported = ("abort", 1);

const GET: Instr = Instr::Index { op: 0x20, index: 0 };

const CALL: Instr = Instr::Index { op: 0x10, index: 0 };

/// Calls the import with the only argument, up to three times, and gives the Region at 64.
const CALLING: [Instr; 5] = [GET, GET, GET, CALL, Instr::Const(Value::I32(GIVEN))];

/// The same without what it gives.
const RETURNING: [Instr; 4] = [GET, GET, GET, CALL];

/// What came of a Region that was given or taken back, as a text.
fn told(alloc: Global, given: &Given) -> Result<String, AllocError> {
    match given {
        Given::At(pointer) => format!(in alloc; "at {pointer}"),
        Given::Fault(fault) => format!(in alloc; "{fault}"),
        Given::OutOfGas => String::from_str(alloc, "out of gas"),
    }
}

/// Four bytes are given to a contract whose `allocate` gives a Region of these numbers.
fn expect_given(
    rt: &impl Abort,
    alloc: Global,
    numbers: [u32; 3],
    gas: u64,
    want: &str,
    used: u64,
) -> Result<(), Fail> {
    let mut machine = machine(alloc, DEBUG, &ALLOCATE, &[])?;
    put_region(&mut machine, GIVEN, numbers);
    let mut meter = Meter::new(gas);
    let given = give(
        alloc,
        &mut machine,
        b"text",
        &mut meter,
        &Schedule::standard(),
    )?;
    assert_eq!(rt; told(alloc, &given)?.as_str(), want);
    assert_eq!(rt; meter.used(), used, "{want}");
    if given == Given::At(GIVEN) {
        let bytes = machine.memory().read_region(alloc, GIVEN, 4)?;
        assert_eq!(rt; bytes.as_slice(), b"text".as_slice());
    }
    Ok(())
}

#[test]
fn bytes_are_given_where_allocate_says(rt: HostRuntime) -> Result<(), Fail> {
    let alloc = rt.alloc();
    for (numbers, gas, want, used) in [
        ([1_000, 4, 0], 1, "at 64", 1),
        ([1_000, 4, 0], 0, "out of gas", 0),
        ([524_284, 4, 3], 9, "at 64", 1),
        ([524_285, 4, 0], 9, "RegionBad End", 1),
        ([524_285, 3, 0], 9, "RegionBad End", 1),
        ([1_000, 3, 0], 9, "TooLong 4 3", 1),
        ([0, 4, 0], 9, "RegionBad Offset", 1),
        ([1_000, 4, 5], 9, "RegionBad Length", 1),
        ([1_000, 0xFFFF_FFFF, 0], 9, "RegionBad Range", 1),
    ] {
        expect_given(&rt, alloc, numbers, gas, want, used)?;
    }
    Ok(())
}

/// A machine of a contract that calls the import within both functions, with a Region of `hi` at 16.
fn calling(alloc: Global, imported: Imported) -> Result<Machine, AllocError>
    ensures { IfOk result (λ machine. phase_of machine ≡ Phase.Idle) }
{
    let mut machine = machine(alloc, imported, &CALLING, &RETURNING)?;
    put_region(&mut machine, 16, [1_000, 2, 2]);
    put(&mut machine, 1_000, b"hi");
    Ok(machine)
}

/// Both functions call the import, which comes to this for both.
fn expect_imported(
    rt: &impl Abort,
    alloc: Global,
    imported: Imported,
    gas: u64,
    want: &str,
    used: u64,
) -> Result<(), Fail> {
    let costs = Schedule::standard();
    let mut machine = calling(alloc, imported)?;
    let mut meter = Meter::new(gas);
    let given = give(alloc, &mut machine, &[7; 16], &mut meter, &costs)?;
    assert_eq!(rt; told(alloc, &given)?.as_str(), want, "{}", imported.0);
    assert_eq!(rt; meter.used(), used, "{}", imported.0);
    let mut machine = calling(alloc, imported)?;
    let mut meter = Meter::new(gas);
    let taken = release(alloc, &mut machine, 16, &mut meter, &costs)?;
    assert_eq!(rt; told(alloc, &taken)?.as_str(), want, "{}", imported.0);
    assert_eq!(rt; meter.used(), used, "{}", imported.0);
    Ok(())
}

/// All imports but `abort`.
const REFUSED: [Imported; 14] = [
    ("db_read", 0),
    ("db_write", 2),
    ("db_remove", 1),
    ("db_scan", 4),
    ("db_next", 0),
    ("addr_validate", 0),
    ("addr_canonicalize", 3),
    ("addr_humanize", 3),
    ("debug", 1),
    ("query_chain", 0),
    ("secp256k1_verify", 4),
    ("ed25519_verify", 4),
    ("ed25519_batch_verify", 4),
    ("secp256k1_recover_pubkey", 5),
];

#[test]
fn within_allocate_and_deallocate_no_import_but_abort_is_called(
    rt: HostRuntime,
) -> Result<(), Fail> {
    let alloc = rt.alloc();
    for imported in REFUSED {
        expect_imported(&rt, alloc, imported, 99, "ImportInAllocate", 13)?;
    }
    expect_imported(&rt, alloc, ABORT, 99, "Aborted hi", 13)?;
    expect_imported(&rt, alloc, DEBUG, 12, "out of gas", 12)
}

#[test]
fn a_region_is_taken_back_by_deallocate(rt: HostRuntime) -> Result<(), Fail> {
    let alloc = rt.alloc();
    let mut machine = machine(alloc, DEBUG, &ALLOCATE, &[Instr::Op(0x01)])?;
    assert_eq!(rt; exported_function(machine.module(), "allocate"), Some(1));
    assert_eq!(rt; exported_function(machine.module(), "deallocate"), Some(2));
    assert_eq!(rt; exported_function(machine.module(), "memory"), None);
    assert_eq!(rt; exported_function(machine.module(), "instantiate"), None);
    let mut meter = Meter::new(9);
    let given = release(alloc, &mut machine, 16, &mut meter, &Schedule::standard())?;
    assert_eq!(rt; given, Given::At(16));
    assert_eq!(rt; meter.used(), 1);
    Ok(())
}
