use crate::contract::{
    Arg, Chain, GIVEN, Imported, NOWHERE, PAST, expect, expect_faults, new_chain,
};
use gas_meter::{Meter, Schedule};
use kv_layers::Order;
use std::alloc::Global;
use std::test::Fail;

const DB_READ: Imported = ("db_read", 0);

const DB_WRITE: Imported = ("db_write", 2);

const DB_REMOVE: Imported = ("db_remove", 1);

const DB_SCAN: Imported = ("db_scan", 4);

const DB_NEXT: Imported = ("db_next", 0);

const KEY: Arg = Arg::Bytes(b"key");

const VALUE: Arg = Arg::Bytes(b"value");

/// No bound.
const NONE: Arg = Arg::Number(0);

const ASCENDING: Arg = Arg::Number(1);

const DESCENDING: Arg = Arg::Number(2);

#[test]
fn keys_are_read_written_and_removed_for_their_cost(rt: HostRuntime) -> Result<(), Fail> {
    let alloc = rt.alloc();
    let mut chain = new_chain(alloc, false)?;
    expect(
        &rt,
        alloc,
        &mut chain,
        &[
            (DB_READ, &[KEY], 1_009, "0", 1_009, None),
            (DB_READ, &[KEY], 1_008, "out of gas", 1_008, None),
            (DB_WRITE, &[KEY, VALUE], 2_239, "out of gas", 2_239, None),
            (DB_READ, &[KEY], 9_999, "0", 1_009, None),
            (DB_WRITE, &[KEY, VALUE], 2_240, "nothing", 2_240, None),
            (DB_READ, &[KEY], 1_025, "64", 1_025, Some((GIVEN, b"value"))),
            (DB_READ, &[KEY], 1_024, "out of gas", 1_024, None),
            (DB_READ, &[KEY], 1_023, "out of gas", 1_023, None),
        ],
    )?;
    expect(
        &rt,
        alloc,
        &mut chain,
        &[
            (DB_REMOVE, &[KEY], 999, "out of gas", 999, None),
            (DB_READ, &[KEY], 9_999, "64", 1_025, Some((GIVEN, b"value"))),
            (DB_REMOVE, &[KEY], 1_000, "nothing", 1_000, None),
            (DB_READ, &[KEY], 9_999, "0", 1_009, None),
            (DB_REMOVE, &[KEY], 9_999, "nothing", 1_000, None),
            (
                DB_WRITE,
                &[Arg::Zeros(0), VALUE],
                9_999,
                "nothing",
                2_150,
                None,
            ),
            (
                DB_READ,
                &[Arg::Zeros(0)],
                9_999,
                "64",
                1_016,
                Some((GIVEN, b"value")),
            ),
        ],
    )
}

#[test]
fn keys_and_values_have_at_most_so_many_bytes(rt: HostRuntime) -> Result<(), Fail> {
    let alloc = rt.alloc();
    let mut chain = new_chain(alloc, false)?;
    expect(
        &rt,
        alloc,
        &mut chain,
        &[
            (DB_READ, &[Arg::Zeros(65_536)], 999_999, "0", 197_608, None),
            (
                DB_WRITE,
                &[Arg::Zeros(65_536), VALUE],
                9_999_999,
                "nothing",
                1_968_230,
                None,
            ),
            (
                DB_WRITE,
                &[KEY, Arg::Zeros(131_072)],
                9_999_999,
                "nothing",
                3_934_250,
                None,
            ),
            (
                DB_REMOVE,
                &[Arg::Zeros(65_536)],
                9_999,
                "nothing",
                1_000,
                None,
            ),
            (
                DB_SCAN,
                &[Arg::Zeros(65_536), Arg::Zeros(65_536), ASCENDING],
                999_999,
                "1",
                394_216,
                None,
            ),
        ],
    )?;
    expect(
        &rt,
        alloc,
        &mut chain,
        &[
            (
                DB_READ,
                &[Arg::Zeros(65_537)],
                9_999,
                "TooLong 65537 65536",
                0,
                None,
            ),
            (
                DB_WRITE,
                &[Arg::Zeros(65_537), Arg::Zeros(131_073)],
                9_999,
                "TooLong 65537 65536",
                0,
                None,
            ),
            (
                DB_WRITE,
                &[KEY, Arg::Zeros(131_073)],
                9_999,
                "TooLong 131073 131072",
                0,
                None,
            ),
            (
                DB_REMOVE,
                &[Arg::Zeros(65_537)],
                9_999,
                "TooLong 65537 65536",
                0,
                None,
            ),
            (
                DB_SCAN,
                &[Arg::Zeros(65_537), NONE, ASCENDING],
                9_999,
                "TooLong 65537 65536",
                0,
                None,
            ),
            (
                DB_SCAN,
                &[KEY, Arg::Zeros(65_537), ASCENDING],
                9_999,
                "TooLong 65537 65536",
                0,
                None,
            ),
        ],
    )
}

#[test]
fn each_fault_of_a_key_a_bound_or_a_value_costs_nothing(rt: HostRuntime) -> Result<(), Fail> {
    let alloc = rt.alloc();
    let mut chain = new_chain(alloc, false)?;
    expect_faults(
        &rt,
        alloc,
        &mut chain,
        &[
            (DB_READ, &[Arg::Bad], 0),
            (DB_WRITE, &[Arg::Bad, VALUE], 0),
            (DB_WRITE, &[KEY, Arg::Bad], 0),
            (DB_REMOVE, &[Arg::Bad], 0),
            (DB_SCAN, &[Arg::Bad, VALUE, ASCENDING], 0),
            (DB_SCAN, &[KEY, Arg::Bad, DESCENDING], 0),
        ],
    )
}

#[test]
fn of_two_faults_the_first_is_told(rt: HostRuntime) -> Result<(), Fail> {
    let alloc = rt.alloc();
    let mut chain = new_chain(alloc, false)?;
    expect(
        &rt,
        alloc,
        &mut chain,
        &[
            (DB_WRITE, &[NOWHERE, PAST], 0, "RegionBad Offset", 0, None),
            (
                DB_WRITE,
                &[NOWHERE, Arg::Zeros(0)],
                0,
                "RegionBad Offset",
                0,
                None,
            ),
            (DB_WRITE, &[KEY, Arg::Zeros(0)], 0, "EmptyValue", 0, None),
            (
                DB_WRITE,
                &[KEY, Arg::Region([0, 5, 0])],
                0,
                "RegionBad Offset",
                0,
                None,
            ),
            (
                DB_SCAN,
                &[NOWHERE, PAST, ASCENDING],
                0,
                "RegionBad Offset",
                0,
                None,
            ),
            (
                DB_SCAN,
                &[NOWHERE, PAST, Arg::Number(0)],
                0,
                "BadOrder",
                0,
                None,
            ),
            (
                DB_SCAN,
                &[NONE, NONE, Arg::Number(3)],
                0,
                "BadOrder",
                0,
                None,
            ),
            (DB_NEXT, &[Arg::Number(1)], 0, "NoSuchScan", 0, None),
            (DB_NEXT, &[Arg::Number(0)], 0, "NoSuchScan", 0, None),
        ],
    )
}

#[test]
fn a_query_is_refused_to_write_before_anything_is_read(rt: HostRuntime) -> Result<(), Fail> {
    let alloc = rt.alloc();
    let mut chain = new_chain(alloc, true)?;
    expect(
        &rt,
        alloc,
        &mut chain,
        &[
            (DB_WRITE, &[NOWHERE, NOWHERE], 0, "WriteInQuery", 0, None),
            (DB_WRITE, &[KEY, VALUE], 9_999, "WriteInQuery", 0, None),
            (DB_REMOVE, &[NOWHERE], 0, "WriteInQuery", 0, None),
            (DB_REMOVE, &[KEY], 9_999, "WriteInQuery", 0, None),
            (DB_READ, &[KEY], 9_999, "0", 1_009, None),
            (DB_SCAN, &[NONE, NONE, ASCENDING], 9_999, "1", 1_000, None),
        ],
    )
}

const A: Arg = Arg::Bytes(b"a");

const B: Arg = Arg::Bytes(b"b");

const FIRST: Arg = Arg::Number(1);

const SECOND: Arg = Arg::Number(2);

/// The key `a` and its value in sections.
const FOUND_A: &[u8] = b"a\0\0\0\x01value\0\0\0\x05";

/// Two empty sections, as at the end of a scan.
const END: &[u8] = b"\0\0\0\0\0\0\0\0";

#[test]
fn a_scan_gives_keys_and_values_in_sections(rt: HostRuntime) -> Result<(), Fail> {
    let alloc = rt.alloc();
    let mut chain = new_chain(alloc, false)?;
    expect(
        &rt,
        alloc,
        &mut chain,
        &[
            (DB_WRITE, &[A, VALUE], 9_999, "nothing", 2_180, None),
            (DB_WRITE, &[B, KEY], 9_999, "nothing", 2_120, None),
            (
                DB_SCAN,
                &[NONE, NONE, ASCENDING],
                999,
                "out of gas",
                999,
                None,
            ),
            (DB_SCAN, &[NONE, NONE, ASCENDING], 1_000, "1", 1_000, None),
            (
                DB_SCAN,
                &[A, B, DESCENDING],
                1_005,
                "out of gas",
                1_005,
                None,
            ),
            (DB_SCAN, &[A, B, DESCENDING], 1_006, "2", 1_006, None),
        ],
    )?;
    expect(
        &rt,
        alloc,
        &mut chain,
        &[
            (DB_NEXT, &[FIRST], 47, "out of gas", 47, None),
            (DB_NEXT, &[FIRST], 49, "64", 49, Some((GIVEN, FOUND_A))),
            (DB_NEXT, &[FIRST], 42, "out of gas", 42, None),
            (DB_NEXT, &[FIRST], 31, "64", 31, Some((GIVEN, END))),
            (DB_NEXT, &[SECOND], 49, "64", 49, Some((GIVEN, FOUND_A))),
            (DB_NEXT, &[SECOND], 29, "out of gas", 29, None),
            (DB_NEXT, &[SECOND], 31, "64", 31, Some((GIVEN, END))),
        ],
    )
}

/// Begins so many scans of these bounds.
fn start_scans(
    alloc: Global,
    chain: &mut Chain,
    bound: Option<&[u8]>,
    count: u32,
) -> Result<(), Fail> {
    let mut meter = Meter::new(u64::MAX);
    let costs = Schedule::standard();
    for _ in 0..count {
        let store = &mut chain.store;
        store.start_scan(alloc, bound, bound, Order::Ascending, &mut meter, &costs)?;
    }
    Ok(())
}

#[test]
fn a_call_has_at_most_65536_scans(rt: HostRuntime) -> Result<(), Fail> {
    let alloc = rt.alloc();
    let mut chain = new_chain(alloc, false)?;
    start_scans(alloc, &mut chain, None, 65_535)?;
    expect(
        &rt,
        alloc,
        &mut chain,
        &[
            (
                DB_SCAN,
                &[NONE, NONE, ASCENDING],
                9_999,
                "65536",
                1_000,
                None,
            ),
            (
                DB_SCAN,
                &[NONE, PAST, ASCENDING],
                0,
                "RegionBad Pointer",
                0,
                None,
            ),
            (
                DB_SCAN,
                &[NONE, NONE, ASCENDING],
                0,
                "TooManyScans",
                0,
                None,
            ),
        ],
    )
}

#[test]
fn the_bounds_of_a_calls_scans_have_at_most_16_mib(rt: HostRuntime) -> Result<(), Fail> {
    let alloc = rt.alloc();
    let mut chain = new_chain(alloc, false)?;
    let bound = vec![in alloc; 7; 65_536]?;
    start_scans(alloc, &mut chain, Some(bound.as_slice()), 127)?;
    start_scans(alloc, &mut chain, Some(&[7; 32_767]), 2)?;
    expect(
        &rt,
        alloc,
        &mut chain,
        &[
            (
                DB_SCAN,
                &[KEY, KEY, ASCENDING],
                9_999,
                "TooManyScans",
                0,
                None,
            ),
            (
                DB_SCAN,
                &[A, Arg::Bytes(b"cde"), ASCENDING],
                9_999,
                "130",
                1_012,
                None,
            ),
            (
                DB_SCAN,
                &[A, NONE, ASCENDING],
                9_999,
                "TooManyScans",
                0,
                None,
            ),
            (DB_SCAN, &[NONE, NONE, ASCENDING], 9_999, "131", 1_000, None),
        ],
    )
}
