use crate::contract::{Arg, GIVEN, Imported, NOWHERE, PAST, expect, expect_faults, new_chain};
use std::test::Fail;

const ADDR_VALIDATE: Imported = ("addr_validate", 0);

const ADDR_CANONICALIZE: Imported = ("addr_canonicalize", 3);

const ADDR_HUMANIZE: Imported = ("addr_humanize", 3);

const DEBUG: Imported = ("debug", 1);

const QUERY_CHAIN: Imported = ("query_chain", 0);

const ABORT: Imported = ("abort", 1);

const TEXT_BYTES: &[u8] = b"abcdef1qpzry9x8gf2tvdw0s3jn54khce6mua7lmqqqxw";

const TEXT: Arg = Arg::Bytes(TEXT_BYTES);

const UPPER: Arg = Arg::Bytes(b"ABCDEF1QPZRY9X8GF2TVDW0S3JN54KHCE6MUA7LMQQQXW");

const ADDRESS_BYTES: &[u8] = &[
    0x00, 0x44, 0x32, 0x14, 0xC7, 0x42, 0x54, 0xB6, 0x35, 0xCF, 0x84, 0x65, 0x3A, 0x56, 0xD7, 0xC6,
    0x75, 0xBE, 0x77, 0xDF,
];

const ADDRESS: Arg = Arg::Bytes(ADDRESS_BYTES);

const NO_TEXT: Arg = Arg::Bytes(b"\xFF");

const NO_ADDRESS: Arg = Arg::Bytes(b"abcdef1q");

/// The text of 64 bytes 0.
const LONG_TEXT: &[u8] =
    b"abcdef1qqqqqqqqqqqqqqqqqqqqqqqqqqqqqqqqqqqqqqqqqqqqqqqqqqqqqqqqqqqqqqqqqqqqqqqqqqqqqqqqqqqqqqqqqqqqqqqqqqqqqqqlnsqky";

#[test]
fn the_text_of_an_address_is_valid_in_lower_case(rt: HostRuntime) -> Result<(), Fail> {
    let alloc = rt.alloc();
    let mut chain = new_chain(alloc, false)?;
    expect(
        &rt,
        alloc,
        &mut chain,
        &[
            (ADDR_VALIDATE, &[TEXT], 500, "0", 500, None),
            (ADDR_VALIDATE, &[TEXT], 499, "out of gas", 499, None),
            (
                ADDR_VALIDATE,
                &[UPPER],
                501,
                "64",
                501,
                Some((GIVEN, b"not normalized")),
            ),
            (ADDR_VALIDATE, &[UPPER], 500, "out of gas", 500, None),
            (
                ADDR_VALIDATE,
                &[NO_TEXT],
                501,
                "64",
                501,
                Some((GIVEN, b"not utf8")),
            ),
            (
                ADDR_VALIDATE,
                &[NO_ADDRESS],
                501,
                "64",
                501,
                Some((GIVEN, b"bad address")),
            ),
            (
                ADDR_VALIDATE,
                &[Arg::Zeros(256)],
                501,
                "64",
                501,
                Some((GIVEN, b"bad address")),
            ),
            (
                ADDR_VALIDATE,
                &[Arg::Zeros(257)],
                0,
                "TooLong 257 256",
                0,
                None,
            ),
        ],
    )
}

#[test]
fn a_text_is_turned_into_an_address_in_the_second_region(rt: HostRuntime) -> Result<(), Fail> {
    let alloc = rt.alloc();
    let mut chain = new_chain(alloc, false)?;
    expect(
        &rt,
        alloc,
        &mut chain,
        &[
            (
                ADDR_CANONICALIZE,
                &[TEXT, Arg::Room(20)],
                500,
                "0",
                500,
                Some((32, ADDRESS_BYTES)),
            ),
            (
                ADDR_CANONICALIZE,
                &[UPPER, Arg::Room(20)],
                500,
                "0",
                500,
                Some((32, ADDRESS_BYTES)),
            ),
            (
                ADDR_CANONICALIZE,
                &[TEXT, Arg::Room(20)],
                499,
                "out of gas",
                499,
                None,
            ),
            (
                ADDR_CANONICALIZE,
                &[TEXT, Arg::Room(19)],
                999,
                "TooLong 20 19",
                500,
                None,
            ),
            (
                ADDR_CANONICALIZE,
                &[Arg::Zeros(257), Arg::Room(20)],
                0,
                "TooLong 257 256",
                0,
                None,
            ),
            (
                ADDR_CANONICALIZE,
                &[NO_TEXT, PAST],
                501,
                "64",
                501,
                Some((GIVEN, b"not utf8")),
            ),
            (
                ADDR_CANONICALIZE,
                &[NO_ADDRESS, PAST],
                501,
                "64",
                501,
                Some((GIVEN, b"bad address")),
            ),
        ],
    )
}

#[test]
fn an_address_is_turned_into_its_text_in_the_second_region(rt: HostRuntime) -> Result<(), Fail> {
    let alloc = rt.alloc();
    let mut chain = new_chain(alloc, false)?;
    expect(
        &rt,
        alloc,
        &mut chain,
        &[
            (
                ADDR_HUMANIZE,
                &[ADDRESS, Arg::Room(45)],
                500,
                "0",
                500,
                Some((32, TEXT_BYTES)),
            ),
            (
                ADDR_HUMANIZE,
                &[ADDRESS, Arg::Room(45)],
                499,
                "out of gas",
                499,
                None,
            ),
            (
                ADDR_HUMANIZE,
                &[ADDRESS, Arg::Room(44)],
                999,
                "TooLong 45 44",
                500,
                None,
            ),
            (
                ADDR_HUMANIZE,
                &[Arg::Zeros(64), Arg::Room(116)],
                999,
                "0",
                500,
                Some((32, LONG_TEXT)),
            ),
            (
                ADDR_HUMANIZE,
                &[Arg::Zeros(65), Arg::Room(116)],
                0,
                "TooLong 65 64",
                0,
                None,
            ),
            (
                ADDR_HUMANIZE,
                &[Arg::Zeros(0), PAST],
                501,
                "64",
                501,
                Some((GIVEN, b"bad length")),
            ),
            (
                ADDR_HUMANIZE,
                &[Arg::Zeros(0), PAST],
                500,
                "out of gas",
                500,
                None,
            ),
        ],
    )
}

#[test]
fn texts_have_at_most_65536_bytes(rt: HostRuntime) -> Result<(), Fail> {
    let alloc = rt.alloc();
    let mut chain = new_chain(alloc, false)?;
    expect(
        &rt,
        alloc,
        &mut chain,
        &[
            (DEBUG, &[Arg::Bytes(b"hi")], 12, "nothing", 12, None),
            (DEBUG, &[Arg::Bytes(b"hi")], 11, "out of gas", 11, None),
            (
                DEBUG,
                &[Arg::Zeros(65_536)],
                99_999,
                "nothing",
                65_546,
                None,
            ),
            (
                DEBUG,
                &[Arg::Zeros(65_537)],
                99_999,
                "TooLong 65537 65536",
                0,
                None,
            ),
            (
                QUERY_CHAIN,
                &[Arg::Bytes(b"hi")],
                0,
                "query of 2 bytes",
                0,
                None,
            ),
            (
                QUERY_CHAIN,
                &[Arg::Zeros(65_536)],
                0,
                "query of 65536 bytes",
                0,
                None,
            ),
            (
                QUERY_CHAIN,
                &[Arg::Zeros(65_537)],
                0,
                "TooLong 65537 65536",
                0,
                None,
            ),
            (
                ABORT,
                &[Arg::Zeros(65_537)],
                0,
                "TooLong 65537 65536",
                0,
                None,
            ),
        ],
    )
}

/// A text with bytes that can't be printed.
const UNSEEN: Arg = Arg::Bytes(b"\x1F ~\x7F\xC3\xA9\n");

#[test]
fn a_contract_gives_up_with_a_text_of_printable_characters(rt: HostRuntime) -> Result<(), Fail> {
    let alloc = rt.alloc();
    let mut chain = new_chain(alloc, true)?;
    expect(
        &rt,
        alloc,
        &mut chain,
        &[
            (
                ABORT,
                &[Arg::Bytes(b"no, no")],
                0,
                "Aborted no, no",
                0,
                None,
            ),
            (ABORT, &[Arg::Zeros(0)], 0, "Aborted ", 0, None),
            (ABORT, &[UNSEEN], 0, "Aborted ? ~????", 0, None),
            (ABORT, &[Arg::Zeros(3)], 0, "Aborted ???", 0, None),
        ],
    )
}

#[test]
fn each_fault_of_a_text_costs_nothing_and_of_a_target_what_the_import_costs(
    rt: HostRuntime,
) -> Result<(), Fail> {
    let alloc = rt.alloc();
    let mut chain = new_chain(alloc, false)?;
    expect_faults(
        &rt,
        alloc,
        &mut chain,
        &[
            (ADDR_VALIDATE, &[Arg::Bad], 0),
            (ADDR_CANONICALIZE, &[Arg::Bad, NOWHERE], 0),
            (ADDR_HUMANIZE, &[Arg::Bad, NOWHERE], 0),
            (DEBUG, &[Arg::Bad], 0),
            (QUERY_CHAIN, &[Arg::Bad], 0),
            (ABORT, &[Arg::Bad], 0),
            (ADDR_CANONICALIZE, &[TEXT, Arg::Bad], 500),
            (ADDR_HUMANIZE, &[ADDRESS, Arg::Bad], 500),
        ],
    )?;
    expect(
        &rt,
        alloc,
        &mut chain,
        &[
            (
                ADDR_CANONICALIZE,
                &[TEXT, PAST],
                499,
                "out of gas",
                499,
                None,
            ),
            (
                ADDR_HUMANIZE,
                &[ADDRESS, PAST],
                499,
                "out of gas",
                499,
                None,
            ),
        ],
    )
}

const SIGNED: &[Arg] = &[NOWHERE, PAST, TEXT];

#[test]
fn no_import_looks_at_signatures(rt: HostRuntime) -> Result<(), Fail> {
    let alloc = rt.alloc();
    let mut chain = new_chain(alloc, true)?;
    expect(
        &rt,
        alloc,
        &mut chain,
        &[
            (
                ("secp256k1_verify", 4),
                SIGNED,
                0,
                "SignatureOutOfScope",
                0,
                None,
            ),
            (
                ("ed25519_verify", 4),
                SIGNED,
                0,
                "SignatureOutOfScope",
                0,
                None,
            ),
            (
                ("ed25519_batch_verify", 4),
                SIGNED,
                0,
                "SignatureOutOfScope",
                0,
                None,
            ),
            (
                ("secp256k1_recover_pubkey", 5),
                SIGNED,
                0,
                "SignatureOutOfScope",
                0,
                None,
            ),
        ],
    )
}
