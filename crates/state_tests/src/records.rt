mod uses;

use chain_records::{
    CodeInfo, Contract, Counters, Facts, Key, RecordFault, Stored, key_bytes, key_of, stored_bytes,
    stored_of,
};
use std::alloc::{AllocError, Global};
use std::test::Fail;

fn keys(alloc: Global) -> Result<Vec<(Key, Vec<u8>)>, AllocError> {
    Ok(vec![in alloc;
        (Key::Facts, Vec::from_slice(alloc, b"\0")?),
        (Key::Counters, Vec::from_slice(alloc, b"\x07")?),
        (
            Key::Balance {
                addr: Vec::from_slice(alloc, b"ab")?,
                denom: String::from_str(alloc, "utok")?,
            },
            Vec::from_slice(alloc, b"\x01\x02abutok")?,
        ),
        (
            Key::Supply(String::from_str(alloc, "utok")?),
            Vec::from_slice(alloc, b"\x08utok")?,
        ),
        (
            Key::Code(1),
            Vec::from_slice(alloc, b"\x02\0\0\0\0\0\0\0\x01")?,
        ),
        (
            Key::CodeInfo(258),
            Vec::from_slice(alloc, b"\x03\0\0\0\0\0\0\x01\x02")?,
        ),
        (
            Key::Pin(u64::MAX),
            Vec::from_slice(alloc, b"\x06\xff\xff\xff\xff\xff\xff\xff\xff")?,
        ),
        (
            Key::Contract(Vec::from_slice(alloc, b"ab")?),
            Vec::from_slice(alloc, b"\x04ab")?,
        ),
        (
            Key::Storage {
                addr: Vec::from_slice(alloc, b"ab")?,
                key: Vec::new(alloc),
            },
            Vec::from_slice(alloc, b"\x05\x02ab")?,
        ),
    ]?)
}

/// The bytes of a key whose address is short.
fn bytes_of(alloc: Global, key: &Key) -> Result<Vec<u8>, AllocError> {
    match key {
        Key::Balance { addr, .. } | Key::Storage { addr, .. } if addr.len() > 255 => {
            Ok(Vec::new(alloc))
        }
        _ => key_bytes(alloc, key),
    }
}

#[test]
fn keys_are_written_and_read_again(rt: HostRuntime) -> Result<(), Fail> {
    let alloc = rt.alloc();
    for (key, bytes) in &keys(alloc)? {
        assert_eq!(rt; bytes_of(alloc, key)?, *bytes);
        assert_eq!(rt; key_of(alloc, bytes).ok().as_ref(), Some(key));
    }
    Ok(())
}

#[test]
fn bytes_of_no_key_are_refused(rt: HostRuntime) -> Result<(), Fail> {
    for bytes in [
        b"".as_slice(),
        b"\x0f",
        b"\x09",
        b"\0\0",
        b"\x01",
        b"\x01\x03ab",
        b"\x01\x02ab\xff",
        b"\x02\0\0\0\0\0\0\x01",
        b"\x03\0\0\0\0\0\0\0\0\x01",
        b"\x05\x01",
        b"\x06",
        b"\x07\x07",
        b"\x08\xc3",
    ] {
        assert_eq!(rt;
            key_of(rt.alloc(), bytes).err(),
            Some(RecordFault::Bad(bytes.len()))
        );
    }
    Ok(())
}

const FACTS: &[u8] = b"\0\0\0\0\0\0\0\x03t-1\0\0\0\0\0\0\0\x06abcdef\
    \x01\0\0\0\0\0\0\0\x02AB\0\0\0\0\0\0\0\x02\0\0\0\0\0\0\0\x01a\0\0\0\0\0\0\0\0\
    \0\0\0\0\0\x0f\x42\x40\0\0\0\0\0\0\0\x02\0\0\0\0\0\0\0\x03";

const CODE_INFO: &[u8] = b"\0\0\0\0\0\0\0\x01A\
    \x07\x07\x07\x07\x07\x07\x07\x07\x07\x07\x07\x07\x07\x07\x07\x07\
    \x07\x07\x07\x07\x07\x07\x07\x07\x07\x07\x07\x07\x07\x07\x07\x07\
    \x01\0\0\0\0\0\0\0\x01\0\0\0\0\0\0\0\x02BC";

const CONTRACT: &[u8] = b"\0\0\0\0\0\0\0\x09\0\0\0\0\0\0\0\x01A\0\0\0\0\0\0\0\0\x01l";

const COUNTERS: Counters = Counters {
    next_code: 1,
    next_instance: 2,
};

const TEN: &[u8] = b"\0\0\0\0\0\0\0\0\0\0\0\0\0\0\0\x0a";

const LARGE: &[u8] = b"\xff\xff\xff\xff\xff\xff\xff\xff\xff\xff\xff\xff\xff\xff\xff\0";

fn bytes(alloc: Global, text: &str) -> Result<Vec<u8>, AllocError> {
    Vec::from_slice(alloc, text.as_bytes())
}

fn facts(alloc: Global) -> Result<Facts, AllocError> {
    Ok(Facts {
        chain_id: String::from_str(alloc, "t-1")?,
        prefix: String::from_str(alloc, "abcdef")?,
        authority: Some(bytes(alloc, "AB")?),
        caps: vec![in alloc; String::from_str(alloc, "a")?, String::new(alloc)]?,
        query_gas: 1_000_000,
        height: 2,
        time: 3,
    })
}

/// Records that are made of parts.
fn records_of_parts(alloc: Global) -> Result<Vec<(Key, Stored, Vec<u8>)>, AllocError> {
    let allow = vec![in alloc; bytes(alloc, "BC")?]?;
    let info = CodeInfo {
        creator: bytes(alloc, "A")?,
        checksum: [7; 32],
        allow: Some(allow),
    };
    let contract = Contract {
        code_id: 9,
        creator: bytes(alloc, "A")?,
        admin: None,
        label: String::from_str(alloc, "l")?,
    };
    Ok(vec![in alloc;
        (
            Key::Facts,
            Stored::Facts(facts(alloc)?),
            Vec::from_slice(alloc, FACTS)?
        ),
        (
            Key::Counters,
            Stored::Counters(COUNTERS),
            Vec::from_slice(alloc, b"\0\0\0\0\0\0\0\x01\0\0\0\0\0\0\0\x02")?
        ),
        (
            Key::CodeInfo(1),
            Stored::CodeInfo(info),
            Vec::from_slice(alloc, CODE_INFO)?
        ),
        (
            Key::Contract(bytes(alloc, "A")?),
            Stored::Contract(contract),
            Vec::from_slice(alloc, CONTRACT)?
        ),
    ]?)
}

fn plain_records(alloc: Global) -> Result<Vec<(Key, Stored, Vec<u8>)>, AllocError> {
    let denom = String::from_str(alloc, "utok")?;
    let balance = Key::Balance {
        addr: bytes(alloc, "A")?,
        denom: String::from_str(alloc, "utok")?,
    };
    let storage = Key::Storage {
        addr: bytes(alloc, "A")?,
        key: Vec::new(alloc),
    };
    Ok(vec![in alloc;
        (
            Key::Supply(denom),
            Stored::Amount(10),
            Vec::from_slice(alloc, TEN)?
        ),
        (
            balance,
            Stored::Amount(u128::MAX - 255),
            Vec::from_slice(alloc, LARGE)?
        ),
        (
            Key::Code(1),
            Stored::CodeBytes(bytes(alloc, "code")?),
            bytes(alloc, "code")?
        ),
        (Key::Pin(1), Stored::Mark, bytes(alloc, "\x01")?),
        (
            storage,
            Stored::Value(bytes(alloc, "v")?),
            bytes(alloc, "v")?
        ),
    ]?)
}

#[test]
fn records_are_written_and_read_again(rt: HostRuntime) -> Result<(), Fail> {
    let alloc = rt.alloc();
    for records in [records_of_parts(alloc)?, plain_records(alloc)?] {
        for (key, stored, bytes) in &records {
            assert_eq!(rt; stored_bytes(alloc, stored)?, *bytes);
            assert_eq!(rt; stored_of(alloc, key, bytes).ok().as_ref(), Some(stored));
        }
    }
    Ok(())
}

#[test]
fn bytes_of_no_record_are_refused(rt: HostRuntime) -> Result<(), Fail> {
    let alloc = rt.alloc();
    let code = CODE_INFO.len();
    for (key, bytes) in [
        (Key::Facts, &FACTS[1..]),
        (Key::Facts, &FACTS[..FACTS.len() - 1]),
        (
            Key::Counters,
            b"\0\0\0\0\0\0\0\x01\0\0\0\0\0\0\0".as_slice(),
        ),
        (Key::Counters, b"\0\0\0\0\0\0\0\x01\0\0\0\0\0\0\0\x02\0"),
        (
            Key::Supply(String::new(alloc)),
            b"\0\0\0\0\0\0\0\0\0\0\0\0\0\0\0",
        ),
        (Key::CodeInfo(1), &CODE_INFO[..code - 1]),
        (Key::CodeInfo(1), FACTS),
        (Key::Pin(1), b""),
        (Key::Pin(1), b"\0"),
        (Key::Pin(1), b"\x01\x01"),
        (
            Key::Contract(Vec::new(alloc)),
            b"\0\0\0\0\0\0\0\x09\0\0\0\0\0\0\0\0\x02",
        ),
        (
            Key::Contract(Vec::new(alloc)),
            b"\0\0\0\0\0\0\0\x09\0\0\0\0\0\0\0\0\0\0\0\0\0\0\0\0\x01\xff",
        ),
    ] {
        assert_eq!(rt;
            stored_of(alloc, &key, bytes).err(),
            Some(RecordFault::Bad(bytes.len()))
        );
    }
    Ok(())
}
