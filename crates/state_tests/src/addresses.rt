mod uses;

use chain_addr::{AddrFault, AddrKind, classic, decode, encode, is_normal, predictable};
use sha2::{Digest, Sha256};
use std::test::Fail;

const ADDRESS: [u8; 20] = [
    0x00, 0x44, 0x32, 0x14, 0xc7, 0x42, 0x54, 0xb6, 0x35, 0xcf, 0x84, 0x65, 0x3a, 0x56, 0xd7, 0xc6,
    0x75, 0xbe, 0x77, 0xdf,
];

#[test]
fn an_address_is_written_in_bech32(rt: HostRuntime) -> Result<(), Fail> {
    let alloc = rt.alloc();
    assert_eq!(rt;
        encode(alloc, "abcdef", &ADDRESS)?.as_str(),
        "abcdef1qpzry9x8gf2tvdw0s3jn54khce6mua7lmqqqxw"
    );
    assert_eq!(rt; encode(alloc, "a", &[])?.as_str(), "a12uel5l");
    Ok(())
}

const TEXT: &str = "abcdef1qpzry9x8gf2tvdw0s3jn54khce6mua7lmqqqxw";

const UPPER: &str = "ABCDEF1QPZRY9X8GF2TVDW0S3JN54KHCE6MUA7LMQQQXW";

#[test]
fn an_address_is_read_in_either_case(rt: HostRuntime) -> Result<(), Fail> {
    let alloc = rt.alloc();
    assert_eq!(rt;
        decode(alloc, "abcdef", TEXT).ok().map(|bytes| bytes.len()),
        Some(20)
    );
    assert_eq!(rt;
        decode(alloc, "abcdef", UPPER)
            .ok()
            .map(|bytes| bytes.as_slice() == ADDRESS.as_slice()),
        Some(true)
    );
    assert!(rt; is_normal("abcdef", TEXT));
    assert!(rt; !is_normal("abcdef", UPPER));
    Ok(())
}

#[test]
fn a_text_that_is_no_address_is_refused_with_its_first_fault(rt: HostRuntime) -> Result<(), Fail> {
    let alloc = rt.alloc();
    for (text, kind, at) in [
        ("A12UEL5L", AddrKind::Length, 0),
        (
            "abcdef1qpzry9x8gf2tvdw0s3jn54khce6mua7lmqqqxq",
            AddrKind::Checksum,
            0,
        ),
        ("\x201nwldj5", AddrKind::Character, 0),
        ("pzry9x0s0muk", AddrKind::Separator, 0),
        ("1pzry9x0s0muk", AddrKind::Separator, 0),
        ("x1b4n0q5v", AddrKind::Character, 2),
        ("li1dgmt3", AddrKind::Separator, 0),
        ("A1G7SGD8", AddrKind::Checksum, 0),
        ("a12UEL5L", AddrKind::Mixed, 3),
        (
            "abcdef1qpzry9x8gf2tvdw0s3jn54khce6mua7lmqqqxw",
            AddrKind::Prefix,
            0,
        ),
    ] {
        assert_eq!(rt;
            decode(alloc, "a", text).err(),
            Some(AddrFault::Bad { kind, at }),
            "{text}"
        );
    }
    Ok(())
}

#[test]
fn addresses_of_contracts_are_digests(rt: HostRuntime) -> Result<(), Fail> {
    let alloc = rt.alloc();
    let mut message = Sha256::digest(b"module").to_vec(alloc)?;
    message.extend_from_slice(b"wasm\0\0\0\0\0\0\0\0\x01\0\0\0\0\0\0\0\x02")?;
    assert_eq!(rt; classic(1, 2), Sha256::digest(message.as_slice()));
    let mut message = Sha256::digest(b"module").to_vec(alloc)?;
    message.extend_from_slice(b"wasm\0\0\0\0\0\0\0\0\x20")?;
    message.extend_from_slice(&[0; 32])?;
    message.extend_from_slice(b"\0\0\0\0\0\0\0\x14")?;
    message.extend_from_slice(&ADDRESS)?;
    message.extend_from_slice(b"\0\0\0\0\0\0\0\x01\x01\0\0\0\0\0\0\0\0")?;
    assert_eq!(rt;
        predictable(&[0; 32], &ADDRESS, &[1])?,
        Sha256::digest(message.as_slice())
    );
    Ok(())
}
