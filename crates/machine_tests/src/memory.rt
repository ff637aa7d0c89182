use linear_memory::{Memory, OutOfBounds, RegionBad, RegionFault};
use std::alloc::Global;
use std::process::Abort;
use std::test::Fail;

fn expect_load(rt: &impl Abort, memory: &Memory, at: u64, width: u8, want: Option<u64>) {
    assert!(rt; width == 1 || width == 2 || width == 4 || width == 8);
    assert_eq!(rt; memory.load(at, width).ok(), want, "{width} at {at}");
}

fn expect_store(rt: &impl Abort, memory: &mut Memory, at: u64, width: u8, value: u64) {
    assert!(rt; width == 1 || width == 2 || width == 4 || width == 8);
    assert_eq!(rt; memory.store(at, width, value), Ok(()), "{width} to {at}");
}

fn expect_no_store(rt: &impl Abort, memory: &mut Memory, at: u64, width: u8) {
    assert!(rt; width == 1 || width == 2 || width == 4 || width == 8);
    assert_eq!(rt;
        memory.store(at, width, 0),
        Err(OutOfBounds),
        "{width} to {at}"
    );
}

fn expect_write(rt: &impl Abort, memory: &mut Memory, at: u64, bytes: &[u8], fits: bool) {
    assert_eq!(rt; memory.write(at, bytes).is_ok(), fits, "{bytes:?} to {at}");
}

fn expect_bytes(rt: &impl Abort, memory: &Memory, at: usize, want: &[u8]) {
    let bytes = memory.bytes();
    assert!(rt; at <= bytes.len());
    assert!(rt; bytes[at..].starts_with(want), "{want:?} at {at}");
}

/// Writes the offset, the capacity and the length of a Region at 1024.
fn put_region(rt: &impl Abort, memory: &mut Memory, numbers: (u64, u64, u64)) {
    expect_store(rt, memory, 1024, 4, numbers.0);
    expect_store(rt, memory, 1028, 4, numbers.1);
    expect_store(rt, memory, 1032, 4, numbers.2);
}

fn expect_read(rt: &impl Abort, alloc: Global, memory: &Memory, limit: u32, want: &[u8]) {
    match memory.read_region(alloc, 1024, limit) {
        Ok(bytes) => assert_eq!(rt; bytes.as_slice(), want),
        Err(_) => assert!(rt; false, "not read: {want:?}"),
    }
}

fn expect_unread(rt: &impl Abort, alloc: Global, memory: &Memory, limit: u32, want: RegionBad) {
    let fault = memory.read_region(alloc, 1024, limit).err();
    assert_eq!(rt; fault, Some(RegionFault::Bad(want)));
}

fn expect_put(rt: &impl Abort, memory: &mut Memory, bytes: &[u8], want: Result<(), RegionBad>) {
    assert!(rt; bytes.len() < 9);
    assert_eq!(rt; memory.write_region(1024, bytes), want, "{bytes:?}");
}

fn expect_growth(rt: &impl Abort, alloc: Global, memory: &mut Memory, by: u32, want: Option<u32>) {
    assert_eq!(rt; memory.grow(alloc, by), Ok(want), "by {by}");
}

#[test]
fn numbers_are_little_endian_and_lie_within_the_memory(rt: HostRuntime) -> Result<(), Fail> {
    let mut memory = Memory::new(rt.alloc(), 1)?;
    expect_store(&rt, &mut memory, 10, 8, 0x0102_0304_0506_0708);
    expect_bytes(&rt, &memory, 9, b"\0\x08\x07\x06\x05\x04\x03\x02\x01\0");
    for (at, width, want) in [
        (10, 1, 0x08),
        (10, 2, 0x0708),
        (11, 4, 0x0405_0607),
        (10, 8, 0x0102_0304_0506_0708),
    ] {
        expect_load(&rt, &memory, at, width, Some(want));
    }
    for (at, width, value) in [(20, 1, 0x1FF), (22, 2, 0x1_8001), (24, 4, 0x1_8000_0001)] {
        expect_store(&rt, &mut memory, at, width, value);
    }
    expect_bytes(&rt, &memory, 19, b"\0\xFF\0\x01\x80\x01\0\0\x80\0");
    // what passes the end is refused
    for width in [1, 2, 4, 8] {
        let last = 65_536 - u64::from(width);
        expect_load(&rt, &memory, last, width, Some(0));
        expect_store(&rt, &mut memory, last, width, 0);
        for at in [last + 1, 65_536, u64::MAX] {
            expect_load(&rt, &memory, at, width, None);
            expect_no_store(&rt, &mut memory, at, width);
        }
    }
    for (at, fits) in [
        (65_533, true),
        (65_534, false),
        (65_537, false),
        (u64::MAX, false),
    ] {
        expect_write(&rt, &mut memory, at, b"abc", fits);
    }
    expect_write(&rt, &mut memory, 65_536, b"", true);
    expect_write(&rt, &mut memory, 65_537, b"", false);
    expect_bytes(&rt, &memory, 65_533, b"abc");
    Ok(())
}

#[test]
fn a_memory_grows_by_zeros_up_to_512_pages(rt: HostRuntime) -> Result<(), Fail> {
    let alloc = rt.alloc();
    let mut memory = Memory::new(alloc, 0)?;
    expect_load(&rt, &memory, 0, 1, None);
    expect_growth(&rt, alloc, &mut memory, 1, Some(0));
    expect_store(&rt, &mut memory, 65_535, 1, 0x61);
    // pages asked for, the answer, the pages afterwards
    for (by, want, pages) in [
        (2, Some(1), 3),
        (0, Some(3), 3),
        (510, None, 3),
        (u32::MAX, None, 3),
        (509, Some(3), 512),
        (0, Some(512), 512),
        (1, None, 512),
    ] {
        expect_growth(&rt, alloc, &mut memory, by, want);
        assert_eq!(rt; memory.pages(), pages, "by {by}");
    }
    expect_load(&rt, &memory, 65_535, 2, Some(0x61));
    expect_load(&rt, &memory, 512 * 65_536 - 8, 8, Some(0));
    Ok(())
}

#[test]
fn a_region_is_read_and_written_or_its_first_fault_is_told(rt: HostRuntime) -> Result<(), Fail> {
    let alloc = rt.alloc();
    let mut memory = Memory::new(alloc, 1)?;
    put_region(&rt, &mut memory, (2048, 5, 0));
    expect_read(&rt, alloc, &memory, 9, b"");
    expect_put(&rt, &mut memory, b"hello", Ok(()));
    expect_read(&rt, alloc, &memory, 9, b"hello");
    let too_long = RegionBad::TooLong {
        length: 6,
        limit: 5,
    };
    expect_put(&rt, &mut memory, b"hello!", Err(too_long));
    expect_read(&rt, alloc, &memory, 5, b"hello");
    // the bytes come first and then the length, where they are the same bytes
    put_region(&rt, &mut memory, (1030, 8, 0));
    expect_put(&rt, &mut memory, b"abcdefgh", Ok(()));
    expect_bytes(&rt, &memory, 1030, b"ab\x08\0\0\0gh");
    // the numbers of the Region, and why it is not read with a limit of 9
    for (numbers, want) in [
        ((0, 0, 1), RegionBad::Offset),
        ((0xFFFF_FFFF, 1, 2), RegionBad::Length),
        ((0xFFFF_FFFF, 1, 1), RegionBad::Range),
        ((0xFFFF_FFFE, 1, 1), RegionBad::End),
        ((65_527, 10, 10), RegionBad::End),
        ((65_537, 0, 0), RegionBad::End),
        (
            (65_526, 10, 10),
            RegionBad::TooLong {
                length: 10,
                limit: 9,
            },
        ),
    ] {
        put_region(&rt, &mut memory, numbers);
        expect_unread(&rt, alloc, &memory, 9, want);
    }
    // the numbers of the Region, and why two bytes are not written to it
    for (numbers, want) in [
        ((0, 0, 1), RegionBad::Offset),
        ((0xFFFF_FFFF, 1, 2), RegionBad::Length),
        ((0xFFFF_FFFF, 1, 1), RegionBad::Range),
        ((65_535, 1, 0), RegionBad::End),
        (
            (65_534, 1, 0),
            RegionBad::TooLong {
                length: 2,
                limit: 1,
            },
        ),
    ] {
        put_region(&rt, &mut memory, numbers);
        expect_put(&rt, &mut memory, b"ab", Err(want));
    }
    let fault = memory.read_region(alloc, 65_525, 9).err();
    assert_eq!(rt; fault, Some(RegionFault::Bad(RegionBad::Pointer)));
    assert_eq!(rt; memory.write_region(u32::MAX, b""), Err(RegionBad::Pointer));
    Ok(())
}
