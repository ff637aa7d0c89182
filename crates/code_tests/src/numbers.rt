use std::test::Fail;
use wasm_types::{Leb, is_cut, read_s32, read_s64, read_u32};

#[test]
fn numbers_are_read_exactly(rt: HostRuntime) {
    let unsigned: [(&[u8], Result<(u32, usize), Leb>); 5] = [
        (&[0xE5, 0x8E, 0x26], Ok((624485, 3))),
        (&[0x80, 0x80, 0x80, 0x80, 0x00], Ok((0, 5))),
        (&[0xFF, 0xFF, 0xFF, 0xFF, 0x0F], Ok((4294967295, 5))),
        (&[0xFF, 0xFF, 0xFF, 0xFF, 0x1F], Err(Leb(0))),
        (&[0x80], Err(Leb(0))),
    ];
    for (bytes, read) in unsigned {
        assert_eq!(rt; read_u32(bytes, 0), read);
    }
    let signed: [(&[u8], Result<(i32, usize), Leb>); 3] = [
        (&[0x7F], Ok((-1, 1))),
        (&[0xFF, 0xFF, 0xFF, 0xFF, 0x7F], Ok((-1, 5))),
        (&[0xFF, 0xFF, 0xFF, 0xFF, 0x0F], Err(Leb(0))),
    ];
    for (bytes, read) in signed {
        assert_eq!(rt; read_s32(bytes, 0), read);
    }
    assert_eq!(rt; read_s64(&[0x2A, 0x7F], 1), Ok((-1, 2)));
    assert!(rt; is_cut(&[0x80, 0x80], 0, 32));
    assert!(rt; !is_cut(&[0xFF, 0xFF, 0xFF, 0xFF, 0xFF], 0, 32));
}

#[test]
fn a_missing_number_is_told_in_plain_words(rt: HostRuntime) -> Result<(), Fail> {
    assert_eq!(rt;
        format!(in rt.alloc(); "{}", Leb(12))?.as_str(),
        "no number at byte 12"
    );
    Ok(())
}
