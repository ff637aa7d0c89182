mod edges;
mod operations32;
mod operations64;
mod relations;
mod unary;

use edges::{EDGES32, EDGES64};
use int_ops::NumTrap::{DivideByZero, IntegerOverflow};
use int_ops::{Num, NumTrap, binary, is_binary, is_unary};
use operations32::OPERATIONS32;
use operations64::OPERATIONS64;
use relations::{TESTS32, TESTS64};
use std::process::Abort;
use unary::{OPCODES32, OPCODES64, OPERANDS32, OPERANDS64, UNARY32, UNARY64};

fn expect_binary(rt: &impl Abort, op: u8, a: Num, b: Num, want: Result<Num, NumTrap>) {
    assert!(rt; is_binary(op, a, b));
    assert_eq!(rt; binary(op, a, b), want, "{op:#x} of {a:?} and {b:?}");
}

fn expect_unary(rt: &impl Abort, op: u8, a: Num, want: Num) {
    assert!(rt; is_unary(op, a));
    assert_eq!(rt; int_ops::unary(op, a), want, "{op:#x} of {a:?}");
}

#[test]
fn instructions_on_two_integers_give_what_whole_numbers_give(rt: HostRuntime) {
    for (op, wanted) in (0x46..=0x4F).zip(&TESTS32) {
        for (a, row) in EDGES32.iter().zip(wanted) {
            for (b, want) in EDGES32.iter().zip(row) {
                let want = Ok(Num::I32(u32::from(*want)));
                expect_binary(&rt, op, Num::I32(*a), Num::I32(*b), want);
            }
        }
    }
    for (op, wanted) in (0x6A..=0x78).zip(&OPERATIONS32) {
        for (a, row) in EDGES32.iter().zip(wanted) {
            for (b, want) in EDGES32.iter().zip(row) {
                let want = (*want).map(|value| Num::I32(value));
                expect_binary(&rt, op, Num::I32(*a), Num::I32(*b), want);
            }
        }
    }
    for (op, wanted) in (0x51..=0x5A).zip(&TESTS64) {
        for (a, row) in EDGES64.iter().zip(wanted) {
            for (b, want) in EDGES64.iter().zip(row) {
                let want = Ok(Num::I32(u32::from(*want)));
                expect_binary(&rt, op, Num::I64(*a), Num::I64(*b), want);
            }
        }
    }
    for (op, wanted) in (0x7C..=0x8A).zip(&OPERATIONS64) {
        for (a, row) in EDGES64.iter().zip(wanted) {
            for (b, want) in EDGES64.iter().zip(row) {
                let want = (*want).map(|value| Num::I64(value));
                expect_binary(&rt, op, Num::I64(*a), Num::I64(*b), want);
            }
        }
    }
    let least = Num::I64(1 << 63);
    let minus_one = Num::I64(u64::MAX);
    expect_binary(&rt, 0x7F, least, minus_one, Err(IntegerOverflow));
    expect_binary(&rt, 0x81, least, minus_one, Ok(Num::I64(0)));
    expect_binary(&rt, 0x6E, Num::I32(1), Num::I32(0), Err(DivideByZero));
    expect_binary(&rt, 0x74, Num::I32(1), Num::I32(33), Ok(Num::I32(2)));
}

#[test]
fn instructions_on_one_integer_give_what_whole_numbers_give(rt: HostRuntime) {
    for (op, wanted) in OPCODES32.iter().zip(&UNARY32) {
        for (a, want) in OPERANDS32.iter().zip(wanted) {
            expect_unary(&rt, *op, Num::I32(*a), *want);
        }
    }
    for (op, wanted) in OPCODES64.iter().zip(&UNARY64) {
        for (a, want) in OPERANDS64.iter().zip(wanted) {
            expect_unary(&rt, *op, Num::I64(*a), *want);
        }
    }
}

#[test]
fn an_opcode_takes_operands_of_its_own_number_and_types(rt: HostRuntime) {
    let (narrow, wide) = (Num::I32(0), Num::I64(0));
    for (op, one_i32, one_i64, two_i32, two_i64) in [
        (0x44, false, false, false, false),
        (0x45, true, false, false, false),
        (0x46, false, false, true, false),
        (0x4F, false, false, true, false),
        (0x50, false, true, false, false),
        (0x51, false, false, false, true),
        (0x5A, false, false, false, true),
        (0x5B, false, false, false, false),
        (0x66, false, false, false, false),
        (0x67, true, false, false, false),
        (0x69, true, false, false, false),
        (0x6A, false, false, true, false),
        (0x78, false, false, true, false),
        (0x79, false, true, false, false),
        (0x7B, false, true, false, false),
        (0x7C, false, false, false, true),
        (0x8A, false, false, false, true),
        (0x8B, false, false, false, false),
        (0xA7, false, true, false, false),
        (0xAC, true, false, false, false),
        (0xAD, true, false, false, false),
        (0xC1, true, false, false, false),
        (0xC2, false, true, false, false),
        (0xC4, false, true, false, false),
        (0xC5, false, false, false, false),
    ] {
        assert_eq!(rt;
            (is_unary(op, narrow), is_unary(op, wide)),
            (one_i32, one_i64),
            "{op:#x}"
        );
        assert_eq!(rt; is_binary(op, narrow, narrow), two_i32, "{op:#x}");
        assert_eq!(rt; is_binary(op, wide, wide), two_i64, "{op:#x}");
        assert!(rt;
            !is_binary(op, narrow, wide) && !is_binary(op, wide, narrow),
            "{op:#x}"
        );
    }
}
