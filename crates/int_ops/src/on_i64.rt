ghost use Rattle.std.specs.Prelude.{◌≡◌, ◌%◌, ◌≤◌, [], ◌∷◌, Some, Ok, IsTrue};
ghost use Rattle.int_ops.specs.Integers.{idiv_s, idiv_u, irem_s, irem_u, wrapped, iextend_s};
ghost use Rattle.int_ops.specs.Numerics.{test_of, operation_of, on_i64, num, is_one_i64, is_two_i64};

use crate::num::{Num, NumTrap, truth};

/// Whether the opcode is that of an instruction on one integer.
#[inline(always)]
pub(crate) fn takes_one(op: u8) -> bool
    ensures { result ≡ is_one_i64 op }
{
    matches!(op, 0x50 | 0x79..=0x7B | 0xA7 | 0xC2..=0xC4)
}

/// Whether the opcode is that of an instruction on two integers.
#[inline(always)]
pub(crate) fn takes_two(op: u8) -> bool
    ensures { result ≡ is_two_i64 op }
{
    matches!(op, 0x51..=0x5A | 0x7C..=0x8A)
}

/// The instruction on one integer.
#[inline(always)]
pub(crate) fn on_one(op: u8, a: u64) -> Num
    requires { IsTrue (is_one_i64 op) }
    ensures { on_i64 op a ≡ Some result }
{
    match op {
        0x50 => truth(a == 0),
        0x79 => Num::I64(u64::from(a.leading_zeros())),
        0x7A => Num::I64(u64::from(a.trailing_zeros())),
        0x7B => Num::I64(u64::from(a.count_ones())),
        0xA7 => Num::I32(wrap(a)),
        0xC2 => Num::I64(extend8_s(a)),
        0xC3 => Num::I64(extend16_s(a)),
        0xC4 => Num::I64(extend32_s(a)),
        _ => unreachable!(),
    }
}

/// The instruction on two integers.
#[inline(always)]
pub(crate) fn on_two(op: u8, a: u64, b: u64) -> Result<Num, NumTrap>
    requires { IsTrue (is_two_i64 op) }
    ensures { num op (Num.I64 a ∷ Num.I64 b ∷ []) ≡ Some result }
{
    if op <= 0x5A {
        return Ok(truth(test(op, a, b)));
    }
    match operate(op, a, b) {
        Ok(value) => Ok(Num::I64(value)),
        Err(trap) => Err(trap),
    }
}

/// The test of two integers.
#[inline(always)]
fn test(op: u8, a: u64, b: u64) -> bool
    requires low { 0x51 ≤ op }
    requires high { op ≤ 0x5A }
    ensures { test_of 64 0x51 op a b ≡ Some result }
{
    match op {
        0x51 => a == b,
        0x52 => a != b,
        0x53 => a.cast_signed() < b.cast_signed(),
        0x54 => a < b,
        0x55 => a.cast_signed() > b.cast_signed(),
        0x56 => a > b,
        0x57 => a.cast_signed() <= b.cast_signed(),
        0x58 => a <= b,
        0x59 => a.cast_signed() >= b.cast_signed(),
        0x5A => a >= b,
        _ => unreachable!(),
    }
}

/// The operation on two integers.
#[inline(always)]
fn operate(op: u8, a: u64, b: u64) -> Result<u64, NumTrap>
    requires low { 0x7C ≤ op }
    requires high { op ≤ 0x8A }
    ensures { operation_of 64 0x7C op a b ≡ Some result }
{
    match op {
        0x7C => Ok(a.wrapping_add(b)),
        0x7D => Ok(a.wrapping_sub(b)),
        0x7E => Ok(a.wrapping_mul(b)),
        0x7F => div_s(a, b),
        0x80 => div_u(a, b),
        0x81 => rem_s(a, b),
        0x82 => rem_u(a, b),
        0x83 => Ok(a & b),
        0x84 => Ok(a | b),
        0x85 => Ok(a ^ b),
        0x86 => Ok(a.wrapping_shl(count(b))),
        0x87 => Ok(a.cast_signed().wrapping_shr(count(b)).cast_unsigned()),
        0x88 => Ok(a.wrapping_shr(count(b))),
        0x89 => Ok(a.rotate_left(count(b))),
        0x8A => Ok(a.rotate_right(count(b))),
        _ => unreachable!(),
    }
}

fn div_s(a: u64, b: u64) -> Result<u64, NumTrap>
    ensures { result ≡ idiv_s 64 a b }
{
    if b == 0 {
        return Err(NumTrap::DivideByZero);
    }
    if a == 1 << 63 && b == u64::MAX {
        return Err(NumTrap::IntegerOverflow);
    }
    let quotient = a.cast_signed().wrapping_div(b.cast_signed());
    Ok(quotient.cast_unsigned())
}

fn div_u(a: u64, b: u64) -> Result<u64, NumTrap>
    ensures { result ≡ idiv_u 64 a b }
{
    if b == 0 {
        return Err(NumTrap::DivideByZero);
    }
    Ok(a / b)
}

fn rem_s(a: u64, b: u64) -> Result<u64, NumTrap>
    ensures { result ≡ irem_s 64 a b }
{
    if b == 0 {
        return Err(NumTrap::DivideByZero);
    }
    let remainder = a.cast_signed().wrapping_rem(b.cast_signed());
    Ok(remainder.cast_unsigned())
}

fn rem_u(a: u64, b: u64) -> Result<u64, NumTrap>
    ensures { result ≡ irem_u 64 a b }
{
    if b == 0 {
        return Err(NumTrap::DivideByZero);
    }
    Ok(a % b)
}

/// The number of places of a shift or a rotation.
fn count(b: u64) -> u32
    ensures { result ≡ b % 64 }
{
    (b % 64) as u32
}

fn wrap(a: u64) -> u32
    ensures { result ≡ wrapped 32 a }
{
    (a & 0xFFFF_FFFF) as u32
}

fn extend8_s(a: u64) -> u64
    ensures { result ≡ iextend_s 8 64 a }
{
    i64::from(((a & 0xFF) as u8).cast_signed()).cast_unsigned()
}

fn extend16_s(a: u64) -> u64
    ensures { result ≡ iextend_s 16 64 a }
{
    i64::from(((a & 0xFFFF) as u16).cast_signed()).cast_unsigned()
}

fn extend32_s(a: u64) -> u64
    ensures { result ≡ iextend_s 32 64 a }
{
    i64::from(((a & 0xFFFF_FFFF) as u32).cast_signed()).cast_unsigned()
}
