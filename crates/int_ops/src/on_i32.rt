ghost use Rattle.std.specs.Prelude.{◌≡◌, ◌≤◌, [], ◌∷◌, Some, Ok, IsTrue};
ghost use Rattle.int_ops.specs.Integers.{idiv_s, idiv_u, irem_s, irem_u, extended_s, iextend_s};
ghost use Rattle.int_ops.specs.Numerics.{test_of, operation_of, on_i32, num, is_one_i32, is_two_i32};

use crate::num::{Num, NumTrap, truth};

/// Whether the opcode is that of an instruction on one integer.
#[inline(always)]
pub(crate) fn takes_one(op: u8) -> bool
    ensures { result ≡ is_one_i32 op }
{
    matches!(op, 0x45 | 0x67..=0x69 | 0xAC..=0xAD | 0xC0..=0xC1)
}

/// Whether the opcode is that of an instruction on two integers.
#[inline(always)]
pub(crate) fn takes_two(op: u8) -> bool
    ensures { result ≡ is_two_i32 op }
{
    matches!(op, 0x46..=0x4F | 0x6A..=0x78)
}

/// The instruction on one integer.
#[inline(always)]
pub(crate) fn on_one(op: u8, a: u32) -> Num
    requires { IsTrue (is_one_i32 op) }
    ensures { on_i32 op a ≡ Some result }
{
    match op {
        0x45 => truth(a == 0),
        0x67 => Num::I32(a.leading_zeros()),
        0x68 => Num::I32(a.trailing_zeros()),
        0x69 => Num::I32(a.count_ones()),
        0xAC => Num::I64(extend_s(a)),
        0xAD => Num::I64(u64::from(a)),
        0xC0 => Num::I32(extend8_s(a)),
        0xC1 => Num::I32(extend16_s(a)),
        _ => unreachable!(),
    }
}

/// The instruction on two integers.
#[inline(always)]
pub(crate) fn on_two(op: u8, a: u32, b: u32) -> Result<Num, NumTrap>
    requires { IsTrue (is_two_i32 op) }
    ensures { num op (Num.I32 a ∷ Num.I32 b ∷ []) ≡ Some result }
{
    if op <= 0x4F {
        return Ok(truth(test(op, a, b)));
    }
    match operate(op, a, b) {
        Ok(value) => Ok(Num::I32(value)),
        Err(trap) => Err(trap),
    }
}

/// The test of two integers.
#[inline(always)]
fn test(op: u8, a: u32, b: u32) -> bool
    requires low { 0x46 ≤ op }
    requires high { op ≤ 0x4F }
    ensures { test_of 32 0x46 op a b ≡ Some result }
{
    match op {
        0x46 => a == b,
        0x47 => a != b,
        0x48 => a.cast_signed() < b.cast_signed(),
        0x49 => a < b,
        0x4A => a.cast_signed() > b.cast_signed(),
        0x4B => a > b,
        0x4C => a.cast_signed() <= b.cast_signed(),
        0x4D => a <= b,
        0x4E => a.cast_signed() >= b.cast_signed(),
        0x4F => a >= b,
        _ => unreachable!(),
    }
}

/// The operation on two integers.
#[inline(always)]
fn operate(op: u8, a: u32, b: u32) -> Result<u32, NumTrap>
    requires low { 0x6A ≤ op }
    requires high { op ≤ 0x78 }
    ensures { operation_of 32 0x6A op a b ≡ Some result }
{
    match op {
        0x6A => Ok(a.wrapping_add(b)),
        0x6B => Ok(a.wrapping_sub(b)),
        0x6C => Ok(a.wrapping_mul(b)),
        0x6D => div_s(a, b),
        0x6E => div_u(a, b),
        0x6F => rem_s(a, b),
        0x70 => rem_u(a, b),
        0x71 => Ok(a & b),
        0x72 => Ok(a | b),
        0x73 => Ok(a ^ b),
        0x74 => Ok(a.wrapping_shl(b)),
        0x75 => Ok(a.cast_signed().wrapping_shr(b).cast_unsigned()),
        0x76 => Ok(a.wrapping_shr(b)),
        0x77 => Ok(a.rotate_left(b)),
        0x78 => Ok(a.rotate_right(b)),
        _ => unreachable!(),
    }
}

fn div_s(a: u32, b: u32) -> Result<u32, NumTrap>
    ensures { result ≡ idiv_s 32 a b }
{
    if b == 0 {
        return Err(NumTrap::DivideByZero);
    }
    if a == 1 << 31 && b == u32::MAX {
        return Err(NumTrap::IntegerOverflow);
    }
    let quotient = a.cast_signed().wrapping_div(b.cast_signed());
    Ok(quotient.cast_unsigned())
}

fn div_u(a: u32, b: u32) -> Result<u32, NumTrap>
    ensures { result ≡ idiv_u 32 a b }
{
    if b == 0 {
        return Err(NumTrap::DivideByZero);
    }
    Ok(a / b)
}

fn rem_s(a: u32, b: u32) -> Result<u32, NumTrap>
    ensures { result ≡ irem_s 32 a b }
{
    if b == 0 {
        return Err(NumTrap::DivideByZero);
    }
    let remainder = a.cast_signed().wrapping_rem(b.cast_signed());
    Ok(remainder.cast_unsigned())
}

fn rem_u(a: u32, b: u32) -> Result<u32, NumTrap>
    ensures { result ≡ irem_u 32 a b }
{
    if b == 0 {
        return Err(NumTrap::DivideByZero);
    }
    Ok(a % b)
}

fn extend8_s(a: u32) -> u32
    ensures { result ≡ iextend_s 8 32 a }
{
    i32::from(((a & 0xFF) as u8).cast_signed()).cast_unsigned()
}

fn extend16_s(a: u32) -> u32
    ensures { result ≡ iextend_s 16 32 a }
{
    i32::from(((a & 0xFFFF) as u16).cast_signed()).cast_unsigned()
}

fn extend_s(a: u32) -> u64
    ensures { result ≡ extended_s 32 64 a }
{
    i64::from(a.cast_signed()).cast_unsigned()
}
