ghost use Rattle.std.specs.Prelude.{◌≡◌, ◌<◌, ◌≤◌, ◌^◌, ◌*◌, IfSome, IsSome};
ghost use Rattle.wasm_machine.specs.Effects.{num_of, value_of, trap_of, loaded, stored};
ghost use Rattle.wasm_machine.specs.Kinds.{width};

use crate::turn::TrapKind;
use int_ops::{Num, NumTrap, unary};
use wasm_types::Value;

#[inline(always)]
pub(crate) fn num_of(value: Value) -> Num
    ensures { result ≡ num_of value }
{
    match value {
        Value::I32(n) => Num::I32(n),
        Value::I64(n) => Num::I64(n),
    }
}

#[inline(always)]
pub(crate) fn value_of(num: Num) -> Value
    ensures { result ≡ value_of num }
{
    match num {
        Num::I32(n) => Value::I32(n),
        Num::I64(n) => Value::I64(n),
    }
}

#[inline(always)]
pub(crate) fn trap_of(trap: NumTrap) -> TrapKind
    ensures { result ≡ trap_of trap }
{
    match trap {
        NumTrap::DivideByZero => TrapKind::DivideByZero,
        NumTrap::IntegerOverflow => TrapKind::IntegerOverflow,
    }
}

#[tactic(auto, using(crate::proofs::Loads::narrow), unfolding(int_ops::specs::Numerics::num))]
/// The value of a load, from the number that its bytes spell.
#[inline(always)]
pub(crate) fn loaded(op: u8, n: u64) -> Value
    requires bound { IfSome (width op) (λ bytes. n < 2 ^ (8 * bytes)) }
    requires some { IsSome (width op) }
    requires load { op ≤ 0x35 }
    ensures { result ≡ loaded op n }
{
    match op {
        0x29 | 0x31 | 0x33 | 0x35 => Value::I64(n),
        0x2C => value_of(unary(0xC0, Num::I32(n as u32))),
        0x2E => value_of(unary(0xC1, Num::I32(n as u32))),
        0x30 => value_of(unary(0xC2, Num::I64(n))),
        0x32 => value_of(unary(0xC3, Num::I64(n))),
        0x34 => value_of(unary(0xC4, Num::I64(n))),
        _ => Value::I32(n as u32),
    }
}

/// The number that a store writes, of which the lowest bytes count.
#[inline(always)]
pub(crate) fn stored(op: u8, value: Value) -> Option<u64>
    ensures { result ≡ stored op value }
{
    let stores_i32 = op == 0x36 || op == 0x3A || op == 0x3B;
    match value {
        Value::I32(n) => { if stores_i32 { Some(u64::from(n)) } else { None } }
        Value::I64(n) => { if stores_i32 { None } else { Some(n) } }
    }
}
