ghost use Rattle.std.specs.Prelude.{◌≡◌, All, length, IfOk};

use int_ops::{Num, binary};
use std::alloc::{AllocError, Global};

/// How many opcodes lie side by side.
const RUN: u32 = 64;

/// One opcode many times over, read again at each turn as an interpreter does.
pub fn code_of(alloc: Global, op: u8) -> Result<Vec<u8>, AllocError>
    ensures length { IfOk result (λ code. length code.items ≡ 64) }
    ensures ops { IfOk result (λ code. All (λ o. o ≡ op) code.items) }
{
    vec![in alloc; op; RUN as usize]
}

/// Sums the turns by `i32.add`.
pub fn binary_add(code: &[u8], count: u32) -> u64
    requires length { length code.now ≡ 64 }
    requires ops { All (λ op. op ≡ 106) code.now }
{
    let mut sum = 0u32;
    for turn in 0..count {
        let op = code[(turn % RUN) as usize];
        if let Ok(Num::I32(next)) = binary(op, Num::I32(sum), Num::I32(turn)) {
            sum = next;
        }
    }
    u64::from(sum)
}

/// Sums the quotients of negative numbers by the turns, from 1 on, by `i64.div_s`.
pub fn binary_div(code: &[u8], count: u32) -> u64
    requires length { length code.now ≡ 64 }
    requires ops { All (λ op. op ≡ 127) code.now }
{
    let mut sum = 0u64;
    for turn in 0..count {
        let op = code[(turn % RUN) as usize];
        let divisor = u64::from(turn) + 1;
        if let Ok(Num::I64(quotient)) = binary(op, Num::I64(1 << 63), Num::I64(divisor)) {
            sum = sum.wrapping_add(quotient);
        }
    }
    sum
}
