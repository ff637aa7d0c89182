ghost use Rattle.std.specs.Prelude.{◌≡◌, [], ◌∷◌, Some, Ok, IsTrue, is_some};
ghost use Rattle.int_ops.specs.Numerics.{num, takes_one, takes_two};

use crate::num::{Num, NumTrap};
use crate::{on_i32, on_i64};

/// Whether the opcode is that of an instruction on one operand of this type.
#[inline(always)]
pub fn is_unary(op: u8, a: Num) -> bool
    ensures ranges { result ≡ takes_one op a }
    ensures known { result ≡ is_some (num op (a ∷ [])) }
{
    match a {
        Num::I32(_) => on_i32::takes_one(op),
        Num::I64(_) => on_i64::takes_one(op),
    }
}

/// Whether the opcode is that of an instruction on two operands of these types.
#[inline(always)]
pub fn is_binary(op: u8, a: Num, b: Num) -> bool
    ensures ranges { result ≡ takes_two op a b }
    ensures known { result ≡ is_some (num op (a ∷ b ∷ [])) }
{
    match (a, b) {
        (Num::I32(_), Num::I32(_)) => on_i32::takes_two(op),
        (Num::I64(_), Num::I64(_)) => on_i64::takes_two(op),
        _ => false,
    }
}

/// The value of an instruction on one operand.
#[inline(always)]
pub fn unary(op: u8, a: Num) -> Num
    requires { IsTrue (takes_one op a) }
    ensures { num op (a ∷ []) ≡ Some (Ok result) }
{
    match a {
        Num::I32(a) => on_i32::on_one(op, a),
        Num::I64(a) => on_i64::on_one(op, a),
    }
}

/// The value or the trap of an instruction on two operands, of which `b` is the upper one.
#[inline(always)]
pub fn binary(op: u8, a: Num, b: Num) -> Result<Num, NumTrap>
    requires { IsTrue (takes_two op a b) }
    ensures { num op (a ∷ b ∷ []) ≡ Some result }
{
    match (a, b) {
        (Num::I32(a), Num::I32(b)) => on_i32::on_two(op, a, b),
        (Num::I64(a), Num::I64(b)) => on_i64::on_two(op, a, b),
        _ => unreachable!(),
    }
}
