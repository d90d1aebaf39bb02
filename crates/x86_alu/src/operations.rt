ghost use Rattle.std.specs.Prelude.{◌≡◌, ◌<◌, ◌-◌, ◌^◌, IsTrue, false};
ghost use Rattle.x86_forms.specs.Validity.{word_ok};
ghost use Rattle.x86_forms.specs.Arithmetic.{low as low_bits, result_of, flags_after, flags_of};
ghost use Rattle.x86_alu.specs.Alu.{flags_in, operation_of};

use crate::numbers::{flags, low};
use crate::op::{AluOp, Four};
use crate::shifts::{shift_left, shift_right, shift_signed};
use crate::sums::{add, multiply, subtract};

/// A result of `or`, `and`, `xor` or `test`, with its flags.
#[inline(always)]
fn logical(w: u8, r: u64) -> (u64, Four)
    requires { IsTrue (word_ok w) }
    ensures value { result.0 ≡ r }
    ensures flags { flags_in result.1 ≡ flags_of w r false false }
{
    (r, flags(w, r, false, false))
}

/// The bits of `a` turned round.
#[inline(always)]
fn inverted(w: u8, a: u64) -> u64
    requires width { IsTrue (word_ok w) }
    requires below { a < 2 ^ w }
    ensures { result ≡ 2 ^ w - 1 - a }
{
    low(w, !a)
}

/// The result of an operation on the low `w` bits of `a` and `b`, and the flags after it, `f` being those before. `not`
/// and `neg` use `a` alone. A shift's count is `b` modulo `w`. `cmp` has the result of `sub`, and `test` that of `and`.
/// Where the manual leaves a flag undefined it is clear: zero and sign after `imul`, and overflow after a shift by more
/// than 1.
#[tactic(auto, unfolding(x86_forms::specs::Arithmetic::result_of, x86_forms::specs::Arithmetic::flags_after))]
#[inline(always)]
pub fn arith(op: AluOp, w: u8, a: u64, b: u64, f: Four) -> (u64, Four)
    requires { IsTrue (word_ok w) }
    ensures value { result.0 ≡ result_of (operation_of op) w (low_bits w a) (low_bits w b) }
    ensures flags { flags_in result.1 ≡ flags_after (operation_of op) w (low_bits w a) (low_bits w b) (flags_in f) }
{
    let a = low(w, a);
    let b = low(w, b);
    match op {
        AluOp::Add => add(w, a, b),
        AluOp::Or => logical(w, a | b),
        AluOp::And | AluOp::Test => logical(w, a & b),
        AluOp::Sub | AluOp::Cmp => subtract(w, a, b),
        AluOp::Xor => logical(w, a ^ b),
        AluOp::Imul => multiply(w, a, b),
        AluOp::Not => (inverted(w, a), f),
        AluOp::Neg => subtract(w, 0, a),
        AluOp::Shl => shift_left(w, a, b, f),
        AluOp::Shr => shift_right(w, a, b, f),
        AluOp::Sar => shift_signed(w, a, b, f),
    }
}
