//! Shifts. The count is taken modulo the width, and a shift by 0 leaves all flags.
ghost use Rattle.std.specs.Prelude.{◌≡◌, ◌<◌, ◌^◌, IsTrue, ◌==◌, ◌&&◌};
ghost use Rattle.x86_forms.specs.Validity.{word_ok};
ghost use Rattle.x86_forms.specs.Arithmetic.{Shl, Shr, Sar, result_of, flags_after, count_of, has_bit, differ, is_negative as is_negative_of};
ghost use Rattle.x86_alu.specs.Alu.{flags_in};

use crate::numbers::{flags, is_negative, low, signed_value, word_of};
use crate::op::Four;

/// The count of a shift, modulo the width.
fn count(w: u8, b: u64) -> u32
    requires { IsTrue (word_ok w) }
    ensures value { result ≡ count_of w b }
    ensures below { result < w }
{
    if w == 64 {
        (b % 64) as u32
    } else {
        (b % 32) as u32
    }
}

/// Whether bit `k` is 1.
#[tactic(auto, unfolding(x86_forms::specs::Arithmetic::has_bit))]
fn bit(k: u32, a: u64) -> bool
    requires { k < 64 }
    ensures { result ≡ has_bit k a }
{
    (a >> k) % 2 == 1
}

/// The overflow of a left shift: by 1, whether the sign of the result differs from the bit moved out.
#[tactic(auto, unfolding(x86_forms::specs::Arithmetic::is_negative))]
fn left_overflow(w: u8, r: u64, c: u32, out: bool) -> bool
    requires { IsTrue (word_ok w) }
    ensures { result ≡ (c == 1 && differ (is_negative_of w r) out) }
{
    c == 1 && (is_negative(w, r) ^ out)
}

/// The overflow of an unsigned right shift: by 1, the top bit of the operand.
fn right_overflow(w: u8, a: u64, c: u32) -> bool
    requires { IsTrue (word_ok w) }
    ensures { result ≡ (c == 1 && is_negative_of w a) }
{
    c == 1 && is_negative(w, a)
}

/// `shl`.
#[inline(never)]
pub fn shift_left(w: u8, a: u64, b: u64, before: Four) -> (u64, Four)
    requires width { IsTrue (word_ok w) }
    requires a_below { a < 2 ^ w }
    ensures value { result.0 ≡ result_of Shl w a b }
    ensures flags { flags_in result.1 ≡ flags_after Shl w a b (flags_in before) }
{
    let c = count(w, b);
    let r = low(w, a << c);
    if c == 0 {
        return (r, before);
    }
    let out = bit(u32::from(w) - c, a);
    (r, flags(w, r, out, left_overflow(w, r, c, out)))
}

/// `shr`.
#[inline(never)]
pub fn shift_right(w: u8, a: u64, b: u64, before: Four) -> (u64, Four)
    requires width { IsTrue (word_ok w) }
    requires a_below { a < 2 ^ w }
    ensures value { result.0 ≡ result_of Shr w a b }
    ensures flags { flags_in result.1 ≡ flags_after Shr w a b (flags_in before) }
{
    let c = count(w, b);
    let r = a >> c;
    if c == 0 {
        return (r, before);
    }
    let out = bit(c - 1, a);
    (r, flags(w, r, out, right_overflow(w, a, c)))
}

/// `sar`.
#[inline(never)]
pub fn shift_signed(w: u8, a: u64, b: u64, before: Four) -> (u64, Four)
    requires width { IsTrue (word_ok w) }
    requires a_below { a < 2 ^ w }
    ensures value { result.0 ≡ result_of Sar w a b }
    ensures flags { flags_in result.1 ≡ flags_after Sar w a b (flags_in before) }
{
    let c = count(w, b);
    let r = word_of(w, i128::from(signed_value(w, a) >> c));
    if c == 0 {
        return (r, before);
    }
    let out = bit(c - 1, a);
    (r, flags(w, r, out, false))
}
