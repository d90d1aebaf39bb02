//! Sums, differences and products.
ghost use Rattle.std.specs.Prelude.{◌≡◌, ◌<◌, ◌+◌, ◌%◌, ◌^◌, ◌+ℤ◌, ◌-ℤ◌, not, IsTrue};
ghost use Rattle.x86_forms.specs.Validity.{word_ok};
ghost use Rattle.x86_forms.specs.Arithmetic.{Flags, Add, Imul, result_of, flags_after, difference, difference_flags, signed, holds_signed};
ghost use Rattle.x86_alu.specs.Alu.{flags_in, sign_is_wrong};

use crate::numbers::{fits, flags, is_negative, low, signed_value, word_of};
use crate::op::Four;

/// Whether a sum has the wrong sign: both numbers have the same one, and the sum has the other.
#[inline(always)]
fn is_wrong(a: bool, b: bool, sum: bool) -> bool
    ensures { result ≡ sign_is_wrong a b sum }
{
    if a { b && !sum } else { sum && !b }
}

/// Whether `w` bits don't hold the sum of two signed numbers, `r` being its bits.
#[inline(always)]
fn sum_overflows(w: u8, a: u64, b: u64, r: u64) -> bool
    requires width { IsTrue (word_ok w) }
    requires a_below { a < 2 ^ w }
    requires b_below { b < 2 ^ w }
    requires sum { r ≡ (a + b) % 2 ^ w }
    ensures { result ≡ not (holds_signed w (signed w a +ℤ signed w b)) }
{
    is_wrong(is_negative(w, a), is_negative(w, b), is_negative(w, r))
}

/// The same for a difference.
#[inline(always)]
fn difference_overflows(w: u8, a: u64, b: u64, r: u64) -> bool
    requires width { IsTrue (word_ok w) }
    requires a_below { a < 2 ^ w }
    requires b_below { b < 2 ^ w }
    requires rest { r ≡ difference w a b }
    ensures { result ≡ not (holds_signed w (signed w a -ℤ signed w b)) }
{
    is_wrong(is_negative(w, a), !is_negative(w, b), is_negative(w, r))
}

/// `add`.
#[tactic(auto, unfolding(x86_forms::specs::Arithmetic::result_of, x86_forms::specs::Arithmetic::flags_after))]
#[inline(always)]
pub fn add(w: u8, a: u64, b: u64) -> (u64, Four)
    requires width { IsTrue (word_ok w) }
    requires a_below { a < 2 ^ w }
    requires b_below { b < 2 ^ w }
    ensures value { result.0 ≡ result_of Add w a b }
    ensures flags { (before : Flags) → flags_in result.1 ≡ flags_after Add w a b before }
{
    let r = low(w, a.wrapping_add(b));
    (r, flags(w, r, r < a, sum_overflows(w, a, b, r)))
}

/// `sub`, `cmp`, and `neg` with 0 as `a`.
#[tactic(auto, unfolding(x86_forms::specs::Arithmetic::difference_flags))]
#[inline(always)]
pub fn subtract(w: u8, a: u64, b: u64) -> (u64, Four)
    requires width { IsTrue (word_ok w) }
    requires a_below { a < 2 ^ w }
    requires b_below { b < 2 ^ w }
    ensures value { result.0 ≡ difference w a b }
    ensures flags { flags_in result.1 ≡ difference_flags w a b }
{
    let r = low(w, a.wrapping_sub(b));
    (r, flags(w, r, a < b, difference_overflows(w, a, b, r)))
}

/// `imul`: the low half of the signed product. Carry and overflow say that it isn't the whole product.
#[tactic(auto, unfolding(x86_forms::specs::Arithmetic::result_of, x86_forms::specs::Arithmetic::flags_after))]
#[inline(never)]
pub fn multiply(w: u8, a: u64, b: u64) -> (u64, Four)
    requires width { IsTrue (word_ok w) }
    requires a_below { a < 2 ^ w }
    requires b_below { b < 2 ^ w }
    ensures value { result.0 ≡ result_of Imul w a b }
    ensures flags { (before : Flags) → flags_in result.1 ≡ flags_after Imul w a b before }
{
    let exact = i128::from(signed_value(w, a)) * i128::from(signed_value(w, b));
    let overflows = !fits(w, exact);
    let flags = Four {
        cf: overflows,
        zf: false,
        sf: false,
        of: overflows,
    };
    (word_of(w, exact), flags)
}
