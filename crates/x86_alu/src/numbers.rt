//! Numbers of 32 or 64 bits, and the signed numbers that they stand for in two's complement.
ghost use Rattle.std.specs.Prelude.{◌≡◌, ◌<◌, ◌-◌, ◌*◌, ◌%◌, ◌^◌, IsTrue, pos, ◌-ℤ◌};
ghost use Rattle.x86_forms.specs.Validity.{word_ok};
ghost use Rattle.x86_forms.specs.Arithmetic.{low as low_bits, signed, bits_of, is_negative as is_negative_of, holds_signed, flags_of};
ghost use Rattle.x86_alu.specs.Alu.{flags_in};

use crate::op::Four;

/// The low `w` bits.
#[inline(always)]
pub fn low(w: u8, a: u64) -> u64
    requires { IsTrue (word_ok w) }
    ensures value { result ≡ low_bits w a }
    ensures below { result < 2 ^ w }
{
    if w == 64 { a } else { a % 0x1_0000_0000 }
}

/// How many numbers `w` bits have.
#[inline(always)]
pub fn modulus(w: u8) -> u128
    requires { IsTrue (word_ok w) }
    ensures { result ≡ 2 ^ w }
{
    if w == 64 {
        0x1_0000_0000_0000_0000
    } else {
        0x1_0000_0000
    }
}

/// Half as many, which is also the least number whose top bit is set.
#[inline(always)]
pub fn half(w: u8) -> u64
    requires { IsTrue (word_ok w) }
    ensures value { result ≡ 2 ^ (w - 1) }
    ensures twice { 2 * result ≡ 2 ^ w }
{
    if w == 64 {
        0x8000_0000_0000_0000
    } else {
        0x8000_0000
    }
}

/// Whether the top bit is set.
#[tactic(auto, unfolding(x86_forms::specs::Arithmetic::is_negative))]
#[inline(always)]
pub fn is_negative(w: u8, a: u64) -> bool
    requires { IsTrue (word_ok w) }
    ensures { result ≡ is_negative_of w a }
{
    a >= half(w)
}

/// The signed number that `w` bits stand for.
#[inline(always)]
pub fn signed_value(w: u8, a: u64) -> i64
    requires width { IsTrue (word_ok w) }
    requires below { a < 2 ^ w }
    ensures { result ≡ signed w a }
{
    if w == 64 {
        a.cast_signed()
    } else if a < 0x8000_0000 {
        a as i64
    } else {
        a as i64 - 0x1_0000_0000
    }
}

/// The `w` bits that stand for a signed number, modulo 2^w.
#[inline(always)]
pub fn word_of(w: u8, n: i128) -> u64
    requires { IsTrue (word_ok w) }
    ensures value { result ≡ bits_of w n }
    ensures below { result < 2 ^ w }
{
    low(w, (n.cast_unsigned() % 0x1_0000_0000_0000_0000) as u64)
}

/// Whether `w` bits hold the signed number.
#[inline(always)]
pub fn fits(w: u8, n: i128) -> bool
    requires { IsTrue (word_ok w) }
    ensures { result ≡ holds_signed w n }
{
    let half = half(w) as i128;
    -half <= n && n < half
}

/// The flags of a result, which has `w` bits.
#[inline(always)]
pub fn flags(w: u8, r: u64, carry: bool, overflow: bool) -> Four
    requires { IsTrue (word_ok w) }
    ensures { flags_in result ≡ flags_of w r carry overflow }
{
    Four {
        cf: carry,
        zf: r == 0,
        sf: is_negative(w, r),
        of: overflow,
    }
}
