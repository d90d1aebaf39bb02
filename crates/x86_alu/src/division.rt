ghost use Rattle.std.specs.Prelude.{◌≡◌, ◌<◌, ◌+◌, ◌*◌, ◌^◌, IsTrue, if◌then◌else◌};
ghost use Rattle.x86_forms.specs.Validity.{word_ok};
ghost use Rattle.x86_forms.specs.Arithmetic.{low as low_bits, signed as signed_of, divided, divided_signed};

use crate::numbers::{fits, low, modulus, signed_value, word_of};

/// The number of `2w` bits whose halves these are.
fn joined(w: u8, hi: u64, lo: u64) -> u128
    requires width { IsTrue (word_ok w) }
    requires hi_below { hi < 2 ^ w }
    requires lo_below { lo < 2 ^ w }
    ensures value { result ≡ hi * 2 ^ w + lo }
    ensures below { result < 2 ^ (2 * w) }
{
    if w == 64 {
        u128::from(hi) * 0x1_0000_0000_0000_0000 + u128::from(lo)
    } else {
        u128::from(hi) * 0x1_0000_0000 + u128::from(lo)
    }
}

/// The signed number that these halves stand for.
fn joined_signed(w: u8, hi: u64, lo: u64) -> i128
    requires width { IsTrue (word_ok w) }
    requires hi_below { hi < 2 ^ w }
    requires lo_below { lo < 2 ^ w }
    ensures { result ≡ signed_of (2 * w) (hi * 2 ^ w + lo) }
{
    let n = joined(w, hi, lo);
    if w == 64 {
        n.cast_signed()
    } else if n < 0x8000_0000_0000_0000 {
        n as i128
    } else {
        n as i128 - 0x1_0000_0000_0000_0000
    }
}

#[tactic(auto, unfolding(x86_forms::specs::Arithmetic::divided))]
fn divide_unsigned(w: u8, hi: u64, lo: u64, by: u64) -> Option<(u64, u64)>
    requires width { IsTrue (word_ok w) }
    requires hi_below { hi < 2 ^ w }
    requires lo_below { lo < 2 ^ w }
    ensures { result ≡ divided w hi lo by }
{
    if by == 0 {
        return None;
    }
    let n = joined(w, hi, lo);
    let quotient = n / u128::from(by);
    if quotient < modulus(w) {
        Some((quotient as u64, (n % u128::from(by)) as u64))
    } else {
        None
    }
}

fn divide_signed(w: u8, hi: u64, lo: u64, by: u64) -> Option<(u64, u64)>
    requires width { IsTrue (word_ok w) }
    requires hi_below { hi < 2 ^ w }
    requires lo_below { lo < 2 ^ w }
    requires by_below { by < 2 ^ w }
    ensures { result ≡ divided_signed w hi lo by }
{
    let n = joined_signed(w, hi, lo);
    let d = i128::from(signed_value(w, by));
    let quotient = n.checked_div(d)?;
    if fits(w, quotient) {
        Some((word_of(w, quotient), word_of(w, n % d)))
    } else {
        None
    }
}

/// Quotient and rest of the number of `2w` bits whose halves are the low `w` bits of `hi` and `lo`, by the low `w` bits of
/// `by`: unsigned, or in two's complement, where the quotient is cut towards 0 and the rest has the sign of what is
/// divided. None exactly where the divisor is 0 or `w` bits hold no such quotient.
pub fn divide(signed: bool, w: u8, hi: u64, lo: u64, by: u64) -> Option<(u64, u64)>
    requires { IsTrue (word_ok w) }
    ensures { result ≡ (if signed then divided_signed w (low_bits w hi) (low_bits w lo) (low_bits w by) else divided w (low_bits w hi) (low_bits w lo) (low_bits w by)) }
{
    let (hi, lo, by) = (low(w, hi), low(w, lo), low(w, by));
    if signed {
        divide_signed(w, hi, lo, by)
    } else {
        divide_unsigned(w, hi, lo, by)
    }
}
