//! Numbers.

ghost use Rattle.std.specs.Prelude.{◌≡◌, ℕ, ◌^◌, ◌<◌, ◌≤◌, length};
ghost use Rattle.std.specs.List.{prefix_len};
ghost use Rattle.std.specs.Option.{SomeIff};
ghost use Rattle.std.specs.Char.{is_ascii_digit, is_ascii_hexdigit};
ghost use Rattle.c_tokens.specs.Numbers as spec;

use mx_base::IntKind;

/// A number of a text: its value, and its type, which is the first that holds it.
#[derive(Clone, Copy, Debug, PartialEq, Eq)]
pub struct Number {
    pub value: u64,
    pub kind: IntKind,
}

/// What stands after a number's digits: whether it has a `u`, and whether it has an `l`.
#[derive(Clone, Copy)]
pub struct Suffix {
    unsigned: bool,
    long: bool,
}

/// How a number is written.
#[derive(Clone, Copy)]
struct Numeral<'a> {
    hexadecimal: bool,
    digits: &'a [u8],
    ending: &'a [u8],
}

/// The value of a hexadecimal digit.
#[tactic(auto, unfolding(crate::specs::Numbers::digit_of))]
pub fn digit_of(b: u8) -> u8
    ensures value { result ≡ spec.digit_of b }
    ensures below { result < 16 }
{
    match b {
        b'0'..=b'9' => b - b'0',
        b'a'..=b'f' => b - b'a' + 10,
        b'A'..=b'F' => b - b'A' + 10,
        _ => 0,
    }
}

fn decimal_digits(text: &[u8]) -> usize
    ensures value { result ≡ prefix_len is_ascii_digit text.now }
    ensures within { result ≤ length text.now }
{
    text.iter().take_while(|b| b.is_ascii_digit()).count()
}

fn hexadecimal_digits(text: &[u8]) -> usize
    ensures value { result ≡ prefix_len is_ascii_hexdigit text.now }
    ensures within { result ≤ length text.now }
{
    text.iter().take_while(|b| b.is_ascii_hexdigit()).count()
}

#[tactic(auto, unfolding(crate::specs::Numbers::digits_of, crate::specs::Numbers::ending_of))]
fn split(text: &[u8]) -> Numeral<'_>
    ensures hexadecimal { result.hexadecimal ≡ spec.is_hexadecimal text.now }
    ensures digits { result.digits.now ≡ spec.digits_of text.now }
    ensures ending { result.ending.now ≡ spec.ending_of text.now }
{
    match text {
        [b'0', b'x', rest @ ..] => {
            let (digits, ending) = rest.split_at(hexadecimal_digits(rest));
            Numeral {
                hexadecimal: true,
                digits,
                ending,
            }
        }
        _ => {
            let (digits, ending) = text.split_at(decimal_digits(text));
            Numeral {
                hexadecimal: false,
                digits,
                ending,
            }
        }
    }
}

#[tactic(auto, unfolding(crate::specs::Numbers::has_digits))]
fn has_digits(hexadecimal: bool, digits: &[u8]) -> bool
    ensures { result ≡ spec.has_digits hexadecimal digits.now }
{
    !digits.is_empty() && (hexadecimal || digits.len() < 2 || digits[0] != b'0')
}

fn is_u(b: u8) -> bool
    ensures { result ≡ spec.is_u b }
{
    b == b'u' || b == b'U'
}

fn is_l(b: u8) -> bool
    ensures { result ≡ spec.is_l b }
{
    b == b'l' || b == b'L'
}

#[tactic(auto, unfolding(crate::specs::Numbers::suffix_of))]
fn suffix_of(ending: &[u8]) -> Option<Suffix>
    ensures { result ≡ spec.suffix_of ending.now }
{
    match ending {
        [] => Some(Suffix {
            unsigned: false,
            long: false,
        }),
        [a] if is_u(*a) => Some(Suffix {
            unsigned: true,
            long: false,
        }),
        [a] if is_l(*a) => Some(Suffix {
            unsigned: false,
            long: true,
        }),
        [a, b] if (is_u(*a) && is_l(*b)) || (is_l(*a) && is_u(*b)) => Some(Suffix {
            unsigned: true,
            long: true,
        }),
        _ => None,
    }
}

/// The value of digits, if it is below 2^64.
fn value_of(base: u64, digits: &[u8]) -> Option<u64>
    requires { 1 ≤ base }
    ensures { SomeIff result (spec.value_of base digits.now < 2 ^ 64) (spec.value_of base digits.now) }
{
    let mut value = 0u64;
    for d in digits {
        let shifted = value.checked_mul(base)?;
        value = shifted.checked_add(u64::from(digit_of(*d)))?;
    }
    Some(value)
}

/// The first type that holds a number: `int`, `unsigned`, `long`, `unsigned long`, but the signed ones only without a
/// `u`, the unsigned ones only with a `u` or in hexadecimal, and those of 32 bits only without an `l`.
#[tactic(auto, unfolding(crate::specs::Numbers::kind_for))]
fn kind_for(value: u64, hexadecimal: bool, suffix: Suffix) -> Option<IntKind>
    ensures { result ≡ spec.kind_for value hexadecimal suffix }
{
    let may_be_unsigned = hexadecimal || suffix.unsigned;
    if !suffix.long && !suffix.unsigned && value < 0x8000_0000 {
        Some(IntKind::I32)
    } else if !suffix.long && may_be_unsigned && value < 0x1_0000_0000 {
        Some(IntKind::U32)
    } else if !suffix.unsigned && value < 0x8000_0000_0000_0000 {
        Some(IntKind::I64)
    } else if may_be_unsigned {
        Some(IntKind::U64)
    } else {
        None
    }
}

/// The number that these bytes are: a decimal or hexadecimal one with its suffix, if a type holds it.
#[tactic(auto, unfolding(crate::specs::Numbers::number_of))]
pub fn number_of(text: &[u8]) -> Option<Number>
    ensures { result ≡ spec.number_of text.now }
{
    let numeral = split(text);
    if !has_digits(numeral.hexadecimal, numeral.digits) {
        return None;
    }
    let suffix = suffix_of(numeral.ending)?;
    let base = if numeral.hexadecimal { 16 } else { 10 };
    let value = value_of(base, numeral.digits)?;
    let kind = kind_for(value, numeral.hexadecimal, suffix)?;
    Some(Number { value, kind })
}
