//! The words, numbers and marks of a line.

ghost use Rattle.std.specs.Prelude.{◌≡◌, ◌≤◌, ◌<◌, ◌^◌, Some, None, option_map, length};
ghost use Rattle.std.specs.List.{prefix_len, list_all};
ghost use Rattle.std.specs.Char.{is_ascii_digit, is_ascii_hexdigit};
ghost use Rattle.std.specs.Option.{option_copied};
ghost use Rattle.asm_text.specs.Lexical as spec;

use asm_names::{bounds_of, mnemonic_of, register_of, size_of};
use obj_file::is_c_name;

/// A word, which is empty where none stands, and what is behind it.
#[derive(Clone, Copy)]
pub struct Word<'a> {
    pub word: &'a [u8],
    pub rest: &'a [u8],
}

/// A number and what is behind it. The number is `None` where it is outside -2^63 to 2^64-1.
#[derive(Clone, Copy)]
pub struct Numeral<'a> {
    pub number: Option<i128>,
    pub rest: &'a [u8],
}

fn is_blank(b: u8) -> bool
    ensures { result ≡ spec.is_blank b }
{
    b == b' ' || b == b'\t' || b == b'\r'
}

fn is_word_byte(b: u8) -> bool
    ensures { result ≡ spec.is_word_byte b }
{
    b.is_ascii_alphanumeric() || b == b'_' || b == b'.'
}

fn blanks(text: &[u8]) -> usize
    ensures value { result ≡ prefix_len spec.is_blank text.now }
    ensures within { result ≤ length text.now }
{
    text.iter().take_while(|b| is_blank(**b)).count()
}

fn word_bytes(text: &[u8]) -> usize
    ensures value { result ≡ prefix_len spec.is_word_byte text.now }
    ensures within { result ≤ length text.now }
{
    text.iter().take_while(|b| is_word_byte(**b)).count()
}

/// The text without the blanks at its front.
#[tactic(auto, unfolding(crate::specs::Lexical::skip))]
pub fn skip(text: &[u8]) -> &[u8]
    ensures { result.now ≡ spec.skip text.now }
{
    let (_, rest) = text.split_at(blanks(text));
    rest
}

/// Whether nothing but blanks is left.
#[tactic(auto, unfolding(crate::specs::Lexical::ended))]
pub fn ended(text: &[u8]) -> bool
    ensures { result ≡ spec.ended text.now }
{
    skip(text).is_empty()
}

/// The word at the front.
#[tactic(auto, unfolding(crate::specs::Lexical::word_at, crate::specs::Lexical::after_word))]
pub fn first_word(text: &[u8]) -> Word<'_>
    ensures word { result.word.now ≡ spec.word_at text.now }
    ensures rest { result.rest.now ≡ spec.after_word text.now }
{
    let text = skip(text);
    let (word, rest) = text.split_at(word_bytes(text));
    Word { word, rest }
}

/// What is behind a mark, if it stands at the front.
#[tactic(auto, unfolding(crate::specs::Lexical::mark_at))]
pub fn after_mark(text: &[u8], m: u8) -> Option<&[u8]>
    ensures { option_copied result ≡ spec.mark_at m text.now }
{
    match skip(text) {
        [b, rest @ ..] if *b == m => Some(rest),
        _ => None,
    }
}

#[tactic(auto, unfolding(crate::specs::Lexical::digit_of))]
fn digit_of(b: u8) -> u8
    ensures value { result ≡ spec.digit_of b }
    ensures below { result < 16 }
{
    match b {
        b'0'..=b'9' => b - b'0',
        b'a'..=b'f' => b - b'a' + 10,
        b'A'..=b'F' => b - b'A' + 10,
        _ => 0,
    }
}

#[tactic(auto, unfolding(crate::specs::Lexical::with_digit))]
fn with_digit(base: u64, value: Option<u64>, d: u8) -> Option<u64>
    ensures { result ≡ spec.with_digit base value d }
{
    let shifted = value?.checked_mul(base)?;
    shifted.checked_add(u64::from(digit_of(d)))
}

fn value_of(base: u64, digits: &[u8]) -> Option<u64>
    ensures { result ≡ spec.value_of base digits.now }
{
    let mut value = Some(0);
    for d in digits {
        value = with_digit(base, value, *d);
    }
    value
}

fn are_digits(bytes: &[u8]) -> bool
    ensures { result ≡ list_all is_ascii_digit bytes.now }
{
    bytes.iter().all(|b| b.is_ascii_digit())
}

fn are_hexadecimal(bytes: &[u8]) -> bool
    ensures { result ≡ list_all is_ascii_hexdigit bytes.now }
{
    bytes.iter().all(|b| b.is_ascii_hexdigit())
}

fn is_hexadecimal(word: &[u8]) -> bool
    ensures { result ≡ spec.is_hexadecimal word.now }
{
    word.len() > 2 && word[0] == b'0' && word[1] == b'x' && are_hexadecimal(&word[2..])
}

fn is_decimal(word: &[u8]) -> bool
    ensures { result ≡ spec.is_decimal word.now }
{
    !word.is_empty() && are_digits(word)
}

/// What a word of digits says; the inner value is `None` from 2^64 on.
#[tactic(auto, unfolding(crate::specs::Lexical::magnitude))]
fn magnitude(word: &[u8]) -> Option<Option<u64>>
    ensures { result ≡ spec.magnitude word.now }
{
    if is_hexadecimal(word) {
        let (_, digits) = word.split_at(2);
        Some(value_of(16, digits))
    } else if is_decimal(word) {
        Some(value_of(10, word))
    } else {
        None
    }
}

#[tactic(auto, unfolding(crate::specs::Lexical::number_of))]
fn number_of(negative: bool, n: Option<u64>) -> Option<i128>
    ensures { result ≡ spec.number_of negative n }
{
    let n = n?;
    if !negative {
        Some(i128::from(n))
    } else if n <= 1 << 63 {
        Some(0 - i128::from(n))
    } else {
        None
    }
}

/// The digits at the front as a number.
#[tactic(auto, unfolding(crate::specs::Lexical::numeral_at))]
pub fn numeral_at(text: &[u8], negative: bool) -> Option<Numeral<'_>>
    ensures { option_map (λ x. (x.number, x.rest.now)) result ≡ spec.numeral_at negative text.now }
{
    let first = first_word(text);
    let n = magnitude(first.word)?;
    Some(Numeral {
        number: number_of(negative, n),
        rest: first.rest,
    })
}

/// A number with an optional `-`.
#[tactic(auto, unfolding(crate::specs::Lexical::number_at))]
pub fn number_at(text: &[u8]) -> Option<Numeral<'_>>
    ensures { option_map (λ x. (x.number, x.rest.now)) result ≡ spec.number_at text.now }
{
    match after_mark(text, b'-') {
        Some(behind) => numeral_at(behind, true),
        None => numeral_at(text, false),
    }
}

/// What is added to a name: `+n`, `-n` or nothing.
#[tactic(auto, unfolding(crate::specs::Lexical::addend_at))]
pub fn addend_at(text: &[u8]) -> Option<Numeral<'_>>
    ensures { option_map (λ x. (x.number, x.rest.now)) result ≡ spec.addend_at text.now }
{
    if let Some(behind) = after_mark(text, b'+') {
        return numeral_at(behind, false);
    }
    match after_mark(text, b'-') {
        Some(behind) => numeral_at(behind, true),
        None => Some(Numeral {
            number: Some(0),
            rest: text,
        }),
    }
}

/// The number that the whole text is.
#[tactic(auto, unfolding(crate::specs::Lexical::number_alone))]
pub fn number_alone(text: &[u8]) -> Option<Option<i128>>
    ensures { result ≡ spec.number_alone text.now }
{
    let found = number_at(text)?;
    if ended(found.rest) {
        Some(found.number)
    } else {
        None
    }
}

/// Whether the word is one of the language, so that it names no symbol.
#[tactic(auto, unfolding(crate::specs::Lexical::is_reserved))]
fn is_reserved(word: &[u8]) -> bool
    ensures { result ≡ spec.is_reserved word.now }
{
    mnemonic_of(word).is_some()
        || register_of(8, word).is_some()
        || register_of(16, word).is_some()
        || register_of(32, word).is_some()
        || register_of(64, word).is_some()
        || bounds_of(word).is_some()
        || size_of(word).is_some()
        || word == b"rip".as_slice()
        || word == b"rel".as_slice()
        || word == b"bnd".as_slice()
}

/// Whether the word may name a symbol.
#[tactic(auto, unfolding(crate::specs::Lexical::is_name))]
pub fn is_name(word: &[u8]) -> bool
    ensures { result ≡ spec.is_name word.now }
{
    is_c_name(word) && word.len() <= 63 && !is_reserved(word)
}

/// Whether the word may name a local label.
#[tactic(auto, unfolding(crate::specs::Lexical::is_local))]
pub fn is_local(word: &[u8]) -> bool
    ensures { result ≡ spec.is_local word.now }
{
    word.len() >= 2
        && word[0] == b'.'
        && word[1] == b'L'
        && is_c_name(&word[1..])
        && word.len() <= 63
}
