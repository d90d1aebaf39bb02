//! Texts and characters: bytes and escapes between two quotes.

ghost use Rattle.std.specs.Prelude.{◌≡◌, ℕ, ◌^◌, ◌<◌, ◌≤◌, length, option_map, IfOk, IfSome, vec_len};
ghost use Rattle.c_tokens.specs.Quotes as spec;

use crate::numbers::digit_of;
use mx_base::OutOfMemory;
use std::alloc::Global;

/// What the next byte belongs to: nothing yet, an escape after its `\`, or the first or second digit of one by `\x`.
#[derive(Clone, Copy)]
pub enum Reading {
    Plain,
    Escape,
    High,
    Low(u8),
}

/// What a byte does: it closes the quotes, leads on, ends what stands for a byte, or may not stand there.
#[derive(Clone, Copy)]
pub enum Effect {
    Closes,
    Reads(Reading),
    Gives(u8),
    Refuses,
}

/// The size of what stands up to a closing quote, that quote included, and how many bytes it stands for.
#[derive(Clone, Copy)]
pub struct Extent {
    pub size: usize,
    pub count: usize,
}

fn escape_of(b: u8) -> Option<u8>
    ensures { result ≡ spec.escape_of b }
{
    match b {
        b'n' => Some(b'\n'),
        b't' => Some(b'\t'),
        b'r' => Some(b'\r'),
        b'0' => Some(b'\0'),
        b'\\' => Some(b'\\'),
        b'\'' => Some(b'\''),
        b'"' => Some(b'"'),
        _ => None,
    }
}

#[tactic(auto, unfolding(crate::specs::Quotes::step))]
fn step_plain(quote: u8, b: u8) -> Effect
    ensures { result ≡ spec.step quote Reading.Plain b }
{
    if b == quote {
        Effect::Closes
    } else if b == b'\\' {
        Effect::Reads(Reading::Escape)
    } else if (b' '..=b'~').contains(&b) {
        Effect::Gives(b)
    } else {
        Effect::Refuses
    }
}

#[tactic(auto, unfolding(crate::specs::Quotes::step))]
fn step_escape(quote: u8, b: u8) -> Effect
    ensures { result ≡ spec.step quote Reading.Escape b }
{
    if b == b'x' {
        return Effect::Reads(Reading::High);
    }
    match escape_of(b) {
        Some(byte) => Effect::Gives(byte),
        None => Effect::Refuses,
    }
}

#[tactic(auto, unfolding(crate::specs::Quotes::step))]
fn step(quote: u8, reading: Reading, b: u8) -> Effect
    ensures { result ≡ spec.step quote reading b }
{
    match reading {
        Reading::Plain => step_plain(quote, b),
        Reading::Escape => step_escape(quote, b),
        Reading::High if b.is_ascii_hexdigit() => Effect::Reads(Reading::Low(b)),
        Reading::Low(high) if b.is_ascii_hexdigit() => Effect::Gives(
            16 * digit_of(high) + digit_of(b),
        ),
        _ => Effect::Refuses,
    }
}

/// The extent of what stands after an opening quote, if it is closed and of its form.
#[tactic(auto, unfolding(crate::specs::Quotes::quoted), using(crate::proofs::Extents::extent_at_start, crate::proofs::Extents::extent_closes, crate::proofs::Extents::extent_refuses, crate::proofs::Extents::extent_ends))]
pub fn quoted(quote: u8, text: &[u8]) -> Option<Extent>
    ensures value { result ≡ option_map spec.extent_of (spec.quoted quote text.now) }
    ensures within { IfSome result (λ extent. (0 < extent.size) × (extent.size ≤ length text.now)) }
{
    let mut reading = Reading::Plain;
    let mut count = 0;
    for (at, b) in text.iter().enumerate() {
        match step(quote, reading, *b) {
            Effect::Closes => return Some(Extent {
                size: at + 1,
                count,
            }),
            Effect::Reads(next) => reading = next,
            Effect::Gives(_) => {
                reading = Reading::Plain;
                count += 1;
            }
            Effect::Refuses => return None,
        }
    }
    None
}

/// The bytes that a text stands for, given with its quotes; `None` where these bytes are no text.
#[tactic(auto, unfolding(crate::specs::Quotes::text_of))]
pub fn text_of(alloc: Global, text: &[u8]) -> Result<Option<Vec<u8>>, OutOfMemory>
    ensures { IfOk result (λ found. option_map (λ bytes. bytes.items) found ≡ spec.text_of text.now) }
{
    match text {
        [b'"', rest @ ..] => text_after(alloc, rest),
        _ => Ok(None),
    }
}

#[tactic(auto, unfolding(crate::specs::Quotes::quoted), using(crate::proofs::Meanings::meaning_at_start, crate::proofs::Meanings::meaning_closes, crate::proofs::Meanings::meaning_refuses, crate::proofs::Meanings::meaning_ends))]
fn text_after(alloc: Global, rest: &[u8]) -> Result<Option<Vec<u8>>, OutOfMemory>
    ensures { IfOk result (λ found. option_map (λ bytes. bytes.items) found ≡ spec.whole (length rest.now) (spec.quoted 34 rest.now)) }
{
    let mut reading = Reading::Plain;
    let mut bytes = Vec::new(alloc);
    for (at, b) in rest.iter().enumerate() {
        match step(b'"', reading, *b) {
            Effect::Closes if at + 1 == rest.len() => return Ok(Some(bytes)),
            Effect::Reads(next) => reading = next,
            Effect::Gives(byte) => {
                reading = Reading::Plain;
                bytes.push(byte)?;
            }
            Effect::Closes | Effect::Refuses => return Ok(None),
        }
    }
    Ok(None)
}

/// The byte that a character stands for, given with its quotes; `None` where these bytes are no character.
#[tactic(auto, unfolding(crate::specs::Quotes::character_of))]
pub fn character_of(text: &[u8]) -> Option<u8>
    ensures { result ≡ spec.character_of text.now }
{
    match text {
        [b'\'', rest @ ..] => character_after(rest),
        _ => None,
    }
}

#[tactic(auto, unfolding(crate::specs::Quotes::quoted), using(crate::proofs::Meanings::meaning_at_start, crate::proofs::Meanings::meaning_closes, crate::proofs::Meanings::meaning_refuses, crate::proofs::Meanings::meaning_ends))]
fn character_after(rest: &[u8]) -> Option<u8>
    ensures { result ≡ spec.single (spec.whole (length rest.now) (spec.quoted 39 rest.now)) }
{
    let mut reading = Reading::Plain;
    let mut found = None;
    for (at, b) in rest.iter().enumerate() {
        match step(b'\'', reading, *b) {
            Effect::Closes if at + 1 == rest.len() => return found,
            Effect::Reads(next) => reading = next,
            Effect::Gives(byte) if found.is_none() => {
                reading = Reading::Plain;
                found = Some(byte);
            }
            Effect::Closes | Effect::Gives(_) | Effect::Refuses => return None,
        }
    }
    None
}
