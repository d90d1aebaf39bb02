//! Operands: registers, numbers, names, and memory `[base+index*s+n]` of which each part may be missing.

ghost use Rattle.std.specs.Prelude.{◌≡◌, ◌≤◌, length, option_map};
ghost use Rattle.std.specs.List.{prefix_len};
ghost use Rattle.asm_text.specs.Operands as spec;
ghost use Rattle.asm_text.specs.Seen.{seen_place, seen_named};

use crate::lexical::{
    Numeral, addend_at, after_mark, ended, first_word, is_local, is_name, number_alone, number_at,
    numeral_at,
};
use crate::parts::Operand;
use asm_names::{bounds_of, register_of, size_of};
use x86_forms::{Base, Mem, Reg};

/// Memory: its operand, whether its numbers fit their fields, and the name that stands in the displacement, if it isn't empty,
/// with the number added to it.
#[derive(Clone, Copy)]
pub struct Place<'a> {
    pub m: Mem,
    pub fits: bool,
    pub name: &'a [u8],
    pub addend: Option<i128>,
}

/// An operand with the name that stands in it, if it isn't empty, and the number added to the name.
#[derive(Clone, Copy)]
pub struct Named<'a> {
    pub operand: Operand,
    pub name: &'a [u8],
    pub addend: Option<i128>,
}

/// A displacement that no shorter field holds.
const WIDE_FIELD: i32 = 0x7FFF_FFFF;

pub fn bare(operand: Operand) -> Named<'static>
    ensures { seen_named result ≡ spec.bare operand }
{
    Named {
        operand,
        name: &[],
        addend: Some(0),
    }
}

/// The number as a field of 32 bits, or 0 if it doesn't fit.
pub fn signed_32(n: Option<i128>) -> i32
    ensures { result ≡ spec.signed_32 n }
{
    match n {
        Some(z) => i32::try_from(z).unwrap_or(0),
        None => 0,
    }
}

/// Whether the number fits 32 bits.
pub fn is_signed_32(n: Option<i128>) -> bool
    ensures { result ≡ spec.is_signed_32 n }
{
    match n {
        Some(z) => i32::try_from(z).is_ok(),
        None => false,
    }
}

fn with_number(base: Base, index: Option<(Reg, u8)>, fits: bool, n: Option<i128>) -> Place<'static>
    ensures { seen_place result ≡ spec.with_number base index fits n }
{
    Place {
        m: Mem {
            base,
            index,
            disp: signed_32(n),
        },
        fits: fits && is_signed_32(n),
        name: &[],
        addend: Some(0),
    }
}

/// A number ends the operand.
fn number_last(
    base: Base,
    index: Option<(Reg, u8)>,
    fits: bool,
    x: Numeral<'_>,
) -> Option<Place<'static>>
    ensures { option_map seen_place result ≡ spec.number_last base index fits (x.entry.number, x.entry.rest.now) }
{
    if ended(x.rest) {
        Some(with_number(base, index, fits, x.number))
    } else {
        None
    }
}

/// A name ends it, with a number added.
#[tactic(auto, unfolding(crate::specs::Operands::name_last))]
fn name_last(base: Base, index: Option<(Reg, u8)>, fits: bool, text: &[u8]) -> Option<Place<'_>>
    ensures { option_map seen_place result ≡ spec.name_last base index fits text.now }
{
    let first = first_word(text);
    if !is_name(first.word) {
        return None;
    }
    let added = addend_at(first.rest)?;
    if !ended(added.rest) {
        return None;
    }
    Some(Place {
        m: Mem {
            base,
            index,
            disp: WIDE_FIELD,
        },
        fits,
        name: first.word,
        addend: added.number,
    })
}

/// Whether the first word begins with a digit.
fn is_numeral(text: &[u8]) -> bool
    ensures { result ≡ spec.is_numeral text.now }
{
    match first_word(text).word {
        [b, ..] => b.is_ascii_digit(),
        [] => false,
    }
}

/// Behind `+`: a number or a name.
#[tactic(auto, unfolding(crate::specs::Operands::term))]
fn term(base: Base, index: Option<(Reg, u8)>, fits: bool, text: &[u8]) -> Option<Place<'_>>
    ensures { option_map seen_place result ≡ spec.term base index fits text.now }
{
    if is_numeral(text) {
        let x = numeral_at(text, false)?;
        number_last(base, index, fits, x)
    } else {
        name_last(base, index, fits, text)
    }
}

/// Behind base and index: nothing, `+n`, `+name` or `-n`.
#[tactic(auto, unfolding(crate::specs::Operands::tail))]
fn tail(base: Base, index: Option<(Reg, u8)>, fits: bool, text: &[u8]) -> Option<Place<'_>>
    ensures { option_map seen_place result ≡ spec.tail base index fits text.now }
{
    if ended(text) {
        return Some(with_number(base, index, fits, Some(0)));
    }
    if let Some(behind) = after_mark(text, b'+') {
        return term(base, index, fits, behind);
    }
    let behind = after_mark(text, b'-')?;
    let x = numeral_at(behind, true)?;
    number_last(base, index, fits, x)
}

fn is_scale(n: Option<i128>) -> bool
    ensures { result ≡ spec.is_scale n }
{
    match n {
        Some(s) => s == 1 || s == 2 || s == 4 || s == 8,
        None => false,
    }
}

/// The scale, or 1 if it is none.
fn scale_of(n: Option<i128>) -> u8
    ensures { result ≡ spec.scale_of n }
{
    match n {
        Some(2) => 2,
        Some(4) => 4,
        Some(8) => 8,
        _ => 1,
    }
}

/// Behind `*`: the scale of the index register.
#[tactic(auto, unfolding(crate::specs::Operands::scaled))]
fn scaled(base: Base, r: u8, text: &[u8]) -> Option<Place<'_>>
    ensures { option_map seen_place result ≡ spec.scaled base r text.now }
{
    let x = number_at(text)?;
    let index = Some((Reg(r), scale_of(x.number)));
    tail(base, index, is_scale(x.number), x.rest)
}

/// Behind an index register: its scale, which is 1 if it is missing.
#[tactic(auto, unfolding(crate::specs::Operands::indexed))]
fn indexed(base: Base, r: u8, text: &[u8]) -> Option<Place<'_>>
    ensures { option_map seen_place result ≡ spec.indexed base r text.now }
{
    match after_mark(text, b'*') {
        Some(behind) => scaled(base, r, behind),
        None => tail(base, Some((Reg(r), 1)), true, text),
    }
}

/// A register, and what is behind it.
#[derive(Clone, Copy)]
struct Register<'a> {
    r: u8,
    rest: &'a [u8],
}

/// `+` and an index register.
fn index_at(text: &[u8]) -> Option<Register<'_>>
    ensures { option_map (λ x. (x.r, x.rest.now)) result ≡ spec.index_at text.now }
{
    let behind = after_mark(text, b'+')?;
    let first = first_word(behind);
    let r = register_of(64, first.word)?;
    Some(Register {
        r,
        rest: first.rest,
    })
}

/// Behind a base register: an index register, or the tail.
#[tactic(auto, unfolding(crate::specs::Operands::based))]
fn based(b: u8, text: &[u8]) -> Option<Place<'_>>
    ensures { option_map seen_place result ≡ spec.based b text.now }
{
    match index_at(text) {
        Some(x) => indexed(Base::Reg(Reg(b)), x.r, x.rest),
        None => tail(Base::Reg(Reg(b)), None, true, text),
    }
}

/// Without registers: a name or a number.
#[tactic(auto, unfolding(crate::specs::Operands::fixed))]
fn fixed(text: &[u8]) -> Option<Place<'_>>
    ensures { option_map seen_place result ≡ spec.fixed text.now }
{
    if is_name(first_word(text).word) {
        return name_last(Base::None, None, true, text);
    }
    let x = number_at(text)?;
    number_last(Base::None, None, true, x)
}

/// A register stands first: the base, or the index if it has a scale.
#[tactic(auto, unfolding(crate::specs::Operands::first_register))]
fn first_register(r: u8, text: &[u8]) -> Option<Place<'_>>
    ensures { option_map seen_place result ≡ spec.first_register r text.now }
{
    match after_mark(text, b'*') {
        Some(behind) => scaled(Base::None, r, behind),
        None => based(r, text),
    }
}

/// `rip`, and a number or a name.
#[tactic(auto, unfolding(crate::specs::Operands::by_rip))]
fn by_rip(text: &[u8]) -> Option<Place<'_>>
    ensures { option_map seen_place result ≡ spec.by_rip text.now }
{
    if ended(text) {
        return None;
    }
    tail(Base::Rip, None, true, text)
}

/// What stands between the brackets.
#[tactic(auto, unfolding(crate::specs::Operands::place_of))]
fn place_of(text: &[u8]) -> Option<Place<'_>>
    ensures { option_map seen_place result ≡ spec.place_of text.now }
{
    let first = first_word(text);
    if let Some(r) = register_of(64, first.word) {
        return first_register(r, first.rest);
    }
    if first.word == b"rip".as_slice() {
        by_rip(first.rest)
    } else {
        fixed(text)
    }
}

fn inside(text: &[u8]) -> usize
    ensures value { result ≡ prefix_len spec.is_inside text.now }
    ensures within { result ≤ length text.now }
{
    text.iter().take_while(|b| **b != b']').count()
}

/// Behind `[`: memory, `]` and nothing more.
#[tactic(auto, unfolding(crate::specs::Operands::bracketed))]
fn bracketed(text: &[u8]) -> Option<Place<'_>>
    ensures { option_map seen_place result ≡ spec.bracketed text.now }
{
    let (inner, rest) = text.split_at(inside(text));
    let behind = after_mark(rest, b']')?;
    if !ended(behind) {
        return None;
    }
    place_of(inner)
}

/// Memory behind a size word.
#[tactic(auto, unfolding(crate::specs::Operands::sized))]
fn sized(w: u8, text: &[u8]) -> Option<Named<'_>>
    ensures { option_map seen_named result ≡ spec.sized w text.now }
{
    let behind = after_mark(text, b'[')?;
    let p = bracketed(behind)?;
    Some(Named {
        operand: Operand::Sized {
            w,
            m: p.m,
            fits: p.fits,
        },
        name: p.name,
        addend: p.addend,
    })
}

/// The register of this name.
#[tactic(auto, unfolding(crate::specs::Operands::register))]
fn register_operand(word: &[u8]) -> Option<Operand>
    ensures { result ≡ spec.register word.now }
{
    if let Some(r) = register_of(64, word) {
        return Some(Operand::Register { w: 64, r: Reg(r) });
    }
    if let Some(r) = register_of(32, word) {
        return Some(Operand::Register { w: 32, r: Reg(r) });
    }
    if let Some(r) = register_of(16, word) {
        return Some(Operand::Register { w: 16, r: Reg(r) });
    }
    if let Some(r) = register_of(8, word) {
        return Some(Operand::Register { w: 8, r: Reg(r) });
    }
    let b = bounds_of(word)?;
    Some(Operand::Bounds(b))
}

/// A name with a number added.
#[tactic(auto, unfolding(crate::specs::Operands::added))]
fn added<'a>(operand: Operand, name: &'a [u8], text: &'a [u8]) -> Option<Named<'a>>
    ensures { option_map seen_named result ≡ spec.added operand name.now text.now }
{
    let x = addend_at(text)?;
    if !ended(x.rest) {
        return None;
    }
    Some(Named {
        operand,
        name,
        addend: x.number,
    })
}

/// `rel n`, a name or a local label.
#[tactic(auto, unfolding(crate::specs::Operands::named))]
fn name_operand<'a>(word: &'a [u8], text: &'a [u8]) -> Option<Named<'a>>
    ensures { option_map seen_named result ≡ spec.named word.now text.now }
{
    if word == b"rel".as_slice() {
        let n = number_alone(text)?;
        Some(bare(Operand::Relative(n)))
    } else if is_name(word) {
        added(Operand::Symbol, word, text)
    } else if is_local(word) {
        added(Operand::Local, word, text)
    } else {
        None
    }
}

/// An operand that begins with a word.
#[tactic(auto, unfolding(crate::specs::Operands::worded))]
fn worded<'a>(word: &'a [u8], text: &'a [u8]) -> Option<Named<'a>>
    ensures { option_map seen_named result ≡ spec.worded word.now text.now }
{
    match register_operand(word) {
        Some(x) => { if ended(text) { Some(bare(x)) } else { None } }
        None => name_operand(word, text),
    }
}

/// An operand that begins with no size word and no bracket.
#[tactic(auto, unfolding(crate::specs::Operands::plain_operand))]
fn plain_operand(text: &[u8]) -> Option<Named<'_>>
    ensures { option_map seen_named result ≡ spec.plain_operand text.now }
{
    if is_numeral(text) || after_mark(text, b'-').is_some() {
        let n = number_alone(text)?;
        return Some(bare(Operand::Number(n)));
    }
    let first = first_word(text);
    worded(first.word, first.rest)
}

/// Memory without a size word.
fn memory(text: &[u8]) -> Option<Named<'_>>
    ensures { option_map seen_named result ≡ option_map spec.memory (spec.bracketed text.now) }
{
    let p = bracketed(text)?;
    Some(Named {
        operand: Operand::Memory {
            m: p.m,
            fits: p.fits,
        },
        name: p.name,
        addend: p.addend,
    })
}

/// The operand that a text is.
#[tactic(auto, unfolding(crate::specs::Operands::operand_of))]
pub fn operand_of(text: &[u8]) -> Option<Named<'_>>
    ensures { option_map seen_named result ≡ spec.operand_of text.now }
{
    if let Some(behind) = after_mark(text, b'[') {
        return memory(behind);
    }
    let first = first_word(text);
    match size_of(first.word) {
        Some(w) => sized(w, first.rest),
        None => plain_operand(text),
    }
}
