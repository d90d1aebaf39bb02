//! The reader of the early form.
ghost use Rattle.std.specs.Prelude.{◌≡◌, ◌≤◌, ℕ, List, [], ◌∷◌, IfOk, MatchResult};
ghost use Rattle.c_reader.specs.EarlyForm.{tokens_of, IsEarly};
ghost use Rattle.c_reader.specs.EarlyReading as reading;
ghost use Rattle.c_reader.specs.EarlyReading.{Gives, GivesSeen, left};

use crate::early::{Act, Early, EarlyFault};
use crate::early_tokens::Cursor;
use std::alloc::Global;
use std::str;

/// How many bytes a text has at most.
const MOST_BYTES: usize = 65_536;

/// How many acts a program has at most.
const MOST_ACTS: usize = 1_000;

/// Whether a plus, or a 0 that is not all, stands in front.
fn begins_oddly(token: &[u8]) -> bool
    ensures { result ≡ reading.begins_oddly token.now }
{
    match token.first() {
        Some(first) => *first == b'+' || (*first == b'0' && token.len() > 1),
        None => false,
    }
}

/// The number up to 65,535 that has this decimal.
#[tactic(auto, using(crate::proofs::Numerals::numeral_odd, crate::proofs::Numerals::numeral_no_text, crate::proofs::Numerals::numeral_parsed))]
fn numeral(token: &[u8]) -> Option<u16>
    ensures { result ≡ reading.numeral token.now }
{
    if begins_oddly(token) {
        return None;
    }
    str::from_utf8(token).ok()?.parse().ok()
}

/// A lower-case letter.
fn letter(text: &mut Cursor) -> Result<u8, EarlyFault>
    ensures { Gives (reading.letter_of (left text.old)) result (left text.new) }
{
    match text.token() {
        Some([letter @ b'a'..=b'z']) => Ok(*letter),
        _ => Err(EarlyFault::Unbuilt),
    }
}

/// A number from `least` to `most`.
fn number(text: &mut Cursor, least: u16, most: u16) -> Result<u16, EarlyFault>
    ensures reads { Gives (reading.number_of least most (left text.old)) result (left text.new) }
    ensures within { IfOk result (λ n. n ≤ most) }
{
    let token = text.token().ok_or(EarlyFault::Unbuilt)?;
    let n = numeral(token).ok_or(EarlyFault::Unbuilt)?;
    if least <= n && n <= most {
        Ok(n)
    } else {
        Err(EarlyFault::Unbuilt)
    }
}

/// A number in brackets.
fn index(text: &mut Cursor, least: u16, most: u16) -> Result<u16, EarlyFault>
    ensures { Gives (reading.index_of least most (left text.old)) result (left text.new) }
{
    text.expect(b"[")?;
    let index = number(text, least, most)?;
    text.expect(b"]")?;
    Ok(index)
}

/// The index of an element of the array `name`.
fn element(text: &mut Cursor, name: u8) -> Result<u16, EarlyFault>
    ensures { Gives (reading.element_of (name ∷ []) (left text.old)) result (left text.new) }
{
    text.expect(&[name])?;
    index(text, 0, u16::MAX)
}

fn byte(text: &mut Cursor) -> Result<u8, EarlyFault>
    ensures { Gives (reading.number_of 0 255 (left text.old)) result (left text.new) }
{
    let value = number(text, 0, 255)?;
    Ok(value as u8)
}

/// `X[index] = value;`
fn write(text: &mut Cursor, name: u8) -> Result<Act, EarlyFault>
    ensures { Gives (reading.write_of (name ∷ []) (left text.old)) result (left text.new) }
{
    let index = element(text, name)?;
    text.expect(b"=")?;
    let value = byte(text)?;
    text.expect(b";")?;
    Ok(Act::Write { index, value })
}

/// `put(X[index]);` or `put(value);`
fn put(text: &mut Cursor, name: u8) -> Result<Act, EarlyFault>
    ensures { Gives (reading.put_of (name ∷ []) (left text.old)) result (left text.new) }
{
    text.expect_all(b"put(")?;
    if text.sees(&[name]) {
        let index = element(text, name)?;
        text.expect_all(b");")?;
        Ok(Act::PutAt(index))
    } else {
        let value = byte(text)?;
        text.expect_all(b");")?;
        Ok(Act::Put(value))
    }
}

#[tactic(auto, unfolding(crate::specs::EarlyReading::act_of))]
fn act(text: &mut Cursor, name: u8) -> Result<Act, EarlyFault>
    ensures { Gives (reading.act_of (name ∷ []) (left text.old)) result (left text.new) }
{
    if text.sees(b"put") {
        put(text, name)
    } else {
        write(text, name)
    }
}

/// The acts up to `return`.
#[tactic(auto, using(crate::proofs::Acts::after_none, crate::proofs::Acts::no_more_acts, crate::proofs::Acts::too_many_acts, crate::proofs::Acts::one_more_act))]
fn acts(alloc: Global, text: &mut Cursor, name: u8) -> Result<Vec<Act>, EarlyFault>
    ensures { GivesSeen (λ v. v.items) (reading.acts_of 1000 (name ∷ []) (left text.old)) result (left text.new) }
{
    let mut acts = Vec::new(alloc);
    while !text.sees(b"return") {
        if acts.len() == MOST_ACTS {
            return Err(EarlyFault::Unbuilt);
        }
        acts.push(act(text, name)?)?;
    }
    Ok(acts)
}

#[tactic(auto, unfolding(crate::specs::EarlyReading::program_of))]
fn program(alloc: Global, text: &mut Cursor) -> Result<Early, EarlyFault>
    ensures { GivesSeen reading.parts_of (reading.program_of (left text.old)) result (left text.new) }
{
    text.expect(b"char")?;
    let name = letter(text)?;
    let size = index(text, 1, 4_096)?;
    text.expect_all(b"; int main(void) {")?;
    let acts = acts(alloc, text, name)?;
    text.expect(b"return")?;
    let code = byte(text)?;
    text.expect_all(b"; }")?;
    Ok(Early { size, acts, code })
}

/// A program, with nothing after it.
#[tactic(auto, unfolding(crate::specs::EarlyReading::whole_of))]
fn whole(alloc: Global, text: &mut Cursor) -> Result<Early, EarlyFault>
    ensures { GivesSeen reading.parts_of (reading.whole_of (left text.old)) result (left text.new) }
{
    let early = program(alloc, text)?;
    if text.token().is_some() {
        return Err(EarlyFault::Unbuilt);
    }
    Ok(early)
}

/// The program of the early form that the bytes spell, or `Unbuilt` where they spell none.
#[tactic(auto, using(crate::proofs::Programs::found_only, crate::proofs::Programs::found_all))]
pub fn read_early(alloc: Global, bytes: &[u8]) -> Result<Early, EarlyFault>
    ensures ok { IfOk result (λ e. IsEarly bytes.now e.size e.acts.items e.code) }
    ensures only { (size : ℕ) (acts : List Act) (code : ℕ) → IsEarly bytes.now size acts code
        → MatchResult result (λ e. (e.size ≡ size) × (e.acts.items ≡ acts) × (e.code ≡ code))
        (λ fault. fault ≡ EarlyFault.OutOfMemory) }
{
    if bytes.len() > MOST_BYTES {
        return Err(EarlyFault::Unbuilt);
    }
    whole(alloc, &mut Cursor::new(bytes))
}
