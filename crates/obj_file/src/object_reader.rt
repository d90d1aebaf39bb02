//! The object that bytes spell.

ghost use Rattle.std.specs.Prelude.{◌≡◌, ℕ, ◌+◌, ◌<◌, ◌≤◌, List, [], Bool, true, length, IfOk, Ok};
ghost use Rattle.std.specs.List.{All};
ghost use Rattle.std.specs.Int.{w8, w32};
ghost use Rattle.std.specs.Str.{is_utf8};
ghost use Rattle.obj_file.specs.declared.object.Object.{Object};
ghost use Rattle.obj_file.specs.Fields.{Gives, Tells, many_at, counted_at, sized_at};
ghost use Rattle.obj_file.specs.Object as rule;
ghost use Rattle.obj_file.specs.Object.{IsObject, SpellsObject, after_symbol, fix_end, no_fix, after_spot};
ghost use Rattle.obj_file.specs.ObjectReading as spec;
ghost use Rattle.obj_file.specs.ObjectReading.{symbol_at, form_at, addend_at, fix_at, spot_at, head_at, object_at};

use crate::fault::{FormFault, Unread};
use crate::fields::{
    access_of, bytes_of, text_of, u8_at, u8_in, u32_in, u64_at, utf8_of, version_of,
};
use crate::lists::{Bytes, Text};
use crate::names::{is_c_name, is_data_sig, is_function_sig};
use crate::object::{Fix, Fixes, Object, Spot3, Spots3, Symbol, Symbols};
use crate::parts::{End, Head, Parts, Version};
use std::alloc::Global;

/// `MXO1` and `MXO2`.
const FIRST_MAGIC: u32 = 0x314F_584D;

const SECOND_MAGIC: u32 = 0x324F_584D;

const CODE: u8 = 1;

const DATA: u8 = 2;

#[tactic(auto, unfolding(crate::specs::Object::part_len))]
fn part_len(parts: Parts, part: u8) -> u32
    ensures { result ≡ rule.part_len parts part }
{
    match part {
        CODE => parts.code,
        DATA => parts.stored,
        _ => 0,
    }
}

fn is_taken(seen: &[Symbol], name: &[u8]) -> bool
    ensures { result ≡ rule.is_taken seen.now name.now }
{
    for symbol in seen {
        if symbol.name.as_str().as_bytes() == name {
            return true;
        }
    }
    false
}

#[tactic(auto, unfolding(crate::specs::Object::is_free_name))]
fn is_free_name(seen: &[Symbol], name: &[u8]) -> bool
    ensures { result ≡ rule.is_free_name seen.now name.now }
{
    is_c_name(name) && !is_taken(seen, name)
}

#[tactic(auto, unfolding(crate::specs::Object::suits))]
fn suits(part: u8, sig: &[u8]) -> bool
    ensures { result ≡ rule.suits part sig.now }
{
    sig.is_empty() || (is_function_sig(sig) && part != DATA) || (is_data_sig(sig) && part != CODE)
}

#[tactic(auto, using(crate::proofs::AsciiNames::free_names_are_text), unfolding(crate::specs::Fields::sized_at, crate::specs::Fields::checked, crate::specs::Fields::and_then))]
fn name_of<'a>(alloc: Global, seen: &[Symbol], bytes: &'a [u8]) -> Result<(Text, &'a [u8]), Unread>
    ensures { Gives (λ x. (x.0, x.1.now)) result (sized_at w8 1 64 (rule.is_free_name seen.now) bytes.now) }
{
    let (len, start) = u8_in(1, 64, bytes)?;
    let (name, rest) = bytes_of(usize::from(len), start)?;
    if !is_free_name(seen, name) {
        return Err(Unread::Left(start.len()));
    }
    let Some(text) = utf8_of(name) else {
        return Err(Unread::Left(start.len()));
    };
    Ok((Text::from_string(String::from_str(alloc, text)?), rest))
}

#[tactic(auto, using(crate::proofs::AsciiNames::signatures_are_text), unfolding(crate::specs::Fields::sized_at, crate::specs::Fields::checked, crate::specs::Fields::and_then))]
fn sig_of(alloc: Global, least: u8, part: u8, bytes: &[u8]) -> Result<(Text, &[u8]), Unread>
    ensures { Gives (λ x. (x.0, x.1.now)) result (sized_at w8 least 64 (rule.suits part) bytes.now) }
{
    let (len, start) = u8_in(least, 64, bytes)?;
    let (sig, rest) = bytes_of(usize::from(len), start)?;
    if !suits(part, sig) {
        return Err(Unread::Left(start.len()));
    }
    let Some(text) = utf8_of(sig) else {
        return Err(Unread::Left(start.len()));
    };
    Ok((Text::from_string(String::from_str(alloc, text)?), rest))
}

#[tactic(auto, unfolding(crate::specs::ObjectReading::symbol_at, crate::specs::Fields::and_then))]
fn symbol_of<'a>(
    alloc: Global,
    parts: Parts,
    seen: &[Symbol],
    bytes: &'a [u8],
) -> Result<(Symbol, &'a [u8]), Unread>
    ensures { Gives (λ x. (x.0, x.1.now)) result (symbol_at parts seen.now bytes.now) }
{
    let (part, rest) = u8_in(0, 3, bytes)?;
    let (offset, rest) = u32_in(0, u64::from(part_len(parts, part)) + 1, rest)?;
    let (name, rest) = name_of(alloc, seen, rest)?;
    let least = if parts.legacy { 0 } else { 1 };
    let (sig, rest) = sig_of(alloc, least, part, rest)?;
    Ok((
        Symbol {
            part,
            offset,
            name,
            sig,
        },
        rest,
    ))
}

fn fix_size(form: u8) -> u32
    ensures { result ≡ rule.fix_size form }
{
    if form == 0 { 8 } else { 4 }
}

fn free_from(before: End, part: u8) -> u32
    ensures { result ≡ rule.free_from before part }
{
    if part == before.part { before.at } else { 0 }
}

#[tactic(auto, unfolding(crate::specs::ObjectReading::form_at, crate::specs::Fields::checked, crate::specs::Fields::and_then))]
fn form_of(parts: Parts, part: u8, offset: u32, bytes: &[u8]) -> Result<(u8, &[u8]), Unread>
    ensures gives { Gives (λ x. (x.0, x.1.now)) result (form_at parts part offset bytes.now) }
    ensures within { IfOk result (λ x. offset + rule.fix_size x.0 < 4_294_967_296) }
{
    let (form, rest) = u8_at(bytes)?;
    let end = u64::from(offset) + u64::from(fix_size(form));
    if form >= 3 || end > u64::from(part_len(parts, part)) {
        return Err(Unread::Left(bytes.len()));
    }
    Ok((form, rest))
}

#[tactic(auto, unfolding(crate::specs::ObjectReading::addend_at, crate::specs::Fields::and_then))]
fn addend_of(bytes: &[u8]) -> Result<(i64, &[u8]), Unread>
    ensures { Gives (λ x. (x.0, x.1.now)) result (addend_at bytes.now) }
{
    let (number, rest) = u64_at(bytes)?;
    Ok((number.cast_signed(), rest))
}

#[tactic(auto, unfolding(crate::specs::ObjectReading::fix_at, crate::specs::Fields::and_then))]
fn fix_of(parts: Parts, symbols: u64, before: End, bytes: &[u8]) -> Result<(Fix, &[u8]), Unread>
    ensures gives { Gives (λ x. (x.0, x.1.now)) result (fix_at parts symbols before bytes.now) }
    ensures within { IfOk result (λ x. x.0.offset + rule.fix_size x.0.form < 4_294_967_296) }
{
    let (part, rest) = u8_in(before.part, 3, bytes)?;
    let (offset, rest) = u32_in(free_from(before, part), 1 << 32, rest)?;
    let (form, rest) = form_of(parts, part, offset, rest)?;
    let (symbol, rest) = u32_in(0, symbols, rest)?;
    let (addend, rest) = addend_of(rest)?;
    Ok((
        Fix {
            part,
            offset,
            form,
            symbol,
            addend,
        },
        rest,
    ))
}

#[tactic(auto, unfolding(crate::specs::ObjectReading::spot_at, crate::specs::Fields::and_then))]
fn spot_of(version: Version, code: u64, from: u32, bytes: &[u8]) -> Result<(Spot3, &[u8]), Unread>
    ensures gives { Gives (λ x. (x.0, x.1.now)) result (spot_at version code from bytes.now) }
    ensures within { IfOk result (λ x. x.0.offset < code) }
{
    let (offset, rest) = u32_in(from, code, bytes)?;
    let (line, rest) = u32_in(1, 1 << 32, rest)?;
    let (col, rest) = u32_in(1, 1 << 32, rest)?;
    let (access, rest) = access_of(version, rest)?;
    Ok((
        Spot3 {
            offset,
            line,
            col,
            kind: access.kind,
            size: access.size,
        },
        rest,
    ))
}

fn symbols_of(
    alloc: Global,
    parts: Parts,
    count: u32,
    bytes: &[u8],
) -> Result<(Vec<Symbol>, &[u8]), Unread>
    ensures { Gives (λ x. (x.0.items, x.1.now)) result (many_at (symbol_at parts) after_symbol count [] bytes.now) }
{
    let mut symbols = Vec::new(alloc);
    let mut rest = bytes;
    for _ in 0..count {
        let (symbol, after) = symbol_of(alloc, parts, symbols.as_slice(), rest)?;
        symbols.push(symbol)?;
        rest = after;
    }
    Ok((symbols, rest))
}

fn fixes_of(
    alloc: Global,
    parts: Parts,
    symbols: u64,
    count: u32,
    bytes: &[u8],
) -> Result<(Vec<Fix>, &[u8]), Unread>
    ensures { Gives (λ x. (x.0.items, x.1.now)) result (many_at (fix_at parts symbols) fix_end count no_fix bytes.now) }
{
    let mut fixes = Vec::new(alloc);
    let mut before = End { part: CODE, at: 0 };
    let mut rest = bytes;
    for _ in 0..count {
        let (fix, after) = fix_of(parts, symbols, before, rest)?;
        before = End {
            part: fix.part,
            at: fix.offset + fix_size(fix.form),
        };
        fixes.push(fix)?;
        rest = after;
    }
    Ok((fixes, rest))
}

fn spots_of(
    alloc: Global,
    version: Version,
    code: u64,
    count: u32,
    bytes: &[u8],
) -> Result<(Vec<Spot3>, &[u8]), Unread>
    requires { code < 4_294_967_296 }
    ensures { Gives (λ x. (x.0.items, x.1.now)) result (many_at (spot_at version code) after_spot count 0 bytes.now) }
{
    let mut spots = Vec::new(alloc);
    let mut from = 0;
    let mut rest = bytes;
    for _ in 0..count {
        let (spot, after) = spot_of(version, code, from, rest)?;
        from = spot.offset + 1;
        spots.push(spot)?;
        rest = after;
    }
    Ok((spots, rest))
}

#[tactic(auto, unfolding(crate::specs::Fields::counted_at, crate::specs::Fields::and_then))]
fn all_symbols(alloc: Global, parts: Parts, bytes: &[u8]) -> Result<(Symbols, &[u8]), Unread>
    ensures { Gives (λ x. (x.0, x.1.now)) result (counted_at (symbol_at parts) after_symbol 65_536 [] bytes.now) }
{
    let (count, rest) = u32_in(0, 65_537, bytes)?;
    let (symbols, rest) = symbols_of(alloc, parts, count, rest)?;
    Ok((Symbols::from_vec(symbols), rest))
}

#[tactic(auto, unfolding(crate::specs::Fields::counted_at, crate::specs::Fields::and_then))]
fn all_fixes(
    alloc: Global,
    parts: Parts,
    symbols: u64,
    bytes: &[u8],
) -> Result<(Fixes, &[u8]), Unread>
    ensures { Gives (λ x. (x.0, x.1.now)) result (counted_at (fix_at parts symbols) fix_end 1_048_576 no_fix bytes.now) }
{
    let (count, rest) = u32_in(0, 1_048_577, bytes)?;
    let (fixes, rest) = fixes_of(alloc, parts, symbols, count, rest)?;
    Ok((Fixes::from_vec(fixes), rest))
}

#[tactic(auto, unfolding(crate::specs::Fields::counted_at, crate::specs::Fields::and_then))]
fn all_spots(
    alloc: Global,
    version: Version,
    parts: Parts,
    bytes: &[u8],
) -> Result<(Spots3, &[u8]), Unread>
    ensures { Gives (λ x. (x.0, x.1.now)) result (counted_at (spot_at version parts.code) after_spot (rule.most_places parts.legacy) 0 bytes.now) }
{
    let most = if parts.legacy { 0 } else { 1_048_576 };
    let (count, rest) = u32_in(0, most + 1, bytes)?;
    let (spots, rest) = spots_of(alloc, version, u64::from(parts.code), count, rest)?;
    Ok((Spots3::from_vec(spots), rest))
}

#[tactic(auto, unfolding(crate::specs::Fields::sized_at, crate::specs::Fields::checked, crate::specs::Fields::and_then))]
fn held_of(alloc: Global, most: u32, bytes: &[u8]) -> Result<(Bytes, &[u8]), Unread>
    ensures gives { Gives (λ x. (x.0, x.1.now)) result (sized_at w32 0 (most + 1) (λ _. true) bytes.now) }
    ensures within { IfOk result (λ x. length x.0 ≤ most) }
{
    let (len, rest) = u32_in(0, u64::from(most) + 1, bytes)?;
    let (held, rest) = bytes_of(len as usize, rest)?;
    Ok((Bytes::from_vec(Vec::from_slice(alloc, held)?), rest))
}

#[tactic(auto, unfolding(crate::specs::ObjectReading::head_at, crate::specs::Fields::and_then))]
fn head_of(alloc: Global, bytes: &[u8]) -> Result<(Head, &[u8]), Unread>
    ensures gives { Gives (λ x. (x.0, x.1.now)) result (head_at bytes.now) }
    ensures code { IfOk result (λ x. length x.0.code ≤ 251_658_240) }
    ensures stored { IfOk result (λ x. length x.0.stored ≤ 16_777_216) }
{
    let (version, rest) = version_of(FIRST_MAGIC, SECOND_MAGIC, bytes)?;
    let (kind, rest) = u8_in(0, 2, rest)?;
    let legacy = kind == 0;
    let (file, rest) = text_of(alloc, 0, 256, rest)?;
    let most = if legacy { 16_777_216 } else { 251_658_240 };
    let (code, rest) = held_of(alloc, most, rest)?;
    let (stored, rest) = held_of(alloc, 16_777_216, rest)?;
    Ok((
        Head {
            version,
            legacy,
            file,
            code,
            stored,
        },
        rest,
    ))
}

#[tactic(auto, unfolding(crate::specs::ObjectReading::object_at, crate::specs::Fields::and_then))]
fn object_of(alloc: Global, bytes: &[u8]) -> Result<(Object, &[u8]), Unread>
    ensures { Gives (λ x. (x.0, x.1.now)) result (object_at bytes.now) }
{
    let (head, rest) = head_of(alloc, bytes)?;
    let parts = Parts {
        legacy: head.legacy,
        code: head.code.as_slice().len() as u32,
        stored: head.stored.as_slice().len() as u32,
    };
    let (symbols, rest) = all_symbols(alloc, parts, rest)?;
    let (fixes, rest) = all_fixes(alloc, parts, symbols.as_slice().len() as u64, rest)?;
    let (places, rest) = all_spots(alloc, head.version, parts, rest)?;
    let Head {
        version: _,
        legacy,
        file,
        code,
        stored,
    } = head;
    Ok((
        Object {
            legacy,
            file,
            code,
            stored,
            symbols,
            fixes,
            places,
        },
        rest,
    ))
}

#[tactic(auto, unfolding(crate::specs::ObjectReading::object_of, crate::specs::Fields::whole, crate::specs::Fields::and_then))]
fn whole_object(alloc: Global, bytes: &[u8]) -> Result<Object, FormFault>
    ensures { Tells result (spec.object_of bytes.now) }
{
    match object_of(alloc, bytes) {
        Ok((object, rest)) if rest.is_empty() => Ok(object),
        Ok((_, rest)) => Err(FormFault::BadForm {
            at: bytes.len().saturating_sub(rest.len()) as u64,
        }),
        Err(Unread::Left(left)) => Err(FormFault::BadForm {
            at: bytes.len().saturating_sub(left) as u64,
        }),
        Err(Unread::OutOfMemory) => Err(FormFault::OutOfMemory),
    }
}

/// The object that the bytes spell, all of them, in either version of the form. A place of the first version has kind 0. `BadForm` gives
/// the offset of the first field that is cut or breaks its rule, a length and its bytes being two fields, or else that of the first byte
/// after the last field.
pub fn read_object(alloc: Global, bytes: &[u8]) -> Result<Object, FormFault>
    // What is read is an object, and the bytes spell it: they are its spelling, or that of the first version, and no place has a known kind.
    ensures found { IfOk result (λ o. IsObject o × SpellsObject bytes.now o) }
    // Bytes that spell an object are read as that object, unless memory is wanting.
    ensures only { (o : Object) → IsObject o → SpellsObject bytes.now o → Tells result (Ok o) }
    // What its parts hold are bytes.
    ensures code { IfOk result (λ o. All (λ b. b < 256) o.code) }
    ensures stored { IfOk result (λ o. All (λ b. b < 256) o.stored) }
    // Which offset it is.
    ensures exact { Tells result (spec.object_of bytes.now) }
{
    whole_object(alloc, bytes)
}
