//! Fields at the front of bytes: each gives its value and the bytes after it.

ghost use Rattle.std.specs.Prelude.{◌≡◌, ◌<◌, ◌≤◌, Bool, true, false, length, IfOk, MatchOption};
ghost use Rattle.std.specs.Int.{w8, w32, w64};
ghost use Rattle.std.specs.Str.{is_utf8};
ghost use Rattle.obj_file.specs.Fields.{Gives, number_at, number_in, bytes_at, sized_at};
ghost use Rattle.obj_file.specs.Versions.{version_at, access_at};

use crate::fault::Unread;
use crate::lists::Text;
use crate::parts::{Access, Version};
use std::alloc::Global;

/// A number of 8 bits.
#[tactic(auto, unfolding(crate::specs::Fields::number_at))]
pub fn u8_at(bytes: &[u8]) -> Result<(u8, &[u8]), Unread>
    ensures { Gives (λ x. (x.0, x.1.now)) result (number_at w8 bytes.now) }
{
    match bytes {
        [] => Err(Unread::Left(0)),
        [b, rest @ ..] => Ok((*b, rest)),
    }
}

#[tactic(auto, unfolding(crate::specs::Fields::number_at))]
fn u32_at(bytes: &[u8]) -> Result<(u32, &[u8]), Unread>
    ensures { Gives (λ x. (x.0, x.1.now)) result (number_at w32 bytes.now) }
{
    if bytes.len() < 4 {
        return Err(Unread::Left(bytes.len()));
    }
    let (front, rest) = bytes.split_at(4);
    let number = u32::from_le_bytes([front[0], front[1], front[2], front[3]]);
    Ok((number, rest))
}

/// A number of 64 bits.
#[tactic(auto, unfolding(crate::specs::Fields::number_at))]
pub fn u64_at(bytes: &[u8]) -> Result<(u64, &[u8]), Unread>
    ensures { Gives (λ x. (x.0, x.1.now)) result (number_at w64 bytes.now) }
{
    if bytes.len() < 8 {
        return Err(Unread::Left(bytes.len()));
    }
    let (front, rest) = bytes.split_at(8);
    let number = u64::from_le_bytes([
        front[0], front[1], front[2], front[3], front[4], front[5], front[6], front[7],
    ]);
    Ok((number, rest))
}

/// A number of 8 bits from `low` on and below `end`.
#[tactic(auto, unfolding(crate::specs::Fields::number_in, crate::specs::Fields::checked, crate::specs::Fields::and_then))]
pub fn u8_in(low: u8, end: u16, bytes: &[u8]) -> Result<(u8, &[u8]), Unread>
    ensures gives { Gives (λ x. (x.0, x.1.now)) result (number_in w8 low end bytes.now) }
    ensures within { IfOk result (λ x. (low ≤ x.0) × (x.0 < end)) }
{
    let (number, rest) = u8_at(bytes)?;
    if number < low || u16::from(number) >= end {
        return Err(Unread::Left(bytes.len()));
    }
    Ok((number, rest))
}

/// A number of 32 bits from `low` on and below `end`.
#[tactic(auto, unfolding(crate::specs::Fields::number_in, crate::specs::Fields::checked, crate::specs::Fields::and_then))]
pub fn u32_in(low: u32, end: u64, bytes: &[u8]) -> Result<(u32, &[u8]), Unread>
    ensures gives { Gives (λ x. (x.0, x.1.now)) result (number_in w32 low end bytes.now) }
    ensures within { IfOk result (λ x. (low ≤ x.0) × (x.0 < end)) }
{
    let (number, rest) = u32_at(bytes)?;
    if number < low || u64::from(number) >= end {
        return Err(Unread::Left(bytes.len()));
    }
    Ok((number, rest))
}

/// A number of 64 bits from `low` on and below `end`.
#[tactic(auto, unfolding(crate::specs::Fields::number_in, crate::specs::Fields::checked, crate::specs::Fields::and_then))]
pub fn u64_in(low: u64, end: u64, bytes: &[u8]) -> Result<(u64, &[u8]), Unread>
    ensures gives { Gives (λ x. (x.0, x.1.now)) result (number_in w64 low end bytes.now) }
    ensures within { IfOk result (λ x. (low ≤ x.0) × (x.0 < end)) }
{
    let (number, rest) = u64_at(bytes)?;
    if number < low || number >= end {
        return Err(Unread::Left(bytes.len()));
    }
    Ok((number, rest))
}

/// So many bytes.
#[tactic(auto, unfolding(crate::specs::Fields::bytes_at))]
pub fn bytes_of(len: usize, bytes: &[u8]) -> Result<(&[u8], &[u8]), Unread>
    ensures gives { Gives (λ x. (x.0.now, x.1.now)) result (bytes_at len bytes.now) }
    ensures len { IfOk result (λ x. length x.0.now ≡ len) }
{
    if bytes.len() < len {
        return Err(Unread::Left(bytes.len()));
    }
    Ok(bytes.split_at(len))
}

/// The bytes as a text, if they are UTF-8.
pub fn utf8_of(bytes: &[u8]) -> Option<&str>
    ensures { MatchOption result (is_utf8 bytes.now ≡ false) (λ text. (is_utf8 bytes.now ≡ true) × (text.now ≡ bytes.now)) }
{
    match str::from_utf8(bytes) {
        Ok(text) => Some(text),
        Err(_) => None,
    }
}

/// A length of 8 bits from `low` on and below `end`, and so many bytes of a text.
#[tactic(auto, unfolding(crate::specs::Fields::sized_at, crate::specs::Fields::checked, crate::specs::Fields::and_then))]
pub fn text_of(alloc: Global, low: u8, end: u16, bytes: &[u8]) -> Result<(Text, &[u8]), Unread>
    ensures { Gives (λ x. (x.0, x.1.now)) result (sized_at w8 low end is_utf8 bytes.now) }
{
    let (len, start) = u8_in(low, end, bytes)?;
    let (name, rest) = bytes_of(usize::from(len), start)?;
    let Some(text) = utf8_of(name) else {
        return Err(Unread::Left(start.len()));
    };
    Ok((Text::from_string(String::from_str(alloc, text)?), rest))
}

/// The version of a form, by its magic number: `first` or `second`.
#[tactic(auto, unfolding(crate::specs::Versions::version_at, crate::specs::Fields::and_then))]
pub fn version_of(first: u32, second: u32, bytes: &[u8]) -> Result<(Version, &[u8]), Unread>
    ensures { Gives (λ x. (x.0, x.1.now)) result (version_at first second bytes.now) }
{
    let (magic, rest) = u32_at(bytes)?;
    if magic == first {
        Ok((Version::First, rest))
    } else if magic == second {
        Ok((Version::Second, rest))
    } else {
        Err(Unread::Left(bytes.len()))
    }
}

/// The access of a place: its kind and its size, of which the first version tells nothing.
#[tactic(auto, unfolding(crate::specs::Versions::access_at, crate::specs::Fields::and_then))]
pub fn access_of(version: Version, bytes: &[u8]) -> Result<(Access, &[u8]), Unread>
    ensures { Gives (λ x. (x.0, x.1.now)) result (access_at version bytes.now) }
{
    match version {
        Version::First => Ok((Access { kind: 0, size: 0 }, bytes)),
        Version::Second => {
            let (kind, rest) = u8_in(0, 3, bytes)?;
            let (least, most) = if kind == 0 { (0, 0) } else { (1, 16_777_216) };
            let (size, rest) = u32_in(least, most + 1, rest)?;
            Ok((Access { kind, size }, rest))
        }
    }
}
