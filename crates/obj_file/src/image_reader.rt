//! The image that bytes spell.

ghost use Rattle.std.specs.Prelude.{◌≡◌, ℕ, ◌+◌, ◌<◌, ◌≤◌, length, IfOk, Ok};
ghost use Rattle.obj_file.specs.declared.image.Image.{Image};
ghost use Rattle.obj_file.specs.Fields.{Gives, Tells, many_at, counted_at};
ghost use Rattle.obj_file.specs.Image.{IsImage, SpellsImage, room_at, segment_end, after_place};
ghost use Rattle.obj_file.specs.ImageReading.{segment_start_at, segment_at, file_at, place_at, image_at};
ghost use Rattle.obj_file.specs.ImageReading as spec;
ghost use Rattle.obj_file.specs.StoreLaw.{HaveBytes};

use crate::fault::{FormFault, Unread};
use crate::fields::{access_of, bytes_of, text_of, u32_in, u64_at, u64_in, version_of};
use crate::image::{Files, Image, Segment, Segments, Spot4, Spots4};
use crate::lists::{Bytes, Text};
use crate::parts::Version;
use std::alloc::Global;

/// `MXI1` and `MXI2`.
const FIRST_MAGIC: u32 = 0x3149_584D;

const SECOND_MAGIC: u32 = 0x3249_584D;

const CODE: u64 = 0x0100_0000;

const CODE_END: u64 = 0x1100_0000;

const LEGACY: u64 = 0x1200_0000;

const LEGACY_END: u64 = 0x1300_0000;

const DATA: u64 = 0x2000_0000;

const DATA_END: u64 = 0x2100_0000;

/// How many bytes there are from an address to the end of its region; 0 where no segment may begin.
#[tactic(auto, unfolding(crate::specs::Image::room_at))]
fn room_at(at: u64) -> u64
    ensures room { result ≡ room_at at }
    ensures within { 0 < result → at + result ≤ 0x2100_0000 }
    ensures small { result ≤ 0x1000_0000 }
{
    if CODE <= at && at < CODE_END {
        CODE_END - at
    } else if LEGACY <= at && at < LEGACY_END {
        LEGACY_END - at
    } else if DATA <= at && at < DATA_END {
        DATA_END - at
    } else {
        0
    }
}

#[tactic(auto, unfolding(crate::specs::ImageReading::segment_start_at, crate::specs::Fields::checked, crate::specs::Fields::and_then))]
fn segment_start_of(from: u64, bytes: &[u8]) -> Result<(u64, &[u8]), Unread>
    ensures { Gives (λ x. (x.0, x.1.now)) result (segment_start_at from bytes.now) }
{
    let (at, rest) = u64_at(bytes)?;
    if at < from || room_at(at) == 0 {
        return Err(Unread::Left(bytes.len()));
    }
    Ok((at, rest))
}

#[tactic(auto, unfolding(crate::specs::ImageReading::segment_at, crate::specs::Fields::sized_at, crate::specs::Fields::checked, crate::specs::Fields::and_then))]
fn segment_of(alloc: Global, from: u64, bytes: &[u8]) -> Result<(Segment, &[u8]), Unread>
    ensures gives { Gives (λ x. (x.0, x.1.now)) result (segment_at from bytes.now) }
    ensures within { IfOk result (λ x. x.0.at + length x.0.bytes ≤ 0x2100_0000) }
{
    let (at, rest) = segment_start_of(from, bytes)?;
    let (len, rest) = u32_in(1, room_at(at) + 1, rest)?;
    let (held, rest) = bytes_of(len as usize, rest)?;
    let bytes = Bytes::from_vec(Vec::from_slice(alloc, held)?);
    Ok((Segment { at, bytes }, rest))
}

#[tactic(auto, unfolding(crate::specs::ImageReading::place_at, crate::specs::Fields::and_then))]
fn place_of(version: Version, files: u64, from: u64, bytes: &[u8]) -> Result<(Spot4, &[u8]), Unread>
    ensures gives { Gives (λ x. (x.0, x.1.now)) result (place_at version files from bytes.now) }
    ensures within { IfOk result (λ x. x.0.at < 0x1100_0000) }
{
    let (at, rest) = u64_in(from.max(CODE), CODE_END, bytes)?;
    let (file, rest) = u32_in(0, files, rest)?;
    let (line, rest) = u32_in(1, 1 << 32, rest)?;
    let (col, rest) = u32_in(1, 1 << 32, rest)?;
    let (access, rest) = access_of(version, rest)?;
    Ok((
        Spot4 {
            at,
            file,
            line,
            col,
            kind: access.kind,
            size: access.size,
        },
        rest,
    ))
}

#[tactic(auto, unfolding(crate::specs::ImageReading::file_at))]
fn file_of(alloc: Global, bytes: &[u8]) -> Result<(Text, &[u8]), Unread>
    ensures { Gives (λ x. (x.0, x.1.now)) result (file_at bytes.now) }
{
    text_of(alloc, 1, 256, bytes)
}

fn segments_of(alloc: Global, count: u32, bytes: &[u8]) -> Result<(Vec<Segment>, &[u8]), Unread>
    ensures { Gives (λ x. (x.0.items, x.1.now)) result (many_at segment_at segment_end count 0 bytes.now) }
{
    let mut segments = Vec::new(alloc);
    let mut from = 0;
    let mut rest = bytes;
    for _ in 0..count {
        let (segment, after) = segment_of(alloc, from, rest)?;
        from = segment.at + segment.bytes.as_slice().len() as u64;
        segments.push(segment)?;
        rest = after;
    }
    Ok((segments, rest))
}

fn files_of(alloc: Global, count: u32, bytes: &[u8]) -> Result<(Vec<Text>, &[u8]), Unread>
    ensures { Gives (λ x. (x.0.items, x.1.now)) result (many_at (λ (_ : ℕ). file_at) (λ n _. n) count 0 bytes.now) }
{
    let mut files = Vec::new(alloc);
    let mut rest = bytes;
    for _ in 0..count {
        let (file, after) = file_of(alloc, rest)?;
        files.push(file)?;
        rest = after;
    }
    Ok((files, rest))
}

fn places_of(
    alloc: Global,
    version: Version,
    files: u64,
    count: u32,
    bytes: &[u8],
) -> Result<(Vec<Spot4>, &[u8]), Unread>
    ensures { Gives (λ x. (x.0.items, x.1.now)) result (many_at (place_at version files) after_place count 0 bytes.now) }
{
    let mut places = Vec::new(alloc);
    let mut from = 0;
    let mut rest = bytes;
    for _ in 0..count {
        let (place, after) = place_of(version, files, from, rest)?;
        from = place.at + 1;
        places.push(place)?;
        rest = after;
    }
    Ok((places, rest))
}

#[tactic(auto, unfolding(crate::specs::Fields::counted_at, crate::specs::Fields::and_then))]
fn all_segments(alloc: Global, bytes: &[u8]) -> Result<(Segments, &[u8]), Unread>
    ensures { Gives (λ x. (x.0, x.1.now)) result (counted_at segment_at segment_end 262_144 0 bytes.now) }
{
    let (count, rest) = u32_in(0, 262_145, bytes)?;
    let (segments, rest) = segments_of(alloc, count, rest)?;
    Ok((Segments::from_vec(segments), rest))
}

#[tactic(auto, unfolding(crate::specs::Fields::counted_at, crate::specs::Fields::and_then))]
fn all_files(alloc: Global, bytes: &[u8]) -> Result<(Files, &[u8]), Unread>
    ensures { Gives (λ x. (x.0, x.1.now)) result (counted_at (λ (_ : ℕ). file_at) (λ n _. n) 65_536 0 bytes.now) }
{
    let (count, rest) = u32_in(0, 65_537, bytes)?;
    let (files, rest) = files_of(alloc, count, rest)?;
    Ok((Files::from_vec(files), rest))
}

#[tactic(auto, unfolding(crate::specs::Fields::counted_at, crate::specs::Fields::and_then))]
fn all_places(
    alloc: Global,
    version: Version,
    files: u64,
    bytes: &[u8],
) -> Result<(Spots4, &[u8]), Unread>
    ensures { Gives (λ x. (x.0, x.1.now)) result (counted_at (place_at version files) after_place 1_048_576 0 bytes.now) }
{
    let (count, rest) = u32_in(0, 1_048_577, bytes)?;
    let (places, rest) = places_of(alloc, version, files, count, rest)?;
    Ok((Spots4::from_vec(places), rest))
}

#[tactic(auto, unfolding(crate::specs::ImageReading::image_at, crate::specs::Fields::and_then))]
fn image_of(alloc: Global, bytes: &[u8]) -> Result<(Image, &[u8]), Unread>
    ensures { Gives (λ x. (x.0, x.1.now)) result (image_at bytes.now) }
{
    let (version, rest) = version_of(FIRST_MAGIC, SECOND_MAGIC, bytes)?;
    let (outers, rest) = u32_in(0, 65_537, rest)?;
    let (segments, rest) = all_segments(alloc, rest)?;
    let (files, rest) = all_files(alloc, rest)?;
    let (places, rest) = all_places(alloc, version, files.as_slice().len() as u64, rest)?;
    Ok((
        Image {
            outers,
            segments,
            files,
            places,
        },
        rest,
    ))
}

#[tactic(auto, unfolding(crate::specs::ImageReading::image_of, crate::specs::Fields::whole, crate::specs::Fields::and_then))]
fn whole_image(alloc: Global, bytes: &[u8]) -> Result<Image, FormFault>
    ensures { Tells result (spec.image_of bytes.now) }
{
    match image_of(alloc, bytes) {
        Ok((image, rest)) if rest.is_empty() => Ok(image),
        Ok((_, rest)) => Err(FormFault::BadForm {
            at: bytes.len().saturating_sub(rest.len()) as u64,
        }),
        Err(Unread::Left(left)) => Err(FormFault::BadForm {
            at: bytes.len().saturating_sub(left) as u64,
        }),
        Err(Unread::OutOfMemory) => Err(FormFault::OutOfMemory),
    }
}

/// The image that the bytes spell, all of them, in either version of the form. A place of the first version has kind 0. `BadForm` gives the offset of the first field that is cut or breaks its rule, a length and
/// its bytes being two fields, or else that of the first byte after the last field.
pub fn read_image(alloc: Global, bytes: &[u8]) -> Result<Image, FormFault>
    // What is read is an image, and the bytes spell it: they are its spelling, or that of the first version, and no place has a known kind.
    ensures found { IfOk result (λ v. IsImage v × SpellsImage bytes.now v) }
    // Bytes that spell an image are read as that image, unless memory is wanting.
    ensures only { (v : Image) → IsImage v → SpellsImage bytes.now v → Tells result (Ok v) }
    // What segments hold are bytes.
    ensures bytes { IfOk result (λ v. HaveBytes v.segments) }
    // Which offset it is.
    ensures exact { Tells result (spec.image_of bytes.now) }
{
    whole_image(alloc, bytes)
}
