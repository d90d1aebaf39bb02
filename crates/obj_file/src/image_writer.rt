//! An image in bytes.

ghost use Rattle.std.specs.Prelude.{◌≡◌, ◌++◌, ◌^◌, ◌<◌, length, OnOk, IfOk};
ghost use Rattle.std.specs.List.{All};
ghost use Rattle.obj_file.specs.InTurn.{counted};
ghost use Rattle.obj_file.specs.Image.{IsImage, image_spelling, segment_text, file_text, place_text};
ghost use Rattle.obj_file.specs.declared.parts.Version.TheVariants.{Second};

use crate::image::{Image, Segment, Spot4};
use crate::lists::Text;
use crate::put::{put_access, put_long, put_short, put_u32, put_u64};
use mx_base::OutOfMemory;
use std::alloc::{AllocError, Global};

/// `MXI2`.
const MAGIC: u32 = 0x3249_584D;

#[tactic(auto, unfolding(crate::specs::Image::segment_text))]
fn put_segment(out: &mut Vec<u8>, segment: &Segment) -> Result<(), AllocError>
    requires { length segment.now.bytes < 2 ^ 32 }
    ensures { OnOk result (out.new.items ≡ out.old.items ++ segment_text segment.now) }
{
    put_u64(out, segment.at)?;
    put_long(out, segment.bytes.as_slice())
}

#[tactic(auto, unfolding(crate::specs::Image::place_text))]
fn put_place(out: &mut Vec<u8>, place: &Spot4) -> Result<(), AllocError>
    ensures { OnOk result (out.new.items ≡ out.old.items ++ place_text Second place.now) }
{
    put_u64(out, place.at)?;
    put_u32(out, place.file)?;
    put_u32(out, place.line)?;
    put_u32(out, place.col)?;
    put_access(out, place.kind, place.size)
}

#[tactic(auto, unfolding(crate::specs::InTurn::counted))]
fn put_segments(out: &mut Vec<u8>, segments: &[Segment]) -> Result<(), AllocError>
    requires few { length segments.now < 2 ^ 32 }
    requires short { All (λ s. length s.bytes < 2 ^ 32) segments.now }
    ensures { OnOk result (out.new.items ≡ out.old.items ++ counted segment_text segments.now) }
{
    put_u32(out, segments.len() as u32)?;
    for segment in segments {
        put_segment(out, segment)?;
    }
    Ok(())
}

#[tactic(auto, unfolding(crate::specs::InTurn::counted, crate::specs::Image::file_text))]
fn put_files(out: &mut Vec<u8>, files: &[Text]) -> Result<(), AllocError>
    requires few { length files.now < 2 ^ 32 }
    requires short { All (λ name. length name < 256) files.now }
    ensures { OnOk result (out.new.items ≡ out.old.items ++ counted file_text files.now) }
{
    put_u32(out, files.len() as u32)?;
    for file in files {
        put_short(out, file.as_str().as_bytes())?;
    }
    Ok(())
}

#[tactic(auto, unfolding(crate::specs::InTurn::counted))]
fn put_places(out: &mut Vec<u8>, places: &[Spot4]) -> Result<(), AllocError>
    requires { length places.now < 2 ^ 32 }
    ensures { OnOk result (out.new.items ≡ out.old.items ++ counted (place_text Second) places.now) }
{
    put_u32(out, places.len() as u32)?;
    for place in places {
        put_place(out, place)?;
    }
    Ok(())
}

/// The one spelling of an image.
#[tactic(auto, unfolding(crate::specs::Image::image_text))]
pub fn write_image(alloc: Global, i: &Image) -> Result<Vec<u8>, OutOfMemory>
    requires { IsImage i.now }
    ensures { IfOk result (λ bytes. bytes.items ≡ image_spelling i.now) }
{
    let mut out = Vec::new(alloc);
    put_u32(&mut out, MAGIC)?;
    put_u32(&mut out, i.outers)?;
    put_segments(&mut out, i.segments.as_slice())?;
    put_files(&mut out, i.files.as_slice())?;
    put_places(&mut out, i.places.as_slice())?;
    Ok(out)
}
