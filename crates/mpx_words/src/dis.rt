//! The command `dis`: the text of the code of an object or image.
ghost use Rattle.std.specs.Prelude.{◌≡◌, ◌≤◌, ℕ, List, length, OnOk, IfOk};
ghost use Rattle.obj_file.specs.ImageReading.{image_of};
ghost use Rattle.obj_file.specs.Machine.{Reading};
ghost use Rattle.obj_file.specs.ObjectReading.{object_of};
ghost use Rattle.mpx_words.specs.Answers.{Answers};
ghost use Rattle.mpx_words.specs.Commands.{Dis};
ghost use Rattle.mpx_words.specs.Files as spec;
ghost use Rattle.mpx_words.specs.Files.{made_of, by_form, Makes, Yields, LoadCounts};
ghost use Rattle.mpx_words.specs.Listing.{is_code_at, code_of, codes_of, object_codes, image_codes, IsListing, AddsCode};
ghost use Rattle.mpx_words.specs.Outside.{Stream, shelf, stream, outside};

use crate::end::End;
use crate::load::{begins_object, load_bytes, refusal_of_form};
use crate::report::{print, report};
use disasm::all;
use mx_base::{Files, OutOfMemory, Sink};
use obj_file::{Segment, read_image, read_object};
use std::alloc::Global;

/// Whether an address is one of code.
fn is_code(at: u64) -> bool
    ensures { result ≡ is_code_at at }
{
    (0x0100_0000 <= at && at < 0x1100_0000) || (0x1200_0000 <= at && at < 0x1300_0000)
}

/// Adds the listing of a segment, if it has code.
fn list_segment(alloc: Global, segment: &Segment, out: &mut Vec<u8>) -> Result<(), OutOfMemory>
    ensures { OnOk result (AddsCode segment.now out.old.items out.new.items) }
{
    if !is_code(segment.at) {
        return Ok(());
    }
    match all(alloc, segment.bytes.as_slice()) {
        Ok(text) => match out.extend_from_slice(text.as_slice()) {
            Ok(()) => Ok(()),
            Err(_) => Err(OutOfMemory),
        },
        Err(OutOfMemory) => Err(OutOfMemory),
    }
}

/// The listing of the segments with code.
fn list_segments(alloc: Global, segments: &[Segment]) -> Result<Vec<u8>, OutOfMemory>
    ensures { IfOk result (λ text. IsListing (codes_of segments.now) text.items) }
{
    let mut out = Vec::new(alloc);
    let mut rest = segments;
    while let Some((segment, after)) = rest.split_first() {
        list_segment(alloc, segment, &mut out)?;
        rest = after;
    }
    Ok(out)
}

fn list_object(alloc: Global, bytes: &[u8]) -> Result<Vec<u8>, End>
    ensures { Makes (λ b. made_of object_codes (object_of b)) IsListing bytes.now result }
{
    match read_object(alloc, bytes) {
        Err(fault) => Err(refusal_of_form(fault)),
        Ok(object) => match all(alloc, object.code.as_slice()) {
            Ok(text) => Ok(text),
            Err(OutOfMemory) => Err(End::NoMemory),
        },
    }
}

fn list_image(alloc: Global, bytes: &[u8]) -> Result<Vec<u8>, End>
    ensures { Makes (λ b. made_of image_codes (image_of b)) IsListing bytes.now result }
{
    match read_image(alloc, bytes) {
        Err(fault) => Err(refusal_of_form(fault)),
        Ok(image) => match list_segments(alloc, image.segments.as_slice()) {
            Ok(text) => Ok(text),
            Err(OutOfMemory) => Err(End::NoMemory),
        },
    }
}

fn listing_of(alloc: Global, bytes: &[u8]) -> Result<Vec<u8>, End>
    ensures { Makes (by_form object_codes image_codes) IsListing bytes.now result }
{
    if begins_object(bytes) {
        list_object(alloc, bytes)
    } else {
        list_image(alloc, bytes)
    }
}

/// The listing of the object or image in a file.
fn listing<F: Files>(alloc: Global, files: &mut F, name: &str) -> Result<Vec<u8>, End>
    ensures yields { Yields (by_form object_codes image_codes) IsListing (F.contents files.old name.now) result }
    ensures contents { (n : List ℕ) → F.contents files.new n ≡ F.contents files.old n }
    ensures counts { LoadCounts result (F.read_faults files.old) (F.read_faults files.new) }
    ensures write_faults { F.write_faults files.new ≡ F.write_faults files.old }
{
    match load_bytes(alloc, files, name) {
        Err(end) => Err(end),
        Ok(bytes) => listing_of(alloc, bytes.as_slice()),
    }
}

/// Puts the text of the code of an object or image, and answers the exit status.
pub fn run_dis<F: Files, O: Sink, E: Sink>(
    alloc: Global,
    name: &str,
    files: &mut F,
    out: &mut O,
    err: &mut E,
) -> u8
    requires { length name.now ≤ 255 }
    ensures { (reads : List ℕ → Reading) (input : Stream) → Answers reads (Dis name.now)
        (outside (shelf (F.contents files.old) (F.read_faults files.old) (F.write_faults files.old))
        input
        (stream (O.held out.old) (O.faults out.old))
        (stream (E.held err.old) (E.faults err.old)))
        (outside (shelf (F.contents files.new) (F.read_faults files.new) (F.write_faults files.new))
        input
        (stream (O.held out.new) (O.faults out.new))
        (stream (E.held err.new) (E.faults err.new))) result }
{
    match listing(alloc, files, name) {
        Err(end) => report(err, name, end),
        Ok(text) => print(out, err, text.as_slice()),
    }
}
