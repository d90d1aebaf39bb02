//! Commands that make one file of another.
ghost use Rattle.std.specs.Prelude.{◌≡◌, ◌≤◌, ℕ, List, length, MatchOption};
ghost use Rattle.asm_text.specs.Assembly.{assembled};
ghost use Rattle.obj_file.specs.Image.{image_spelling};
ghost use Rattle.obj_file.specs.ImageReading.{image_of};
ghost use Rattle.obj_file.specs.Machine.{Reading};
ghost use Rattle.obj_file.specs.Object.{object_spelling};
ghost use Rattle.obj_file.specs.ObjectReading.{object_of};
ghost use Rattle.mpx_words.specs.Answers.{Answers};
ghost use Rattle.mpx_words.specs.Commands.{Make};
ghost use Rattle.mpx_words.specs.Files.{file_limit, made_of, made_of_lines, by_form, Makes, Yields, IsText, LoadCounts};
ghost use Rattle.mpx_words.specs.Makings as spec;
ghost use Rattle.mpx_words.specs.Makings.{word_of, made_by};
ghost use Rattle.mpx_words.specs.Outside.{Stream, shelf, stream, outside};

use crate::end::End;
use crate::load::{begins_object, load_bytes, refusal_of_form};
use crate::report::report;
use crate::word::{is_assembly, is_file};
use asm_text::AsmFault;
use assembler::assemble;
use mx_base::{Failed, Files, OutOfMemory, Sink};
use obj_file::{read_image, read_object, write_image, write_object};
use std::alloc::Global;

/// What is made of a file.
#[derive(Clone, Copy, Debug, PartialEq, Eq)]
pub enum Making {
    /// The newest form of an object or image of either version.
    Migrate,
    /// The object of a text of assembly.
    Assemble,
}

impl Making {
    /// Whether a word names a file for it.
    pub fn takes(self, word: &str) -> bool
        ensures { result ≡ spec.takes self word.now }
    {
        match self {
            Making::Migrate => is_file(word),
            Making::Assemble => is_assembly(word),
        }
    }
}

/// The making whose name the word is.
pub fn making_of(word: &str) -> Option<Making>
    ensures { MatchOption result ((m : Making) → word.now ≡ word_of m → ⊥) (λ m. word.now ≡ word_of m) }
{
    if word == "migrate" {
        Some(Making::Migrate)
    } else if word == "asm" {
        Some(Making::Assemble)
    } else {
        None
    }
}

fn object_again(alloc: Global, bytes: &[u8]) -> Result<Vec<u8>, End>
    ensures { Makes (λ b. made_of object_spelling (object_of b)) IsText bytes.now result }
{
    match read_object(alloc, bytes) {
        Err(fault) => Err(refusal_of_form(fault)),
        Ok(object) => match write_object(alloc, &object) {
            Ok(spelling) => Ok(spelling),
            Err(OutOfMemory) => Err(End::NoMemory),
        },
    }
}

fn image_again(alloc: Global, bytes: &[u8]) -> Result<Vec<u8>, End>
    ensures { Makes (λ b. made_of image_spelling (image_of b)) IsText bytes.now result }
{
    match read_image(alloc, bytes) {
        Err(fault) => Err(refusal_of_form(fault)),
        Ok(image) => match write_image(alloc, &image) {
            Ok(spelling) => Ok(spelling),
            Err(OutOfMemory) => Err(End::NoMemory),
        },
    }
}

/// The newest form of an object or image.
fn spelled_again(alloc: Global, bytes: &[u8]) -> Result<Vec<u8>, End>
    ensures { Makes (by_form object_spelling image_spelling) IsText bytes.now result }
{
    if begins_object(bytes) {
        object_again(alloc, bytes)
    } else {
        image_again(alloc, bytes)
    }
}

/// The object of a text of assembly.
fn assembled_text(alloc: Global, text: &[u8]) -> Result<Vec<u8>, End>
    requires { length text.now ≤ file_limit }
    ensures { Makes (λ b. made_of_lines object_spelling (assembled b)) IsText text.now result }
{
    match assemble(alloc, text) {
        Err(AsmFault::Line { line, kind }) => Err(End::BadLine { line, kind }),
        Err(AsmFault::OutOfMemory) => Err(End::NoMemory),
        Ok(object) => match write_object(alloc, &object) {
            Ok(spelling) => Ok(spelling),
            Err(OutOfMemory) => Err(End::NoMemory),
        },
    }
}

fn made_of_bytes(alloc: Global, making: Making, bytes: &[u8]) -> Result<Vec<u8>, End>
    requires { length bytes.now ≤ file_limit }
    ensures { Makes (made_by making) IsText bytes.now result }
{
    match making {
        Making::Migrate => spelled_again(alloc, bytes),
        Making::Assemble => assembled_text(alloc, bytes),
    }
}

/// What is made of a file.
fn made_of_file<F: Files>(
    alloc: Global,
    making: Making,
    files: &mut F,
    name: &str,
) -> Result<Vec<u8>, End>
    ensures yields { Yields (made_by making) IsText (F.contents files.old name.now) result }
    ensures contents { (n : List ℕ) → F.contents files.new n ≡ F.contents files.old n }
    ensures counts { LoadCounts result (F.read_faults files.old) (F.read_faults files.new) }
    ensures write_faults { F.write_faults files.new ≡ F.write_faults files.old }
{
    match load_bytes(alloc, files, name) {
        Err(end) => Err(end),
        Ok(bytes) => made_of_bytes(alloc, making, bytes.as_slice()),
    }
}

/// Writes to a file what is made of another, and answers the exit status.
pub fn run_making<F: Files, E: Sink>(
    alloc: Global,
    making: Making,
    to: &str,
    name: &str,
    files: &mut F,
    err: &mut E,
) -> u8
    requires { length name.now ≤ 255 }
    ensures { (reads : List ℕ → Reading) (input out : Stream) → Answers reads (Make making to.now name.now)
        (outside (shelf (F.contents files.old) (F.read_faults files.old) (F.write_faults files.old))
        input out
        (stream (E.held err.old) (E.faults err.old)))
        (outside (shelf (F.contents files.new) (F.read_faults files.new) (F.write_faults files.new))
        input out
        (stream (E.held err.new) (E.faults err.new))) result }
{
    match made_of_file(alloc, making, files, name) {
        Err(end) => report(err, name, end),
        Ok(bytes) => match files.write_all(to, bytes.as_slice()) {
            Ok(()) => 0,
            Err(Failed) => report(err, name, End::WriteFault),
        },
    }
}
