//! The command `link`: the objects in files, as one image.
ghost use Rattle.std.specs.Prelude.{◌≡◌, ◌≢◌, ◌≤◌, ◌<◌, ◌^◌, ℕ, List, map, string_bytes, ◌++◌, length, OnOk, IfOk, IfErr};
ghost use Rattle.std.specs.Fmt.{decimal};
ghost use Rattle.std.specs.List.{All};
ghost use Rattle.obj_file.specs.Machine.{Reading};
ghost use Rattle.obj_file.specs.Object.{IsObject};
ghost use Rattle.mpx_words.specs.declared.end.End.TheVariants.{ReadFault};
ghost use Rattle.mpx_words.specs.Answers.{Answers};
ghost use Rattle.mpx_words.specs.Commands.{Link};
ghost use Rattle.mpx_words.specs.Files.{LoadCounts};
ghost use Rattle.mpx_words.specs.Linking.{LoadsEach, ReadsEach, SpellsLinked, SpellsImageOf, IsImageOfTexts, MayLink, UnlinkedCounts, RefusedCounts, AreShort, IsShortUnlinked, WasRead, text_of_fault, line_of_fault};
ghost use Rattle.mpx_words.specs.Sinks.{ReportsFault};
ghost use Rattle.mpx_words.specs.Outside.{Stream, shelf, stream, outside};

use crate::end::End;
use crate::load::{load_bytes, refusal_of_form};
use crate::report::{report, report_line};
use itoa::Buffer;
use mx_base::{Failed, Files, OutOfMemory, Sink};
use obj_file::{Bytes, Object, read_object, write_image};
use obj_linker::{LinkFault, link};
use std::alloc::Global;

/// A file that is refused, by its name, and how the command ends.
#[derive(Clone, Copy, Debug, PartialEq, Eq)]
pub struct Refused<'a> {
    pub file: &'a str,
    pub end: End,
}

/// Why files have no image.
#[derive(Drop)]
pub enum Unlinked<'a> {
    File(Refused<'a>),
    Link(LinkFault),
}

/// The bytes of each file.
fn read_files<'a, F: Files>(
    alloc: Global,
    files: &mut F,
    names: &'a [String],
) -> Result<Vec<Bytes>, Refused<'a>>
    requires { AreShort (map string_bytes names.now) }
    ensures short { IfErr result (λ r. length r.file.now ≤ 255) }
    ensures few { IfOk result (λ texts. length texts.items ≤ length names.now) }
    ensures loads { LoadsEach (F.contents files.old) (map string_bytes names.now) result }
    ensures contents { (n : List ℕ) → F.contents files.new n ≡ F.contents files.old n }
    ensures counts { RefusedCounts result (F.read_faults files.old) (F.read_faults files.new) }
    ensures write_faults { F.write_faults files.new ≡ F.write_faults files.old }
{
    let mut texts = Vec::new(alloc);
    let mut rest = names;
    while let Some((name, after)) = rest.split_first() {
        let file = name.as_str();
        match load_bytes(alloc, files, file) {
            Err(end) => return Err(Refused { file, end }),
            Ok(bytes) => match texts.push(Bytes::from_vec(bytes)) {
                Ok(()) => rest = after,
                Err(_) => {
                    let end = End::NoMemory;
                    return Err(Refused { file, end });
                }
            },
        }
    }
    Ok(texts)
}

/// The object of each file, by their bytes.
fn read_objects<'a>(
    alloc: Global,
    names: &'a [String],
    texts: &[Bytes],
) -> Result<Vec<Object>, Refused<'a>>
    requires { AreShort (map string_bytes names.now) }
    ensures short { IfErr result (λ r. length r.file.now ≤ 255) }
    ensures was_read { IfErr result (λ r. r.end ≢ ReadFault) }
    ensures reads { ReadsEach (map string_bytes names.now) texts.now result }
    ensures objects { IfOk result (λ objects. All IsObject objects.items) }
    ensures few { IfOk result (λ objects. length objects.items ≤ length texts.now) }
{
    let mut objects = Vec::new(alloc);
    let mut rest = texts;
    let mut names = names;
    while let Some((bytes, after)) = rest.split_first() {
        let Some((name, others)) = names.split_first() else {
            return Ok(objects);
        };
        let file = name.as_str();
        match read_object(alloc, bytes.as_slice()) {
            Err(fault) => {
                let end = refusal_of_form(fault);
                return Err(Refused { file, end });
            }
            Ok(object) => match objects.push(object) {
                Ok(()) => {
                    rest = after;
                    names = others;
                }
                Err(_) => {
                    let end = End::NoMemory;
                    return Err(Refused { file, end });
                }
            },
        }
    }
    Ok(objects)
}

/// The spelling of the image of objects.
fn spell_linked(alloc: Global, objects: &[Object]) -> Result<Vec<u8>, LinkFault>
    requires few { length objects.now < 2 ^ 32 }
    requires objects { All IsObject objects.now }
    ensures { SpellsLinked objects.now result }
{
    let image = link(alloc, objects)?;
    match write_image(alloc, &image) {
        Ok(bytes) => Ok(bytes),
        Err(OutOfMemory) => Err(LinkFault::OutOfMemory),
    }
}

/// The spelling of the image of the objects in files, by their bytes.
fn spell_texts<'a>(
    alloc: Global,
    names: &'a [String],
    texts: &[Bytes],
) -> Result<Vec<u8>, Unlinked<'a>>
    requires few { length texts.now < 2 ^ 32 }
    requires short { AreShort (map string_bytes names.now) }
    ensures short { IfErr result IsShortUnlinked }
    ensures was_read { IfErr result WasRead }
    ensures spells { SpellsImageOf (IsImageOfTexts (map string_bytes names.now) texts.now) result }
{
    match read_objects(alloc, names, texts) {
        Err(refused) => Err(Unlinked::File(refused)),
        Ok(objects) => match spell_linked(alloc, objects.as_slice()) {
            Ok(bytes) => Ok(bytes),
            Err(fault) => Err(Unlinked::Link(fault)),
        },
    }
}

/// The spelling of the image of the objects in files.
fn spell_files<'a, F: Files>(
    alloc: Global,
    files: &mut F,
    names: &'a [String],
) -> Result<Vec<u8>, Unlinked<'a>>
    requires few { length names.now < 2 ^ 32 }
    requires short { AreShort (map string_bytes names.now) }
    ensures short { IfErr result IsShortUnlinked }
    ensures spells { SpellsImageOf (MayLink (F.contents files.old) (map string_bytes names.now)) result }
    ensures contents { (n : List ℕ) → F.contents files.new n ≡ F.contents files.old n }
    ensures counts { UnlinkedCounts result (F.read_faults files.old) (F.read_faults files.new) }
    ensures write_faults { F.write_faults files.new ≡ F.write_faults files.old }
{
    match read_files(alloc, files, names) {
        Err(refused) => Err(Unlinked::File(refused)),
        Ok(texts) => spell_texts(alloc, names, texts.as_slice()),
    }
}

fn put(line: &mut Vec<u8>, text: &[u8]) -> Result<(), OutOfMemory>
    ensures { OnOk result (line.new.items ≡ line.old.items ++ text.now) }
{
    match line.extend_from_slice(text) {
        Ok(()) => Ok(()),
        Err(_) => Err(OutOfMemory),
    }
}

fn put_named(line: &mut Vec<u8>, text: &[u8], name: &str) -> Result<(), OutOfMemory>
    ensures { OnOk result (line.new.items ≡ line.old.items ++ (text.now ++ name.now)) }
{
    put(line, text)?;
    put(line, name.as_bytes())
}

fn put_counted(line: &mut Vec<u8>, text: &[u8], n: u64) -> Result<(), OutOfMemory>
    ensures { OnOk result (line.new.items ≡ line.old.items ++ (text.now ++ decimal n)) }
{
    put(line, text)?;
    let mut buffer = Buffer::new();
    put(line, buffer.format(n).as_bytes())
}

fn put_fault(line: &mut Vec<u8>, fault: &LinkFault) -> Result<(), OutOfMemory>
    ensures { OnOk result (line.new.items ≡ line.old.items ++ text_of_fault fault.now) }
{
    match fault {
        LinkFault::Twice(name) => put_named(line, b"Twice ", name.as_str()),
        LinkFault::Missing(name) => put_named(line, b"Missing ", name.as_str()),
        LinkFault::Clash(name) => put_named(line, b"Clash ", name.as_str()),
        LinkFault::NoMain => put(line, b"NoMain"),
        LinkFault::ManyFunctions(n) => put_counted(line, b"ManyFunctions ", *n),
        LinkFault::CodeLarge(n) => put_counted(line, b"CodeLarge ", *n),
        LinkFault::LegacyLarge(n) => put_counted(line, b"LegacyLarge ", *n),
        LinkFault::GlobalsLarge(n) => put_counted(line, b"GlobalsLarge ", *n),
        LinkFault::ImageLarge(n) => put_counted(line, b"ImageLarge ", *n),
        LinkFault::FarFix { object, fix } => {
            put_counted(line, b"FarFix ", u64::from(*object))?;
            put_counted(line, b" ", u64::from(*fix))
        }
        LinkFault::OutOfMemory => put(line, b"OutOfMemory"),
    }
}

/// The line for a fault of a link.
fn fault_line(alloc: Global, fault: &LinkFault) -> Result<Vec<u8>, OutOfMemory>
    ensures { IfOk result (λ line. line.items ≡ line_of_fault fault.now) }
{
    let mut line = Vec::new(alloc);
    put(&mut line, b"link: ")?;
    put_fault(&mut line, fault)?;
    put(&mut line, b"\n")?;
    Ok(line)
}

/// Puts the line for a fault of a link, or that memory is wanting, and answers the exit status.
fn report_fault<E: Sink>(alloc: Global, err: &mut E, fault: &LinkFault) -> u8
    ensures { ReportsFault fault.now result (stream (E.held err.old) (E.faults err.old)) (stream (E.held err.new) (E.faults err.new)) }
{
    if let LinkFault::OutOfMemory = fault {
        return report(err, "", End::NoMemory);
    }
    match fault_line(alloc, fault) {
        Ok(line) => report_line(err, line.as_slice(), 1),
        Err(OutOfMemory) => report(err, "", End::NoMemory),
    }
}

/// Writes to a file the image of the objects in others, and answers the exit status.
pub fn run_link<F: Files, E: Sink>(
    alloc: Global,
    to: &str,
    names: &[String],
    files: &mut F,
    err: &mut E,
) -> u8
    requires few { length names.now < 2 ^ 32 }
    requires short { AreShort (map string_bytes names.now) }
    ensures { (reads : List ℕ → Reading) (input out : Stream) → Answers reads (Link to.now (map string_bytes names.now))
        (outside (shelf (F.contents files.old) (F.read_faults files.old) (F.write_faults files.old))
        input out
        (stream (E.held err.old) (E.faults err.old)))
        (outside (shelf (F.contents files.new) (F.read_faults files.new) (F.write_faults files.new))
        input out
        (stream (E.held err.new) (E.faults err.new))) result }
{
    match spell_files(alloc, files, names) {
        Err(Unlinked::File(refused)) => report(err, refused.file, refused.end),
        Err(Unlinked::Link(fault)) => report_fault(alloc, err, &fault),
        Ok(bytes) => match files.write_all(to, bytes.as_slice()) {
            Ok(()) => 0,
            Err(Failed) => report(err, "", End::WriteFault),
        },
    }
}
