//! The run of an image. A row is `ANSWERS | WORDS | OPTIONS | REMARK`. Its words fill the holes `?` of the table's instrumented code and
//! then of its legacy code, in order. Each number is in hexadecimal digits.
//!
//! - Code is bytes as pairs of digits, `BYTES*COUNT`, `REGISTER=NUMBER` for a move, and `-` for nothing.
//! - Options are `frames=`, `at=` for the address of the second code where it isn't legacy code, `preserve` and `bare`.
//! - Answers are `run:TURNS=STOP` for a run, the first or a further one, and else `steps`, `status`, `tables`, `out`,
//!   `reg:NUMBER`, `lower:NUMBER` and `held:NUMBER` of a bounds register, `byte:ADDRESS` and `word:ADDRESS`.
ghost use Rattle.obj_file.specs.Image.{IsImage};

use crate::digits::{append_digits, number};
use crate::machines::{Ran, told_of_all};
use crate::{Asked, column};
use mx_base::{MemSink, MemSource, OutOfMemory};
use mx_run::{Config, Machine, MakeFault};
use obj_file::{FormFault, Image, read_image};
use std::alloc::{AllocError, Global};
use std::str::SplitWhitespace;
use x86_encode::encode;
use x86_forms::{Instr, Reg, valid};

/// Where instrumented code begins.
const CODE: u64 = 0x0100_0000;

/// Where legacy code begins.
const LEGACY: u64 = 0x1200_0000;

const REGISTERS: [&str; 8] = ["rax", "rcx", "rdx", "rbx", "rsp", "rbp", "rsi", "rdi"];

/// What the run of a row shows.
pub fn run_line(alloc: Global, asked: Asked<'_>, row: &str) -> Result<String, AllocError> {
    let options = options_of(column(row, 2));
    let bytes = image_bytes(alloc, asked, options.at, column(row, 1))?;
    match read_image(alloc, bytes.as_slice()) {
        Ok(image) => image_run(alloc, &image, options, column(row, 0)),
        Err(FormFault::BadForm { at }) => format!(in alloc; "no image at {at}"),
        Err(FormFault::OutOfMemory) => String::from_str(alloc, "no memory"),
    }
}

/// What is wanted of a machine with an image in its memory, an empty input and room for output; or the frames that are used and that
/// there are.
fn image_run(
    alloc: Global,
    image: &Image,
    options: Options,
    wanted: &str,
) -> Result<String, AllocError>
    requires { IsImage image.now }
{
    let config = Config {
        frames: u32::from(options.frames),
        preserve: options.preserve,
        bare: options.bare,
    };
    match Machine::make(alloc, image, config) {
        Ok(machine) => match machine_run(alloc, machine, wanted) {
            Ok(text) => Ok(text),
            Err(OutOfMemory) => String::from_str(alloc, "no memory"),
        },
        Err(MakeFault::NoFrames { in_use, capacity }) => {
            format!(in alloc; "refused:{in_use:x}:{capacity:x}")
        }
        Err(MakeFault::OutOfMemory) => String::from_str(alloc, "no memory"),
    }
}

fn machine_run(alloc: Global, machine: Machine, wanted: &str) -> Result<String, OutOfMemory> {
    let mut ran = Ran {
        machine,
        input: MemSource::make(alloc, b"", &[])?,
        out: MemSink::make(alloc, 100, &[])?,
    };
    Ok(told_of_all(alloc, &mut ran, wanted)?)
}

/// Appends the move of a number to a register.
fn append_move(bytes: &mut Vec<u8>, name: &str, value: &str) -> Result<(), AllocError> {
    let imm = number(value).cast_signed();
    for (k, register) in REGISTERS.into_iter().enumerate() {
        let mov = Instr::MovImm {
            w: 64,
            r: Reg(k as u8),
            imm,
        };
        if register == name && valid(&mov) {
            bytes.extend_from_slice(encode(&mov).as_slice())?;
        }
    }
    Ok(())
}

/// Appends bytes several times.
fn append_times(bytes: &mut Vec<u8>, digits: &str, count: &str) -> Result<(), AllocError> {
    for _ in 0..number(count) {
        append_digits(bytes, digits)?;
    }
    Ok(())
}

/// Appends what a word of code says.
fn append(bytes: &mut Vec<u8>, text: &str) -> Result<(), AllocError> {
    if text == "-" {
        return Ok(());
    }
    if let Some((name, value)) = text.split_once('=') {
        return append_move(bytes, name, value);
    }
    match text.split_once('*') {
        Some((digits, count)) => append_times(bytes, digits, count),
        None => append_digits(bytes, text),
    }
}

/// Appends the bytes of a table's code, with words of a row in its holes.
fn assemble(
    bytes: &mut Vec<u8>,
    code: &str,
    words: &mut SplitWhitespace<'_>,
) -> Result<(), AllocError> {
    for text in code.split_whitespace() {
        if text == "?" {
            append(bytes, words.next().unwrap_or("-"))?;
        } else if let Some(name) = text.strip_suffix("=?") {
            append_move(bytes, name, words.next().unwrap_or("0"))?;
        } else {
            append(bytes, text)?;
        }
    }
    Ok(())
}

/// Appends four bytes of a number, the low one first.
fn put_number(bytes: &mut Vec<u8>, n: u64) -> Result<(), AllocError> {
    bytes.extend_from_slice(&n.to_le_bytes()[..4])
}

/// Appends a segment, if it has bytes.
fn put_segment(bytes: &mut Vec<u8>, at: u64, part: &[u8]) -> Result<(), AllocError> {
    if !part.is_empty() {
        put_number(bytes, at)?;
        put_number(bytes, 0)?;
        put_number(bytes, part.len() as u64)?;
        bytes.extend_from_slice(part)?;
    }
    Ok(())
}

/// The bytes of an image with two outer entries, with the table's code from its start on, and more code, if there is any, at a later
/// address.
fn image_bytes(
    alloc: Global,
    asked: Asked<'_>,
    at: u64,
    words: &str,
) -> Result<Vec<u8>, AllocError> {
    let mut words = words.split_whitespace();
    let mut code = Vec::new(alloc);
    assemble(&mut code, asked.code, &mut words)?;
    let mut more = Vec::new(alloc);
    assemble(&mut more, asked.legacy, &mut words)?;
    let mut bytes = Vec::from_slice(alloc, b"MXI2")?;
    put_number(&mut bytes, 2)?;
    put_number(&mut bytes, if more.is_empty() { 1 } else { 2 })?;
    put_segment(&mut bytes, CODE, code.as_slice())?;
    put_segment(&mut bytes, at, more.as_slice())?;
    put_number(&mut bytes, 0)?;
    put_number(&mut bytes, 0)?;
    if words.next().is_some() {
        bytes.push(0)?;
    }
    Ok(bytes)
}

/// How an image is placed and run.
#[derive(Clone, Copy)]
struct Options {
    at: u64,
    frames: u16,
    preserve: bool,
    bare: bool,
}

/// The options of a row; where it says nothing, legacy code, ample frames, and the rules that hold without options.
fn options_of(text: &str) -> Options {
    let mut options = Options {
        at: LEGACY,
        frames: 16,
        preserve: false,
        bare: false,
    };
    for option in text.split_whitespace() {
        let (name, value) = option.split_once('=').unwrap_or((option, ""));
        match name {
            "at" => options.at = number(value),
            "frames" => options.frames = number(value).min(0xffff) as u16,
            "preserve" => options.preserve = true,
            _ => options.bare = true,
        }
    }
    options
}
