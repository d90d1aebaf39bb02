//! Asks what each row of the files that its words name asks of the machine, prints each row whose answer is another one than the row says,
//! with what came in its place, and at last `N rows, M different`.
//!
//! A line `= QUESTION` says what the rows behind it ask, and lines `base`, `code` and `legacy` what they share. A row is
//! `ANSWER | GIVEN`, and further columns behind another ` | `. Empty lines and those that begin with `#` say nothing. The questions:
//!
//! - `run`: what the run of an image shows (`src/runs.rt`).
//! - `object`, `image`: `fine`, or `bad` and the offset of the first field that is bad, of the bytes of `base` with the changes of the row
//!   (`src/forms.rt`); `object parts`, `image parts`: what they hold; `object again`, `image again`: the bytes that are written of them.
//! - `decode`: the length of the instruction at the front of some bytes and the instruction, or why there is none; `spelling`: the
//!   instruction that the bytes spell, if it is written as these bytes.
//! - `step`, `push`, `stop`: what an instruction that is not of MPX does (`src/steps.rt`).
#![tactic(auto)]

mod digits;
mod forms;
mod instructions;
mod machines;
mod runs;
mod steps;

use forms::{Told, image_line, object_line};
use instructions::{decode_line, spelling_line};
use runs::run_line;
use std::alloc::{AllocError, Global};
use std::process::ExitCode;
use std::rt::Files;
use std::{env, fs, io};
use steps::{push_line, step_line, stop_line};

/// How many rows there were, and how many of them had another answer.
#[derive(Clone, Copy)]
struct Count {
    rows: u64,
    different: u64,
}

/// What is asked, and what the rows share.
#[derive(Clone, Copy)]
pub struct Asked<'a> {
    pub question: &'a str,
    pub base: &'a str,
    pub code: &'a str,
    pub legacy: &'a str,
}

fn main(rt: HostRuntime) -> io::Result<ExitCode> {
    let names: Vec<String> = env::args(&rt)?.skip(1).collect(rt.alloc())?;
    let mut count = Count {
        rows: 0,
        different: 0,
    };
    for name in names.as_slice() {
        judge_file(&rt, name.as_str(), &mut count)?;
    }
    let (rows, different) = (count.rows, count.different);
    println!(rt; "{rows} rows, {different} different")?;
    Ok(ExitCode::from(if different == 0 { 0 } else { 1 }))
}

/// Judges each row of a file.
fn judge_file<R: Files + Print + Alloc<A = Global>>(
    rt: &R,
    name: &str,
    count: &mut Count,
) -> io::Result<()> {
    let text = fs::read_to_string(rt, name)?;
    let mut asked = Asked {
        question: "",
        base: "",
        code: "",
        legacy: "",
    };
    for line in text.as_str().lines() {
        if !is_row(&mut asked, line) {
            continue;
        }
        count.rows = count.rows.saturating_add(1);
        if !judge(rt, asked, line)? {
            count.different = count.different.saturating_add(1);
        }
    }
    Ok(())
}

/// Takes what a line says of the rows behind it, or says that it is a row.
fn is_row<'a>(asked: &mut Asked<'a>, line: &'a str) -> bool {
    let (kind, rest) = line.split_once(' ').unwrap_or((line, ""));
    match kind {
        "" | "#" => return false,
        "=" => asked.question = rest,
        "base" => asked.base = rest,
        "code" => asked.code = rest,
        "legacy" => asked.legacy = rest,
        _ => return true,
    }
    false
}

/// A column of a row, counted from 0.
pub fn column(row: &str, number: usize) -> &str {
    row.split('|').nth(number).unwrap_or("").trim()
}

/// Whether the answer of a row is the one that it says; prints it where it is not.
fn judge<R: Print + Alloc<A = Global>>(rt: &R, asked: Asked<'_>, row: &str) -> io::Result<bool> {
    let found = answer(rt.alloc(), asked, row)?;
    let is_same = found.as_str() == column(row, 0);
    if !is_same {
        println!(rt; "{row}\n-- but this came: {found}")?;
    }
    Ok(is_same)
}

/// The answer to the question about what a row gives.
fn answer(alloc: Global, asked: Asked<'_>, row: &str) -> Result<String, AllocError> {
    let given = column(row, 1);
    match asked.question {
        "run" => run_line(alloc, asked, row),
        "object" => object_line(alloc, asked.base, given, Told::Whole),
        "object parts" => object_line(alloc, asked.base, given, Told::Parts),
        "object again" => object_line(alloc, asked.base, given, Told::Again),
        "image" => image_line(alloc, asked.base, given, Told::Whole),
        "image parts" => image_line(alloc, asked.base, given, Told::Parts),
        "image again" => image_line(alloc, asked.base, given, Told::Again),
        "decode" => decode_line(alloc, given),
        "spelling" => spelling_line(alloc, given),
        "step" => step_line(alloc, given),
        "push" => push_line(alloc, given),
        "stop" => stop_line(alloc, given),
        _ => String::from_str(alloc, "not understood"),
    }
}
