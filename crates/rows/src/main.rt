//! Runs the rows of the files that its words name on `run_words`, over objects in memory, prints each row whose outcome is another one
//! than the row says, with what came in its place, and at last `N rows, M different`.
//!
//! A file is paragraphs. One that has no line `> WORDS` is what all rows of the file are given; each other one is a row. Its lines are,
//! besides remarks, which begin with `#`:
//!
//! - `file NAME`, and behind it the bytes of the file: `text TEXT` for a line, `part TEXT` for a line without its line feed, `bytes` and
//!   pairs of digits, `code` and pairs of digits for an image of one segment with this code, `repeat N TEXT` for a text so many times,
//!   and `pad N` for blanks until there are so many bytes. `input`, and bytes in the same form, is what the command can take.
//! - `fail files N`, `fail input N`, `fail out N`, `fail err N`: the call of that object that fails, counted from 0 for the row's first.
//! - `room out N`, `room err N`, `room file N`: how many bytes an object holds, or each file; else 4,096.
//! - `> WORDS` does a command, and the lines behind it say what comes: `out TEXT` for a line on standard output, `out-part TEXT` for
//!   what stands there behind the last line feed, or `out-bytes` and pairs of digits, 16 a line, where one is no character of ASCII; the
//!   same with `err`; and `status N`. Further commands of a row find the files as the ones before left them.
//! - Last stand the files that are other ones than before: `changed NAME`, and behind it `has TEXT`, `has-part TEXT` and `has-bytes`.
//!
//! A row on which no call is to fail, and that names no room, is run over the objects that never fail too.
#![tactic(auto)]

mod content;
mod run;
mod setting;
mod show;

use mx_base::OutOfMemory;
use run::outcome;
use setting::{is_row, wanted};
use std::alloc::Global;
use std::process::ExitCode;
use std::rt::Files;
use std::{env, fs, io};

/// How many rows there were, and how many of them came out otherwise.
#[derive(Clone, Copy)]
struct Count {
    rows: u64,
    different: u64,
}

fn main(rt: HostRuntime) -> io::Result<ExitCode> {
    let names: Vec<String> = env::args(&rt)?.skip(1).collect(rt.alloc())?;
    let mut count = Count {
        rows: 0,
        different: 0,
    };
    for name in names.as_slice() {
        judge_file(&rt, name.as_str(), &mut count)?;
    }
    let (rows, different) = (count.rows, count.different);
    println!(rt; "{rows} rows, {different} different")?;
    Ok(ExitCode::from(if different == 0 { 0 } else { 1 }))
}

/// Judges each row of a file.
fn judge_file<R: Files + Print + Alloc<A = Global>>(
    rt: &R,
    name: &str,
    count: &mut Count,
) -> io::Result<()> {
    let text = fs::read_to_string(rt, name)?;
    let mut given = String::new(rt.alloc());
    for paragraph in text.as_str().split("\n\n") {
        if is_row(paragraph) {
            count.rows = count.rows.saturating_add(1);
            if !judge(rt, given.as_str(), paragraph)? {
                count.different = count.different.saturating_add(1);
            }
        } else {
            given.push_str(paragraph)?;
            given.push('\n')?;
        }
    }
    Ok(())
}

/// Whether a row comes out as it says; prints it where it does not.
fn judge<R: Print + Alloc<A = Global>>(rt: &R, given: &str, row: &str) -> io::Result<bool> {
    let wanted = wanted(rt.alloc(), row)?;
    match outcome(rt.alloc(), given, row, wanted.as_str()) {
        Ok(None) => Ok(true),
        Ok(Some(found)) => {
            println!(rt; "{row}\n-- but this came:\n{found}\n")?;
            Ok(false)
        }
        Err(OutOfMemory) => {
            println!(rt; "{row}\n-- but there was no memory\n")?;
            Ok(false)
        }
    }
}
