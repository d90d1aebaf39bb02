//! Asks what each row of the files that its words name asks of a source, prints each row whose answer is another one than the row says,
//! with what came in its place, and at last `N rows, M different`.
//!
//! A line `= QUESTION` says what the rows behind it ask. A row is `ANSWER | SOURCE`. In a source `«0A»` is a character by its two
//! hexadecimal digits, and `«COUNT*TEXT»` a text so many times. Empty lines and those that begin with `#` say nothing. The questions:
//!
//! - `tokens`: how many there are, or the first fault; `places`: each token by its class, its bytes, file, line and column; `last`: the
//!   last one of them; `number`, `character`, `text`: what a literal stands for, or `none`.
//! - `nodes`: how many the tree has, or the first fault; `operands`, `outside`: the columns of its parts (`src/trees.rt`).
//! - `check`: `accepted`, or the first refusal; `said`: what is known of an accepted source (`src/says.rt`); `noted`: its constants,
//!   a `|` and its literals; `plan`: where its variables stand (`src/plans.rt`).
//! - `early`: the size, the acts and the value of a program of the early form, or `Unbuilt`; `code`: the bytes of its
//!   code; `code run`: how their run stops, and what it puts.
#![tactic(auto)]

mod answers;
mod early;
mod noted;
mod pieces;
mod plans;
mod says;
mod trees;

use answers::answer;
use std::alloc::Global;
use std::process::ExitCode;
use std::rt::Files;
use std::{env, fs, io};

/// How many rows there were, and how many of them had another answer.
#[derive(Clone, Copy)]
struct Count {
    rows: u64,
    different: u64,
}

fn main(rt: HostRuntime) -> io::Result<ExitCode> {
    let names: Vec<String> = env::args(&rt)?.skip(1).collect(rt.alloc())?;
    let mut count = Count {
        rows: 0,
        different: 0,
    };
    for name in names.as_slice() {
        judge_file(&rt, name.as_str(), &mut count)?;
    }
    let (rows, different) = (count.rows, count.different);
    println!(rt; "{rows} rows, {different} different")?;
    Ok(ExitCode::from(if different == 0 { 0 } else { 1 }))
}

/// Judges each row of a file.
fn judge_file<R: Files + Print + Alloc<A = Global>>(
    rt: &R,
    name: &str,
    count: &mut Count,
) -> io::Result<()> {
    let text = fs::read_to_string(rt, name)?;
    let mut question = String::new(rt.alloc());
    for line in text.as_str().lines() {
        if let Some(asked) = line.strip_prefix("= ") {
            question = String::from_str(rt.alloc(), asked)?;
        } else if !line.is_empty() && !line.starts_with('#') {
            count.rows = count.rows.saturating_add(1);
            if !judge(rt, question.as_str(), line)? {
                count.different = count.different.saturating_add(1);
            }
        }
    }
    Ok(())
}

/// Whether the answer of a row is the one that it says; prints it where it is not.
fn judge<R: Print + Alloc<A = Global>>(rt: &R, question: &str, row: &str) -> io::Result<bool> {
    let (wanted, source) = row.split_once(" |").unwrap_or((row, ""));
    let found = answer(
        rt.alloc(),
        question,
        source.strip_prefix(' ').unwrap_or(source),
    )?;
    let is_same = found.as_str() == wanted;
    if !is_same {
        println!(rt; "{row}\n-- but this came: {found}")?;
    }
    Ok(is_same)
}
