//! Lets scripts reach the libraries: `decode`, `recode`, `dis`, `one`, `step` and `mpx` read lines of hexadecimal bytes, `tokens`, `read` and `check`
//! a file, and `speed` repeats one call.
//!
//! `decode` prints `LENGTH FORM`, `Undefined` or `Short N` for each line, and `recode` the bytes of the spelling of what it
//! read, or the same refusals. `dis` prints the text of the line's bytes, each of its lines ended by `|`, and `one` `LENGTH TEXT` of
//! its first line. `step` reads `CODE STATE` and prints `STATE RESULT` after one instruction that isn't of MPX: a
//! state is rip, the registers by number, an address, a byte of flags (CF is 1, ZF 2, SF 4, OF 8), and the 64 bytes of memory
//! from that address on, with the lowest byte of a number first. `mpx` does the same for an MPX instruction, or tells what a near
//! branch makes of the bounds registers: its states have the bounds registers and three windows of memory (`src/mpx.rt`).
//! `layout` reads lines of structs and prints their sizes, alignments and the offsets of their members (`src/layout.rt`).
//! `tokens FILE` prints the number of the file's tokens, `read FILE` `nodes N`, the number of its tree's nodes, and `check FILE`
//! `accepted`; or each the first refusal, `KIND LINE:COL`. `check FILE --times N` reads the file once, checks it so many times, and
//! prints `accepted M`, how often it was accepted; `plan FILE --times N` checks it once, plans it so many times, and prints
//! `planned M`. `speed CALL N` does so many calls and prints how many were done: `decode`, `encode`; loads and stores of memory
//! within a page (`load-one`, `store-one`) and over 10,000 pages (`load-many`, `store-many`); a free and an alloc among 65,536 live
//! blocks (`heap`), and an alloc and a free behind 32,767 small free ranges (`heap-gaps`). `speed touch N` touches so many pages
//! and prints how many frames are in use.
#![tactic(auto)]

mod files;
mod instructions;
mod layout;
mod memory;
mod mpx;
mod speed;
mod step;

use files::{check_line, check_often, plan_often, read_line, tokens_line};
use instructions::{decode_line, front_line, listing_line, recode_line};
use layout::layout_line;
use memory::{gaps_often, heap_often, load_often, store_often, touch_pages};
use mpx::mpx_line;
use mx_base::OutOfMemory;
use speed::{decode_often, encode_often};
use std::alloc::{AllocError, Global};
use std::process::ExitCode;
use std::rt::Files;
use std::{env, io};
use step::step_line;

fn main(rt: HostRuntime) -> io::Result<ExitCode> {
    let args: Vec<String> = env::args(&rt)?.skip(1).collect(rt.alloc())?;
    let done = match args.as_slice() {
        [command] => each_line(&rt, command.as_str())?,
        [command, path] => of_file(&rt, command.as_str(), path.as_str())?,
        [command, call, count] => repeat(&rt, command.as_str(), call.as_str(), count.as_str())?,
        [command, path, option, count] => of_file_often(
            &rt,
            command.as_str(),
            path.as_str(),
            option.as_str(),
            count.as_str(),
        )?,
        _ => false,
    };
    Ok(ExitCode::from(if done { 0 } else { 2 }))
}

/// Does a command for each line of the input, and says whether there is such a command.
fn each_line<R: Input + Print + Alloc<A = Global>>(rt: &R, command: &str) -> io::Result<bool> {
    let answer = match command {
        "decode" => Answer::Form,
        "recode" => Answer::Bytes,
        "dis" => Answer::Listing,
        "one" => Answer::Front,
        "step" => Answer::State,
        "mpx" => Answer::Bounds,
        "layout" => Answer::Layout,
        _ => return Ok(false),
    };
    for line in rt.lines(rt.alloc()) {
        let line = line?;
        let text = answer_line(rt.alloc(), answer, line.as_str())?;
        println!(rt; "{text}")?;
    }
    Ok(true)
}

/// What is told of an instruction.
#[derive(Clone, Copy)]
enum Answer {
    Form,
    Bytes,
    Listing,
    Front,
    State,
    Bounds,
    Layout,
}

fn answer_line(alloc: Global, answer: Answer, line: &str) -> Result<String, AllocError> {
    match answer {
        Answer::Form => decode_line(alloc, line),
        Answer::Bytes => recode_line(alloc, line),
        Answer::Listing => listing_line(alloc, line),
        Answer::Front => front_line(alloc, line),
        Answer::State => step_line(alloc, line),
        Answer::Bounds => mpx_line(alloc, line),
        Answer::Layout => layout_line(alloc, line),
    }
}

/// Does a command on a file, and says whether there is such a command.
fn of_file<R: Files + Print + Alloc<A = Global>>(
    rt: &R,
    command: &str,
    path: &str,
) -> io::Result<bool> {
    let line = match command {
        "tokens" => tokens_line(rt, path)?,
        "read" => read_line(rt, path)?,
        "check" => check_line(rt, path)?,
        _ => return Ok(false),
    };
    println!(rt; "{line}")?;
    Ok(true)
}

/// Does a command on a file so many times, and says whether there is such a command.
fn of_file_often<R: Files + Print + Alloc<A = Global>>(
    rt: &R,
    command: &str,
    path: &str,
    option: &str,
    count: &str,
) -> io::Result<bool> {
    let times = match count.parse::<u32>() {
        Ok(times) => times,
        Err(_) => return Ok(false),
    };
    if option != "--times" {
        return Ok(false);
    }
    let line = match command {
        "check" => check_often(rt, path, times)?,
        "plan" => plan_often(rt, path, times)?,
        _ => return Ok(false),
    };
    println!(rt; "{line}")?;
    Ok(true)
}

/// Does a call so many times, and says whether there is such a call and memory for it.
fn repeat<R: Print + Alloc<A = Global>>(
    rt: &R,
    command: &str,
    call: &str,
    count: &str,
) -> io::Result<bool> {
    let times = match count.parse::<u32>() {
        Ok(times) => times,
        Err(_) => return Ok(false),
    };
    if command != "speed" {
        return Ok(false);
    }
    match done_often(rt.alloc(), call, times) {
        Ok(Some(done)) => println!(rt; "{done}")?,
        Ok(None) | Err(OutOfMemory) => return Ok(false),
    }
    Ok(true)
}

/// How many of so many calls were done; none where there is no such call.
fn done_often(alloc: Global, call: &str, times: u32) -> Result<Option<u32>, OutOfMemory> {
    let done = match call {
        "decode" => decode_often(times),
        "encode" => encode_often(times),
        "load-one" => load_often(alloc, 1, times)?,
        "load-many" => load_often(alloc, 10_000, times)?,
        "store-one" => store_often(alloc, 1, times)?,
        "store-many" => store_often(alloc, 10_000, times)?,
        "touch" => touch_pages(alloc, times)?,
        "heap" => heap_often(alloc, times)?,
        "heap-gaps" => gaps_often(alloc, times)?,
        _ => return Ok(None),
    };
    Ok(Some(done))
}
