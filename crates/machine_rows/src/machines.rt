//! What a machine shows, as words.

use crate::digits::number;
use mx_base::{MemSink, MemSource, Stop};
use mx_run::Machine;
use std::alloc::{AllocError, Global};

/// A machine, its input and its output.
#[derive(Drop)]
pub struct Ran {
    pub machine: Machine,
    pub input: MemSource,
    pub out: MemSink,
}

/// A name and numbers, the others of which stand for nothing.
#[derive(Drop)]
struct Words {
    name: &'static str,
    numbers: [u64; 4],
    count: usize,
}

fn make_words(name: &'static str, numbers: [u64; 4], count: usize) -> Words {
    Words {
        name,
        numbers,
        count,
    }
}

fn stop_words(stop: Stop) -> Words {
    match stop {
        Stop::Exit(code) => make_words("exit", [u64::from(code), 0, 0, 0], 1),
        Stop::Bounds(b) => make_words("bounds", [b.value, b.lb, b.ub, b.rip], 4),
        Stop::Unmapped(a) => make_words("unmapped", [a, 0, 0, 0], 1),
        Stop::Divide => make_words("divide", [0; 4], 0),
        Stop::Undefined(a) => make_words("undefined", [a, 0, 0, 0], 1),
        Stop::StackOver => make_words("stack_over", [0; 4], 0),
        Stop::OutOfTurns => make_words("out_of_turns", [0; 4], 0),
        Stop::Strayed(a) => make_words("strayed", [a, 0, 0, 0], 1),
        Stop::NoTable => make_words("no_table", [0; 4], 0),
        Stop::NoFrames { in_use, capacity } => frames("no_frames", in_use, capacity),
        Stop::ReadFault => make_words("read_fault", [0; 4], 0),
        Stop::WriteFault => make_words("write_fault", [0; 4], 0),
    }
}

/// A name with the frames that are used and that there are.
fn frames(name: &'static str, in_use: u32, capacity: u32) -> Words {
    make_words(name, [u64::from(in_use), u64::from(capacity), 0, 0], 2)
}

/// The words with colons between them.
fn joined(alloc: Global, words: Words) -> Result<String, AllocError> {
    let mut text = String::from_str(alloc, words.name)?;
    for n in words.numbers.iter().take(words.count) {
        text.push_str(format!(in alloc; ":{n:x}")?.as_str())?;
    }
    Ok(text)
}

/// The word of eight bytes at an address, or `None` where one is in no region.
fn word(m: &Machine, from: u64) -> Option<u64> {
    let mut bytes = [0; 8];
    for (k, byte) in bytes.iter_mut().enumerate() {
        *byte = m.peek(from.wrapping_add(k as u64))?;
    }
    Some(u64::from_le_bytes(bytes))
}

/// A number that a machine shows.
fn value(m: &Machine, name: &str, n: u64) -> Option<u64> {
    let register = n.to_le_bytes()[0] % 16;
    match name {
        "steps" => Some(m.steps()),
        "status" => Some(m.status()),
        "tables" => Some(u64::from(m.tables())),
        "reg" => Some(m.reg(register)),
        "lower" => Some(m.bnd(register % 4).0),
        "held" => Some(m.bnd(register % 4).1),
        "byte" => Some(u64::from(m.peek(n)?)),
        "word" => word(m, n),
        _ => None,
    }
}

/// What a machine shows under a name, or after a run.
fn shown(alloc: Global, ran: &mut Ran, name: &str, n: u64) -> Result<String, AllocError> {
    match name {
        "run" => joined(
            alloc,
            stop_words(ran.machine.run(n, &mut ran.input, &mut ran.out)),
        ),
        "out" => {
            let text = str::from_utf8(ran.out.held()).unwrap_or("no text");
            text.replace(alloc, "\n", "/")
        }
        _ => match value(&ran.machine, name, n) {
            Some(value) => format!(in alloc; "{value:x}"),
            None => String::from_str(alloc, "none"),
        },
    }
}

/// What a machine shows under a name with its number.
pub fn told(alloc: Global, ran: &mut Ran, name: &str) -> Result<String, AllocError> {
    match name.split_once(':') {
        Some((name, n)) => shown(alloc, ran, name, number(n)),
        None => shown(alloc, ran, name, 0),
    }
}

/// The answers, with blanks between them, under each name of what is wanted.
pub fn told_of_all(alloc: Global, ran: &mut Ran, wanted: &str) -> Result<String, AllocError> {
    let mut text = String::new(alloc);
    for answer in wanted.split_whitespace() {
        let (name, _) = answer.split_once('=').unwrap_or((answer, ""));
        let found = told(alloc, ran, name)?;
        if !text.is_empty() {
            text.push(' ')?;
        }
        text.push_str(format!(in alloc; "{name}={found}")?.as_str())?;
    }
    Ok(text)
}
