//! What a row says of its objects, besides their bytes.

use std::alloc::{AllocError, Global};

/// How many bytes an object or a file holds, where a row does not say.
pub const ROOM: usize = 4_096;

/// How many files there may be.
pub const FILES: usize = 24;

/// The calls that fail, by their numbers, and the room of the objects.
#[derive(Clone, Copy, PartialEq, Eq)]
pub struct Setting {
    pub files: u64,
    pub input: u64,
    pub out: u64,
    pub err: u64,
    pub room_file: usize,
    pub room_out: usize,
    pub room_err: usize,
}

/// The number of no call.
const NEVER: u64 = u64::MAX;

/// Objects that fail at no call and have room enough.
pub const AMPLE: Setting = Setting {
    files: NEVER,
    input: NEVER,
    out: NEVER,
    err: NEVER,
    room_file: ROOM,
    room_out: ROOM,
    room_err: ROOM,
};

/// What the lines of a row set.
pub fn setting_of(row: &str) -> Setting {
    let mut setting = AMPLE;
    for line in row.lines() {
        let mut words = line.split_whitespace();
        let (kind, name) = (words.next().unwrap_or(""), words.next().unwrap_or(""));
        if let Ok(n) = words.next().unwrap_or("").parse::<u32>() {
            match kind {
                "fail" => fail(&mut setting, name, u64::from(n)),
                "room" => limit(&mut setting, name, n as usize),
                _ => {}
            }
        }
    }
    setting
}

fn fail(setting: &mut Setting, name: &str, call: u64) {
    match name {
        "files" => setting.files = call,
        "input" => setting.input = call,
        "out" => setting.out = call,
        _ => setting.err = call,
    }
}

fn limit(setting: &mut Setting, name: &str, room: usize) {
    match name {
        "file" => setting.room_file = room,
        "out" => setting.room_out = room,
        _ => setting.room_err = room,
    }
}

/// Whether a paragraph is a row.
pub fn is_row(paragraph: &str) -> bool {
    paragraph.starts_with('>') || paragraph.contains("\n>")
}

/// The first word of a line.
fn keyword(line: &str) -> &str {
    line.split(' ').next().unwrap_or("")
}

/// Whether a line says what comes.
fn is_wanted(line: &str) -> bool {
    match keyword(line) {
        ">" | "status" | "changed" => true,
        "out" | "out-part" | "out-bytes" => true,
        "err" | "err-part" | "err-bytes" => true,
        "has" | "has-part" | "has-bytes" => true,
        _ => false,
    }
}

/// Whether a line is a remark or says what is given.
fn is_given(line: &str) -> bool {
    match keyword(line) {
        "" | "#" | "file" | "input" | "fail" | "room" => true,
        "text" | "part" | "bytes" | "code" | "repeat" | "pad" => true,
        _ => false,
    }
}

/// The commands of a row and what it says that comes, with each line that is not understood.
pub fn wanted(alloc: Global, row: &str) -> Result<String, AllocError> {
    let mut text = String::new(alloc);
    for line in row.lines() {
        if is_wanted(line) {
            text.push_str(line)?;
            text.push('\n')?;
        } else if !is_given(line) {
            text.push_str("not understood: ")?;
            text.push_str(line)?;
            text.push('\n')?;
        }
    }
    Ok(text)
}
