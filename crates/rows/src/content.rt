//! The bytes of files and of the input, as rows spell them.

use mx_base::{Failed, Files, OutOfMemory};
use std::alloc::Global;

/// The bytes that stand behind a line of a text.
pub fn content(alloc: Global, text: &str, header: &str) -> Result<Vec<u8>, OutOfMemory> {
    let mut bytes = Vec::new(alloc);
    let mut is_inside = false;
    for line in text.lines() {
        if line == header {
            is_inside = true;
        } else {
            is_inside = is_inside && append(&mut bytes, line)?;
        }
    }
    Ok(bytes)
}

/// Appends what a line spells, and says whether it spells bytes.
fn append(bytes: &mut Vec<u8>, line: &str) -> Result<bool, OutOfMemory> {
    let (kind, text) = line.split_once(' ').unwrap_or((line, ""));
    match kind {
        "text" => {
            bytes.extend_from_slice(text.as_bytes())?;
            bytes.push(b'\n')?;
        }
        "part" => bytes.extend_from_slice(text.as_bytes())?,
        "bytes" => append_digits(bytes, text)?,
        "code" => append_image(bytes, text)?,
        "repeat" => append_times(bytes, text)?,
        "pad" => pad(bytes, text)?,
        _ => return Ok(false),
    }
    Ok(true)
}

/// Appends the bytes of two digits each.
fn append_digits(bytes: &mut Vec<u8>, text: &str) -> Result<(), OutOfMemory> {
    for pair in text.split_whitespace() {
        bytes.push(u8::from_str_radix(pair, 16).unwrap_or(0))?;
    }
    Ok(())
}

/// Appends an image of one segment with this code, whose length has three bytes at most.
fn append_image(bytes: &mut Vec<u8>, text: &str) -> Result<(), OutOfMemory> {
    let length = text.split_whitespace().count();
    bytes.extend_from_slice(b"MXI1\0\0\0\0\x01\0\0\0\0\0\0\x01\0\0\0\0")?;
    bytes.extend_from_slice(&length.to_le_bytes()[..4])?;
    append_digits(bytes, text)?;
    bytes.extend_from_slice(&[0; 8])?;
    Ok(())
}

/// Appends a text so many times.
fn append_times(bytes: &mut Vec<u8>, text: &str) -> Result<(), OutOfMemory> {
    let (count, text) = text.split_once(' ').unwrap_or(("0", text));
    for _ in 0..count.parse::<u16>().unwrap_or(0) {
        bytes.extend_from_slice(text.as_bytes())?;
    }
    Ok(())
}

/// Appends blanks until there are so many bytes.
fn pad(bytes: &mut Vec<u8>, text: &str) -> Result<(), OutOfMemory> {
    let length = text.parse::<u32>().unwrap_or(0) as usize;
    for _ in bytes.len()..length {
        bytes.push(b' ')?;
    }
    Ok(())
}

/// How many files a text has.
pub fn count_files(text: &str) -> u64 {
    let mut count = 0u64;
    for line in text.lines() {
        if line.starts_with("file ") {
            count = count.saturating_add(1);
        }
    }
    count
}

/// Writes the files of a text, and says whether all had room.
pub fn write_files<F: Files>(
    alloc: Global,
    files: &mut F,
    text: &str,
) -> Result<bool, OutOfMemory> {
    let mut had_room = true;
    for line in text.lines() {
        if let Some(name) = line.strip_prefix("file ") {
            let bytes = content(alloc, text, line)?;
            if files.write_all(name, bytes.as_slice()) == Err(Failed) {
                had_room = false;
            }
        }
    }
    Ok(had_room)
}
