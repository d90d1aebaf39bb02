//! What came, in the lines of a row.

use mx_base::{Failed, Files, OutOfMemory};
use std::alloc::{AllocError, Global};

/// Appends what was written under a name, as `out` or `err`.
pub fn show(alloc: Global, text: &mut String, name: &str, bytes: &[u8]) -> Result<(), AllocError> {
    match str::from_utf8(bytes) {
        Ok(plain) if is_plain(bytes) => show_lines(alloc, text, name, plain),
        _ => show_bytes(alloc, text, name, bytes),
    }
}

/// Whether all bytes are characters of ASCII or line feeds.
fn is_plain(bytes: &[u8]) -> bool {
    for byte in bytes {
        if *byte != b'\n' && (*byte < b' ' || b'~' < *byte) {
            return false;
        }
    }
    true
}

/// Appends each line, and what stands behind the last line feed.
fn show_lines(alloc: Global, text: &mut String, name: &str, plain: &str) -> Result<(), AllocError> {
    let lines = plain.split('\n').count().saturating_sub(1);
    for (k, piece) in plain.split('\n').enumerate() {
        if k < lines && piece.is_empty() {
            text.push_str(format!(in alloc; "{name}\n")?.as_str())?;
        } else if k < lines {
            text.push_str(format!(in alloc; "{name} {piece}\n")?.as_str())?;
        } else if !piece.is_empty() {
            text.push_str(format!(in alloc; "{name}-part {piece}\n")?.as_str())?;
        }
    }
    Ok(())
}

/// Appends 16 bytes a line.
fn show_bytes(
    alloc: Global,
    text: &mut String,
    name: &str,
    bytes: &[u8],
) -> Result<(), AllocError> {
    for line in bytes.chunks(16) {
        text.push_str(format!(in alloc; "{name}-bytes")?.as_str())?;
        for byte in line {
            text.push_str(format!(in alloc; " {byte:02X}")?.as_str())?;
        }
        text.push('\n')?;
    }
    Ok(())
}

/// Appends the files that are other ones than before, of those that a command of a row names.
pub fn show_changes<F: Files, G: Files>(
    alloc: Global,
    text: &mut String,
    row: &str,
    before: &mut F,
    after: &mut G,
    room: usize,
) -> Result<(), OutOfMemory> {
    let mut old = vec![in alloc; 0u8; room]?;
    let mut new = vec![in alloc; 0u8; room]?;
    for line in row.lines() {
        if line.starts_with('>') {
            for name in line.split_whitespace() {
                let was = front(before.read_at(name, 0, &mut old), &old);
                let is = front(after.read_at(name, 0, &mut new), &new);
                let told = format!(in alloc; "changed {name}\n")?;
                if was != is && !text.contains(told.as_str()) {
                    text.push_str(told.as_str())?;
                    show(alloc, text, "has", is.unwrap_or(b""))?;
                }
            }
        }
    }
    Ok(())
}

/// The bytes that a file has, as far as a buffer holds them.
fn front(read: Result<Option<usize>, Failed>, buffer: &[u8]) -> Option<&[u8]> {
    match read {
        Ok(Some(count)) => Some(&buffer[..count.min(buffer.len())]),
        _ => None,
    }
}
