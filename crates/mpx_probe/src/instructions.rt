//! Instructions by the line.
use disasm::{all, one};
use hex::{decode as from_hex, encode as to_hex};
use std::alloc::{AllocError, Global};
use x86_decode::{Undecoded, decode};
use x86_encode::encode;

/// `LENGTH FORM` of the instruction at the front of the line's bytes.
pub fn decode_line(alloc: Global, line: &str) -> Result<String, AllocError> {
    let bytes = match from_hex(alloc, line) {
        Ok(bytes) => bytes,
        Err(_) => return String::from_str(alloc, "no hexadecimal bytes"),
    };
    match decode(bytes.as_slice()) {
        Ok((instr, length)) => format!(in alloc; "{length} {instr:?}"),
        Err(refusal) => refused(alloc, refusal),
    }
}

/// The spelling of the instruction at the front of the line's bytes.
pub fn recode_line(alloc: Global, line: &str) -> Result<String, AllocError> {
    let bytes = match from_hex(alloc, line) {
        Ok(bytes) => bytes,
        Err(_) => return String::from_str(alloc, "no hexadecimal bytes"),
    };
    match decode(bytes.as_slice()) {
        Ok((instr, _)) => to_hex(alloc, encode(&instr).as_slice()),
        Err(refusal) => refused(alloc, refusal),
    }
}

/// `LENGTH TEXT` of the line of text at the front of the line's bytes.
pub fn front_line(alloc: Global, line: &str) -> Result<String, AllocError> {
    let bytes = match from_hex(alloc, line) {
        Ok(bytes) => bytes,
        Err(_) => return String::from_str(alloc, "no hexadecimal bytes"),
    };
    if bytes.is_empty() {
        return String::from_str(alloc, "no bytes");
    }
    let front = one(bytes.as_slice(), 0);
    let length = front.len;
    match str::from_utf8(front.text.as_slice()) {
        Ok(text) => format!(in alloc; "{length} {text}"),
        Err(_) => String::from_str(alloc, "no text"),
    }
}

/// The lines of text of the line's bytes, each ended by `|`.
pub fn listing_line(alloc: Global, line: &str) -> Result<String, AllocError> {
    let bytes = match from_hex(alloc, line) {
        Ok(bytes) => bytes,
        Err(_) => return String::from_str(alloc, "no hexadecimal bytes"),
    };
    let Ok(text) = all(alloc, bytes.as_slice()) else {
        return Err(AllocError);
    };
    let mut joined = Vec::new(alloc);
    for b in text.as_slice() {
        joined.push(if *b == b'\n' { b'|' } else { *b })?;
    }
    match str::from_utf8(joined.as_slice()) {
        Ok(shown) => String::from_str(alloc, shown),
        Err(_) => String::from_str(alloc, "no text"),
    }
}

fn refused(alloc: Global, refusal: Undecoded) -> Result<String, AllocError> {
    match refusal {
        Undecoded::Undefined => String::from_str(alloc, "Undefined"),
        Undecoded::Short { need } => format!(in alloc; "Short {need}"),
    }
}
