//! Bytes as instructions, and instructions as bytes.

use crate::digits::bytes_of;
use std::alloc::{AllocError, Global};
use x86_decode::{Undecoded, decode};
use x86_encode::encode;
use x86_forms::{Instr, valid};

/// The length of the instruction at the front of some bytes, and the instruction; or why there is none.
pub fn decode_line(alloc: Global, given: &str) -> Result<String, AllocError> {
    let bytes = bytes_of(alloc, given)?;
    match decode(bytes.as_slice()) {
        Ok((instr, length)) => format!(in alloc; "{length} {instr:?}"),
        Err(Undecoded::Undefined) => String::from_str(alloc, "Undefined"),
        Err(Undecoded::Short { need }) => format!(in alloc; "Short {need}"),
    }
}

/// The instruction that the bytes spell, and whether it is written so.
pub fn spelling_line(alloc: Global, given: &str) -> Result<String, AllocError> {
    let bytes = bytes_of(alloc, given)?;
    match decode(bytes.as_slice()) {
        Ok((instr, _)) if valid(&instr) && encode(&instr).as_slice() == bytes.as_slice() => {
            format!(in alloc; "{instr:?}")
        }
        _ => String::from_str(alloc, "no spelling"),
    }
}

/// The instruction that all of some bytes are.
pub fn instr_of(alloc: Global, digits: &str) -> Result<Option<Instr>, AllocError> {
    let bytes = bytes_of(alloc, digits)?;
    match decode(bytes.as_slice()) {
        Ok((instr, length)) if usize::from(length) == bytes.len() => Ok(Some(instr)),
        _ => Ok(None),
    }
}
