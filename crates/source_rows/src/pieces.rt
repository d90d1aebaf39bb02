//! The tokens of texts, and what literals stand for.

use c_tokens::{Token, character_of, number_of, text_of, tokens};
use mx_base::{OutOfMemory, Place};
use std::alloc::{AllocError, Global};

/// The most bytes of a text.
const LIMIT: usize = 536_870_912;

/// The number of the file whose tokens are told.
const FILE: u32 = 7;

/// How many tokens a text has, or the first fault with its place.
pub fn count_line(alloc: Global, text: &[u8]) -> Result<String, AllocError> {
    if text.len() > LIMIT {
        return String::from_str(alloc, "too long");
    }
    match tokens(alloc, text, FILE) {
        Ok(found) => {
            let count = found.len();
            format!(in alloc; "{count}")
        }
        Err(fault) => format!(in alloc; "{fault}"),
    }
}

/// Each token of a text, apart by `;`.
pub fn places_line(alloc: Global, text: &[u8]) -> Result<String, AllocError> {
    if text.len() > LIMIT {
        return String::from_str(alloc, "too long");
    }
    match tokens(alloc, text, FILE) {
        Ok(found) => all_lines(alloc, found.as_slice()),
        Err(fault) => format!(in alloc; "{fault}"),
    }
}

/// The last token of a text.
pub fn last_line(alloc: Global, text: &[u8]) -> Result<String, AllocError> {
    if text.len() > LIMIT {
        return String::from_str(alloc, "too long");
    }
    match tokens(alloc, text, FILE) {
        Ok(found) => match found.last() {
            Some(token) => token_line(alloc, token),
            None => String::from_str(alloc, "none"),
        },
        Err(fault) => format!(in alloc; "{fault}"),
    }
}

fn all_lines(alloc: Global, found: &[Token]) -> Result<String, AllocError> {
    let mut text = String::new(alloc);
    for token in found {
        text.push_str(token_line(alloc, token)?.as_str())?;
        text.push(';')?;
    }
    Ok(text)
}

/// The class of a token, its first byte and the byte behind it, and its file, line and column.
fn token_line(alloc: Global, token: &Token) -> Result<String, AllocError> {
    let (class, from, to) = (token.class, token.from, token.to);
    let Place { file, line, col } = token.place;
    format!(in alloc; "{class:?} {from} {to} {file}:{line}:{col}")
}

/// The value and the kind of a number.
pub fn number_line(alloc: Global, text: &[u8]) -> Result<String, AllocError> {
    match number_of(text) {
        Some(number) => {
            let (value, kind) = (number.value, number.kind);
            format!(in alloc; "{value} {kind:?}")
        }
        None => String::from_str(alloc, "none"),
    }
}

/// The byte of a character.
pub fn character_line(alloc: Global, text: &[u8]) -> Result<String, AllocError> {
    match character_of(text) {
        Some(byte) => format!(in alloc; "{byte}"),
        None => String::from_str(alloc, "none"),
    }
}

/// The bytes of a text literal.
pub fn text_line(alloc: Global, text: &[u8]) -> Result<String, AllocError> {
    match text_of(alloc, text) {
        Ok(Some(bytes)) => {
            let bytes = bytes.as_slice();
            format!(in alloc; "{bytes:?}")
        }
        Ok(None) => String::from_str(alloc, "none"),
        Err(OutOfMemory) => String::from_str(alloc, "no memory"),
    }
}
