//! What is noted of small sources for their data: the constants of the integers of globals, and the bytes of text literals.
ghost use Rattle.c_tree.specs.Formed.{IsFormed};

use c_check::read_source;
use c_check_typing::Notes;
use c_tree::Tree;
use std::alloc::{AllocError, Global};

/// Each word with a `;` behind it.
fn constants(alloc: Global, notes: &Notes) -> Result<String, AllocError> {
    let mut shown = String::new(alloc);
    for word in notes.constants.as_slice() {
        let word = format!(in alloc; "{word};")?;
        shown.push_str(word.as_str())?;
    }
    Ok(shown)
}

/// Each byte as a character, and the byte 0 as a `.`.
fn literals(alloc: Global, notes: &Notes) -> Result<String, AllocError> {
    let mut shown = String::new(alloc);
    for byte in notes.literals.as_slice() {
        if *byte == 0 {
            shown.push('.')?;
        } else {
            shown.push(char::from(*byte))?;
        }
    }
    Ok(shown)
}

/// The constants, a `|` and the literals.
fn shown(alloc: Global, notes: &Notes) -> Result<String, AllocError> {
    let words = constants(alloc, notes)?;
    let texts = literals(alloc, notes)?;
    format!(in alloc; "{words}|{texts}")
}

/// The constants, a `|` and the literals of a source, or its first refusal with its place.
pub fn noted(alloc: Global, tree: &Tree) -> Result<String, AllocError>
    requires { IsFormed tree.now }
{
    match read_source(alloc, tree, 32_768) {
        Ok(state) => shown(alloc, &state.notes),
        Err(fault) => format!(in alloc; "{fault}"),
    }
}
