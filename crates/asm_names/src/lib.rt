//! The words of assembly: mnemonics, registers, sizes, directives and the rest, each with its text.
//!
//! The names are those of the Intel manual, in lower case. Each word is found by its text and gives it back.
#![tactic(auto)]

mod laws;
mod mnemonic;
mod register;

pub use laws::words_are_found;
pub use mnemonic::{Mnemonic, mnemonic_of, mnemonic_text};
pub use register::{bounds_of, bounds_text, register_of, register_text, size_of, size_text};
