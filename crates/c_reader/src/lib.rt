//! The reader of C: the program of a text's tokens, or the first of them that does not fit; and the early form, one array
//! of `char` and acts on it, which stands for whole programs until those can be compiled.
#![tactic(auto)]

mod early;
mod early_laws;
mod early_reader;
mod early_tokens;
mod fault;
mod items;
mod parameters;
mod reader;

pub use early::{Act, Early, EarlyFault};
pub use early_laws::{parts_are_unique, tokens_are_spelled};
pub use early_reader::read_early;
pub use fault::ReadFault;
pub use reader::read;
