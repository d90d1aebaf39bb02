//! The text of code: a line for each instruction, in the words of the Intel manual.
#![tactic(auto)]

mod laws;
mod listing;
mod operand;
mod text;
mod written;

pub use laws::code_has_one_listing;
pub use listing::{Line, all, one};
