//! That the lines which `disasm` writes are read by the assembler as what they were written of. The definitions stand in specs/; the
//! functions of `laws` do nothing, and their contracts are the laws. `reassembled` sends code through its text.
#![tactic(auto)]

mod again;
mod laws;

pub use again::reassembled;
pub use laws::{listings_are_read_back, valid_instructions_are_lines};
