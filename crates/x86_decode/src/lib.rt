//! The instruction at the front of bytes, read a byte at a time.
#![tactic(auto)]

mod fields;
mod heads;
mod laws;
mod operands;
mod reader;
mod row_facts;
mod rows;
mod states;
mod steps;
mod values;

pub use laws::one_form;
pub use reader::{Undecoded, decode};
