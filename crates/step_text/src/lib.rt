//! Fat steps as text for people: a line for each, with symbols by name.
#![tactic(auto)]

mod line;
mod words;

pub use line::{function_line, step_line};
