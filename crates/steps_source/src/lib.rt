//! A checked and planned source: the numbers of its symbols, and what is known at a place of it.
#![tactic(auto)]

mod source;
mod symbols;

pub use source::{FunctionVariables, PlannedSource, known_at};
pub use symbols::{SymbolNumbers, symbol_numbers};
