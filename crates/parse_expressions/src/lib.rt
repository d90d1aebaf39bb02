//! Expressions and types of C, read from tokens: the parser with what is read of a single token, and a function for each
//! rule of the grammar that gives an expression or a part of a type.
#![tactic(auto)]

mod classes;
mod expressions;
mod fault;
mod levels;
mod nodes;
mod parser;
mod tokens;
mod types;

pub use classes::{begins_expression, begins_type, same_class};
pub use fault::Fault;
pub use parser::{Parser, Spelled};
