//! The fat steps of statements: a walk that puts down the steps of what a tree is elaborated to.
#![tactic(auto)]

mod effects;
mod locals;
mod parts;
mod pieces;
mod walks;

pub use effects::emit_effect;
pub use walks::{emit_statement, past_statement};
