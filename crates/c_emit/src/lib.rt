//! The fat steps of expressions: a walk that puts down the steps of what a tree is elaborated to.
#![tactic(auto)]

mod emits;

pub use emits::{emit, emit_given};
