//! The fat steps of initialisers: a walk that puts down the steps by which a parameter or local is filled.
#![tactic(auto)]

mod fills;
mod ones;
mod rests;
mod texts;

pub use fills::fill;
