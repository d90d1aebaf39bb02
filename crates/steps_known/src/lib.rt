//! What is known of a checked and planned source, at a function of it, while its steps are put down.
#![tactic(auto)]

mod functions;
mod known;
mod lists;
mod standings;

pub use functions::{KnownFunction, declare_function, sorts_at};
pub use known::Known;
pub use standings::standings_of;
