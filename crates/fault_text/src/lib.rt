//! The line that tells why a run stopped.
#![tactic(auto)]

mod line;
mod stop_line;

pub use stop_line::explain;
