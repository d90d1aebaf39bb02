//! Lowering: from programs to instructions and their bytes.
#![tactic(auto)]

mod early;

pub use early::lower_early;
