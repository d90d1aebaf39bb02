//! On the machine the code of a C function does the function's steps.
#![tactic(auto)]

mod laws;

pub use laws::{code_does_the_steps, steps_stand_where_their_bytes_are};
