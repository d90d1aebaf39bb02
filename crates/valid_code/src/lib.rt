//! That the pieces of a function's code are instructions. What is asked of homes for that is said in `Named`; the functions
//! here do nothing, and their contracts are the laws.
#![tactic(auto)]

mod laws;

pub use laws::{assigned_homes_are_named, code_of_named_homes_is_valid};
