//! What the image of linked objects has of the functions of a unit. The definitions stand in specs/; the functions here do nothing, and
//! their contracts are the laws.
#![tactic(auto)]

mod laws;

pub use laws::{accesses_stand_in_code, functions_of_units_are_written};
