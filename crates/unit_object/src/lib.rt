//! The objects of units: the code of their functions, one behind the other, and what the linker makes of it.
#![tactic(auto)]

mod functions;
mod laws;

pub use functions::{UnitFunction, put_unit_function};
pub use laws::linked_objects_have_the_code_of_their_functions;
