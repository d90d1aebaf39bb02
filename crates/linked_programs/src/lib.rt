//! That the image of linked units is that of their program: the code of each function stands in it as programs want it, and so its run ends
//! as the program means in C. What is owed of units is said in `Programs`; the functions here name the laws that they rest on, and their
//! contracts are the laws.
#![tactic(auto)]

mod laws;

pub use laws::{images_of_linked_units_end_as_they_mean, linked_functions_are_compiled};
