//! Homes for the functions of a unit: what the values of their parameters wish, and homes by these wishes.
#![tactic(auto)]

mod functions;
mod labels;
mod wishes;

pub use functions::{assign_function, assign_functions};
pub use labels::past_labels;
pub use wishes::wishes_of_parameters;
