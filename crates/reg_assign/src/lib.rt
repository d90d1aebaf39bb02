//! Homes for the values of a function's steps: registers while there are some, and else words of the function's frame.
#![tactic(auto)]

mod homes;
mod laws;
mod lives;
mod loops;
mod names;
mod noise;
mod places;
mod wishes;

pub use homes::{Homes, assign};
pub use laws::assigned_homes_are_had;
pub use lives::{LiveRange, Lives, live_ranges};
pub use wishes::Wishes;
