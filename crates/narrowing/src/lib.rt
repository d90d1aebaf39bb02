//! The bounds of a member of a struct, and of an element of an array.
#![tactic(auto)]

mod element;
mod laws;
mod member;

pub use element::of_element;
pub use laws::{bounds_stay_without_narrowing, elements_stay_within, members_stay_within};
pub use member::{Rule, of_member};
