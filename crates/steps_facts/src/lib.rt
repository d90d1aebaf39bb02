//! What the steps of a source are put down by: what is asked of a type, of an expression and of the source around it.
#![tactic(auto)]

mod knows;
mod seen;

pub use knows::{
    DeclaredHere, Here, Knows, LiteralHere, Meant, MemberAt, Part, ScalarAt, Standing,
};
pub use seen::{Facts, Reached, Seen, Sorted, Spot};
