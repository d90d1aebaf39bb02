//! What declarations declare, and how far they go: the types of members and parameters, the counts of arrays, and initialisers, by what is
//! known of their expressions.
#![tactic(auto)]

mod declared;
mod pasts;

pub use declared::{DeclaredTypes, members_declared, parameters_declared};
pub use pasts::{past_counts, past_init};
