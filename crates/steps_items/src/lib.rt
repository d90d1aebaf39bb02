//! The walk over the items of a checked and planned source: what it has declared so far, how far it was gone through, and what is known
//! inside of the body of a function.
#![tactic(auto)]

mod bodies;
mod counts;
mod gone;

pub use bodies::{BodyVariables, body_variables, known_inside};
pub use counts::declarations;
pub use gone::{
    FunctionHead, Gone, known_outside, past_declarator, past_global, past_struct, start,
};
