//! That the trees of accepted sources are what code asks of trees; laws alone.
#![tactic(auto)]

mod laws;

pub use laws::{
    accepted_functions_keep_to_limits, expressions_keep_to_limits, linked_functions_keep_to_limits,
    planned_functions_keep_to_limits, statements_keep_to_limits,
};
