//! That the steps of C functions are what code asks of steps. What code asks beside homes is said of steps (`Alone`) and of the trees
//! that they are compiled from (`Trees`); what homes owe is said in `Homes`.
#![tactic(auto)]

mod laws;

pub use laws::{
    assigned_homes_serve, compiled_functions_are_small, compiled_functions_are_what_code_asks,
    compiled_functions_keep_to_limits, parameters_may_wish, steps_within_limits_are_what_code_asks,
    steps_within_limits_have_few_bytes,
};
