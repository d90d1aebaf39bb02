//! The grammar of C as data, what it relates to tokens, and how it is read from left to right; with the laws of each.
#![tactic(auto)]

mod laws;
mod parts;

pub use laws::{
    a_source_has_one_tree, assignments_read_as_written, bases_read_as_written,
    conditionals_read_as_written, items_read_as_written, one_token_is_the_first_that_does_not_fit,
    one_token_is_the_first_that_is_too_deep, operators_bind_from_the_left,
    parameters_read_as_written, programs_are_formed, sources_have_levels,
    tokens_are_a_source_or_do_not_fit, unaries_read_as_written, what_does_not_fit_is_no_source,
};
pub use parts::{Declarator, InitDeclarator, KindName, Level, Mark, Named, Operand, Typed};
