//! The rules that an expression keeps or breaks, one node at a time: its type and what else is known of it, by what is known of its parts.
#![tactic(auto)]

mod assignments;
mod calls;
mod casts;
mod fault;
mod literals;
mod members;
mod operators;
mod typed;
mod uses;

pub use assignments::{end_assign, end_step, is_assigned, is_no_source};
pub use calls::{argument_fits, end_call, end_name, params_after, params_of, takes_function};
pub use casts::{base_kind, end_cast, end_size, end_size_of_kind, end_text, starred};
pub use fault::{Broken, CheckFault, CheckKind};
pub use literals::Literals;
pub use members::{end_arrow, end_index, end_member};
pub use operators::{end_binary, end_choice, end_unary};
pub use typed::{Notes, Typed, end_number, is_array, is_struct};
pub use uses::Uses;
