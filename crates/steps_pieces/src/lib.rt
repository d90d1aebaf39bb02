//! The steps that the forms of expressions have of their own, put down by small functions that walk no tree.
#![tactic(auto)]

mod access;
mod assigning;
mod calls;
mod emitter;
mod forms;
mod joining;
mod kinds;
mod operators;
mod put;

pub use assigning::{assigned_sort, is_copied, value_at};
pub use calls::{call_labels, parameters_of, stands_at};
pub use emitter::{Emitter, LAST, take_labels};
pub use forms::{
    put_addressed, put_assigned, put_call, put_cast, put_choice_end, put_converted, put_crossing,
    put_element, put_joined, put_joint, put_jump_if, put_member, put_name, put_no_pointer,
    put_single, put_stepped, put_text, put_word,
};
pub use kinds::{choice_of, given_number, kind_of, loads_number, reads_number};
pub use operators::{gives_number, joint_labels, second_at, step_operator, takes_place};
