//! The walk through an expression: its type and what it adds to the notes, or the first rule that is broken in it.
#![tactic(auto)]

mod laws;
mod walk;

pub use laws::{
    broken_rules_of_parts_come_first, expressions_are_seen_by_their_parts,
    rules_of_a_node_are_in_order,
};
pub use walk::read_expr;
