//! Whether a tree is a program: what is known of it, or the first rule that is broken in it.
#![tactic(auto)]

mod checked;
mod laws;
mod numbers;
mod source;
mod symbols;

pub use checked::{Checked, CheckedBody, CheckedStruct, GlobalVariable, LocalVariable};
pub use laws::{
    accepted_frames_have_room, accepted_sources_break_no_rule, accepted_sources_can_be_numbered,
    broken_rules_are_in_tree_order, broken_rules_are_those_of_nodes,
    checked_sizes_are_those_of_types, first_broken_rule_is_of_the_first_node,
    initialisers_are_walked_by_their_parts, items_are_walked_by_their_parts,
    parts_of_a_node_come_first, rules_of_each_node_are_in_order, small_sources_have_these_symbols,
    statements_are_walked_by_their_parts, walks_break_rules_in_order,
    what_is_defined_or_used_has_a_symbol,
};
pub use source::{check, read_source};
pub use symbols::{Subject, Symbol, SymbolKind, source_symbols};
