//! The syntax tree of a C source: its types with a place on every node, the count of its nodes, and which trees are
//! formed.
#![tactic(auto)]

mod count;
mod laws;
mod names;
mod operators;
mod tree;

pub use count::nodes;
pub use laws::{
    braces_hold_a_part, branches_declare_nothing, declarations_have_formed_parts,
    expressions_have_formed_parts, initialisers_have_formed_parts, items_have_formed_parts,
    names_and_numbers_are_of_the_language, names_are_short_and_free,
    numbers_are_words_of_their_types, operators_have_formed_operands, places_count_from_one,
    statements_have_formed_parts,
};
pub use names::{Bytes, Name};
pub use operators::{BinaryOp, Logical, UnaryOp};
pub use tree::{Base, Decl, Expr, ExprKind, Init, InitKind, Item, ItemKind, Stmt, StmtKind, Tree};
