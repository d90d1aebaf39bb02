//! What is known after a part of a tree.

use c_check_rules::{Bind, Scope, Type};
use c_check_typing::Notes;
use sqlite_items::Items;

/// A parameter or local of a function: its type, and whether `&` is applied to it.
#[derive(Drop)]
pub struct BodyVariable {
    pub kind: Type,
    pub taken: bool,
}

/// A function with a body: its number, and its parameters and locals in order.
#[derive(Drop)]
pub struct Body {
    pub number: u32,
    pub variables: Items<BodyVariable>,
}

/// What is known after a part of a tree: the names, the notes, the functions with a body in order, the number of the global that each declaration
/// of one declares, in order, and the globals and functions in the order of their first declarations.
#[derive(Drop)]
pub struct State {
    pub scope: Scope,
    pub notes: Notes,
    pub bodies: Items<Body>,
    pub global_items: Items<u32>,
    pub order: Items<Bind>,
}
