//! What a checked source says.

use crate::symbols::Symbol;
use c_check_rules::Bind;
use c_tree::Bytes;
use c_types::{TypeId, TypeTable};
use sqlite_items::Items;

/// A global variable: its type, and whether the source defines it.
#[derive(Clone, Copy, Debug)]
pub struct GlobalVariable {
    pub kind: TypeId,
    pub defined: bool,
}

/// A parameter or local of a function: its type, and whether `&` is applied to it.
#[derive(Clone, Copy, Debug)]
pub struct LocalVariable {
    pub kind: TypeId,
    pub taken: bool,
}

/// A function with a body: its number, and its parameters and locals in order.
#[derive(Drop)]
pub struct CheckedBody {
    pub number: u32,
    pub variables: Items<LocalVariable>,
}

/// A struct: the types of its members, in order.
#[derive(Drop)]
pub struct CheckedStruct {
    pub members: Items<TypeId>,
}

/// What is known of an accepted source, each list in tree order: children before their parent, from left to right.
#[derive(Drop)]
pub struct Checked {
    /// The types that its numbers mean.
    pub types: TypeTable,
    /// The type of each expression.
    pub kinds: Items<TypeId>,
    /// The meaning of each name that stands in an expression, or is declared as a variable or function.
    pub binds: Items<Bind>,
    /// The type of each declaration.
    pub declared: Items<TypeId>,
    /// The global variables in the order of their first declarations.
    pub variables: Items<GlobalVariable>,
    /// The functions with a body, in order.
    pub bodies: Items<CheckedBody>,
    /// The structs by their numbers.
    pub structs: Items<CheckedStruct>,
    /// The number of the global that each declaration of one declares, in order.
    pub global_items: Items<u32>,
    /// The words of the constants that initialise the integers of globals, in order.
    pub constants: Items<u64>,
    /// The bytes of all text literals in order, each with the byte 0 at its end.
    pub literals: Bytes,
    /// The symbols of the source, each by its place in this list.
    pub symbols: Items<Symbol>,
}
