//! What is known of an expression before its steps are put down.

use mx_base::{IntKind, Place};

/// What the values of a type are: numbers of a type, pointers, arrays or structs, or none.
#[derive(Clone, Copy)]
pub enum Sorted {
    Number(IntKind),
    Pointer,
    Whole,
    Nothing,
}

/// What is asked of a type: its sort, whether it is an array, its size in bytes and that of what it points to, and its struct and that which it
/// points to.
#[derive(Clone, Copy)]
pub struct Facts {
    pub sort: Sorted,
    pub array: bool,
    pub size: u64,
    pub step: u64,
    pub owner: u32,
    pub target: u32,
}

/// Where a place is: in a private variable of a number or of a pointer, by its first value, or in memory.
#[derive(Clone, Copy)]
pub enum Spot {
    Number(u32),
    Pointer(u32),
    Memory,
}

/// How far a tree was gone through: the number of the next expression, name, declaration, literal and body, in tree order.
#[derive(Clone, Copy)]
pub struct Reached {
    pub kind: u32,
    pub name: u32,
    pub declaration: u32,
    pub literal: u32,
    pub body: u32,
}

/// An expression: what is asked of its type, whether its value is a number, where its place is, where it stands in the sources, and how far the tree
/// was gone through after it.
#[derive(Clone, Copy)]
pub struct Seen {
    pub facts: Facts,
    pub number: bool,
    pub spot: Spot,
    pub place: Place,
    pub after: Reached,
}
