//! What the reader holds between the tokens and the tree.

use c_tokens::Class;
use c_tree::{Base, Expr, Init, Name};
use mx_base::Place;
use sqlite_items::{Boxed, Items};

/// A word or mark that was read.
#[derive(Clone, Copy, Debug, PartialEq, Eq)]
pub struct Mark {
    pub place: Place,
    pub class: Class,
}

/// A name that was read.
#[derive(Drop)]
pub struct Named {
    pub place: Place,
    pub name: Name,
}

/// An expression and the place where it begins: that of a parenthesis where it begins with one, for parentheses make no
/// node.
#[derive(Drop)]
pub struct Operand {
    pub start: Place,
    pub tree: Boxed<Expr>,
}

/// The first part of a type and the place where it begins.
#[derive(Drop)]
pub struct Typed {
    pub start: Place,
    pub base: Base,
}

/// A type's name: its base and so many stars.
#[derive(Drop)]
pub struct KindName {
    pub base: Base,
    pub stars: u8,
}

/// What a declaration says of one name beside the base, and the place where that begins.
#[derive(Drop)]
pub struct Declarator {
    pub start: Place,
    pub stars: u8,
    pub name: Name,
    pub counts: Items<Expr>,
}

/// A declarator and its initialiser.
#[derive(Drop)]
pub struct InitDeclarator {
    pub declarator: Declarator,
    pub init: Option<Init>,
}

/// The ten levels of binary operators, tightest first.
#[derive(Clone, Copy, Debug, PartialEq, Eq)]
pub enum Level {
    /// `*`, `/`, `%`
    Product,
    /// `+`, `-`
    Sum,
    /// `<<`, `>>`
    Shift,
    /// `<`, `<=`, `>`, `>=`
    Order,
    /// `==`, `!=`
    Equality,
    /// `&`
    BitAnd,
    /// `^`
    BitXor,
    /// `|`
    BitOr,
    /// `&&`
    Both,
    /// `||`
    Either,
}
