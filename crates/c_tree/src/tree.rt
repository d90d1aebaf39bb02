//! The types of the tree. Each value of `Item`, `Decl`, `Init`, `Stmt` and `Expr` is one node, and has the place of its
//! first token. Parentheses make no node.

use crate::names::{Bytes, Name};
use crate::operators::{BinaryOp, UnaryOp};
use mx_base::{Arithmetic, IntKind, Place};
use sqlite_items::{Boxed, Items};

/// A whole source.
#[derive(Drop)]
pub struct Tree {
    pub items: Items<Item>,
}

/// What stands at the outermost level of a source: a struct, a global variable or a function, one for each name.
#[derive(Drop)]
pub struct Item {
    pub place: Place,
    pub kind: ItemKind,
}

#[derive(Drop)]
pub enum ItemKind {
    /// `struct` with its tag and its members.
    Struct(Name, Items<Decl>),
    /// A global variable: whether it is `extern`, and its initialiser.
    Var(bool, Decl, Option<Init>),
    /// A function: its name with the type of its result, its parameters, and its body, which a prototype lacks.
    Fun(Decl, Items<Decl>, Option<Stmt>),
}

/// One declared name: its type is the base, as many pointers as there are stars, and arrays of these counts.
#[derive(Drop)]
pub struct Decl {
    pub place: Place,
    pub base: Base,
    pub stars: u8,
    pub name: Name,
    pub counts: Items<Expr>,
}

/// The first part of a type.
#[derive(Drop)]
pub enum Base {
    Void,
    Int(IntKind),
    Struct(Name),
}

/// An initialiser: an expression, or a list in braces.
#[cycle(init)]
#[derive(Drop)]
pub struct Init {
    pub place: Place,
    pub kind: InitKind,
}

#[cycle(init)]
#[derive(Drop)]
pub enum InitKind {
    One(Expr),
    Many(Items<Init>),
}

/// A statement. A declaration of several names gives a `Local` for each.
#[cycle(stmt)]
#[derive(Drop)]
pub struct Stmt {
    pub place: Place,
    pub kind: StmtKind,
}

#[cycle(stmt)]
#[derive(Drop)]
pub enum StmtKind {
    /// An expression, or nothing, and `;`.
    Value(Option<Expr>),
    Local(Decl, Option<Init>),
    If(Expr, Boxed<Stmt>, Option<Boxed<Stmt>>),
    While(Expr, Boxed<Stmt>),
    DoWhile(Boxed<Stmt>, Expr),
    /// Its first expression, its condition, its step and its body.
    For(Option<Expr>, Option<Expr>, Option<Expr>, Boxed<Stmt>),
    Break,
    Continue,
    Return(Option<Expr>),
    /// Statements in braces, or a declaration that stands as a branch or as the body of a loop.
    Block(Items<Stmt>),
}

/// An expression.
#[cycle(expr)]
#[derive(Drop)]
pub struct Expr {
    pub place: Place,
    pub kind: ExprKind,
}

#[cycle(expr)]
#[derive(Drop)]
pub enum ExprKind {
    /// A number or a character, by its 64-bit word and its type.
    Number(u64, IntKind),
    Text(Bytes),
    Var(Name),
    Unary(UnaryOp, Boxed<Expr>),
    Binary(BinaryOp, Boxed<Expr>, Boxed<Expr>),
    /// `=`, or a compound assignment by what it calculates: `+=` has `Add`.
    Assign(Option<Arithmetic>, Boxed<Expr>, Boxed<Expr>),
    /// `++` or `--`: whether it counts up, and whether it stands before its operand.
    StepBy(bool, bool, Boxed<Expr>),
    /// `?:`
    Cond(Boxed<Expr>, Boxed<Expr>, Boxed<Expr>),
    Call(Name, Items<Expr>),
    Index(Boxed<Expr>, Boxed<Expr>),
    /// `.` and a member.
    Member(Boxed<Expr>, Name),
    /// `->` and a member.
    Arrow(Boxed<Expr>, Name),
    /// A cast to a base and so many stars.
    Cast(Base, u8, Boxed<Expr>),
    /// `sizeof` of a base and so many stars.
    SizeOfKind(Base, u8),
    SizeOfValue(Boxed<Expr>),
}
