//! The nodes of expressions, made of what was read.

ghost use Rattle.std.specs.Prelude.{◌≡◌, List};
ghost use Rattle.c_grammar.specs.Nodes as made;
ghost use Rattle.parse_expressions.specs.Gives.{Makes};

use crate::fault::Fault;
use crate::parser::Spelled;
use c_grammar::{KindName, Mark, Named, Operand};
use c_tokens::{Class, character_of, number_of, text_of};
use c_tree::{BinaryOp, Bytes, Expr, ExprKind, Logical, UnaryOp};
use mx_base::{Arithmetic, Comparison, IntKind, Place, extend};
use sqlite_items::{Boxed, Items};
use std::alloc::Global;

/// A node at a place, which begins there.
fn node(alloc: Global, place: Place, kind: ExprKind) -> Result<Operand, Fault>
    ensures { Makes (made.node place kind) result }
{
    let tree = Boxed::new(alloc, Expr { place, kind })?;
    Ok(Operand { start: place, tree })
}

/// An expression in parentheses begins with them.
pub fn enclosed(start: Place, a: Operand) -> Operand
    ensures { result ≡ made.enclosed start a }
{
    Operand {
        start,
        tree: a.tree,
    }
}

/// The number that a token is.
pub fn number_at(alloc: Global, token: Spelled<'_>) -> Result<Operand, Fault>
    ensures { Makes (made.number_at (record { place = token.entry.place; class = token.entry.class; text = token.entry.text.now })) result }
{
    let kind = match number_of(token.text) {
        Some(number) => ExprKind::Number(number.value, number.kind),
        None => ExprKind::Number(0, IntKind::I32),
    };
    node(alloc, token.place, kind)
}

/// The character that a token is, an `int`.
pub fn character_at(alloc: Global, token: Spelled<'_>) -> Result<Operand, Fault>
    ensures { Makes (made.character_at (record { place = token.entry.place; class = token.entry.class; text = token.entry.text.now })) result }
{
    let value = match character_of(token.text) {
        Some(byte) => extend(IntKind::I8, u64::from(byte)),
        None => 0,
    };
    node(alloc, token.place, ExprKind::Number(value, IntKind::I32))
}

/// The text that a token is.
pub fn text_at(alloc: Global, token: Spelled<'_>) -> Result<Operand, Fault>
    ensures { Makes (made.text_at (record { place = token.entry.place; class = token.entry.class; text = token.entry.text.now })) result }
{
    match text_of(alloc, token.text) {
        Ok(Some(bytes)) => node(alloc, token.place, ExprKind::Text(Bytes::from_vec(bytes))),
        Ok(None) => node(
            alloc,
            token.place,
            ExprKind::Text(Bytes::from_vec(Vec::new(alloc))),
        ),
        Err(_) => Err(Fault::OutOfMemory),
    }
}

/// The operator of a token between two operands.
fn binary_op(class: Class) -> BinaryOp
    ensures { result ≡ made.binary_op class }
{
    match class {
        Class::Slash => BinaryOp::Arithmetic(Arithmetic::Div),
        Class::Percent => BinaryOp::Arithmetic(Arithmetic::Rem),
        Class::Plus => BinaryOp::Arithmetic(Arithmetic::Add),
        Class::Minus => BinaryOp::Arithmetic(Arithmetic::Sub),
        Class::ShiftLeft => BinaryOp::Arithmetic(Arithmetic::Shl),
        Class::ShiftRight => BinaryOp::Arithmetic(Arithmetic::Shr),
        Class::Less => BinaryOp::Comparison(Comparison::Less),
        Class::LessEqual => BinaryOp::Comparison(Comparison::LessOrEqual),
        Class::Greater => BinaryOp::Comparison(Comparison::Greater),
        Class::GreaterEqual => BinaryOp::Comparison(Comparison::GreaterOrEqual),
        Class::EqualEqual => BinaryOp::Comparison(Comparison::Equal),
        Class::NotEqual => BinaryOp::Comparison(Comparison::NotEqual),
        Class::And => BinaryOp::Arithmetic(Arithmetic::BitAnd),
        Class::Xor => BinaryOp::Arithmetic(Arithmetic::BitXor),
        Class::Or => BinaryOp::Arithmetic(Arithmetic::BitOr),
        Class::AndAnd => BinaryOp::Logical(Logical::And),
        Class::OrOr => BinaryOp::Logical(Logical::Or),
        _ => BinaryOp::Arithmetic(Arithmetic::Mul),
    }
}

/// What a compound assignment calculates, and none for `=`.
fn assign_op(class: Class) -> Option<Arithmetic>
    ensures { result ≡ made.assign_op class }
{
    match class {
        Class::PlusAssign => Some(Arithmetic::Add),
        Class::MinusAssign => Some(Arithmetic::Sub),
        Class::StarAssign => Some(Arithmetic::Mul),
        Class::SlashAssign => Some(Arithmetic::Div),
        Class::PercentAssign => Some(Arithmetic::Rem),
        Class::AndAssign => Some(Arithmetic::BitAnd),
        Class::OrAssign => Some(Arithmetic::BitOr),
        Class::XorAssign => Some(Arithmetic::BitXor),
        Class::ShiftLeftAssign => Some(Arithmetic::Shl),
        Class::ShiftRightAssign => Some(Arithmetic::Shr),
        _ => None,
    }
}

/// What an operator before its operand makes of it.
fn prefix_kind(class: Class, a: Boxed<Expr>) -> ExprKind
    ensures { result ≡ made.prefix_kind class a }
{
    match class {
        Class::Tilde => ExprKind::Unary(UnaryOp::BitNot, a),
        Class::Not => ExprKind::Unary(UnaryOp::Not, a),
        Class::Star => ExprKind::Unary(UnaryOp::Deref, a),
        Class::And => ExprKind::Unary(UnaryOp::AddressOf, a),
        Class::PlusPlus => ExprKind::StepBy(true, true, a),
        Class::MinusMinus => ExprKind::StepBy(false, true, a),
        _ => ExprKind::Unary(UnaryOp::Neg, a),
    }
}

/// An operator before its operand.
pub fn prefixed(alloc: Global, op: Mark, a: Operand) -> Result<Operand, Fault>
    ensures { Makes (made.prefixed op a) result }
{
    node(alloc, op.place, prefix_kind(op.class, a.tree))
}

/// An operator between its operands, of which the left one begins it.
pub fn joined(alloc: Global, op: Mark, left: Operand, right: Operand) -> Result<Operand, Fault>
    ensures { Makes (made.joined op left right) result }
{
    node(
        alloc,
        left.start,
        ExprKind::Binary(binary_op(op.class), left.tree, right.tree),
    )
}

/// An assignment.
pub fn assigned(alloc: Global, op: Mark, left: Operand, right: Operand) -> Result<Operand, Fault>
    ensures { Makes (made.assigned op left right) result }
{
    node(
        alloc,
        left.start,
        ExprKind::Assign(assign_op(op.class), left.tree, right.tree),
    )
}

/// A test with `?` and `:` after it.
pub fn chosen(alloc: Global, test: Operand, then: Operand, other: Operand) -> Result<Operand, Fault>
    ensures { Makes (made.chosen test then other) result }
{
    node(
        alloc,
        test.start,
        ExprKind::Cond(test.tree, then.tree, other.tree),
    )
}

/// A cast, which begins with its parenthesis.
pub fn cast_at(alloc: Global, start: Place, kind: KindName, a: Operand) -> Result<Operand, Fault>
    ensures { Makes (made.cast_at start kind a) result }
{
    node(alloc, start, ExprKind::Cast(kind.base, kind.stars, a.tree))
}

/// `sizeof` of a type.
pub fn size_of_kind(alloc: Global, start: Place, kind: KindName) -> Result<Operand, Fault>
    ensures { Makes (made.size_of_kind start kind) result }
{
    node(alloc, start, ExprKind::SizeOfKind(kind.base, kind.stars))
}

/// `sizeof` of an expression.
pub fn size_of_value(alloc: Global, start: Place, a: Operand) -> Result<Operand, Fault>
    ensures { Makes (made.size_of_value start a) result }
{
    node(alloc, start, ExprKind::SizeOfValue(a.tree))
}

/// A variable.
pub fn variable(alloc: Global, name: Named) -> Result<Operand, Fault>
    ensures { Makes (made.variable name) result }
{
    node(alloc, name.place, ExprKind::Var(name.name))
}

/// A call.
pub fn called(alloc: Global, name: Named, args: Items<Expr>) -> Result<Operand, Fault>
    ensures { Makes (made.called name args) result }
{
    node(alloc, name.place, ExprKind::Call(name.name, args))
}

/// An element.
pub fn indexed(alloc: Global, left: Operand, at: Operand) -> Result<Operand, Fault>
    ensures { Makes (made.indexed left at) result }
{
    node(alloc, left.start, ExprKind::Index(left.tree, at.tree))
}

/// `.` and a member.
pub fn member(alloc: Global, left: Operand, name: Named) -> Result<Operand, Fault>
    ensures { Makes (made.member left name) result }
{
    node(alloc, left.start, ExprKind::Member(left.tree, name.name))
}

/// `->` and a member.
pub fn pointed(alloc: Global, left: Operand, name: Named) -> Result<Operand, Fault>
    ensures { Makes (made.pointed left name) result }
{
    node(alloc, left.start, ExprKind::Arrow(left.tree, name.name))
}

/// `++` or `--` after its operand.
pub fn stepped(alloc: Global, up: bool, left: Operand) -> Result<Operand, Fault>
    ensures { Makes (made.stepped up left) result }
{
    node(alloc, left.start, ExprKind::StepBy(up, false, left.tree))
}
