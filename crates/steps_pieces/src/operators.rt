//! The operators of expressions by what they do.

ghost use Rattle.std.specs.Prelude.{◌≡◌, ◌+◌, ◌≤◌, ◌^◌};
ghost use Rattle.steps_pieces.specs.Operators as spec;

use c_tree::{BinaryOp, Logical, UnaryOp};
use mx_base::Arithmetic;

/// Whether an operator wants the place of its operand.
pub fn takes_place(op: UnaryOp) -> bool
    ensures { result ≡ spec.takes_place op }
{
    match op {
        UnaryOp::Neg | UnaryOp::BitNot | UnaryOp::Not | UnaryOp::Deref => false,
        UnaryOp::AddressOf => true,
    }
}

/// The operator of `++` or `--`.
pub fn step_operator(up: bool) -> Arithmetic
    ensures { result ≡ spec.step_operator up }
{
    if up { Arithmetic::Add } else { Arithmetic::Sub }
}

/// Whether an operator on two operands gives a number, by whether they are numbers.
pub fn gives_number(joint: BinaryOp, a: bool, b: bool) -> bool
    ensures { result ≡ spec.gives_number joint a b }
{
    match joint {
        BinaryOp::Arithmetic(_) => a == b,
        BinaryOp::Comparison(_) | BinaryOp::Logical(_) => true,
    }
}

/// How many labels an operator on two operands takes.
pub fn joint_labels(joint: BinaryOp) -> u32
    ensures labels { result ≡ spec.joint_labels joint }
    ensures few { result ≤ 3 }
{
    match joint {
        BinaryOp::Arithmetic(_) | BinaryOp::Comparison(_) => 0,
        BinaryOp::Logical(Logical::And) => 3,
        BinaryOp::Logical(Logical::Or) => 2,
    }
}

/// Where the right operand goes if the left one goes into `d`.
pub fn second_at(joint: BinaryOp, d: u32) -> u32
    requires { d + 6 ≤ 2 ^ 32 }
    ensures { result ≡ spec.second_at joint d }
{
    match joint {
        BinaryOp::Arithmetic(_) | BinaryOp::Comparison(_) => d + 2,
        BinaryOp::Logical(_) => d,
    }
}
