//! The types that operators give.

ghost use Rattle.std.specs.Prelude.{◌≡◌, IfOk, if◌then◌else◌, Some, None};
ghost use Rattle.c_check_rules.specs.Conversions as spec;
ghost use Rattle.c_check_rules.specs.Operators as operator;
ghost use Rattle.c_check_rules.specs.Kinds.{outer_of};
ghost use Rattle.c_types.specs.Types.{Int};
ghost use Rattle.mx_base.specs.declared.numbers.IntKind.TheVariants.{I64};

use crate::conversions::{common, is_scalar, is_void_pointer, promoted};
use crate::kinds::{Outer, Type, same};
use crate::names::StructInfo;
use crate::sizes::is_inner_sized;
use c_tree::BinaryOp;
use mx_base::{Arithmetic, IntKind, OutOfMemory};
use std::alloc::Global;

fn product(alloc: Global, a: Outer, b: Outer) -> Option<Type>
    ensures { result ≡ spec.product_form a b }
{
    let Outer::Int(k) = a else {
        return None;
    };
    let Outer::Int(l) = b else {
        return None;
    };
    Some(Type::int(alloc, common(k, l)))
}

fn shift(alloc: Global, a: Outer, b: Outer) -> Option<Type>
    ensures { result ≡ spec.shift_form a b }
{
    let Outer::Int(k) = a else {
        return None;
    };
    let Outer::Int(_) = b else {
        return None;
    };
    Some(Type::int(alloc, promoted(k)))
}

fn stepped(alloc: Global, structs: &[StructInfo], kind: &Type) -> Result<Option<Type>, OutOfMemory>
    ensures { IfOk result (λ t. t ≡ spec.stepped structs.now kind.now) }
{
    if is_inner_sized(structs, kind) {
        let copy = kind.copy(alloc)?;
        Ok(Some(copy))
    } else {
        Ok(None)
    }
}

fn sum(
    alloc: Global,
    structs: &[StructInfo],
    a: &Type,
    b: &Type,
) -> Result<Option<Type>, OutOfMemory>
    ensures { IfOk result (λ t. t ≡ spec.sum_form structs.now (outer_of a.now) (outer_of b.now) a.now b.now) }
{
    match a.outer() {
        Outer::Int(k) => match b.outer() {
            Outer::Int(l) => Ok(Some(Type::int(alloc, common(k, l)))),
            Outer::Pointer => stepped(alloc, structs, b),
            Outer::Void | Outer::Array(_) | Outer::Struct(_) => Ok(None),
        },
        Outer::Pointer => match b.outer() {
            Outer::Int(_) => stepped(alloc, structs, a),
            Outer::Void | Outer::Pointer | Outer::Array(_) | Outer::Struct(_) => Ok(None),
        },
        Outer::Void | Outer::Array(_) | Outer::Struct(_) => Ok(None),
    }
}

fn difference(
    alloc: Global,
    structs: &[StructInfo],
    a: &Type,
    b: &Type,
) -> Result<Option<Type>, OutOfMemory>
    ensures { IfOk result (λ t. t ≡ spec.difference_form structs.now (outer_of a.now) (outer_of b.now) a.now b.now) }
{
    match a.outer() {
        Outer::Int(k) => match b.outer() {
            Outer::Int(l) => Ok(Some(Type::int(alloc, common(k, l)))),
            Outer::Void | Outer::Pointer | Outer::Array(_) | Outer::Struct(_) => Ok(None),
        },
        Outer::Pointer => match b.outer() {
            Outer::Int(_) => stepped(alloc, structs, a),
            Outer::Pointer => Ok(distance(alloc, same(a, b) && is_inner_sized(structs, a))),
            Outer::Void | Outer::Array(_) | Outer::Struct(_) => Ok(None),
        },
        Outer::Void | Outer::Array(_) | Outer::Struct(_) => Ok(None),
    }
}

/// `long`, where the distance of two pointers is counted.
fn distance(alloc: Global, counted: bool) -> Option<Type>
    ensures { result ≡ (if counted then Some (Int I64) else None) }
{
    if counted {
        Some(Type::int(alloc, IntKind::I64))
    } else {
        None
    }
}

fn compared(a: &Type, b: &Type, zero_a: bool, zero_b: bool) -> bool
    ensures { result ≡ spec.compared_form (outer_of a.now) (outer_of b.now) a.now b.now zero_a zero_b }
{
    match a.outer() {
        Outer::Int(_) => match b.outer() {
            Outer::Int(_) => true,
            Outer::Pointer => zero_a,
            Outer::Void | Outer::Array(_) | Outer::Struct(_) => false,
        },
        Outer::Pointer => match b.outer() {
            Outer::Int(_) => zero_b,
            Outer::Pointer => same(a, b) || is_void_pointer(a) || is_void_pointer(b),
            Outer::Void | Outer::Array(_) | Outer::Struct(_) => false,
        },
        Outer::Void | Outer::Array(_) | Outer::Struct(_) => false,
    }
}

/// `int`, where the operands may be compared.
fn answers_int(alloc: Global, fits: bool) -> Option<Type>
    ensures { result ≡ spec.answers_int fits }
{
    if fits {
        Some(Type::int(alloc, IntKind::I32))
    } else {
        None
    }
}

/// Whether an operator shifts: it is done in the type of its left operand.
pub fn shifts(op: Arithmetic) -> bool
    ensures { result ≡ operator.shifts op }
{
    match op {
        Arithmetic::Shl | Arithmetic::Shr => true,
        Arithmetic::Mul
        | Arithmetic::Div
        | Arithmetic::Rem
        | Arithmetic::Add
        | Arithmetic::Sub
        | Arithmetic::BitAnd
        | Arithmetic::BitXor
        | Arithmetic::BitOr => false,
    }
}

/// Whether an operator takes a number away from a pointer, or a pointer from another.
pub fn takes_away(op: Arithmetic) -> bool
    ensures { result ≡ operator.takes_away op }
{
    match op {
        Arithmetic::Sub => true,
        Arithmetic::Mul
        | Arithmetic::Div
        | Arithmetic::Rem
        | Arithmetic::Add
        | Arithmetic::Shl
        | Arithmetic::Shr
        | Arithmetic::BitAnd
        | Arithmetic::BitXor
        | Arithmetic::BitOr => false,
    }
}

/// Whether an operator moves a pointer by a number of its targets.
pub fn moves(op: Arithmetic) -> bool
    ensures { result ≡ operator.moves op }
{
    match op {
        Arithmetic::Add | Arithmetic::Sub => true,
        Arithmetic::Mul
        | Arithmetic::Div
        | Arithmetic::Rem
        | Arithmetic::Shl
        | Arithmetic::Shr
        | Arithmetic::BitAnd
        | Arithmetic::BitXor
        | Arithmetic::BitOr => false,
    }
}

/// The type of an operator that calculates, or none where it takes no such operands.
fn arithmetic_kind(
    alloc: Global,
    structs: &[StructInfo],
    op: Arithmetic,
    a: &Type,
    b: &Type,
) -> Result<Option<Type>, OutOfMemory>
    ensures { IfOk result (λ t. t ≡ spec.arithmetic_kind structs.now op a.now b.now) }
{
    match op {
        Arithmetic::Mul
        | Arithmetic::Div
        | Arithmetic::Rem
        | Arithmetic::BitAnd
        | Arithmetic::BitXor
        | Arithmetic::BitOr => Ok(product(alloc, a.outer(), b.outer())),
        Arithmetic::Add => sum(alloc, structs, a, b),
        Arithmetic::Sub => difference(alloc, structs, a, b),
        Arithmetic::Shl | Arithmetic::Shr => Ok(shift(alloc, a.outer(), b.outer())),
    }
}

/// The type of an operator of two operands, of which neither is an array, or none where it takes no such operands.
pub fn binary_kind(
    alloc: Global,
    structs: &[StructInfo],
    op: BinaryOp,
    a: &Type,
    b: &Type,
    zeros: (bool, bool),
) -> Result<Option<Type>, OutOfMemory>
    ensures { IfOk result (λ t. t ≡ spec.binary_kind structs.now op a.now b.now zeros.0 zeros.1) }
{
    match op {
        BinaryOp::Arithmetic(op) => arithmetic_kind(alloc, structs, op, a, b),
        BinaryOp::Comparison(_) => Ok(answers_int(alloc, compared(a, b, zeros.0, zeros.1))),
        BinaryOp::Logical(_) => Ok(answers_int(alloc, is_scalar(a) && is_scalar(b))),
    }
}

fn joined(alloc: Global, a: &Type, b: &Type) -> Result<Option<Type>, OutOfMemory>
    ensures { IfOk result (λ t. t ≡ spec.joined a.now b.now) }
{
    if same(a, b) || is_void_pointer(a) {
        let copy = a.copy(alloc)?;
        Ok(Some(copy))
    } else if is_void_pointer(b) {
        let copy = b.copy(alloc)?;
        Ok(Some(copy))
    } else {
        Ok(None)
    }
}

fn copied_if(alloc: Global, fits: bool, kind: &Type) -> Result<Option<Type>, OutOfMemory>
    ensures { IfOk result (λ t. t ≡ (if fits then Some kind.now else None)) }
{
    if fits {
        let copy = kind.copy(alloc)?;
        Ok(Some(copy))
    } else {
        Ok(None)
    }
}

/// The type of `?:` over two values, of which neither is an array, or none where it takes no such values.
pub fn choice_kind(
    alloc: Global,
    a: &Type,
    b: &Type,
    zeros: (bool, bool),
) -> Result<Option<Type>, OutOfMemory>
    ensures { IfOk result (λ t. t ≡ spec.choice_kind a.now b.now zeros.0 zeros.1) }
{
    match a.outer() {
        Outer::Int(k) => match b.outer() {
            Outer::Int(l) => Ok(Some(Type::int(alloc, common(k, l)))),
            Outer::Pointer => copied_if(alloc, zeros.0, b),
            Outer::Void | Outer::Array(_) | Outer::Struct(_) => Ok(None),
        },
        Outer::Pointer => match b.outer() {
            Outer::Int(_) => copied_if(alloc, zeros.1, a),
            Outer::Pointer => joined(alloc, a, b),
            Outer::Void | Outer::Array(_) | Outer::Struct(_) => Ok(None),
        },
        Outer::Void | Outer::Array(_) | Outer::Struct(_) => Ok(None),
    }
}
