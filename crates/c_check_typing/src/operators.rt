//! Operators.

ghost use Rattle.std.specs.Prelude.{◌≡◌};
ghost use Rattle.c_check_rules.specs.Kinds.{outer_of};
ghost use Rattle.c_check_typing.specs.Notes.{Ends, took_note};
ghost use Rattle.c_check_typing.specs.Rules as rule;

use crate::fault::{CheckFault, CheckKind};
use crate::typed::{Notes, Typed, end_fine, end_wrong, is_address, place_of, value};
use c_check_rules::{
    Constant, Outer, Scope, StructInfo, Type, binary_kind, choice_kind, choose, common,
    fold_binary, fold_unary, inner_size, is_inner_sized, is_scalar, moves, promoted, shifts,
    takes_away,
};
use c_tree::{BinaryOp, UnaryOp};
use mx_base::{Arithmetic, IntKind, Place};
use std::alloc::Global;

/// Ends a node by the type that an operator gives, or as a broken rule of types where it gives none.
fn end_of_kind(
    alloc: Global,
    notes: &mut Notes,
    place: Place,
    kind: Option<Type>,
    constant: Constant,
) -> Result<Typed, CheckFault>
    ensures { Ends (rule.of_kind kind constant) place notes.old result notes.new }
{
    match kind {
        Some(kind) => end_fine(alloc, notes, place, value(kind, constant)),
        None => end_wrong(place, CheckKind::BadType),
    }
}

fn end_sign(
    alloc: Global,
    notes: &mut Notes,
    place: Place,
    op: UnaryOp,
    a: &Typed,
) -> Result<Typed, CheckFault>
    ensures { Ends (rule.sign_own op (outer_of a.now.kind) a.now.constant) place notes.old result notes.new }
{
    match a.kind.outer() {
        Outer::Int(k) => {
            let kind = promoted(k);
            let constant = fold_unary(op, kind, a.constant);
            end_fine(alloc, notes, place, value(Type::int(alloc, kind), constant))
        }
        Outer::Void => end_wrong(place, CheckKind::BadType),
        Outer::Pointer => end_wrong(place, CheckKind::BadType),
        Outer::Array(_) => end_wrong(place, CheckKind::BadType),
        Outer::Struct(_) => end_wrong(place, CheckKind::BadType),
    }
}

fn not_constant(form: Outer, constant: Constant) -> Constant
    ensures { result ≡ rule.not_constant form constant }
{
    match form {
        Outer::Int(k) => fold_unary(UnaryOp::Not, k, constant),
        Outer::Pointer => fold_unary(UnaryOp::Not, IntKind::U64, constant),
        Outer::Void => Constant::No,
        Outer::Array(_) => Constant::No,
        Outer::Struct(_) => Constant::No,
    }
}

fn end_not(alloc: Global, notes: &mut Notes, place: Place, a: &Typed) -> Result<Typed, CheckFault>
    ensures { Ends (rule.not_own a.now) place notes.old result notes.new }
{
    let kind = a.decayed(alloc)?;
    if is_scalar(&kind) {
        let constant = not_constant(a.kind.outer(), a.constant);
        end_fine(
            alloc,
            notes,
            place,
            value(Type::int(alloc, IntKind::I32), constant),
        )
    } else {
        end_wrong(place, CheckKind::BadType)
    }
}

fn end_target(
    alloc: Global,
    scope: &Scope,
    notes: &mut Notes,
    place: Place,
    a: &Typed,
) -> Result<Typed, CheckFault>
    ensures { Ends (rule.target_own scope.now.structs a.now) place notes.old result notes.new }
{
    if is_address(a.kind.outer()) && is_inner_sized(scope.structs.as_slice(), &a.kind) {
        let target = a.kind.inner(alloc)?;
        end_fine(alloc, notes, place, place_of(target))
    } else {
        end_wrong(place, CheckKind::BadType)
    }
}

fn note_taken(notes: &mut Notes, local: Option<u32>) -> Result<(), CheckFault>
    ensures { took_note local notes.old result notes.new }
{
    if let Some(local) = local {
        notes.taken.push(local)?;
    }
    Ok(())
}

fn end_address(
    alloc: Global,
    notes: &mut Notes,
    place: Place,
    a: &Typed,
) -> Result<Typed, CheckFault>
    ensures { Ends (rule.address_own a.now) place notes.old result notes.new }
{
    if !a.is_place {
        return end_wrong(place, CheckKind::NotPlace);
    }
    let kind = a.kind.pointer_to(alloc)?;
    note_taken(notes, a.local)?;
    end_fine(alloc, notes, place, value(kind, Constant::No))
}

/// Ends an operator on one operand.
#[tactic(auto, unfolding(crate::specs::Rules::unary_own))]
pub fn end_unary(
    alloc: Global,
    scope: &Scope,
    notes: &mut Notes,
    place: Place,
    op: UnaryOp,
    a: Typed,
) -> Result<Typed, CheckFault>
    ensures { Ends (rule.unary_own scope.now.structs op a) place notes.old result notes.new }
{
    match op {
        UnaryOp::Neg => end_sign(alloc, notes, place, op, &a),
        UnaryOp::BitNot => end_sign(alloc, notes, place, op, &a),
        UnaryOp::Not => end_not(alloc, notes, place, &a),
        UnaryOp::Deref => end_target(alloc, scope, notes, place, &a),
        UnaryOp::AddressOf => end_address(alloc, notes, place, &a),
    }
}

fn done_in(op: BinaryOp, k: IntKind, l: IntKind) -> IntKind
    ensures { result ≡ rule.done_in op k l }
{
    match op {
        BinaryOp::Arithmetic(op) => {
            if shifts(op) {
                promoted(k)
            } else {
                common(k, l)
            }
        }
        BinaryOp::Comparison(_) => common(k, l),
        BinaryOp::Logical(_) => common(k, l),
    }
}

/// The size of what a pointer points to.
fn target_size(structs: &[StructInfo], pointer: &Type) -> u64
    ensures { result ≡ rule.target_size structs.now pointer.now }
{
    inner_size(structs, pointer).unwrap_or(0)
}

/// So many targets of a pointer, in bytes.
fn scaled(structs: &[StructInfo], pointer: &Type, by: Constant) -> Constant
    ensures { result ≡ rule.scaled structs.now pointer.now by }
{
    let size = Constant::Value(target_size(structs, pointer));
    fold_binary(
        BinaryOp::Arithmetic(Arithmetic::Mul),
        IntKind::U64,
        by,
        size,
    )
}

/// What an operator of a pointer and an integer counts: `+` and `-` targets, and the others the integer as it is.
fn counted(structs: &[StructInfo], op: BinaryOp, pointer: &Type, by: Constant) -> Constant
    ensures { result ≡ rule.counted structs.now op pointer.now by }
{
    match op {
        BinaryOp::Arithmetic(op) => {
            if moves(op) {
                scaled(structs, pointer, by)
            } else {
                by
            }
        }
        BinaryOp::Comparison(_) => by,
        BinaryOp::Logical(_) => by,
    }
}

/// The signed difference of two addresses, divided by the size of what they point to.
fn distance(structs: &[StructInfo], pointer: &Type, a: Constant, b: Constant) -> Constant
    ensures { result ≡ rule.distance structs.now pointer.now a b }
{
    let size = Constant::Value(target_size(structs, pointer));
    let apart = fold_binary(BinaryOp::Arithmetic(Arithmetic::Sub), IntKind::I64, a, b);
    let over = BinaryOp::Arithmetic(Arithmetic::Div);
    fold_binary(over, IntKind::I64, apart, size)
}

/// An operator of two addresses.
fn apart_constant(
    structs: &[StructInfo],
    op: BinaryOp,
    pointer: &Type,
    a: Constant,
    b: Constant,
) -> Constant
    ensures { result ≡ rule.apart_constant structs.now op pointer.now a b }
{
    match op {
        BinaryOp::Arithmetic(f) => {
            if takes_away(f) {
                distance(structs, pointer, a, b)
            } else {
                fold_binary(op, IntKind::U64, a, b)
            }
        }
        BinaryOp::Comparison(_) => fold_binary(op, IntKind::U64, a, b),
        BinaryOp::Logical(_) => fold_binary(op, IntKind::U64, a, b),
    }
}

fn binary_constant(structs: &[StructInfo], op: BinaryOp, a: &Typed, b: &Typed) -> Constant
    ensures { result ≡ rule.binary_constant structs.now op a.now b.now }
{
    match (a.kind.outer(), b.kind.outer()) {
        (Outer::Int(k), Outer::Int(l)) => {
            fold_binary(op, done_in(op, k, l), a.constant, b.constant)
        }
        (Outer::Int(_), Outer::Pointer) => {
            let by = counted(structs, op, &b.kind, a.constant);
            fold_binary(op, IntKind::U64, by, b.constant)
        }
        (Outer::Pointer, Outer::Int(_)) => {
            let by = counted(structs, op, &a.kind, b.constant);
            fold_binary(op, IntKind::U64, a.constant, by)
        }
        (Outer::Pointer, Outer::Pointer) => {
            apart_constant(structs, op, &a.kind, a.constant, b.constant)
        }
        _ => Constant::No,
    }
}

/// Ends an operator of two operands.
#[tactic(auto, unfolding(crate::specs::Rules::binary_own))]
pub fn end_binary(
    alloc: Global,
    scope: &Scope,
    notes: &mut Notes,
    place: Place,
    op: BinaryOp,
    a: Typed,
    b: Typed,
) -> Result<Typed, CheckFault>
    ensures { Ends (rule.binary_own scope.now.structs op a b) place notes.old result notes.new }
{
    let left = a.decayed(alloc)?;
    let right = b.decayed(alloc)?;
    let zeros = (a.is_zero, b.is_zero);
    let kind = binary_kind(alloc, scope.structs.as_slice(), op, &left, &right, zeros)?;
    let constant = binary_constant(scope.structs.as_slice(), op, &a, &b);
    end_of_kind(alloc, notes, place, kind, constant)
}

/// The type in which both values of `?:` are taken, a pointer as its address.
fn choice_in(a: Outer, b: Outer) -> IntKind
    ensures { result ≡ rule.choice_in a b }
{
    match (a, b) {
        (Outer::Int(k), Outer::Int(l)) => common(k, l),
        _ => IntKind::U64,
    }
}

fn choice_constant(test: &Typed, a: &Typed, b: &Typed) -> Constant
    ensures { result ≡ rule.choice_constant test.now a.now b.now }
{
    let kind = choice_in(a.kind.outer(), b.kind.outer());
    choose(kind, test.constant, a.constant, b.constant)
}

/// Ends `?:`.
#[tactic(auto, unfolding(crate::specs::Rules::choice_own))]
pub fn end_choice(
    alloc: Global,
    notes: &mut Notes,
    place: Place,
    test: Typed,
    a: Typed,
    b: Typed,
) -> Result<Typed, CheckFault>
    ensures { Ends (rule.choice_own test a b) place notes.old result notes.new }
{
    let tested = test.decayed(alloc)?;
    if !is_scalar(&tested) {
        return end_wrong(place, CheckKind::BadType);
    }
    let left = a.decayed(alloc)?;
    let right = b.decayed(alloc)?;
    let kind = choice_kind(alloc, &left, &right, (a.is_zero, b.is_zero))?;
    end_of_kind(alloc, notes, place, kind, choice_constant(&test, &a, &b))
}
