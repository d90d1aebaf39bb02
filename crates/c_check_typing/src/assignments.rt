//! Assignments.

ghost use Rattle.std.specs.Prelude.{◌≡◌, IfOk};
ghost use Rattle.c_check_rules.specs.Kinds.{outer_of};
ghost use Rattle.c_check_typing.specs.Notes.{Ends};
ghost use Rattle.c_check_typing.specs.Rules as rule;

use crate::fault::{CheckFault, CheckKind};
use crate::typed::{Notes, Typed, end_fine, end_wrong, is_array, is_struct, value};
use c_check_rules::{
    Constant, Outer, Scope, StructInfo, Type, binary_kind, converts, fits_struct, is_inner_sized,
    scalars_in,
};
use c_tree::BinaryOp;
use mx_base::{Arithmetic, OutOfMemory, Place};
use std::alloc::Global;

/// Whether nothing can be assigned to it.
pub fn is_no_target(a: &Typed) -> bool
    ensures { result ≡ rule.is_no_target a.now }
{
    !a.is_place || is_array(a.kind.outer())
}

/// Whether it is a struct that cannot be assigned.
pub fn is_no_source(b: &Typed) -> bool
    ensures { result ≡ rule.is_no_source b.now }
{
    is_struct(b.kind.outer()) && !b.is_place
}

/// Whether a value can be assigned to a place of a type.
pub fn is_assigned(alloc: Global, kind: &Type, b: &Typed) -> Result<bool, OutOfMemory>
    ensures { IfOk result (λ fits. fits ≡ rule.is_assigned kind.now b.now) }
{
    let source = b.decayed(alloc)?;
    Ok(converts(kind, &source, b.is_zero) || fits_struct(kind, &b.kind))
}

fn converts_back(kind: &Type, result_kind: &Option<Type>) -> bool
    ensures { result ≡ rule.converts_back kind.now result_kind.now }
{
    match result_kind {
        Some(source) => converts(kind, source, false),
        None => false,
    }
}

fn fits_assignment(
    alloc: Global,
    structs: &[StructInfo],
    op: Option<Arithmetic>,
    a: &Typed,
    b: &Typed,
) -> Result<bool, OutOfMemory>
    ensures { IfOk result (λ fits. fits ≡ rule.fits_assignment structs.now op a.now b.now) }
{
    let Some(op) = op else {
        return is_assigned(alloc, &a.kind, b);
    };
    let left = a.decayed(alloc)?;
    let right = b.decayed(alloc)?;
    let zeros = (a.is_zero, b.is_zero);
    let kind = binary_kind(
        alloc,
        structs,
        BinaryOp::Arithmetic(op),
        &left,
        &right,
        zeros,
    )?;
    Ok(converts_back(&a.kind, &kind))
}

fn is_large_copy(structs: &[StructInfo], op: Option<Arithmetic>, a: &Typed, b: &Typed) -> bool
    ensures { result ≡ rule.is_large_copy structs.now op a.now b.now }
{
    match op {
        Some(_) => false,
        None => fits_struct(&a.kind, &b.kind) && 64 < scalars_in(structs, &a.kind),
    }
}

/// Ends an assignment.
#[tactic(auto, unfolding(crate::specs::Rules::assign_own))]
pub fn end_assign(
    alloc: Global,
    scope: &Scope,
    notes: &mut Notes,
    place: Place,
    op: Option<Arithmetic>,
    a: Typed,
    b: Typed,
) -> Result<Typed, CheckFault>
    ensures { Ends (rule.assign_own scope.now.structs op a b) place notes.old result notes.new }
{
    if is_no_target(&a) || is_no_source(&b) {
        return end_wrong(place, CheckKind::NotPlace);
    }
    if !fits_assignment(alloc, scope.structs.as_slice(), op, &a, &b)? {
        return end_wrong(place, CheckKind::BadType);
    }
    if is_large_copy(scope.structs.as_slice(), op, &a, &b) {
        return end_wrong(place, CheckKind::LargeCopy);
    }
    let kind = a.kind.copy(alloc)?;
    end_fine(alloc, notes, place, value(kind, Constant::No))
}

fn is_counted(structs: &[StructInfo], kind: &Type) -> bool
    ensures { result ≡ rule.is_counted structs.now (outer_of kind.now) kind.now }
{
    match kind.outer() {
        Outer::Int(_) => true,
        Outer::Pointer => is_inner_sized(structs, kind),
        Outer::Void => false,
        Outer::Array(_) => false,
        Outer::Struct(_) => false,
    }
}

/// Ends `++` or `--`.
#[tactic(auto, unfolding(crate::specs::Rules::step_own))]
pub fn end_step(
    alloc: Global,
    scope: &Scope,
    notes: &mut Notes,
    place: Place,
    a: Typed,
) -> Result<Typed, CheckFault>
    ensures { Ends (rule.step_own scope.now.structs a) place notes.old result notes.new }
{
    if is_no_target(&a) {
        return end_wrong(place, CheckKind::NotPlace);
    }
    if !is_counted(scope.structs.as_slice(), &a.kind) {
        return end_wrong(place, CheckKind::BadType);
    }
    let kind = a.kind.copy(alloc)?;
    end_fine(alloc, notes, place, value(kind, Constant::No))
}
