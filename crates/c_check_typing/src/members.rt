//! Elements and members.

ghost use Rattle.std.specs.Prelude.{◌≡◌, IfOk, Err};
ghost use Rattle.c_check_rules.specs.Kinds.{outer_of, inner_of};
ghost use Rattle.std.specs.Option.{option_copied};
ghost use Rattle.c_check_rules.specs.Conversions.{is_integer_form};
ghost use Rattle.c_check_rules.specs.Names.{member_named as named_in};
ghost use Rattle.c_check_typing.specs.declared.fault.CheckFault.TheVariants.{Refused};
ghost use Rattle.c_check_typing.specs.Notes.{Ends};
ghost use Rattle.c_check_typing.specs.Rules as rule;

use crate::fault::{CheckFault, CheckKind};
use crate::typed::{Notes, Typed, end_fine, end_wrong, is_address, is_struct, place_of};
use c_check_rules::{Outer, Scope, StructInfo, Type, is_inner_sized, member_named};
use mx_base::{OutOfMemory, Place};
use sqlite_items::at;
use std::alloc::Global;

fn is_integer(form: Outer) -> bool
    ensures { result ≡ is_integer_form form }
{
    match form {
        Outer::Int(_) => true,
        Outer::Void => false,
        Outer::Pointer => false,
        Outer::Array(_) => false,
        Outer::Struct(_) => false,
    }
}

/// Ends `a[i]`.
#[tactic(auto, unfolding(crate::specs::Rules::index_own))]
pub fn end_index(
    alloc: Global,
    scope: &Scope,
    notes: &mut Notes,
    place: Place,
    a: Typed,
    i: Typed,
) -> Result<Typed, CheckFault>
    ensures { Ends (rule.index_own scope.now.structs a i) place notes.old result notes.new }
{
    if is_address(a.kind.outer())
        && (is_integer(i.kind.outer()) && is_inner_sized(scope.structs.as_slice(), &a.kind))
    {
        let element = a.kind.inner(alloc)?;
        end_fine(alloc, notes, place, place_of(element))
    } else {
        end_wrong(place, CheckKind::BadType)
    }
}

fn member_of(
    alloc: Global,
    info: Option<&StructInfo>,
    name: &[u8],
) -> Result<Option<Type>, OutOfMemory>
    ensures { IfOk result (λ t. t ≡ named_in (rule.members_in (option_copied info.entry)) name.now) }
{
    match info {
        Some(info) => member_named(alloc, &info.members, name),
        None => Ok(None),
    }
}

/// The type of a member of a type of this form, where that is a struct and has it.
fn member_by(
    alloc: Global,
    structs: &[StructInfo],
    form: Outer,
    name: &[u8],
) -> Result<Option<Type>, OutOfMemory>
    ensures { IfOk result (λ t. t ≡ named_in (rule.members_by structs.now form) name.now) }
{
    match form {
        Outer::Struct(number) => member_of(alloc, at(structs, number as usize), name),
        Outer::Void => Ok(None),
        Outer::Int(_) => Ok(None),
        Outer::Pointer => Ok(None),
        Outer::Array(_) => Ok(None),
    }
}

/// Ends `a.m`.
#[tactic(auto, unfolding(crate::specs::Rules::member_own))]
pub fn end_member(
    alloc: Global,
    scope: &Scope,
    notes: &mut Notes,
    place: Place,
    name: &[u8],
    a: Typed,
) -> Result<Typed, CheckFault>
    ensures { Ends (rule.member_own scope.now.structs name.now a) place notes.old result notes.new }
{
    let form = a.kind.outer();
    let found = member_by(alloc, scope.structs.as_slice(), form, name)?;
    match found {
        None => end_without(place, is_struct(form), a.is_place),
        Some(kind) => {
            if !a.is_place {
                return end_wrong(place, CheckKind::NotPlace);
            }
            if !is_struct(form) {
                return end_wrong(place, CheckKind::BadType);
            }
            end_fine(alloc, notes, place, place_of(kind))
        }
    }
}

/// Ends `a.m` where there is no such member.
fn end_without(place: Place, is_one: bool, is_place: bool) -> Result<Typed, CheckFault>
    ensures { result ≡ Err (Refused (rule.without_member is_one is_place) place) }
{
    if is_one {
        end_wrong(place, CheckKind::Unknown)
    } else if !is_place {
        end_wrong(place, CheckKind::NotPlace)
    } else {
        end_wrong(place, CheckKind::BadType)
    }
}

/// Whether a value of a type points to a struct.
fn reaches_struct(kind: &Type) -> bool
    ensures { result ≡ rule.reaches_struct kind.now }
{
    is_address(kind.outer()) && is_struct(kind.inner_outer())
}

/// Ends `p->m`.
#[tactic(auto, unfolding(crate::specs::Rules::arrow_own))]
pub fn end_arrow(
    alloc: Global,
    scope: &Scope,
    notes: &mut Notes,
    place: Place,
    name: &[u8],
    a: Typed,
) -> Result<Typed, CheckFault>
    ensures { Ends (rule.arrow_own scope.now.structs name.now a) place notes.old result notes.new }
{
    if !reaches_struct(&a.kind) {
        return end_wrong(place, CheckKind::BadType);
    }
    let found = member_by(alloc, scope.structs.as_slice(), a.kind.inner_outer(), name)?;
    let Some(kind) = found else {
        return end_wrong(place, CheckKind::Unknown);
    };
    if is_inner_sized(scope.structs.as_slice(), &a.kind) {
        end_fine(alloc, notes, place, place_of(kind))
    } else {
        end_wrong(place, CheckKind::BadType)
    }
}
