//! Types that are written out, casts, `sizeof` and texts.

ghost use Rattle.std.specs.Prelude.{◌≡◌, IfOk, Some};
ghost use Rattle.c_check_typing.specs.Notes.{Ends};
ghost use Rattle.c_check_typing.specs.Rules as rule;

use crate::fault::{CheckFault, CheckKind};
use crate::typed::{Notes, Typed, end_fine, end_wrong, value};
use c_check_rules::{Constant, Core, LIMIT, Scope, Type, cast_constant, cast_fits, size_in};
use c_tree::Base;
use mx_base::{IntKind, OutOfMemory, Place};
use std::alloc::Global;

/// The type of a base, where its tag is known. It takes no memory.
pub fn base_kind(alloc: Global, scope: &Scope, base: &Base) -> Option<Type>
    ensures { result ≡ rule.base_kind scope.now base.now }
{
    match base {
        Base::Void => Some(Type::of_core(alloc, Core::Void)),
        Base::Int(kind) => Some(Type::of_core(alloc, Core::Int(*kind))),
        Base::Struct(tag) => struct_kind(alloc, scope.tag(tag.as_slice())),
    }
}

fn struct_kind(alloc: Global, number: Option<usize>) -> Option<Type>
    ensures { result ≡ rule.struct_kind number }
{
    match number {
        Some(at) => Some(Type::of_core(alloc, Core::Struct(at.min(0xffff_ffff) as u32))),
        None => None,
    }
}

/// The type with so many pointers around it.
pub fn starred(alloc: Global, kind: Type, stars: u8) -> Result<Type, OutOfMemory>
    ensures { IfOk result (λ t. t ≡ rule.starred stars kind) }
{
    let mut starred = kind;
    'stars: for _star in 0..stars {
        starred = starred.pointer_to(alloc)?;
    }
    Ok(starred)
}

fn end_cast_value(
    alloc: Global,
    notes: &mut Notes,
    place: Place,
    kind: Type,
    a: &Typed,
) -> Result<Typed, CheckFault>
    ensures { Ends (rule.cast_value kind a.now) place notes.old result notes.new }
{
    let source = a.decayed(alloc)?;
    if cast_fits(&kind, &source) {
        let constant = cast_constant(kind.outer(), a.constant);
        end_fine(alloc, notes, place, value(kind, constant))
    } else {
        end_wrong(place, CheckKind::BadType)
    }
}

/// Ends a cast.
#[tactic(auto, unfolding(crate::specs::Rules::cast_own))]
pub fn end_cast(
    alloc: Global,
    scope: &Scope,
    notes: &mut Notes,
    place: Place,
    base: &Base,
    stars: u8,
    a: Typed,
) -> Result<Typed, CheckFault>
    ensures { Ends (rule.cast_own scope.now base.now stars (Some a)) place notes.old result notes.new }
{
    let Some(kind) = base_kind(alloc, scope, base) else {
        return end_wrong(place, CheckKind::Unknown);
    };
    let kind = starred(alloc, kind, stars)?;
    end_cast_value(alloc, notes, place, kind, &a)
}

/// Ends `sizeof` of a type.
#[tactic(auto, unfolding(crate::specs::Rules::size_own))]
pub fn end_size(
    alloc: Global,
    scope: &Scope,
    notes: &mut Notes,
    place: Place,
    kind: &Type,
) -> Result<Typed, CheckFault>
    ensures { Ends (rule.size_own scope.now.structs kind.now) place notes.old result notes.new }
{
    match size_in(scope.structs.as_slice(), kind) {
        Some(size) => {
            let long = Type::int(alloc, IntKind::U64);
            end_fine(alloc, notes, place, value(long, Constant::Value(size)))
        }
        None => end_wrong(place, CheckKind::BadType),
    }
}

/// Ends `sizeof` of a type that is written out.
#[tactic(auto, unfolding(crate::specs::Rules::size_of_kind_own))]
pub fn end_size_of_kind(
    alloc: Global,
    scope: &Scope,
    notes: &mut Notes,
    place: Place,
    base: &Base,
    stars: u8,
) -> Result<Typed, CheckFault>
    ensures { Ends (rule.size_of_kind_own scope.now base.now stars) place notes.old result notes.new }
{
    let Some(kind) = base_kind(alloc, scope, base) else {
        return end_wrong(place, CheckKind::Unknown);
    };
    let kind = starred(alloc, kind, stars)?;
    end_size(alloc, scope, notes, place, &kind)
}

/// Ends a text of these bytes.
#[tactic(auto, unfolding(crate::specs::Rules::text_own))]
pub fn end_text(
    alloc: Global,
    notes: &mut Notes,
    place: Place,
    bytes: &[u8],
) -> Result<Typed, CheckFault>
    ensures { Ends (rule.text_own bytes.now) place notes.old result notes.new }
{
    let count = bytes.len();
    if LIMIT <= count as u64 {
        return end_wrong(place, CheckKind::BadCount);
    }
    let byte = Type::int(alloc, IntKind::I8);
    let kind = byte.array_of(alloc, count as u64 + 1)?;
    let t = Typed {
        kind,
        is_place: false,
        is_zero: false,
        constant: Constant::No,
        text: Some(count),
        local: None,
    };
    notes.literals.push(bytes)?;
    end_fine(alloc, notes, place, t)
}
