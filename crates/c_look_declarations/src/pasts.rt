//! The walk over initialisers, past them.

ghost use Rattle.std.specs.Prelude.{◌≡◌, ℕ, IfOk, All, map};
ghost use Rattle.mx_base.specs.declared.places.Place.{Place};
ghost use Rattle.c_types.specs.declared.shape.TypeId.{TypeId as TypeNumber};
ghost use Rattle.c_types.specs.Types.{CType, type_at, built, IsIn};
ghost use Rattle.c_types.specs.Layouts.{CanBuild};
ghost use Rattle.bounds_plan.specs.elaboration.Places.{Lvalue};
ghost use Rattle.bounds_plan.specs.elaboration.Expressions.{expression};
ghost use Rattle.bounds_plan.specs.elaboration.Initialisers.{initialiser, after_one, many_filled, elements_filled, members_filled};
ghost use Rattle.bounds_plan.specs.elaboration.Statements as spec;
ghost use Rattle.steps_facts.specs.Seen.{reached_of};
ghost use Rattle.steps_facts.specs.Around.{part_types, part_offsets, IsPart};

use c_look::{look, look_all};
use c_tree::{Decl, Init, InitKind};
use c_types::{Shape, TypeId};
use mx_base::OutOfMemory;
use std::alloc::Global;
use steps_facts::{Knows, Part, Reached};

/// How far the counts of a declaration go.
pub fn past_counts<K: Knows>(known: &K, d: &Decl, r: Reached) -> Result<Reached, OutOfMemory>
    ensures { IfOk result (λ q. reached_of q ≡ spec.past_counts expression d.now (K.around known.now) (reached_of r)) }
{
    look_all(known, d.counts.as_slice(), r)
}

/// How far an expression goes, up to `after`, that initialises a part of this shape: a text that fills an array is no literal.
fn past_one(shape: Shape, r: Reached, after: Reached) -> Reached
    ensures { (at : TypeNumber → CType) → reached_of result ≡ after_one (built at shape) (reached_of r) (reached_of after) }
{
    match shape {
        Shape::Array(_, _) => Reached {
            literal: r.literal,
            ..after
        },
        Shape::Void | Shape::Int(_) | Shape::Pointer(_) | Shape::Struct(_) => after,
    }
}

/// How far an initialiser goes that stands from `r` on and fills a part of a type.
#[cycle(past)]
pub fn past_init<K: Knows>(
    alloc: Global,
    known: &K,
    init: &Init,
    kind: TypeId,
    r: Reached,
) -> Result<Reached, OutOfMemory>
    requires { IsIn (K.table known.now) kind }
    ensures { IfOk result (λ q. (l : Lvalue) (offset : ℕ) → reached_of q ≡ (initialiser expression init.now (K.around known.now) (type_at (K.table known.now) kind) l offset (reached_of r)).after) }
{
    let shape = known.shape(kind);
    match &init.kind {
        InitKind::One(e) => {
            let x = look(known, e, r)?;
            Ok(past_one(shape, r, x.after))
        }
        InitKind::Many(list) => {
            let all = list.as_slice();
            past_many(alloc, known, all, shape, r)
        }
    }
}

/// How far a list in braces goes: of an array by elements, of a struct by members; a scalar takes none.
#[cycle(past)]
fn past_many<K: Knows>(
    alloc: Global,
    known: &K,
    all: &[Init],
    shape: Shape,
    r: Reached,
) -> Result<Reached, OutOfMemory>
    requires { CanBuild (K.table known.now) shape }
    ensures { IfOk result (λ q. (place : Place) (l : Lvalue) (offset : ℕ) → reached_of q ≡ (many_filled (map (initialiser expression) all.now) place (K.around known.now) (built (type_at (K.table known.now)) shape) l offset (reached_of r)).after) }
{
    match shape {
        Shape::Void | Shape::Int(_) | Shape::Pointer(_) => Ok(r),
        Shape::Array(element, count) => past_elements(alloc, known, all, element, count, r),
        Shape::Struct(number) => {
            let members = known.members(alloc, number)?;
            let parts = members.as_slice();
            past_members(alloc, known, all, parts, r)
        }
    }
}

/// How far a list of elements goes, of which there are so many in all.
#[cycle(past)]
fn past_elements<K: Knows>(
    alloc: Global,
    known: &K,
    all: &[Init],
    element: TypeId,
    count: u64,
    r: Reached,
) -> Result<Reached, OutOfMemory>
    requires { IsIn (K.table known.now) element }
    ensures { IfOk result (λ q. (place : Place) (size : ℕ) (l : Lvalue) (offset : ℕ) → reached_of q ≡ (elements_filled (map (initialiser expression) all.now) (K.around known.now) (type_at (K.table known.now) element) place size count l offset (reached_of r)).after) }
{
    let mut left = count;
    let mut after = r;
    for init in all {
        if left == 0 {
            return Ok(after);
        }
        after = past_init(alloc, known, init, element, after)?;
        left -= 1;
    }
    Ok(after)
}

/// How far a list of members goes.
#[cycle(past)]
fn past_members<K: Knows>(
    alloc: Global,
    known: &K,
    all: &[Init],
    parts: &[Part],
    r: Reached,
) -> Result<Reached, OutOfMemory>
    requires { All (IsPart (K.table known.now)) parts.now }
    ensures { IfOk result (λ q. (place : Place) (l : Lvalue) (offset : ℕ) → reached_of q ≡ (members_filled (map (initialiser expression) all.now) (K.around known.now) place (part_types (K.table known.now) parts.now) (part_offsets parts.now) l offset (reached_of r)).after) }
{
    let mut left = parts;
    let mut after = r;
    for init in all {
        let Some((part, more)) = left.split_first() else {
            return Ok(after);
        };
        after = past_init(alloc, known, init, part.kind, after)?;
        left = more;
    }
    Ok(after)
}
