//! The walk over initialisers.

ghost use Rattle.std.specs.Prelude.{◌≡◌, OnOk, IfOk, All, map};
ghost use Rattle.c_types.specs.Types.{type_at, IsIn};
ghost use Rattle.bounds_plan.specs.elaboration.Types.{size_in};
ghost use Rattle.bounds_plan.specs.elaboration.Expressions.{expression};
ghost use Rattle.bounds_plan.specs.elaboration.Initialisers.{initialiser, many_filled, elements_filled, members_filled};
ghost use Rattle.steps_facts.specs.Seen.{reached_of};
ghost use Rattle.steps_facts.specs.Around.{standing_at, part_types, part_offsets, IsPart};
ghost use Rattle.steps_pieces.specs.Put.{put_of};
ghost use Rattle.steps_filling.specs.Effects.{went_effects};

use crate::ones::fill_one;
use crate::rests::{put_elements_rest, put_members_rest};
use c_tree::{Init, InitKind};
use c_types::{Shape, TypeId};
use mx_base::{OutOfMemory, Place};
use steps_facts::{Knows, Part, Reached, Standing};
use steps_filling::further;
use steps_pieces::{Emitter, LAST};

/// What an initialiser that stands from `r` on does with the part of a variable at an offset, which has a type; and how far the tree
/// is gone through after it.
#[cycle(fill)]
pub fn fill<K: Knows>(
    out: &mut Emitter,
    known: &K,
    init: &Init,
    kind: TypeId,
    at: Standing,
    offset: u64,
    r: Reached,
    d: u32,
) -> Result<Reached, OutOfMemory>
    requires { IsIn (K.table known.now) kind }
    ensures put { OnOk result (put_of out.new ≡ went_effects (initialiser expression init.now (K.around known.now) (type_at (K.table
        known.now) kind) (standing_at at) offset (reached_of r)).effects d (put_of out.old)) }
    ensures after { IfOk result (λ q. reached_of q ≡ (initialiser expression init.now (K.around known.now) (type_at (K.table known.now)
        kind) (standing_at at) offset (reached_of r)).after) }
{
    if d > LAST {
        return Err(OutOfMemory);
    }
    let place = init.place;
    match &init.kind {
        InitKind::One(e) => fill_one(out, known, e, kind, at, offset, place, r, d),
        InitKind::Many(list) => {
            let all = list.as_slice();
            fill_many(out, known, all, kind, at, offset, place, r, d)
        }
    }
}

/// What a list in braces does: an array takes it by elements, a struct by members, and a scalar takes none.
#[cycle(fill)]
fn fill_many<K: Knows>(
    out: &mut Emitter,
    known: &K,
    all: &[Init],
    kind: TypeId,
    at: Standing,
    offset: u64,
    place: Place,
    r: Reached,
    d: u32,
) -> Result<Reached, OutOfMemory>
    requires { IsIn (K.table known.now) kind }
    ensures put { OnOk result (put_of out.new ≡ went_effects (many_filled (map (initialiser expression) all.now) place (K.around
        known.now) (type_at (K.table known.now) kind) (standing_at at) offset (reached_of r)).effects d (put_of out.old)) }
    ensures after { IfOk result (λ q. reached_of q ≡ (many_filled (map (initialiser expression) all.now) place (K.around known.now)
        (type_at (K.table known.now) kind) (standing_at at) offset (reached_of r)).after) }
{
    let shape = known.shape(kind);
    match shape {
        Shape::Void => Ok(r),
        Shape::Int(_) => Ok(r),
        Shape::Pointer(_) => Ok(r),
        Shape::Array(element, count) => fill_elements(
            out, known, all, element, count, at, offset, place, r, d,
        ),
        Shape::Struct(number) => {
            let members = known.members(out.alloc, number)?;
            let parts = members.as_slice();
            fill_members(out, known, all, parts, at, offset, place, r, d)
        }
    }
}

/// Elements of a type, so many in all.
#[cycle(fill)]
fn fill_elements<K: Knows>(
    out: &mut Emitter,
    known: &K,
    all: &[Init],
    element: TypeId,
    count: u64,
    at: Standing,
    offset: u64,
    place: Place,
    r: Reached,
    d: u32,
) -> Result<Reached, OutOfMemory>
    requires { IsIn (K.table known.now) element }
    ensures put { OnOk result (put_of out.new ≡ went_effects (elements_filled (map (initialiser expression) all.now) (K.around
        known.now) (type_at (K.table known.now) element) place (size_in (K.around known.now).structs (type_at (K.table known.now)
        element)) count (standing_at at) offset (reached_of r)).effects d (put_of out.old)) }
    ensures after { IfOk result (λ q. reached_of q ≡ (elements_filled (map (initialiser expression) all.now) (K.around known.now)
        (type_at (K.table known.now) element) place (size_in (K.around known.now).structs (type_at (K.table known.now) element)) count
        (standing_at at) offset (reached_of r)).after) }
{
    if d > LAST {
        return Err(OutOfMemory);
    }
    let facts = known.facts(element)?;
    let size = facts.size;
    let mut left = count;
    let mut to = offset;
    let mut after = r;
    for init in all {
        if left == 0 {
            return Ok(after);
        }
        let filled = fill(out, known, init, element, at, to, after, d)?;
        let behind = further(to, size)?;
        after = filled;
        to = behind;
        left -= 1;
    }
    put_elements_rest(out, known, element, size, left, at, to, place, d)?;
    Ok(after)
}

/// Members with their types and offsets.
#[cycle(fill)]
fn fill_members<K: Knows>(
    out: &mut Emitter,
    known: &K,
    all: &[Init],
    parts: &[Part],
    at: Standing,
    offset: u64,
    place: Place,
    r: Reached,
    d: u32,
) -> Result<Reached, OutOfMemory>
    requires { All (IsPart (K.table known.now)) parts.now }
    ensures put { OnOk result (put_of out.new ≡ went_effects (members_filled (map (initialiser expression) all.now) (K.around known.now)
        place (part_types (K.table known.now) parts.now) (part_offsets parts.now) (standing_at at) offset (reached_of r)).effects d
        (put_of out.old)) }
    ensures after { IfOk result (λ q. reached_of q ≡ (members_filled (map (initialiser expression) all.now) (K.around known.now) place
        (part_types (K.table known.now) parts.now) (part_offsets parts.now) (standing_at at) offset (reached_of r)).after) }
{
    if d > LAST {
        return Err(OutOfMemory);
    }
    let mut left = parts;
    let mut after = r;
    for init in all {
        let Some((part, more)) = left.split_first() else {
            return Ok(after);
        };
        let to = further(offset, part.offset)?;
        let filled = fill(out, known, init, part.kind, at, to, after, d)?;
        after = filled;
        left = more;
    }
    put_members_rest(out, known, left, at, offset, place, d)?;
    Ok(after)
}
