//! The scalars of types, where they are few enough to be copied one by one.

ghost use Rattle.std.specs.Prelude.{◌≡◌, ◌∷◌, ◌++◌, [], List, map, All, IfOk, OnOk, slice_get};
ghost use Rattle.c_types.specs.Types.{Struct, type_at, built, IsIn};
ghost use Rattle.c_types.specs.Layouts.{CanBuild};
ghost use Rattle.bounds_plan.specs.meaning.Core.{Scalar};
ghost use Rattle.bounds_plan.specs.elaboration.Scalars as spec;
ghost use Rattle.steps_facts.specs.Around.{scalars_seen};
ghost use Rattle.steps_structs.specs.Scalars.{few, moved};
ghost use Rattle.steps_structs.specs.Structs.{AreKnown, structs_known, scalars_kept, scalars_from};

use crate::arithmetic::{behind, round_up, times};
use crate::known::KnownStruct;
use crate::sizes::{layout, layout_at};
use c_types::{Shape, TypeId, TypeTable};
use mx_base::{IntKind, OutOfMemory};
use sqlite_items::Items;
use std::alloc::Global;
use steps_facts::ScalarAt;

/// The most scalars of a struct that is copied, and of a variable that is initialised.
const MOST: u64 = 64;

/// The only scalar of a number or a pointer.
fn single(alloc: Global, kind: Option<IntKind>) -> Result<Items<ScalarAt>, OutOfMemory>
    ensures { IfOk result (λ all. all ≡ record { offset = 0; kind = kind } ∷ []) }
{
    let mut all = Items::new(alloc);
    all.push(ScalarAt { offset: 0, kind })?;
    Ok(all)
}

/// Puts scalars behind others, each so many bytes further on.
fn put_moved(all: &mut Items<ScalarAt>, offset: u64, part: &[ScalarAt]) -> Result<(), OutOfMemory>
    ensures { OnOk result (all.new ≡ all.old ++ map (moved offset) part.now) }
{
    for one in part {
        let offset = behind(offset, one.offset)?;
        let kind = one.kind;
        all.push(ScalarAt { offset, kind })?;
    }
    Ok(())
}

/// The scalars of so many elements of this size.
fn repeated(
    alloc: Global,
    element: &[ScalarAt],
    count: u64,
    size: u64,
) -> Result<Option<Items<ScalarAt>>, OutOfMemory>
    ensures { IfOk result (λ all. all ≡ few (spec.repeated count 0 size (scalars_seen element.now))) }
{
    let wanted = (element.len() as u64).saturating_mul(count);
    if wanted > MOST {
        return Ok(None);
    }
    let mut all = Items::new(alloc);
    for at in 0..count {
        let offset = times(size, at)?;
        put_moved(&mut all, offset, element)?;
    }
    Ok(Some(all))
}

/// The scalars of a struct by its number.
fn few_of_struct(
    alloc: Global,
    structs: &[KnownStruct],
    number: u32,
) -> Result<Option<Items<ScalarAt>>, OutOfMemory>
    ensures { IfOk result (λ all. all ≡ scalars_kept (slice_get structs.now number)) }
{
    match structs.get(number as usize) {
        Some(found) => match &found.scalars {
            Some(kept) => {
                let all = Items::from_slice(alloc, kept.as_slice())?;
                Ok(Some(all))
            }
            None => Ok(None),
        },
        None => Ok(Some(Items::new(alloc))),
    }
}

/// The scalars of a type of this shape.
fn few_of(
    alloc: Global,
    types: &TypeTable,
    structs: &[KnownStruct],
    shape: Shape,
) -> Result<Option<Items<ScalarAt>>, OutOfMemory>
    requires known { AreKnown types.now structs.now }
    requires named { CanBuild types.now shape }
    ensures { IfOk result (λ all. all ≡ few (spec.scalars_of (structs_known types.now structs.now) (built (type_at types.now) shape))) }
{
    match shape {
        Shape::Void => Ok(Some(Items::new(alloc))),
        Shape::Int(kind) => {
            let all = single(alloc, Some(kind))?;
            Ok(Some(all))
        }
        Shape::Pointer(_) => {
            let all = single(alloc, None)?;
            Ok(Some(all))
        }
        Shape::Array(element, count) => {
            let inner = types.shape(element);
            let one = layout(types, structs, inner)?;
            let part = few_of(alloc, types, structs, inner)?;
            match part {
                Some(scalars) => repeated(alloc, scalars.as_slice(), count, one.size),
                None => Ok(None),
            }
        }
        Shape::Struct(number) => few_of_struct(alloc, structs, number),
    }
}

/// The scalars of a struct with members of these types.
pub fn scalars_laid(
    alloc: Global,
    types: &TypeTable,
    structs: &[KnownStruct],
    members: &[TypeId],
) -> Result<Option<Items<ScalarAt>>, OutOfMemory>
    requires known { AreKnown types.now structs.now }
    requires members { All (IsIn types.now) members.now }
    ensures { IfOk result (λ all. all ≡ few (scalars_from (structs_known types.now structs.now) 0 (map (type_at types.now) members.now))) }
{
    let mut all = Items::new(alloc);
    let mut free = 0u64;
    for member in members {
        let one = layout_at(types, structs, *member)?;
        let offset = round_up(free, one.align)?;
        let shape = types.shape(*member);
        let Some(part) = few_of(alloc, types, structs, shape)? else {
            return Ok(None);
        };
        if all.len() + part.len() > MOST as usize {
            return Ok(None);
        }
        put_moved(&mut all, offset, part.as_slice())?;
        free = behind(offset, one.size)?;
    }
    Ok(Some(all))
}

/// Scalars, where they are few.
fn those_of(few_ones: Option<Items<ScalarAt>>) -> Result<Items<ScalarAt>, OutOfMemory>
    ensures { (all : List Scalar) → few_ones ≡ few all → IfOk result (λ them. scalars_seen them ≡ all) }
{
    match few_ones {
        Some(them) => Ok(them),
        None => Err(OutOfMemory),
    }
}

/// The scalars of a struct, in order of their offsets, if they are at most 64.
pub fn scalars_of_struct(
    alloc: Global,
    types: &TypeTable,
    structs: &[KnownStruct],
    owner: u32,
) -> Result<Items<ScalarAt>, OutOfMemory>
    requires { AreKnown types.now structs.now }
    ensures { IfOk result (λ all. scalars_seen all ≡ spec.scalars_of (structs_known types.now structs.now) (Struct owner)) }
{
    those_of(few_of_struct(alloc, structs, owner)?)
}

/// The scalars of a type, in order of their offsets, if they are at most 64.
pub fn scalars_at(
    alloc: Global,
    types: &TypeTable,
    structs: &[KnownStruct],
    t: TypeId,
) -> Result<Items<ScalarAt>, OutOfMemory>
    requires known { AreKnown types.now structs.now }
    requires named { IsIn types.now t }
    ensures { IfOk result (λ all. scalars_seen all ≡ spec.scalars_of (structs_known types.now structs.now) (type_at types.now t)) }
{
    let shape = types.shape(t);
    those_of(few_of(alloc, types, structs, shape)?)
}
