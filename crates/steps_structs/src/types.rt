//! What is asked of a type.

ghost use Rattle.std.specs.Prelude.{◌≡◌, IfOk};
ghost use Rattle.c_types.specs.declared.shape.TypeId.{TypeId as TypeNumber};
ghost use Rattle.c_types.specs.Types.{CType, type_at, built, IsIn};
ghost use Rattle.c_types.specs.Layouts.{CanBuild};
ghost use Rattle.bounds_plan.specs.elaboration.Types as spec;
ghost use Rattle.bounds_plan.specs.elaboration.Places as place;
ghost use Rattle.steps_facts.specs.Seen.{sorted as sort_of_sort, facts_of};
ghost use Rattle.steps_structs.specs.Structs.{AreKnown, structs_known};

use crate::known::KnownStruct;
use crate::sizes::layout;
use c_types::{Shape, TypeId, TypeTable};
use mx_base::OutOfMemory;
use steps_facts::{Facts, Sorted};

/// What the values of a type are.
pub fn sorted(shape: Shape) -> Sorted
    ensures { (at : TypeNumber → CType) → result ≡ sort_of_sort (spec.sort_of (built at shape)) }
{
    match shape {
        Shape::Void => Sorted::Nothing,
        Shape::Int(kind) => Sorted::Number(kind),
        Shape::Pointer(_) => Sorted::Pointer,
        Shape::Array(_, _) | Shape::Struct(_) => Sorted::Whole,
    }
}

fn is_array(shape: Shape) -> bool
    ensures { (at : TypeNumber → CType) → result ≡ spec.is_array (built at shape) }
{
    match shape {
        Shape::Array(_, _) => true,
        Shape::Void | Shape::Int(_) | Shape::Pointer(_) | Shape::Struct(_) => false,
    }
}

/// The struct of a type.
fn struct_of(shape: Shape) -> u32
    ensures { (at : TypeNumber → CType) → result ≡ place.struct_of (built at shape) }
{
    match shape {
        Shape::Struct(number) => number,
        Shape::Void | Shape::Int(_) | Shape::Pointer(_) | Shape::Array(_, _) => 0,
    }
}

/// What a pointer points to, and what an array has.
fn target_of(types: &TypeTable, shape: Shape) -> Shape
    requires { CanBuild types.now shape }
    ensures target { built (type_at types.now) result ≡ spec.target_of (built (type_at types.now) shape) }
    ensures named { CanBuild types.now result }
{
    match shape {
        Shape::Pointer(target) => types.shape(target),
        Shape::Array(element, _) => types.shape(element),
        Shape::Void | Shape::Int(_) | Shape::Struct(_) => Shape::Void,
    }
}

/// What is asked of a type of this shape.
pub fn facts_of_shape(
    types: &TypeTable,
    structs: &[KnownStruct],
    shape: Shape,
) -> Result<Facts, OutOfMemory>
    requires known { AreKnown types.now structs.now }
    requires named { CanBuild types.now shape }
    ensures { IfOk result (λ f. f ≡ facts_of (structs_known types.now structs.now) (built (type_at types.now) shape)) }
{
    let target = target_of(types, shape);
    let whole = layout(types, structs, shape)?;
    let part = layout(types, structs, target)?;
    Ok(Facts {
        sort: sorted(shape),
        array: is_array(shape),
        size: whole.size,
        step: part.size,
        owner: struct_of(shape),
        target: struct_of(target),
    })
}

/// What is asked of a type of the table.
pub fn facts_at(types: &TypeTable, structs: &[KnownStruct], t: TypeId) -> Result<Facts, OutOfMemory>
    requires known { AreKnown types.now structs.now }
    requires named { IsIn types.now t }
    ensures { IfOk result (λ f. f ≡ facts_of (structs_known types.now structs.now) (type_at types.now t)) }
{
    let shape = types.shape(t);
    facts_of_shape(types, structs, shape)
}
