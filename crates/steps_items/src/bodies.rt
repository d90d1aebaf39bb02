//! What is known inside of the body of a function.

ghost use Rattle.std.specs.Prelude.{◌≡◌, ◌++◌, map, take, drop, All, IfOk, slice_index_or};
ghost use Rattle.c_types.specs.Types.{type_at, IsIn};
ghost use Rattle.bounds_plan.specs.elaboration.Functions.{no_frame};
ghost use Rattle.c_accepted.specs.Planned.{stand_of, layout_frame};
ghost use Rattle.steps_known.specs.Known.{around_of};
ghost use Rattle.steps_items.specs.Around.{IsSource, IsGone, table_of};
ghost use Rattle.steps_items.specs.Bodies.{AreVariables, around_inside};

use crate::counts::declarations;
use crate::gone::{FunctionHead, Gone};
use c_tree::Stmt;
use c_types::TypeId;
use mx_base::OutOfMemory;
use place_plan::{FramePlan, Spot};
use sqlite_items::Items;
use std::alloc::Global;
use steps_facts::Standing;
use steps_known::{Known, standings_of};
use steps_source::{FunctionVariables, PlannedSource, known_at};

/// The variables of a function: the types of its parameters and then of what its body declares, and where each of them stands.
#[derive(Drop)]
pub struct BodyVariables {
    pub types: Items<TypeId>,
    pub standings: Items<Standing>,
}

/// So many types from a place on, or as many as there are.
fn types_from(all: &[TypeId], from: u32, count: u32) -> &[TypeId]
    ensures { result.now ≡ take count (drop from all.now) }
{
    let rest = if (from as usize) < all.len() {
        &all[from as usize..]
    } else {
        &[]
    };
    if (count as usize) < rest.len() {
        &rest[..count as usize]
    } else {
        rest
    }
}

/// Where the variables of the function stand whose body is the one of this number.
fn spots_at(frames: &[FramePlan], body: u32) -> &[Spot]
    ensures { map stand_of result.now ≡ (slice_index_or (map layout_frame frames.now) body no_frame).stands }
{
    match frames.get(body as usize) {
        Some(frame) => frame.spots.as_slice(),
        None => &[],
    }
}

/// The types of the parameters of a function and of the variables of its body.
fn variable_types(
    alloc: Global,
    parameters: &[TypeId],
    locals: &[TypeId],
) -> Result<Items<TypeId>, OutOfMemory>
    ensures { IfOk result (λ types. types ≡ parameters.now ++ locals.now) }
{
    let mut types = Items::from_slice(alloc, parameters)?;
    types.append(Items::from_slice(alloc, locals)?)?;
    Ok(types)
}

/// The variables of the function whose body stands next.
pub fn body_variables(
    alloc: Global,
    source: &PlannedSource,
    gone: &Gone,
    parameters: &[TypeId],
    body: &Stmt,
) -> Result<BodyVariables, OutOfMemory>
    requires source { IsSource source.now }
    requires gone { IsGone source.now gone.now }
    requires parameters { All (IsIn (table_of source.now)) parameters.now }
    ensures { IfOk result (AreVariables source.now gone.now parameters.now body.now) }
{
    let checked = source.checked;
    let plan = source.plan;
    let count = declarations(body)?;
    let locals = types_from(checked.declared.as_slice(), gone.after.declaration, count);
    let types = variable_types(alloc, parameters, locals)?;
    let spots = spots_at(plan.frames.as_slice(), gone.after.body);
    let standings = standings_of(
        alloc,
        &checked.types,
        gone.structs.as_slice(),
        types.as_slice(),
        spots,
    )?;
    Ok(BodyVariables { types, standings })
}

/// What is known inside of the body of a function, which stands next.
pub fn known_inside<'a>(
    source: &PlannedSource<'a>,
    gone: &'a Gone,
    head: &FunctionHead,
    body: &Stmt,
    variables: &'a BodyVariables,
) -> Known<'a>
    requires source { IsSource source.now }
    requires gone { IsGone source.now gone.now }
    requires result { IsIn (table_of source.now) head.now.result }
    requires variables { AreVariables source.now gone.now head.now.parameters body.now variables.now }
    ensures table { result.table ≡ table_of source.now }
    ensures around { around_of result ≡ around_inside source.now gone.now head.now body.now }
{
    let checked = source.checked;
    let plan = source.plan;
    let inside = FunctionVariables {
        types: variables.types.as_slice(),
        spots: spots_at(plan.frames.as_slice(), gone.after.body),
        standings: variables.standings.as_slice(),
        result: checked.types.shape(head.result),
    };
    known_at(
        source,
        gone.structs.as_slice(),
        gone.functions.as_slice(),
        &inside,
    )
}
