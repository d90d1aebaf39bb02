//! Past the body of a function of a planned source, with its steps.

ghost use Rattle.std.specs.Prelude.{◌≡◌, map, All, IfOk, OnOk, slice_index_or};
ghost use Rattle.c_types.specs.Types.{IsIn};
ghost use Rattle.bounds_plan.specs.steps.Code.{fat_parameters, fat_function};
ghost use Rattle.bounds_plan.specs.elaboration.Expressions.{symbol_of};
ghost use Rattle.bounds_plan.specs.elaboration.Source as elaborated;
ghost use Rattle.bounds_plan.specs.elaboration.Functions.{no_frame};
ghost use Rattle.c_accepted.specs.Planned.{layout_frame};
ghost use Rattle.code_emit.specs.Plans as held;
ghost use Rattle.steps_facts.specs.Seen.{reached_of};
ghost use Rattle.steps_items.specs.Around.{IsSource, IsGone, table_of, around_at};
ghost use Rattle.steps_items.specs.Bodies.{AreVariables};
ghost use Rattle.c_emit_functions.specs.Parameters.{parameters_of};
ghost use Rattle.c_emit_functions.specs.Functions.{stated_inside, function_inside};

use crate::functions::{EmittedFunction, emit_function};
use crate::parameters::{ParameterAt, parameters_at, parameters_seen};
use c_tree::Stmt;
use code_emit::Parameter;
use fat_ir::FatFun;
use mx_base::OutOfMemory;
use place_plan::FramePlan;
use sqlite_items::Items;
use std::alloc::Global;
use steps_facts::{Knows, Reached};
use steps_items::{BodyVariables, FunctionHead, Gone, body_variables, known_inside};
use steps_known::sorts_at;
use steps_source::PlannedSource;

/// How many bytes the data frame has of the function whose body is the one of this number.
fn frame_size(frames: &[FramePlan], body: u32) -> u32
    ensures { result ≡ (slice_index_or (map layout_frame frames.now) body no_frame).size }
{
    match frames.get(body as usize) {
        Some(frame) => frame.size,
        None => 0,
    }
}

/// Where the parameters stand of the function with this head and these variables, whose body stands next.
fn parameters_inside(
    alloc: Global,
    source: &PlannedSource,
    gone: &Gone,
    head: &FunctionHead,
    body: &Stmt,
    variables: &BodyVariables,
) -> Result<Items<ParameterAt>, OutOfMemory>
    requires parameters { All (IsIn (table_of source.now)) head.now.parameters }
    requires variables { AreVariables source.now gone.now head.now.parameters body.now variables.now }
    ensures { IfOk result (λ ps. parameters_of ps ≡ (function_inside source.now gone.now head.now body.now).parameters) }
{
    let types = &source.checked.types;
    let sorts = sorts_at(alloc, types, head.parameters.as_slice())?;
    parameters_at(alloc, sorts.as_slice(), variables.standings.as_slice())
}

/// The function with this head, these variables and these parameters, whose body stands next.
fn emit_inside(
    alloc: Global,
    source: &PlannedSource,
    gone: &Gone,
    head: &FunctionHead,
    body: &Stmt,
    variables: &BodyVariables,
    parameters: &[ParameterAt],
) -> Result<EmittedFunction, OutOfMemory>
    requires source { IsSource source.now }
    requires gone { IsGone source.now gone.now }
    requires result { IsIn (table_of source.now) head.now.result }
    requires variables { AreVariables source.now gone.now head.now.parameters body.now variables.now }
    requires parameters { parameters_of parameters.now ≡ (function_inside source.now gone.now head.now body.now).parameters }
    ensures fun { IfOk result (λ e. e.fun ≡ fat_function (symbol_of (around_at source.now gone.now) head.now.number)
        (function_inside source.now gone.now head.now body.now)) }
    ensures after { IfOk result (λ e. reached_of e.after ≡ (stated_inside source.now gone.now head.now body.now).after) }
{
    let known = known_inside(source, gone, head, body, variables);
    let plan = source.plan;
    let frame = frame_size(plan.frames.as_slice(), gone.after.body);
    emit_function(
        alloc,
        &known,
        known.function(head.number),
        parameters,
        variables.standings.as_slice(),
        frame,
        body,
        gone.after,
    )
}

/// A function in steps with a body: its steps, and its parameters.
#[derive(Drop)]
pub struct FunctionSteps {
    pub fun: FatFun,
    pub parameters: Items<Parameter>,
}

/// The steps of a function, and how far the tree is gone through after its body.
#[derive(Drop)]
struct FunctionHere {
    steps: FunctionSteps,
    after: Reached,
}

/// The function with this head, whose body stands next.
fn function_here(
    alloc: Global,
    source: &PlannedSource,
    gone: &Gone,
    head: &FunctionHead,
    body: &Stmt,
) -> Result<FunctionHere, OutOfMemory>
    requires source { IsSource source.now }
    requires gone { IsGone source.now gone.now }
    requires result { IsIn (table_of source.now) head.now.result }
    requires parameters { All (IsIn (table_of source.now)) head.now.parameters }
    ensures fun { IfOk result (λ h. h.steps.fun ≡ fat_function (symbol_of (around_at source.now gone.now) head.now.number)
        (function_inside source.now gone.now head.now body.now)) }
    ensures parameters { IfOk result (λ h. held.parameters_of h.steps.parameters
        ≡ fat_parameters (function_inside source.now gone.now head.now body.now).parameters) }
    ensures after { IfOk result (λ h. reached_of h.after ≡ (stated_inside source.now gone.now head.now body.now).after) }
{
    let variables = body_variables(alloc, source, gone, head.parameters.as_slice(), body)?;
    let parameters = parameters_inside(alloc, source, gone, head, body, &variables)?;
    let stand = parameters.as_slice();
    let emitted = emit_inside(alloc, source, gone, head, body, &variables, stand)?;
    let seen = parameters_seen(alloc, stand)?;
    Ok(FunctionHere {
        steps: FunctionSteps {
            fun: emitted.fun,
            parameters: seen,
        },
        after: emitted.after,
    })
}

/// Past a body.
fn past(r: Reached) -> Result<Reached, OutOfMemory>
    ensures { IfOk result (λ q. reached_of q ≡ elaborated.past_body (reached_of r)) }
{
    match r.body.checked_add(1) {
        Some(body) => Ok(Reached { body, ..r }),
        None => Err(OutOfMemory),
    }
}

/// Past the body of the function with this head, which stands next: its steps.
pub fn past_body(
    alloc: Global,
    source: &PlannedSource,
    gone: &mut Gone,
    head: &FunctionHead,
    body: &Stmt,
) -> Result<FunctionSteps, OutOfMemory>
    requires source { IsSource source.now }
    requires gone { IsGone source.now gone.old }
    requires result { IsIn (table_of source.now) head.now.result }
    requires parameters { All (IsIn (table_of source.now)) head.now.parameters }
    ensures gone { IsGone source.now gone.new }
    ensures around { around_at source.now gone.new ≡ around_at source.now gone.old }
    ensures after { OnOk result (reached_of gone.new.after
        ≡ elaborated.past_body (stated_inside source.now gone.old head.now body.now).after) }
    ensures fun { IfOk result (λ f. f.fun ≡ fat_function (symbol_of (around_at source.now gone.old) head.now.number)
        (function_inside source.now gone.old head.now body.now)) }
    ensures parameters { IfOk result (λ f. held.parameters_of f.parameters
        ≡ fat_parameters (function_inside source.now gone.old head.now body.now).parameters) }
{
    let here = function_here(alloc, source, gone, head, body)?;
    gone.after = past(here.after)?;
    Ok(here.steps)
}
