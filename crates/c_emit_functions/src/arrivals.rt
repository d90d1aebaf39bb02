//! How the parameters of the data frame come there.

ghost use Rattle.std.specs.Prelude.{◌≡◌, ◌+◌, ◌≤◌, ◌^◌, ◌++◌, ◌∷◌, [], List, Some, None, OnOk, IfOk};
ghost use Rattle.mx_base.specs.Numbers.{size_of};
ghost use Rattle.bounds_plan.specs.meaning.Functions.{Parameter};
ghost use Rattle.bounds_plan.specs.steps.Code.{arrivals};
ghost use Rattle.c_emit_functions.specs.Parameters.{parameter_of, parameters_of};

use crate::parameters::ParameterAt;
use fat_ir::FatStep;
use mx_base::{IntKind, OutOfMemory};
use sqlite_items::Items;
use steps_structs::bytes_of;

/// So many values further.
fn further(at: u32, more: u32) -> Result<u32, OutOfMemory>
    ensures { IfOk result (λ n. n ≡ at + more) }
{
    match at.checked_add(more) {
        Some(n) => Ok(n),
        None => Err(OutOfMemory),
    }
}

/// The address of what stands in the data frame.
fn put_frame_place(
    steps: &mut Items<FatStep>,
    offset: u32,
    size: u64,
    d: u32,
) -> Result<(), OutOfMemory>
    requires { d + 2 ≤ 2 ^ 32 }
    ensures { OnOk result (steps.new ≡ steps.old ++ FatStep.Place d (d + 1) None offset size ∷ []) }
{
    steps.push(FatStep::Place {
        to: d,
        bounds: d + 1,
        symbol: None,
        offset,
        size,
    })?;
    Ok(())
}

/// A number that arrives in the value `at` is written to the data frame.
fn put_number(
    steps: &mut Items<FatStep>,
    offset: u32,
    kind: IntKind,
    at: u32,
    d: u32,
) -> Result<u32, OutOfMemory>
    requires { d + 2 ≤ 2 ^ 32 }
    ensures { IfOk result (λ next. (rest : List Parameter) → steps.new ++ arrivals rest next d
        ≡ steps.old ++ arrivals (Parameter.Framed offset (Some kind) ∷ rest) at d) }
{
    let next = further(at, 1)?;
    put_frame_place(steps, offset, bytes_of(kind), d)?;
    steps.push(FatStep::Store {
        p: d,
        from: at,
        kind,
    })?;
    Ok(next)
}

/// A pointer that arrives in the value `at`, and its bounds in the next one, are written to the data frame.
fn put_pointer(steps: &mut Items<FatStep>, offset: u32, at: u32, d: u32) -> Result<u32, OutOfMemory>
    requires { d + 2 ≤ 2 ^ 32 }
    ensures { IfOk result (λ next. (rest : List Parameter) → steps.new ++ arrivals rest next d
        ≡ steps.old ++ arrivals (Parameter.Framed offset None ∷ rest) at d) }
{
    let bounds = further(at, 1)?;
    let next = further(at, 2)?;
    put_frame_place(steps, offset, 8, d)?;
    steps.push(FatStep::StorePtr {
        p: d,
        from: at,
        bounds,
    })?;
    Ok(next)
}

/// A parameter, and the value that the next one arrives in.
fn put_arrival(
    steps: &mut Items<FatStep>,
    parameter: ParameterAt,
    at: u32,
    d: u32,
) -> Result<u32, OutOfMemory>
    requires { d + 2 ≤ 2 ^ 32 }
    ensures { IfOk result (λ next. (rest : List Parameter) → steps.new ++ arrivals rest next d
        ≡ steps.old ++ arrivals (parameter_of parameter ∷ rest) at d) }
{
    match parameter {
        ParameterAt::Private { first: _, kind: _ } => Ok(at),
        ParameterAt::Framed { offset, kind } => match kind {
            Some(kind) => put_number(steps, offset, kind, at, d),
            None => put_pointer(steps, offset, at, d),
        },
    }
}

/// Parameters of the data frame are written to it, which arrive in values from `first` on; `d` and the value behind it are free.
pub fn put_arrivals(
    steps: &mut Items<FatStep>,
    parameters: &[ParameterAt],
    first: u32,
    d: u32,
) -> Result<(), OutOfMemory>
    requires { d + 2 ≤ 2 ^ 32 }
    ensures { OnOk result (steps.new ≡ steps.old ++ arrivals (parameters_of parameters.now) first d) }
{
    let mut at = first;
    for parameter in parameters {
        at = put_arrival(steps, *parameter, at, d)?;
    }
    Ok(())
}
