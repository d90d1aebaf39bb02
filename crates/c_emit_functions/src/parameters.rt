//! Where the parameters of a function stand.

ghost use Rattle.std.specs.Prelude.{◌≡◌, List, ◌∷◌, IfOk};
ghost use Rattle.bounds_plan.specs.meaning.Functions.{Parameter as ParameterOfC};
ghost use Rattle.bounds_plan.specs.steps.Code.{fat_parameters};
ghost use Rattle.code_emit.specs.Plans as held;
ghost use Rattle.c_emit_functions.specs.Parameters.{parameter_of, parameters_of, kind_of, parameter_standing, parameters_standing};

use code_emit::Parameter;
use mx_base::{IntKind, OutOfMemory};
use sqlite_items::Items;
use std::alloc::Global;
use steps_facts::{Sorted, Standing};

/// Where a parameter stands: in private values, by the number of the first one, or in the data frame, at an offset in bytes; and its
/// type, which a pointer lacks.
#[derive(Clone, Copy)]
pub enum ParameterAt {
    Private { first: u32, kind: Option<IntKind> },
    Framed { offset: u32, kind: Option<IntKind> },
}

/// The integer type of a sort of numbers.
fn kind_in(sort: Sorted) -> Option<IntKind>
    ensures { result ≡ kind_of sort }
{
    match sort {
        Sorted::Number(kind) => Some(kind),
        Sorted::Pointer | Sorted::Whole | Sorted::Nothing => None,
    }
}

/// A parameter of a sort that stands here.
fn parameter_at(sort: Sorted, standing: Standing) -> ParameterAt
    ensures { parameter_of result ≡ parameter_standing sort standing }
{
    let kind = kind_in(sort);
    match standing {
        Standing::Number(first) => ParameterAt::Private { first, kind },
        Standing::Pointer(first) => ParameterAt::Private { first, kind: None },
        Standing::Frame { offset, size: _ } => ParameterAt::Framed { offset, kind },
        Standing::Nowhere => ParameterAt::Framed { offset: 0, kind },
    }
}

/// Parameters of these sorts, which are the first of the variables that stand here.
pub fn parameters_at(
    alloc: Global,
    sorts: &[Sorted],
    standings: &[Standing],
) -> Result<Items<ParameterAt>, OutOfMemory>
    ensures { IfOk result (λ ps. parameters_of ps ≡ parameters_standing sorts.now standings.now) }
{
    let mut all = Items::new(alloc);
    let mut left = standings;
    for sort in sorts {
        match left.split_first() {
            Some((standing, more)) => {
                all.push(parameter_at(*sort, *standing))?;
                left = more;
            }
            None => all.push(parameter_at(*sort, Standing::Nowhere))?,
        }
    }
    Ok(all)
}

/// A parameter, as callers see it.
fn parameter_seen(parameter: ParameterAt) -> Parameter
    ensures { (rest : List ParameterOfC) → fat_parameters (parameter_of parameter ∷ rest) ≡ held.parameter_of result ∷ fat_parameters rest }
{
    match parameter {
        ParameterAt::Private { first: _, kind } => Parameter {
            private: true,
            pointer: kind.is_none(),
        },
        ParameterAt::Framed { offset: _, kind } => Parameter {
            private: false,
            pointer: kind.is_none(),
        },
    }
}

/// Parameters, as callers see them.
pub fn parameters_seen(
    alloc: Global,
    parameters: &[ParameterAt],
) -> Result<Items<Parameter>, OutOfMemory>
    ensures { IfOk result (λ all. held.parameters_of all ≡ fat_parameters (parameters_of parameters.now)) }
{
    let mut all = Items::new(alloc);
    for parameter in parameters {
        all.push(parameter_seen(*parameter))?;
    }
    Ok(all)
}
