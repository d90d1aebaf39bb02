//! The values of a function: those of its private variables, and its temporaries.

ghost use Rattle.std.specs.Prelude.{◌≡◌, ◌++◌, ◌∷◌, [], true, false, List, length, OnOk, IfOk};
ghost use Rattle.bounds_plan.specs.meaning.Functions.{Parameter};
ghost use Rattle.bounds_plan.specs.steps.Code.{arrived, in_turn};
ghost use Rattle.c_emit_functions.specs.Parameters.{parameter_of, parameters_of, values_standing, privates_standing};

use crate::parameters::ParameterAt;
use mx_base::OutOfMemory;
use sqlite_items::Items;
use std::alloc::Global;
use steps_facts::Standing;

/// How many values there are.
fn count(bounds: &Items<bool>) -> Result<u32, OutOfMemory>
    ensures { IfOk result (λ n. n ≡ length bounds.now) }
{
    match u32::try_from(bounds.len()) {
        Ok(n) => Ok(n),
        Err(_) => Err(OutOfMemory),
    }
}

/// The values of a pointer: a number, and bounds.
fn push_pair(bounds: &mut Items<bool>) -> Result<(), OutOfMemory>
    ensures { OnOk result (bounds.new ≡ bounds.old ++ false ∷ true ∷ []) }
{
    bounds.push(false)?;
    bounds.push(true)?;
    Ok(())
}

/// The private values of a variable that stands here.
fn push_values(bounds: &mut Items<bool>, standing: Standing) -> Result<(), OutOfMemory>
    ensures { OnOk result (bounds.new ≡ bounds.old ++ values_standing standing) }
{
    match standing {
        Standing::Number(_) => {
            bounds.push(false)?;
            Ok(())
        }
        Standing::Pointer(_) => push_pair(bounds),
        Standing::Frame { offset: _, size: _ } => Ok(()),
        Standing::Nowhere => Ok(()),
    }
}

/// The private values of variables that stand here.
fn push_privates(bounds: &mut Items<bool>, standings: &[Standing]) -> Result<(), OutOfMemory>
    ensures { OnOk result (bounds.new ≡ bounds.old ++ privates_standing standings.now) }
{
    for standing in standings {
        push_values(bounds, *standing)?;
    }
    Ok(())
}

/// The temporaries that a parameter arrives in.
fn push_arrival(bounds: &mut Items<bool>, parameter: ParameterAt) -> Result<(), OutOfMemory>
    ensures { OnOk result ((rest : List Parameter) → bounds.new ++ arrived rest ≡ bounds.old ++ arrived (parameter_of parameter ∷ rest)) }
{
    match parameter {
        ParameterAt::Private { first: _, kind: _ } => Ok(()),
        ParameterAt::Framed { offset: _, kind } => match kind {
            Some(_) => {
                bounds.push(false)?;
                Ok(())
            }
            None => push_pair(bounds),
        },
    }
}

/// The temporaries that parameters arrive in.
fn push_arrived(bounds: &mut Items<bool>, parameters: &[ParameterAt]) -> Result<(), OutOfMemory>
    ensures { OnOk result (bounds.new ≡ bounds.old ++ arrived (parameters_of parameters.now)) }
{
    for parameter in parameters {
        push_arrival(bounds, *parameter)?;
    }
    Ok(())
}

/// Pairs of temporaries.
fn push_pairs(bounds: &mut Items<bool>, pairs: u32) -> Result<(), OutOfMemory>
    ensures { OnOk result (bounds.new ≡ bounds.old ++ in_turn pairs) }
{
    let mut left = pairs;
    while left > 0 {
        push_pair(bounds)?;
        left -= 1;
    }
    Ok(())
}

/// The values of a function: of each whether it is bounds; how many the private variables have; and how many temporaries parameters
/// arrive in.
#[derive(Drop)]
pub struct FunctionValues {
    pub bounds: Items<bool>,
    pub private: u32,
    pub arrived: u32,
}

/// The values of a function whose variables stand here, with these parameters and so many pairs of temporaries beside those that
/// they arrive in.
pub fn values_of(
    alloc: Global,
    standings: &[Standing],
    parameters: &[ParameterAt],
    pairs: u32,
) -> Result<FunctionValues, OutOfMemory>
    ensures bounds { IfOk result (λ v. v.bounds
        ≡ privates_standing standings.now ++ arrived (parameters_of parameters.now) ++ in_turn pairs) }
    ensures private { IfOk result (λ v. v.private ≡ length (privates_standing standings.now)) }
    ensures arrived { IfOk result (λ v. v.arrived ≡ length (arrived (parameters_of parameters.now))) }
{
    let mut bounds = Items::new(alloc);
    push_privates(&mut bounds, standings)?;
    let private = count(&bounds)?;
    push_arrived(&mut bounds, parameters)?;
    let both = count(&bounds)?;
    push_pairs(&mut bounds, pairs)?;
    Ok(FunctionValues {
        bounds,
        private,
        arrived: both - private,
    })
}
