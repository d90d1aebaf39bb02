//! The steps of a function.

ghost use Rattle.std.specs.Prelude.{◌≡◌, ◌++◌, ◌∷◌, [], ℕ, List, IfOk};
ghost use Rattle.bounds_plan.specs.meaning.Functions.{Framed_variable};
ghost use Rattle.bounds_plan.specs.steps.Code.{arrivals, code_of, fat_function, most_pairs};
ghost use Rattle.steps_facts.specs.Seen.{reached_of};
ghost use Rattle.c_emit_statements.specs.Bodies.{statement};
ghost use Rattle.c_emit_functions.specs.Parameters.{parameters_of, privates_standing};
ghost use Rattle.c_emit_functions.specs.Functions.{function_of};

use crate::arrivals::put_arrivals;
use crate::parameters::ParameterAt;
use crate::values::values_of;
use c_emit_statements::emit_statement;
use c_tree::Stmt;
use fat_ir::{FatFun, FatStep};
use mx_base::OutOfMemory;
use sqlite_items::Items;
use std::alloc::Global;
use steps_facts::{Knows, Reached, Standing};
use steps_pieces::{Emitter, LAST};

/// How many pairs of temporaries a function has beside those that parameters arrive in.
const PAIRS: u32 = 88;

/// The steps of a function, and how far the tree is gone through after its body.
#[derive(Drop)]
struct EmittedSteps {
    steps: Items<FatStep>,
    after: Reached,
}

/// The steps of a function with these parameters, whose private variables have the values in front of `private`, and whose body stands
/// from `r` on: its values go into `d` and what is behind it. Label 0 is its end.
fn emit_steps<K: Knows>(
    alloc: Global,
    known: &K,
    parameters: &[ParameterAt],
    private: u32,
    body: &Stmt,
    r: Reached,
    d: u32,
) -> Result<EmittedSteps, OutOfMemory>
    ensures steps { IfOk result (λ e. e.steps ≡ arrivals (parameters_of parameters.now) private d
        ++ (code_of (statement body.now (K.around known.now) (reached_of r)).statement d 1 0 0 ++ FatStep.Label 0 ∷ [])) }
    ensures after { IfOk result (λ e. reached_of e.after ≡ (statement body.now (K.around known.now) (reached_of r)).after) }
{
    if d > LAST {
        return Err(OutOfMemory);
    }
    let mut steps = Items::new(alloc);
    put_arrivals(&mut steps, parameters, private, d)?;
    let mut out = Emitter {
        alloc,
        steps,
        label: 1,
    };
    let after = emit_statement(&mut out, known, body, r, d, 0, 0)?;
    out.steps.push(FatStep::Label { n: 0 })?;
    Ok(EmittedSteps {
        steps: out.steps,
        after,
    })
}

/// A function in steps, and how far the tree is gone through after its body.
#[derive(Drop)]
pub struct EmittedFunction {
    pub fun: FatFun,
    pub after: Reached,
}

/// A function whose symbol has the number `name`, with these parameters, whose variables stand here, with a data frame of so many bytes,
/// and a body that stands from `r` on.
pub fn emit_function<K: Knows>(
    alloc: Global,
    known: &K,
    name: u32,
    parameters: &[ParameterAt],
    standings: &[Standing],
    frame: u32,
    body: &Stmt,
    r: Reached,
) -> Result<EmittedFunction, OutOfMemory>
    ensures fun { IfOk result (λ e. (variables : List Framed_variable) → e.fun ≡ fat_function name (function_of
        (parameters_of parameters.now) (privates_standing standings.now) frame
        (statement body.now (K.around known.now) (reached_of r)).statement variables)) }
    ensures after { IfOk result (λ e. reached_of e.after ≡ (statement body.now (K.around known.now) (reached_of r)).after) }
{
    let values = values_of(alloc, standings, parameters, PAIRS)?;
    let Some(d) = values.private.checked_add(values.arrived) else {
        return Err(OutOfMemory);
    };
    let Some(temps) = values.arrived.checked_add(2 * PAIRS) else {
        return Err(OutOfMemory);
    };
    let emitted = emit_steps(alloc, known, parameters, values.private, body, r, d)?;
    Ok(EmittedFunction {
        fun: FatFun {
            name,
            private: values.private,
            arrived: values.arrived,
            temps,
            bounds: values.bounds,
            frame,
            steps: emitted.steps,
        },
        after: emitted.after,
    })
}
