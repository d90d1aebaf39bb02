//! Expressions in a state.

ghost use Rattle.std.specs.Prelude.{◌≡◌, Err};
ghost use Rattle.c_check_typing.specs.declared.fault.CheckFault.TheVariants.{Refused};
ghost use Rattle.c_check_typing.specs.Refusals.{breaks};
ghost use Rattle.c_check_statements.specs.Walks as spec;
ghost use Rattle.c_check_statements.specs.Walks.{Walks, ReadsValue, Judges};

use crate::state::State;
use c_check_expressions::read_expr;
use c_check_typing::{CheckFault, CheckKind, Typed};
use c_tree::Expr;
use mx_base::Place;
use std::alloc::Global;

/// Reads an expression where no name of a function may stand.
pub fn read_value(alloc: Global, state: &mut State, expr: &Expr) -> Result<Typed, CheckFault>
    ensures { ReadsValue ((spec.seen_in state.old expr.now).typed) (spec.reads expr.now state.old) result state.new }
{
    read_expr(alloc, &state.scope, &mut state.notes, false, expr)
}

/// Reads an expression of whose value nothing is asked.
pub fn read_effect(alloc: Global, state: &mut State, expr: &Expr) -> Result<(), CheckFault>
    ensures { Walks (spec.reads expr.now state.old) result state.new }
{
    let _t = read_value(alloc, state, expr)?;
    Ok(())
}

/// Reads an expression, if there is one.
pub fn read_maybe(alloc: Global, state: &mut State, expr: &Option<Expr>) -> Result<(), CheckFault>
    ensures { Walks (spec.maybe_reads expr.now state.old) result state.new }
{
    match expr {
        Some(expr) => read_effect(alloc, state, expr),
        None => Ok(()),
    }
}

/// A node that breaks a rule.
pub fn refused<T>(place: Place, kind: CheckKind) -> Result<T, CheckFault>
    ensures { result ≡ Err (Refused kind place) }
{
    Err(CheckFault::Refused { kind, place })
}

/// A node that breaks this rule, or none.
pub fn refused_if(is_broken: bool, place: Place, kind: CheckKind) -> Result<(), CheckFault>
    ensures { Judges (breaks kind is_broken) place result }
{
    if is_broken {
        return refused(place, kind);
    }
    Ok(())
}
