//! The walk.

ghost use Rattle.std.specs.Prelude.{◌≡◌, ◌&&◌, Some, true, map};
ghost use Rattle.c_check_typing.specs.Rules.{is_empty as none_left};
ghost use Rattle.c_check_typing.specs.Notes.{Reads};
ghost use Rattle.c_check_typing.specs.Expressions.{seen, arguments, ReadsAll};

use c_check_rules::{Scope, Type};
use c_check_typing::{
    CheckFault, Notes, Typed, argument_fits, end_arrow, end_assign, end_binary, end_call, end_cast,
    end_choice, end_index, end_member, end_name, end_number, end_size, end_size_of_kind, end_step,
    end_text, end_unary, params_after, params_of, takes_function,
};
use c_tree::{Expr, ExprKind};
use std::alloc::Global;

fn both(a: bool, b: bool) -> bool
    ensures { result ≡ (a && b) }
{
    a && b
}

/// Whether no parameter is left.
fn is_empty(params: &[Type]) -> bool
    ensures { result ≡ none_left params.now }
{
    match params {
        [] => true,
        [_, ..] => false,
    }
}

/// The type of an expression and what else is known of its value, or the first rule that is broken in it. `functions` says whether the name of a
/// function may stand there.
#[cycle(walk)]
pub fn read_expr(
    alloc: Global,
    scope: &Scope,
    notes: &mut Notes,
    functions: bool,
    expr: &Expr,
) -> Result<Typed, CheckFault>
    ensures { Reads (seen expr.now functions scope.now) notes.old result notes.new }
{
    let place = expr.place;
    match &expr.kind {
        ExprKind::Number(word, kind) => end_number(alloc, notes, place, *word, *kind),
        ExprKind::Text(bytes) => end_text(alloc, notes, place, bytes.as_slice()),
        ExprKind::Var(name) => {
            let found = scope.find(alloc, name.as_slice())?;
            end_name(alloc, notes, place, functions, found)
        }
        ExprKind::Unary(op, a) => {
            let t = read_expr(alloc, scope, notes, false, a.get())?;
            end_unary(alloc, scope, notes, place, *op, t)
        }
        ExprKind::Binary(op, a, b) => {
            let t = read_expr(alloc, scope, notes, false, a.get())?;
            let u = read_expr(alloc, scope, notes, false, b.get())?;
            end_binary(alloc, scope, notes, place, *op, t, u)
        }
        ExprKind::Assign(op, a, b) => {
            let t = read_expr(alloc, scope, notes, false, a.get())?;
            let u = read_expr(alloc, scope, notes, false, b.get())?;
            end_assign(alloc, scope, notes, place, *op, t, u)
        }
        ExprKind::StepBy(_, _, a) => {
            let t = read_expr(alloc, scope, notes, false, a.get())?;
            end_step(alloc, scope, notes, place, t)
        }
        ExprKind::Cond(test, a, b) => {
            let s = read_expr(alloc, scope, notes, false, test.get())?;
            let t = read_expr(alloc, scope, notes, false, a.get())?;
            let u = read_expr(alloc, scope, notes, false, b.get())?;
            end_choice(alloc, notes, place, s, t, u)
        }
        ExprKind::Call(name, args) => {
            let found = scope.find(alloc, name.as_slice())?;
            let fit = read_args(alloc, scope, notes, params_of(&found), args.as_slice())?;
            end_call(alloc, notes, place, found, fit)
        }
        ExprKind::Index(a, i) => {
            let t = read_expr(alloc, scope, notes, false, a.get())?;
            let u = read_expr(alloc, scope, notes, false, i.get())?;
            end_index(alloc, scope, notes, place, t, u)
        }
        ExprKind::Member(a, name) => {
            let t = read_expr(alloc, scope, notes, false, a.get())?;
            end_member(alloc, scope, notes, place, name.as_slice(), t)
        }
        ExprKind::Arrow(a, name) => {
            let t = read_expr(alloc, scope, notes, false, a.get())?;
            end_arrow(alloc, scope, notes, place, name.as_slice(), t)
        }
        ExprKind::Cast(base, stars, a) => {
            let t = read_expr(alloc, scope, notes, false, a.get())?;
            end_cast(alloc, scope, notes, place, base, *stars, t)
        }
        ExprKind::SizeOfKind(base, stars) => {
            end_size_of_kind(alloc, scope, notes, place, base, *stars)
        }
        ExprKind::SizeOfValue(a) => {
            let literals = notes.literals.len();
            let used = notes.used.len();
            let t = read_expr(alloc, scope, notes, false, a.get())?;
            notes.literals.truncate(literals);
            notes.used.truncate(used);
            end_size(alloc, scope, notes, place, &t.kind)
        }
    }
}

/// Reads arguments from the left: whether each fits its parameter and none is missing.
#[cycle(walk)]
fn read_args(
    alloc: Global,
    scope: &Scope,
    notes: &mut Notes,
    params: &[Type],
    args: &[Expr],
) -> Result<bool, CheckFault>
    ensures { ReadsAll (arguments scope.now (Some true) params.now (map seen args.now)) notes.old result notes.new }
{
    let mut left = params;
    let mut fit = true;
    'args: for arg in args {
        let t = read_expr(alloc, scope, notes, takes_function(left), arg)?;
        let fits = argument_fits(alloc, left, &t)?;
        fit = both(fit, fits);
        left = params_after(left);
    }
    Ok(both(fit, is_empty(left)))
}
