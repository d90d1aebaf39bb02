//! Expressions as whole statements.

ghost use Rattle.std.specs.Prelude.{◌≡◌, ◌+◌, ◌≤◌, ◌^◌, OnOk, IfOk, MatchOption, None};
ghost use Rattle.bounds_plan.specs.elaboration.Types.{sort_of};
ghost use Rattle.bounds_plan.specs.elaboration.Source.{past_kind};
ghost use Rattle.bounds_plan.specs.elaboration.Expressions.{expression, struct_copied};
ghost use Rattle.steps_facts.specs.declared.seen.Sorted.TheVariants as o;
ghost use Rattle.steps_facts.specs.Seen.{sorted, reached_of};
ghost use Rattle.steps_pieces.specs.Put.{put_of};
ghost use Rattle.steps_filling.specs.Effects.{went_effect};
ghost use Rattle.c_emit_statements.specs.Bodies.{IsEvaluated, whole_sort};

use c_emit::emit;
use c_look::look;
use c_tree::{Expr, ExprKind, UnaryOp};
use mx_base::OutOfMemory;
use steps_facts::{Knows, Reached, Sorted};
use steps_filling::put_copied;
use steps_pieces::{Emitter, LAST, put_single};

/// The two sides of an assignment by `=`; any other expression is evaluated.
fn sides(e: &Expr) -> Option<(&Expr, &Expr)>
    ensures { MatchOption result (IsEvaluated e.now) (λ p. e.now.kind ≡ ExprKind.Assign None p.0.now p.1.now) }
{
    match &e.kind {
        ExprKind::Assign(op, a, b) => match op {
            None => {
                let target = a.get();
                let source = b.get();
                Some((target, source))
            }
            Some(_) => None,
        },
        ExprKind::Number(_, _) => None,
        ExprKind::Text(_) => None,
        ExprKind::Var(_) => None,
        ExprKind::Unary(_, _) => None,
        ExprKind::Binary(_, _, _) => None,
        ExprKind::StepBy(_, _, _) => None,
        ExprKind::Cond(_, _, _) => None,
        ExprKind::Call(_, _) => None,
        ExprKind::Index(_, _) => None,
        ExprKind::Member(_, _) => None,
        ExprKind::Arrow(_, _) => None,
        ExprKind::Cast(_, _, _) => None,
        ExprKind::SizeOfKind(_, _) => None,
        ExprKind::SizeOfValue(_) => None,
    }
}

/// Whether values of a sort are arrays or structs.
fn is_whole(sort: Sorted) -> bool
    ensures { result ≡ whole_sort sort }
{
    match sort {
        Sorted::Whole => true,
        Sorted::Number(_) | Sorted::Pointer | Sorted::Nothing => false,
    }
}

/// A struct is copied from the place `source` to the place `target`. Of an array, which `check` refuses to assign, nothing is known.
fn copy_struct<K: Knows>(
    out: &mut Emitter,
    known: &K,
    target: &Expr,
    source: &Expr,
    r: Reached,
    d: u32,
) -> Result<Reached, OutOfMemory>
    requires whole { sorted (sort_of (expression target.now (K.around known.now) (reached_of r)).type) ≡ o.Whole }
    requires room { d + 8 ≤ 2 ^ 32 }
    ensures put { let a = expression target.now (K.around known.now) (reached_of r) in OnOk result (put_of out.new ≡ went_effect
        (struct_copied (K.around known.now).structs a.type a.lvalue a.place (expression source.now (K.around known.now) a.after)) d
        (put_of out.old)) }
    ensures after { let a = expression target.now (K.around known.now) (reached_of r) in IfOk result (λ q. reached_of q ≡ past_kind
        (expression source.now (K.around known.now) a.after).after) }
{
    let x = emit(out, known, target, r, d, true)?;
    let array = x.facts.array;
    if array {
        return Err(OutOfMemory);
    }
    let address = UnaryOp::AddressOf;
    put_single(out, address, x, x.facts.sort, false, x.place, d)?;
    let y = emit(out, known, source, x.after, d + 2, true)?;
    put_single(out, address, y, y.facts.sort, false, y.place, d + 2)?;
    let scalars = known.struct_scalars(out.alloc, x.facts.owner)?;
    put_copied(out, x.facts.size, scalars.as_slice(), x.place, y.place, d)?;
    let here = known.kind_here(y.after)?;
    Ok(here.after)
}

/// What an expression that stands from `r` on does as a whole statement, and how far the tree is gone through after it: it is
/// evaluated, and a struct that is assigned is copied.
pub fn emit_effect<K: Knows>(
    out: &mut Emitter,
    known: &K,
    e: &Expr,
    r: Reached,
    d: u32,
) -> Result<Reached, OutOfMemory>
    ensures put { OnOk result (put_of out.new ≡ went_effect (expression e.now (K.around known.now) (reached_of r)).effect d (put_of
        out.old)) }
    ensures after { IfOk result (λ q. reached_of q ≡ (expression e.now (K.around known.now) (reached_of r)).after) }
{
    if d > LAST {
        return Err(OutOfMemory);
    }
    match sides(e) {
        None => {
            let x = emit(out, known, e, r, d, false)?;
            Ok(x.after)
        }
        Some((target, source)) => {
            let a = look(known, target, r)?;
            let whole = is_whole(a.facts.sort);
            if whole {
                copy_struct(out, known, target, source, r, d)
            } else {
                let x = emit(out, known, e, r, d, false)?;
                Ok(x.after)
            }
        }
    }
}
