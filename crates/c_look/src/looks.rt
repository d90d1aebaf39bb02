//! What is known of an expression before its steps are put down.

ghost use Rattle.std.specs.Prelude.{◌≡◌, IfOk, map};
ghost use Rattle.bounds_plan.specs.elaboration.Expressions.{expression, find_all};
ghost use Rattle.steps_facts.specs.Seen.{view_of, seen_in, reached_of};

use crate::seen::{
    assigned_seen, call_seen, cast_seen, choice_seen, joint_seen, name_seen, part_seen,
    single_seen, size_seen, stepped_seen, text_seen, word_seen,
};
use c_tree::{Expr, ExprKind};
use mx_base::OutOfMemory;
use steps_facts::{Knows, Reached, Seen};

/// How far expressions one after another go.
#[cycle(look)]
pub fn look_all<K: Knows>(known: &K, all: &[Expr], r: Reached) -> Result<Reached, OutOfMemory>
    ensures { IfOk result (λ q. reached_of q ≡ (find_all (map expression all.now) (K.around known.now) (reached_of r)).after) }
{
    let mut at = r;
    for e in all {
        let x = look(known, e, at)?;
        at = x.after;
    }
    Ok(at)
}

/// An expression that stands from `r` on: what is seen in what it is elaborated to.
#[cycle(look)]
pub fn look<K: Knows>(known: &K, e: &Expr, r: Reached) -> Result<Seen, OutOfMemory>
    ensures { IfOk result (λ s. view_of s ≡ seen_in (K.around known.now).structs (expression e.now (K.around known.now) (reached_of r))) }
{
    match &e.kind {
        ExprKind::Number(_, _) => word_seen(known, e.place, r),
        ExprKind::Text(_) => text_seen(known, e.place, r),
        ExprKind::Var(_) => name_seen(known, e.place, r),
        ExprKind::Unary(op, a) => {
            let operand = a.get();
            let x = look(known, operand, r)?;
            single_seen(known, *op, e.place, x.after)
        }
        ExprKind::Binary(op, a, b) => {
            let left = a.get();
            let right = b.get();
            let x = look(known, left, r)?;
            let y = look(known, right, x.after)?;
            joint_seen(known, *op, x, y, e.place)
        }
        ExprKind::Assign(_, a, b) => {
            let target = a.get();
            let source = b.get();
            let x = look(known, target, r)?;
            let y = look(known, source, x.after)?;
            assigned_seen(known, x, y, e.place)
        }
        ExprKind::StepBy(_, _, a) => {
            let stepped = a.get();
            let x = look(known, stepped, r)?;
            stepped_seen(known, x, e.place)
        }
        ExprKind::Cond(c, a, b) => {
            let test = c.get();
            let one = a.get();
            let other = b.get();
            let x = look(known, test, r)?;
            let y = look(known, one, x.after)?;
            let z = look(known, other, y.after)?;
            choice_seen(known, e.place, z.after)
        }
        ExprKind::Call(_, args) => {
            let all = args.as_slice();
            let behind = look_all(known, all, r)?;
            call_seen(known, e.place, behind)
        }
        ExprKind::Index(a, i) => {
            let array = a.get();
            let number = i.get();
            let x = look(known, array, r)?;
            let y = look(known, number, x.after)?;
            part_seen(known, e.place, y.after)
        }
        ExprKind::Member(a, _) => {
            let base = a.get();
            let x = look(known, base, r)?;
            part_seen(known, e.place, x.after)
        }
        ExprKind::Arrow(a, _) => {
            let pointer = a.get();
            let x = look(known, pointer, r)?;
            part_seen(known, e.place, x.after)
        }
        ExprKind::Cast(_, _, a) => {
            let inner = a.get();
            let x = look(known, inner, r)?;
            cast_seen(known, x, e.place)
        }
        ExprKind::SizeOfKind(_, _) => word_seen(known, e.place, r),
        ExprKind::SizeOfValue(a) => {
            let measured = a.get();
            let x = look(known, measured, r)?;
            size_seen(known, x, e.place, r)
        }
    }
}
