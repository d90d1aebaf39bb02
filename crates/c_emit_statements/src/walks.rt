//! The walk over statements.

ghost use Rattle.std.specs.Prelude.{◌≡◌, OnOk, IfOk, map};
ghost use Rattle.bounds_plan.specs.elaboration.Statements.{all_stated};
ghost use Rattle.steps_facts.specs.Seen.{reached_of};
ghost use Rattle.steps_pieces.specs.Put.{put_of};
ghost use Rattle.c_emit_statements.specs.Bodies.{statement, went_statement};

use crate::locals::{emit_local, past_local};
use crate::parts::{emit_done, emit_returned, emit_test, emit_tested, past_value};
use crate::pieces::{put_all, put_jump, put_label, put_parting, put_turning, put_turning_if};
use c_look::look;
use c_tree::{Stmt, StmtKind};
use mx_base::OutOfMemory;
use sqlite_items::Items;
use std::alloc::Global;
use steps_facts::{Knows, Reached};
use steps_pieces::{Emitter, put_crossing, put_jump_if, take_labels};

/// How far a statement goes that stands from `r` on.
#[cycle(past)]
pub fn past_statement<K: Knows>(
    alloc: Global,
    known: &K,
    s: &Stmt,
    r: Reached,
) -> Result<Reached, OutOfMemory>
    ensures { IfOk result (λ q. reached_of q ≡ (statement s.now (K.around known.now) (reached_of r)).after) }
{
    match &s.kind {
        StmtKind::Value(value) => past_value(known, value, r),
        StmtKind::Local(decl, init) => past_local(alloc, known, decl, init, r),
        StmtKind::If(test, a, other) => {
            let one = a.get();
            let x = look(known, test, r)?;
            let y = past_statement(alloc, known, one, x.after)?;
            match other {
                None => Ok(y),
                Some(b) => {
                    let second = b.get();
                    past_statement(alloc, known, second, y)
                }
            }
        }
        StmtKind::While(test, body) => {
            let inner = body.get();
            let x = look(known, test, r)?;
            past_statement(alloc, known, inner, x.after)
        }
        StmtKind::DoWhile(body, test) => {
            let turned = body.get();
            let y = past_statement(alloc, known, turned, r)?;
            let x = look(known, test, y)?;
            Ok(x.after)
        }
        StmtKind::For(first, test, next, body) => {
            let looped = body.get();
            let f = past_value(known, first, r)?;
            let t = past_value(known, test, f)?;
            let n = past_value(known, next, t)?;
            past_statement(alloc, known, looped, n)
        }
        StmtKind::Break => Ok(r),
        StmtKind::Continue => Ok(r),
        StmtKind::Return(given) => past_value(known, given, r),
        StmtKind::Block(list) => {
            let all = list.as_slice();
            past_block(alloc, known, all, r)
        }
    }
}

/// How far statements one after another go.
#[cycle(past)]
fn past_block<K: Knows>(
    alloc: Global,
    known: &K,
    all: &[Stmt],
    r: Reached,
) -> Result<Reached, OutOfMemory>
    ensures { IfOk result (λ q. reached_of q ≡ (all_stated (map statement all.now) (K.around known.now) (reached_of r)).after) }
{
    let mut at = r;
    for s in all {
        at = past_statement(alloc, known, s, at)?;
    }
    Ok(at)
}

/// A statement that stands from `r` on, and how far the tree is gone through after it. Its values go into `d` and what is behind it;
/// `break` goes to the label `end`, and `continue` to `next`.
#[cycle(walk)]
pub fn emit_statement<K: Knows>(
    out: &mut Emitter,
    known: &K,
    s: &Stmt,
    r: Reached,
    d: u32,
    end: u32,
    next: u32,
) -> Result<Reached, OutOfMemory>
    ensures put { OnOk result (put_of out.new ≡ went_statement (statement s.now (K.around known.now) (reached_of r)).statement d end
        next (put_of out.old)) }
    ensures after { IfOk result (λ q. reached_of q ≡ (statement s.now (K.around known.now) (reached_of r)).after) }
{
    match &s.kind {
        StmtKind::Value(value) => emit_done(out, known, value, r, d),
        StmtKind::Local(decl, init) => emit_local(out, known, decl, init, r, d),
        StmtKind::If(test, a, other) => {
            let one = a.get();
            let first = take_labels(out, 2)?;
            let x = emit_test(out, known, test, r, d)?;
            put_jump_if(out, d, first)?;
            match other {
                None => {
                    put_crossing(out, first, first + 1)?;
                    let alone = emit_statement(out, known, one, x, d, end, next)?;
                    put_label(out, first + 1)?;
                    Ok(alone)
                }
                Some(b) => {
                    let second = b.get();
                    let y = past_statement(out.alloc, known, one, x)?;
                    let after = emit_statement(out, known, second, y, d, end, next)?;
                    put_crossing(out, first, first + 1)?;
                    emit_statement(out, known, one, x, d, end, next)?;
                    put_label(out, first + 1)?;
                    Ok(after)
                }
            }
        }
        StmtKind::While(test, body) => {
            let inner = body.get();
            let start = take_labels(out, 3)?;
            put_label(out, start)?;
            let x = emit_test(out, known, test, r, d)?;
            put_parting(out, start + 2, start + 1, d)?;
            let after = emit_statement(out, known, inner, x, d, start + 1, start)?;
            put_turning(out, start, start + 1)?;
            Ok(after)
        }
        StmtKind::DoWhile(body, test) => {
            let turned = body.get();
            let y = past_statement(out.alloc, known, turned, r)?;
            let start = take_labels(out, 3)?;
            let mut aside = Emitter {
                alloc: out.alloc,
                steps: Items::new(out.alloc),
                label: out.label,
            };
            let after = emit_test(&mut aside, known, test, y, d)?;
            out.label = aside.label;
            put_label(out, start)?;
            emit_statement(out, known, turned, r, d, start + 1, start + 2)?;
            put_label(out, start + 2)?;
            put_all(out, aside.steps)?;
            put_turning_if(out, start, start + 1, d)?;
            Ok(after)
        }
        StmtKind::For(first, test, step, body) => {
            let looped = body.get();
            let f = emit_done(out, known, first, r, d)?;
            let start = take_labels(out, 4)?;
            put_label(out, start)?;
            let t = emit_tested(out, known, test, f, d)?;
            put_parting(out, start + 2, start + 1, d)?;
            let n = past_value(known, step, t)?;
            let after = emit_statement(out, known, looped, n, d, start + 1, start + 3)?;
            put_label(out, start + 3)?;
            emit_done(out, known, step, t, d)?;
            put_turning(out, start, start + 1)?;
            Ok(after)
        }
        StmtKind::Break => {
            put_jump(out, end)?;
            Ok(r)
        }
        StmtKind::Continue => {
            put_jump(out, next)?;
            Ok(r)
        }
        StmtKind::Return(given) => emit_returned(out, known, given, r, d),
        StmtKind::Block(list) => {
            let all = list.as_slice();
            emit_block(out, known, all, r, d, end, next)
        }
    }
}

/// Statements one after another.
#[cycle(walk)]
fn emit_block<K: Knows>(
    out: &mut Emitter,
    known: &K,
    all: &[Stmt],
    r: Reached,
    d: u32,
    end: u32,
    next: u32,
) -> Result<Reached, OutOfMemory>
    ensures put { OnOk result (put_of out.new ≡ went_statement (all_stated (map statement all.now) (K.around known.now) (reached_of
        r)).statement d end next (put_of out.old)) }
    ensures after { IfOk result (λ q. reached_of q ≡ (all_stated (map statement all.now) (K.around known.now) (reached_of r)).after) }
{
    let mut at = r;
    for s in all {
        let on = emit_statement(out, known, s, at, d, end, next)?;
        at = on;
    }
    Ok(at)
}
