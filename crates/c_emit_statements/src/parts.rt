//! Parts of statements that may be missing.

ghost use Rattle.std.specs.Prelude.{◌≡◌, OnOk, IfOk};
ghost use Rattle.bounds_plan.specs.elaboration.Types.{number_in};
ghost use Rattle.bounds_plan.specs.elaboration.Expressions.{expression};
ghost use Rattle.bounds_plan.specs.elaboration.Statements.{maybe, done_by, tested_by, returned_by};
ghost use Rattle.steps_facts.specs.Seen.{reached_of};
ghost use Rattle.steps_pieces.specs.Put.{put_of};
ghost use Rattle.steps_filling.specs.Effects.{went_effect};
ghost use Rattle.c_emit_statements.specs.Bodies.{went_number, went_returned};

use crate::effects::emit_effect;
use crate::pieces::{put_given, put_nothing_given};
use c_emit::{emit, emit_given};
use c_look::look;
use c_tree::Expr;
use mx_base::OutOfMemory;
use steps_facts::{Knows, Reached};
use steps_pieces::{Emitter, LAST, given_number, put_word};

/// How far an expression goes that may be missing.
pub fn past_value<K: Knows>(
    known: &K,
    value: &Option<Expr>,
    r: Reached,
) -> Result<Reached, OutOfMemory>
    ensures { IfOk result (λ q. reached_of q ≡ (done_by (maybe expression value.now) (K.around known.now) (reached_of r)).after) }
{
    match value {
        None => Ok(r),
        Some(e) => {
            let x = look(known, e, r)?;
            Ok(x.after)
        }
    }
}

/// What an expression does that may be missing.
pub fn emit_done<K: Knows>(
    out: &mut Emitter,
    known: &K,
    value: &Option<Expr>,
    r: Reached,
    d: u32,
) -> Result<Reached, OutOfMemory>
    ensures put { OnOk result (put_of out.new ≡ went_effect (done_by (maybe expression value.now) (K.around known.now) (reached_of
        r)).effect d (put_of out.old)) }
    ensures after { IfOk result (λ q. reached_of q ≡ (done_by (maybe expression value.now) (K.around known.now) (reached_of r)).after) }
{
    match value {
        None => Ok(r),
        Some(e) => emit_effect(out, known, e, r, d),
    }
}

/// A condition.
pub fn emit_test<K: Knows>(
    out: &mut Emitter,
    known: &K,
    test: &Expr,
    r: Reached,
    d: u32,
) -> Result<Reached, OutOfMemory>
    ensures put { OnOk result (put_of out.new ≡ went_number (number_in (expression test.now (K.around known.now) (reached_of r)).value)
        d (put_of out.old)) }
    ensures after { IfOk result (λ q. reached_of q ≡ (expression test.now (K.around known.now) (reached_of r)).after) }
{
    let x = emit(out, known, test, r, d, false)?;
    Ok(x.after)
}

/// The condition of a `for`, which goes on for ever without one.
pub fn emit_tested<K: Knows>(
    out: &mut Emitter,
    known: &K,
    test: &Option<Expr>,
    r: Reached,
    d: u32,
) -> Result<Reached, OutOfMemory>
    ensures put { OnOk result (put_of out.new ≡ went_number (tested_by (maybe expression test.now) (K.around known.now) (reached_of
        r)).test d (put_of out.old)) }
    ensures after { IfOk result (λ q. reached_of q ≡ (tested_by (maybe expression test.now) (K.around known.now) (reached_of r)).after) }
{
    if d > LAST {
        return Err(OutOfMemory);
    }
    match test {
        None => {
            put_word(out, 1, false, d)?;
            Ok(r)
        }
        Some(e) => emit_test(out, known, e, r, d),
    }
}

/// `return`: a value is converted to the type of the function's result.
pub fn emit_returned<K: Knows>(
    out: &mut Emitter,
    known: &K,
    value: &Option<Expr>,
    r: Reached,
    d: u32,
) -> Result<Reached, OutOfMemory>
    ensures put { OnOk result (put_of out.new ≡ went_returned (returned_by (maybe expression value.now) (K.around known.now)
        (reached_of r)).statement d (put_of out.old)) }
    ensures after { IfOk result (λ q. reached_of q ≡ (returned_by (maybe expression value.now) (K.around known.now) (reached_of r)).after) }
{
    if d > LAST {
        return Err(OutOfMemory);
    }
    match value {
        None => {
            put_nothing_given(out)?;
            Ok(r)
        }
        Some(e) => {
            let sort = known.result();
            let x = emit_given(out, known, sort, e, r, d)?;
            put_given(out, given_number(sort, x.number), d)?;
            Ok(x.after)
        }
    }
}
