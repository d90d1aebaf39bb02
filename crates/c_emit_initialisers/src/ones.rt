//! An expression as an initialiser.

ghost use Rattle.std.specs.Prelude.{◌≡◌, ◌+◌, ◌≤◌, ◌^◌, OnOk, IfOk};
ghost use Rattle.c_types.specs.Types.{Array, Struct, type_at, IsIn};
ghost use Rattle.bounds_plan.specs.elaboration.Types.{size_in};
ghost use Rattle.bounds_plan.specs.elaboration.Expressions.{expression, struct_copied, without_literals};
ghost use Rattle.bounds_plan.specs.elaboration.Initialisers.{part_at, one_filled, after_one};
ghost use Rattle.steps_facts.specs.Seen.{reached_of};
ghost use Rattle.steps_facts.specs.Around.{standing_at};
ghost use Rattle.steps_pieces.specs.Put.{put_of};
ghost use Rattle.steps_filling.specs.Effects.{went_effect, went_effects};
ghost use Rattle.steps_filling.specs.Parts.{went_scalar};

use crate::texts::{put_text_filled, text_of};
use c_emit::{emit, emit_given};
use c_look::look;
use c_tree::{Expr, UnaryOp};
use c_types::{Shape, TypeId};
use mx_base::{OutOfMemory, Place};
use steps_facts::{Knows, Reached, Sorted, Standing};
use steps_filling::{put_copied, put_part, put_stored, put_struct_address, spot_at};
use steps_pieces::{Emitter, kind_of, put_single, value_at};

/// A scalar takes the value of an expression.
fn fill_scalar<K: Knows>(
    out: &mut Emitter,
    known: &K,
    sort: Sorted,
    e: &Expr,
    at: Standing,
    offset: u64,
    place: Place,
    r: Reached,
    d: u32,
) -> Result<Reached, OutOfMemory>
    requires { d + 8 ≤ 2 ^ 32 }
    ensures put { OnOk result (put_of out.new ≡ went_scalar sort at offset place (expression e.now (K.around known.now) (reached_of r))
        d (put_of out.old)) }
    ensures after { IfOk result (λ q. reached_of q ≡ (expression e.now (K.around known.now) (reached_of r)).after) }
{
    let spot = spot_at(at);
    put_part(out, at, offset, d)?;
    let x = emit_given(out, known, sort, e, r, value_at(spot, d))?;
    put_stored(out, sort, spot, x.number, place, d)?;
    Ok(x.after)
}

/// A struct of `size` bytes is copied from the place that an expression is.
fn fill_struct<K: Knows>(
    out: &mut Emitter,
    known: &K,
    number: u32,
    size: u64,
    e: &Expr,
    at: Standing,
    offset: u64,
    place: Place,
    r: Reached,
    d: u32,
) -> Result<Reached, OutOfMemory>
    requires size { size ≡ size_in (K.around known.now).structs (Struct number) }
    requires room { d + 8 ≤ 2 ^ 32 }
    ensures put { OnOk result (put_of out.new ≡ went_effect (struct_copied (K.around known.now).structs (Struct number) (part_at offset
        (standing_at at)) place (expression e.now (K.around known.now) (reached_of r))) d (put_of out.old)) }
    ensures after { IfOk result (λ q. reached_of q ≡ (expression e.now (K.around known.now) (reached_of r)).after) }
{
    put_struct_address(out, at, offset, d)?;
    let x = emit(out, known, e, r, d + 2, true)?;
    put_single(
        out,
        UnaryOp::AddressOf,
        x,
        x.facts.sort,
        false,
        x.place,
        d + 2,
    )?;
    let scalars = known.struct_scalars(out.alloc, number)?;
    put_copied(out, size, scalars.as_slice(), place, x.place, d)?;
    Ok(x.after)
}

/// Behind `after`, but with no literal gone through.
fn literals_left(r: Reached, after: Reached) -> Reached
    ensures { reached_of result ≡ without_literals (reached_of r) (reached_of after) }
{
    Reached {
        kind: after.kind,
        name: after.name,
        declaration: after.declaration,
        literal: r.literal,
        body: after.body,
    }
}

/// An array of so many elements of a type takes the bytes of a text, which is then no literal.
fn fill_text<K: Knows>(
    out: &mut Emitter,
    known: &K,
    element: TypeId,
    count: u64,
    e: &Expr,
    at: Standing,
    offset: u64,
    place: Place,
    r: Reached,
    d: u32,
) -> Result<Reached, OutOfMemory>
    requires known { IsIn (K.table known.now) element }
    requires room { d + 8 ≤ 2 ^ 32 }
    ensures put { OnOk result (put_of out.new ≡ went_effects (one_filled (K.around known.now) (Array (type_at (K.table known.now)
        element) count) place (standing_at at) offset (expression e.now (K.around known.now) (reached_of r))) d (put_of out.old)) }
    ensures after { IfOk result (λ q. reached_of q ≡ without_literals (reached_of r) (expression e.now (K.around known.now) (reached_of
        r)).after) }
{
    let facts = known.facts(element)?;
    let kind = kind_of(facts.sort);
    let x = look(known, e, r)?;
    let text = text_of(e);
    put_text_filled(out, at, offset, kind, count, facts.size, text, place, d)?;
    Ok(literals_left(r, x.after))
}

/// A part of a type takes what an expression is: a scalar its value, an array the bytes of a text, a struct a copy.
pub fn fill_one<K: Knows>(
    out: &mut Emitter,
    known: &K,
    e: &Expr,
    kind: TypeId,
    at: Standing,
    offset: u64,
    place: Place,
    r: Reached,
    d: u32,
) -> Result<Reached, OutOfMemory>
    requires known { IsIn (K.table known.now) kind }
    requires room { d + 8 ≤ 2 ^ 32 }
    ensures put { OnOk result (put_of out.new ≡ went_effects (one_filled (K.around known.now) (type_at (K.table known.now) kind) place
        (standing_at at) offset (expression e.now (K.around known.now) (reached_of r))) d (put_of out.old)) }
    ensures after { IfOk result (λ q. reached_of q ≡ after_one (type_at (K.table known.now) kind) (reached_of r) (expression e.now
        (K.around known.now) (reached_of r)).after) }
{
    let shape = known.shape(kind);
    match shape {
        Shape::Void => {
            let x = look(known, e, r)?;
            Ok(x.after)
        }
        Shape::Int(number) => {
            let sort = Sorted::Number(number);
            fill_scalar(out, known, sort, e, at, offset, place, r, d)
        }
        Shape::Pointer(_) => {
            let sort = Sorted::Pointer;
            fill_scalar(out, known, sort, e, at, offset, place, r, d)
        }
        Shape::Array(element, count) => {
            fill_text(out, known, element, count, e, at, offset, place, r, d)
        }
        Shape::Struct(number) => {
            let facts = known.facts(kind)?;
            fill_struct(out, known, number, facts.size, e, at, offset, place, r, d)
        }
    }
}
