//! How arguments come to the homes of values, and how private variables begin.

ghost use Rattle.std.specs.Prelude.{◌≡◌, ◌+◌, ◌-◌, ◌++◌, [], List, IfOk, OnOk};
ghost use Rattle.step_code.specs.Homing as spec;
ghost use Rattle.step_code.specs.declared.pieces.Piece.{Piece};
ghost use Rattle.code_emit.specs.Plans.{plan_of, parameters_of};

use crate::arguments::{append, arg_reg};
use crate::bytes::add;
use crate::homes::{RAX, put, put_bounds};
use crate::numbers::{full, set};
use crate::plan::{FunctionPlan, home, is_bounds};
use mx_base::OutOfMemory;
use step_code::{Home, Piece};

/// A parameter: whether it is a private variable, and whether it is a pointer.
#[derive(Clone, Copy, Debug, PartialEq, Eq)]
pub struct Parameter {
    pub private: bool,
    pub pointer: bool,
}

/// How many values a parameter has.
fn width_of(pointer: bool) -> u32
    ensures { result ≡ spec.width_of pointer }
{
    if pointer { 2 } else { 1 }
}

/// How many pointers are counted behind a parameter.
fn next_pair(pointer: bool, b: u8) -> Result<u8, OutOfMemory>
    ensures { IfOk result (λ n. n ≡ spec.next_pair pointer b) }
{
    if pointer { next(b) } else { Ok(b) }
}

fn next(i: u8) -> Result<u8, OutOfMemory>
    ensures { IfOk result (λ n. n ≡ i + 1) }
{
    match i.checked_add(1) {
        Some(n) => Ok(n),
        None => Err(OutOfMemory),
    }
}

/// The i-th argument, with the b-th pair of bounds if it is a pointer, comes to the homes of its values, `x` and behind it.
fn home_argument(
    out: &mut Vec<Piece>,
    p: &FunctionPlan,
    x: u32,
    i: u8,
    b: u8,
    pointer: bool,
) -> Result<(), OutOfMemory>
    ensures { (rest : List Piece) → OnOk result (out.new.items ++ rest
        ≡ out.old.items ++ spec.home_argument (plan_of p.now) x i b pointer rest) }
{
    let number = put(home(p, x), arg_reg(i));
    if pointer {
        let y = add(x, 1)?;
        append(out, &[number, put_bounds(home(p, y), b)])
    } else {
        append(out, &[number])
    }
}

/// The arguments come to their homes, the last one first.
fn home_arguments(
    out: &mut Vec<Piece>,
    p: &FunctionPlan,
    first: u32,
    temp: u32,
    i: u8,
    b: u8,
    parameters: &[Parameter],
) -> Result<(), OutOfMemory>
    ensures { (rest : List Piece) → OnOk result (out.new.items ++ rest
        ≡ out.old.items ++ spec.home_arguments (plan_of p.now) first temp i b (parameters_of parameters.now) rest) }
{
    match parameters.split_first() {
        None => Ok(()),
        Some((q, more)) => {
            let width = width_of(q.pointer);
            let j = next(i)?;
            let c = next_pair(q.pointer, b)?;
            if q.private {
                let behind = add(first, width)?;
                home_arguments(out, p, behind, temp, j, c, more)?;
                home_argument(out, p, first, i, b, q.pointer)
            } else {
                let behind = add(temp, width)?;
                home_arguments(out, p, first, behind, j, c, more)?;
                home_argument(out, p, temp, i, b, q.pointer)
            }
        }
    }
}

/// How many values the private ones of parameters have.
fn taken(parameters: &[Parameter]) -> Result<u32, OutOfMemory>
    ensures { IfOk result (λ n. n ≡ spec.taken (parameters_of parameters.now)) }
{
    match parameters.split_first() {
        None => Ok(0),
        Some((q, more)) => {
            let behind = taken(more)?;
            if q.private {
                add(width_of(q.pointer), behind)
            } else {
                Ok(behind)
            }
        }
    }
}

/// A private variable begins as 0, from rax, or with full bounds.
fn unset_home(out: &mut Vec<Piece>, p: &FunctionPlan, x: u32) -> Result<(), OutOfMemory>
    ensures { (rest : List Piece) → OnOk result (out.new.items ++ rest
        ≡ out.old.items ++ spec.unset_home ((plan_of p.now).is_bounds x) ((plan_of p.now).home x) rest) }
{
    unset(out, is_bounds(p, x), home(p, x))
}

fn unset(out: &mut Vec<Piece>, bounds: bool, at: Home) -> Result<(), OutOfMemory>
    ensures { (rest : List Piece) → OnOk result (out.new.items ++ rest ≡ out.old.items ++ spec.unset_home bounds at rest) }
{
    if bounds {
        match at {
            Home::Slot(k) => match k.checked_add(1) {
                Some(n) => append(
                    out,
                    &[
                        Piece::KeepSlot { k, r: RAX },
                        Piece::KeepSlot { k: n, r: RAX },
                    ],
                ),
                None => Err(OutOfMemory),
            },
            Home::Bnd(b) => append(out, &[Piece::Plain(full(b))]),
            Home::Reg(_) => Ok(()),
        }
    } else {
        append(out, &[put(at, RAX)])
    }
}

/// The private variables from one on begin.
fn unset_from(
    out: &mut Vec<Piece>,
    p: &FunctionPlan,
    from: u32,
    private: u32,
) -> Result<(), OutOfMemory>
    ensures { OnOk result (out.new.items ≡ out.old.items ++ spec.unset_from (plan_of p.now) from (private - from) []) }
{
    let mut x = from;
    'all: while x < private {
        unset_home(out, p, x)?;
        x += 1;
    }
    Ok(())
}

/// The pieces by which the arguments of a function come to their homes, and its private variables begin. `private` is how many
/// values the private variables have.
///
/// # Errors
///
/// `OutOfMemory`: no memory for the list, or more parameters or words of a frame than have numbers.
pub fn put_homing(
    out: &mut Vec<Piece>,
    p: &FunctionPlan,
    private: u32,
    parameters: &[Parameter],
) -> Result<(), OutOfMemory>
    ensures { OnOk result (out.new.items ≡ out.old.items ++ spec.homing (plan_of p.now) private (parameters_of parameters.now)) }
{
    let from = taken(parameters)?;
    home_arguments(out, p, 0, private, 0, 0, parameters)?;
    append(out, &[set(RAX, 0)])?;
    unset_from(out, p, from, private)
}
