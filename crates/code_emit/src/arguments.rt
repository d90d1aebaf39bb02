//! Pieces put at the end of a list, and the arguments of a call.

ghost use Rattle.std.specs.Prelude.{◌≡◌, suc, ◌++◌, IfOk, OnOk};
ghost use Rattle.step_code.specs.Steps as spec;
ghost use Rattle.code_emit.specs.Plans.{plan_of};

use crate::homes::{get, get_bounds};
use crate::plan::{FunctionPlan, home};
use mx_base::OutOfMemory;
use step_code::Piece;

/// The register of an argument: rdi, rsi, rdx, rcx, r8, r9 in order.
pub fn arg_reg(i: u8) -> u8
    ensures { result ≡ spec.arg_reg i }
{
    match i {
        0 => 7,
        1 => 6,
        2 => 2,
        3 => 1,
        4 => 8,
        _ => 9,
    }
}

/// Pieces come behind those that are there.
pub fn append(out: &mut Vec<Piece>, pieces: &[Piece]) -> Result<(), OutOfMemory>
    ensures { OnOk result (out.new.items ≡ out.old.items ++ pieces.now) }
{
    out.extend_from_slice(pieces)?;
    Ok(())
}

fn next(i: u8) -> Result<u8, OutOfMemory>
    ensures { IfOk result (λ n. n ≡ suc i) }
{
    match i.checked_add(1) {
        Some(n) => Ok(n),
        None => Err(OutOfMemory),
    }
}

/// Arguments come to their registers, and the bounds of each pointer to the next bounds register.
pub fn load_args(
    out: &mut Vec<Piece>,
    p: &FunctionPlan,
    args: &[(u32, Option<u32>)],
) -> Result<(), OutOfMemory>
    ensures { OnOk result (out.new.items ≡ out.old.items ++ spec.load_args (plan_of p.now) args.now 0 0) }
{
    let mut i = 0;
    let mut j = 0;
    'all: for arg in args {
        let (number, bounds) = *arg;
        append(out, &[get(arg_reg(i), home(p, number))])?;
        if let Some(b) = bounds {
            append(out, &[get_bounds(j, home(p, b))])?;
            j = next(j)?;
        }
        i = next(i)?;
    }
    Ok(())
}
