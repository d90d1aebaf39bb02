//! The fields of code that the linker fills, and the places of its checks.

ghost use Rattle.std.specs.Prelude.{◌≡◌, ◌+◌, true, ◌∷◌, [], ◌++◌, IfOk, OnOk};
ghost use Rattle.x86_forms.specs.Examples as x;
ghost use Rattle.x86_forms.specs.declared.instr.Instr.TheVariants as i;
ghost use Rattle.step_code.specs.declared.pieces.Piece.TheVariants as piece;
ghost use Rattle.step_code.specs.Bytes as b;
ghost use Rattle.step_code.specs.Bytes.{size_of_piece, size_of_pieces};
ghost use Rattle.step_code.specs.Steps.{load_args as load};
ghost use Rattle.code_emit.specs.Plans.{plan_of};
ghost use Rattle.code_emit.specs.Unlinked as u;

use crate::arguments::load_args;
use crate::bytes::{add, size_of, size_of_all};
use crate::function::size_of_step;
use crate::homes::{BND0, RAX, get, get_bounds, in_reg};
use crate::plan::{FunctionPlan, home};
use fat_ir::FatStep;
use mx_base::{OutOfMemory, Place};
use obj_file::Spot3;
use std::alloc::Global;
use step_code::Piece;
use x86_forms::Instr;

/// A field of 4 bytes of code that takes the address of a symbol.
#[derive(Clone, Copy, Debug, PartialEq, Eq)]
pub struct Field {
    /// Where the field begins, in bytes from the beginning of the code.
    pub offset: u32,
    /// The symbol, a place in the unit's list of symbols.
    pub symbol: u32,
    /// Whether the field counts from its own end, as that of a call does.
    pub relative: bool,
}

/// The field of a call, behind its arguments.
fn call_field(
    alloc: Global,
    fields: &mut Vec<Field>,
    p: &FunctionPlan,
    symbol: u32,
    args: &[(u32, Option<u32>)],
    at: u32,
) -> Result<(), OutOfMemory>
    ensures { OnOk result (fields.new.items ≡ fields.old.items
        ++ (record { offset = at + size_of_pieces (load (plan_of p.now) args.now 0 0) + 2; symbol = symbol; relative = true } ∷ [])) }
{
    let mut pieces = Vec::new(alloc);
    load_args(&mut pieces, p, args)?;
    let call = add(at, size_of_all(pieces.as_slice())?)?;
    let offset = add(call, 2)?;
    fields.push(Field {
        offset,
        symbol,
        relative: true,
    })?;
    Ok(())
}

/// The fields of a step that begins at an offset come behind those that are there.
fn fields_of_step(
    alloc: Global,
    fields: &mut Vec<Field>,
    p: &FunctionPlan,
    step: &FatStep,
    at: u32,
) -> Result<(), OutOfMemory>
    ensures { OnOk result (fields.new.items ≡ fields.old.items ++ u.fields_of_step (plan_of p.now) at step.now) }
{
    match step {
        FatStep::Call { symbol, args, .. } => {
            call_field(alloc, fields, p, *symbol, args.as_slice(), at)
        }
        FatStep::Place { symbol, .. } => match *symbol {
            Some(symbol) => {
                let offset = add(at, 3)?;
                fields.push(Field {
                    offset,
                    symbol,
                    relative: false,
                })?;
                Ok(())
            }
            None => Ok(()),
        },
        _ => Ok(()),
    }
}

/// The places of the checks of a step that begins at an offset come behind those that are there.
fn places_of_step(
    places: &mut Vec<Spot3>,
    p: &FunctionPlan,
    step: &FatStep,
    at: u32,
) -> Result<(), OutOfMemory>
    ensures { OnOk result (places.new.items ≡ places.old.items ++ u.spots_of_step (plan_of p.now) at step.now) }
{
    match step {
        FatStep::Judge {
            value,
            size,
            bounds,
            write,
            place,
        } => {
            let lower = lower_check(p, at, *value, *bounds)?;
            let upper = upper_check(lower)?;
            places.push(spot(lower, place, *write, *size))?;
            places.push(spot(upper, place, *write, *size))?;
            Ok(())
        }
        _ => Ok(()),
    }
}

/// Where the lower check of a judgement stands.
fn lower_check(p: &FunctionPlan, at: u32, value: u32, bounds: u32) -> Result<u32, OutOfMemory>
    ensures { IfOk result (λ n. n ≡ b.lower_check (plan_of p.now) at value bounds) }
{
    let fetched = add(at, size_of(get(RAX, home(p, value)))?)?;
    add(fetched, size_of(get_bounds(BND0, home(p, bounds)))?)
}

/// Where the upper check of a judgement stands, behind the lower one.
fn upper_check(lower: u32) -> Result<u32, OutOfMemory>
    ensures { IfOk result (λ n. n ≡ lower + size_of_piece (piece.Plain (i.Bndcl 0 (x.in_reg 0)))) }
{
    let check = Piece::Plain(Instr::Bndcl {
        b: BND0,
        rm: in_reg(RAX),
    });
    add(lower, size_of(check)?)
}

/// The place of a check, with its access.
fn spot(offset: u32, place: &Place, write: bool, size: u32) -> Spot3
    ensures { result ≡ u.spot_of (offset, record { place = place.now; write = write; size = size }) }
{
    Spot3 {
        offset,
        line: place.line,
        col: place.col,
        kind: if write { 2 } else { 1 },
        size,
    }
}

/// The fields of steps that begin at `from` come behind those that are there, in order, and so do the places of their checks.
///
/// # Errors
///
/// `OutOfMemory`: no memory for the lists, or a number that no instruction has room for.
pub fn note_fields(
    alloc: Global,
    fields: &mut Vec<Field>,
    places: &mut Vec<Spot3>,
    p: &FunctionPlan,
    steps: &[FatStep],
    from: u32,
) -> Result<(), OutOfMemory>
    ensures fields { OnOk result (fields.new.items ≡ fields.old.items ++ u.fields_of_steps (plan_of p.now) from steps.now) }
    ensures places { OnOk result (places.new.items ≡ places.old.items ++ u.spots_of_steps (plan_of p.now) from steps.now) }
{
    let mut at = from;
    'all: for step in steps {
        fields_of_step(alloc, fields, p, step, at)?;
        places_of_step(places, p, step, at)?;
        at = add(at, size_of_step(alloc, p, step)?)?;
    }
    Ok(())
}
