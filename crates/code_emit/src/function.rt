//! The steps of a function as bytes, in two passes: where labels stand, and the bytes.

ghost use Rattle.std.specs.Prelude.{◌≡◌, ◌+◌, ◌++◌, length, slice_set, IfOk, OnOk};
ghost use Rattle.step_code.specs.Steps.{lower};
ghost use Rattle.step_code.specs.Bytes.{size_of_pieces, size_of_steps};
ghost use Rattle.code_emit.specs.Plans.{plan_of, parameters_of};
ghost use Rattle.code_emit.specs.Unlinked as u;

use crate::bytes::{add, put_pieces, size_of_all};
use crate::entry::{end, inner_entry, inner_return};
use crate::homing::{Parameter, put_homing};
use crate::plan::FunctionPlan;
use crate::steps::lower_step;
use fat_ir::{FatFun, FatStep};
use mx_base::OutOfMemory;
use std::alloc::Global;
use step_code::Piece;

/// Notes where a label stands.
fn note(labels: &mut Vec<u32>, step: &FatStep, at: u32)
    ensures { labels.new.items ≡ u.noted at step.now labels.old.items }
{
    if let FatStep::Label { n } = step {
        set_label(labels, *n, at);
    }
}

fn set_label(labels: &mut Vec<u32>, label: u32, at: u32)
    ensures { labels.new.items ≡ slice_set labels.old.items label at }
{
    if let Some(slot) = labels.get_mut(label as usize) {
        *slot = at;
    }
}

/// The pieces of a step.
fn pieces_of(alloc: Global, p: &FunctionPlan, step: &FatStep) -> Result<Vec<Piece>, OutOfMemory>
    ensures { IfOk result (λ pieces. pieces.items ≡ lower (plan_of p.now) step.now) }
{
    let mut pieces = Vec::new(alloc);
    lower_step(&mut pieces, p, step)?;
    Ok(pieces)
}

/// How many bytes a step has.
pub fn size_of_step(alloc: Global, p: &FunctionPlan, step: &FatStep) -> Result<u32, OutOfMemory>
    ensures { IfOk result (λ n. n ≡ size_of_pieces (lower (plan_of p.now) step.now)) }
{
    let pieces = pieces_of(alloc, p, step)?;
    size_of_all(pieces.as_slice())
}

/// Notes the offset of each label of steps that begin at `from`, and answers where they end. `labels` has room for each label.
///
/// # Errors
///
/// `OutOfMemory`: no memory for the pieces of a step, or a number that no instruction has room for.
pub fn note_labels(
    alloc: Global,
    labels: &mut Vec<u32>,
    p: &FunctionPlan,
    steps: &[FatStep],
    from: u32,
) -> Result<u32, OutOfMemory>
    ensures labels { OnOk result (labels.new.items ≡ u.labels_noted (plan_of p.now) from steps.now labels.old.items) }
    ensures end { IfOk result (λ n. n ≡ from + size_of_steps (plan_of p.now) steps.now) }
{
    let mut at = from;
    'all: for step in steps {
        note(labels, step, at);
        at = add(at, size_of_step(alloc, p, step)?)?;
    }
    Ok(at)
}

/// The bytes of steps come behind those that are there. `labels` has the offset of each label.
///
/// # Errors
///
/// `OutOfMemory`: no memory for pieces or bytes, or a number that no instruction has room for.
pub fn put_steps(
    alloc: Global,
    code: &mut Vec<u8>,
    labels: &[u32],
    p: &FunctionPlan,
    steps: &[FatStep],
) -> Result<(), OutOfMemory>
    ensures { OnOk result (code.new.items
        ≡ code.old.items ++ u.unlinked_steps (plan_of p.now) labels.now (length code.old.items) steps.now) }
{
    'all: for step in steps {
        put_step(alloc, code, labels, p, step)?;
    }
    Ok(())
}

/// The bytes of a step.
fn put_step(
    alloc: Global,
    code: &mut Vec<u8>,
    labels: &[u32],
    p: &FunctionPlan,
    step: &FatStep,
) -> Result<(), OutOfMemory>
    ensures { OnOk result (code.new.items
        ≡ code.old.items ++ u.unlinked_pieces labels.now (length code.old.items) (lower (plan_of p.now) step.now)) }
{
    let pieces = pieces_of(alloc, p, step)?;
    put_pieces(code, labels, pieces.as_slice())
}

/// Where the steps of a function that begins at `at` stand, behind its inner entry and the homing of its arguments.
///
/// # Errors
///
/// `OutOfMemory`: no memory for pieces, or a number that no instruction has room for.
pub fn steps_at(
    alloc: Global,
    p: &FunctionPlan,
    f: &FatFun,
    parameters: &[Parameter],
    units: u32,
    at: u32,
) -> Result<u32, OutOfMemory>
    ensures { IfOk result (λ n. n ≡ u.steps_at (plan_of p.now) f.now (parameters_of parameters.now) units at) }
{
    let mut home = Vec::new(alloc);
    put_homing(&mut home, p, f.private, parameters)?;
    let homing = add(at, size_of_all(&inner_entry(f.frame, units))?)?;
    add(homing, size_of_all(home.as_slice())?)
}

/// Notes the offset of each label of a function that begins at `at`, that of its end with them. `labels` has room for each label.
///
/// # Errors
///
/// `OutOfMemory`: no memory for pieces, or a number that no instruction has room for.
pub fn place_labels(
    alloc: Global,
    labels: &mut Vec<u32>,
    p: &FunctionPlan,
    f: &FatFun,
    parameters: &[Parameter],
    units: u32,
    at: u32,
) -> Result<(), OutOfMemory>
    ensures { OnOk result (labels.new.items
        ≡ u.function_labels (plan_of p.now) f.now (parameters_of parameters.now) units at labels.old.items) }
{
    let first = steps_at(alloc, p, f, parameters, units, at)?;
    let last = note_labels(alloc, labels, p, f.steps.as_slice(), first)?;
    let exit = add(last, size_of_all(&end())?)?;
    set_label(labels, p.exit, exit);
    Ok(())
}

/// The bytes of a function come behind those that are there: the inner entry, the homing of its arguments, its steps, its end and its
/// return. `units` is how many words its frame on the control stack has, and `labels` has the offset of each label, the end's too.
///
/// # Errors
///
/// `OutOfMemory`: no memory for pieces or bytes, or a number that no instruction has room for.
pub fn put_function(
    alloc: Global,
    code: &mut Vec<u8>,
    labels: &[u32],
    p: &FunctionPlan,
    f: &FatFun,
    parameters: &[Parameter],
    units: u32,
) -> Result<(), OutOfMemory>
    ensures { OnOk result (code.new.items ≡ code.old.items
        ++ u.unlinked_function (plan_of p.now) f.now (parameters_of parameters.now) units labels.now (length code.old.items)) }
{
    put_pieces(code, labels, &inner_entry(f.frame, units))?;
    let mut home = Vec::new(alloc);
    put_homing(&mut home, p, f.private, parameters)?;
    put_pieces(code, labels, home.as_slice())?;
    put_steps(alloc, code, labels, p, f.steps.as_slice())?;
    put_pieces(code, labels, &end())?;
    put_pieces(code, labels, &inner_return(f.frame, units))
}
