//! Ways back: the labels of a function with later jumps to them.

ghost use Rattle.std.specs.Prelude.{◌≡◌, ℕ, ◌+◌, ◌<◌, ◌≤◌, ◌^◌, ◌++◌, cond, nat_eq, IfOk, OnOk};
ghost use Rattle.std.specs.Ordering.{nat_cmp};
ghost use Rattle.reg_assign.specs.Loops.{past_in, past_jump, jumps_noted, loops_from, loops_in, extended, extended_range};

use crate::lives::LiveRange;
use fat_ir::FatStep;
use mx_base::OutOfMemory;
use sqlite_items::Items;
use std::alloc::Global;
use std::collections::BTreeMap;

/// From a label up to the last jump back to it: the place of the label, and the place behind the jump.
#[derive(Clone, Copy)]
pub(crate) struct Loop {
    pub(crate) label: usize,
    pub(crate) past: usize,
}

/// The place behind the last jump to a label.
fn note_jump(map: &mut BTreeMap<u32, usize>, label: u32, past: usize) -> Result<(), OutOfMemory>
    ensures { OnOk result ((n : ℕ) → past_in map.new n ≡ cond (nat_eq label n) past (past_in map.old n)) }
{
    map.insert(label, past)?;
    Ok(())
}

fn jump_of(map: &BTreeMap<u32, usize>, label: u32) -> usize
    ensures { result ≡ past_in map.now label }
{
    match map.get(&label) {
        Some(past) => *past,
        None => 0,
    }
}

/// The jumps of a step at this place.
fn note_step(map: &mut BTreeMap<u32, usize>, at: usize, step: &FatStep) -> Result<(), OutOfMemory>
    requires { at < 2 ^ 63 }
    ensures { OnOk result ((n : ℕ) → past_in map.new n ≡ past_jump n (past_in map.old n) at step.now) }
{
    match step {
        FatStep::Jump { n } => note_jump(map, *n, at + 1),
        FatStep::JumpIf { n, .. } => note_jump(map, *n, at + 1),
        _ => Ok(()),
    }
}

/// The place behind the last jump to each label.
fn note_steps(map: &mut BTreeMap<u32, usize>, steps: &[FatStep]) -> Result<(), OutOfMemory>
    ensures { OnOk result ((n : ℕ) → past_in map.new n ≡ jumps_noted n (past_in map.old n) 0 steps.now) }
{
    for (at, step) in steps.iter().enumerate() {
        note_step(map, at, step)?;
    }
    Ok(())
}

fn push_loops(
    loops: &mut Vec<Loop>,
    map: &BTreeMap<u32, usize>,
    steps: &[FatStep],
) -> Result<(), OutOfMemory>
    ensures { OnOk result (loops.new.items ≡ loops.old.items ++ loops_from (past_in map.now) 0 steps.now) }
{
    for (at, step) in steps.iter().enumerate() {
        if let FatStep::Label { n } = step {
            let label = at;
            let past = jump_of(map, *n);
            if label < past {
                loops.push(Loop { label, past })?;
            }
        }
    }
    Ok(())
}

/// The ways back of steps, in order.
pub(crate) fn loops_of(alloc: Global, steps: &[FatStep]) -> Result<Items<Loop>, OutOfMemory>
    ensures { IfOk result (λ ls. ls ≡ loops_in steps.now) }
{
    let mut map = BTreeMap::new(alloc);
    note_steps(&mut map, steps)?;
    let mut loops = Vec::new(alloc);
    push_loops(&mut loops, &map, steps)?;
    Ok(Items::from_vec(loops))
}

/// A range that begins at or before a loop and reaches into it goes on to its end.
pub(crate) fn extend(range: LiveRange, loops: &[Loop]) -> LiveRange
    ensures { result ≡ extended_range loops.now range }
{
    let from = range.from;
    let mut past = range.past;
    for l in loops {
        if from <= l.label && l.label < past && past < l.past {
            past = l.past;
        }
    }
    LiveRange { from, past }
}
