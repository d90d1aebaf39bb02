//! Which ranges hold a call or a service.

ghost use Rattle.std.specs.Prelude.{◌≡◌, ◌+◌, ◌<◌, IfOk, slice_index};
ghost use Rattle.reg_assign.specs.Noise.{is_call, counts_from, quiet_by};

use crate::lives::LiveRange;
use fat_ir::FatStep;
use mx_base::OutOfMemory;
use sqlite_items::Items;
use std::alloc::Global;

fn is_call_step(step: &FatStep) -> bool
    ensures { result ≡ is_call step.now }
{
    match step {
        FatStep::Call { .. } | FatStep::Service { .. } => true,
        _ => false,
    }
}

/// How many calls and services stand before each step, and before the end.
pub(crate) fn count_calls(alloc: Global, steps: &[FatStep]) -> Result<Items<usize>, OutOfMemory>
    ensures { IfOk result (λ counts. counts ≡ counts_from 0 steps.now) }
{
    let mut counts = Vec::new(alloc);
    let mut total = 0;
    for step in steps {
        counts.push(total)?;
        if is_call_step(step) {
            total += 1;
        }
    }
    counts.push(total)?;
    Ok(Items::from_vec(counts))
}

fn count_at(counts: &[usize], place: usize) -> usize
    ensures { result ≡ slice_index counts.now place }
{
    match counts.get(place) {
        Some(count) => *count,
        None => 0,
    }
}

/// No step of the range is a call or a service.
pub(crate) fn is_quiet(counts: &[usize], range: LiveRange) -> bool
    ensures { result ≡ quiet_by counts.now range }
{
    count_at(counts, range.from) == count_at(counts, range.past)
}
