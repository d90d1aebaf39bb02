//! The verdict on a change of control.
ghost use Rattle.std.specs.Prelude.{◌≡◌};
ghost use Rattle.mx_base.specs.Regions.{is_in, instrumented_code};
ghost use Rattle.x86_forms.specs.Watch.{is_in_outer, begins_outer, may_enter, is_legacy_control, control_strays};
ghost use Rattle.seal_watch.specs.Verdicts.{verdict_of};

use crate::verdicts::Verdict;

/// Where calls of legacy code come back.
const LANDING: u64 = 0x0100_0400;

/// The first outer entry, by which legacy code calls C, and how many bytes each has.
const FIRST_OUTER: u64 = 0x0101_0000;

const OUTER_SIZE: u64 = 128;

#[inline(always)]
pub fn is_instrumented(a: u64) -> bool
    ensures { result ≡ is_in instrumented_code a }
{
    0x0100_0000 <= a && a < 0x1100_0000
}

#[tactic(auto, unfolding(x86_forms::specs::Watch::is_in_outer))]
#[inline(always)]
fn lies_in_outer(outers: u32, a: u64) -> bool
    ensures { result ≡ is_in_outer outers a }
{
    FIRST_OUTER <= a && a < FIRST_OUTER + OUTER_SIZE * u64::from(outers)
}

#[tactic(auto, unfolding(x86_forms::specs::Watch::begins_outer, x86_forms::specs::Watch::is_in_outer))]
#[inline(always)]
fn is_outer_entry(outers: u32, a: u64) -> bool
    ensures { result ≡ begins_outer outers a }
{
    lies_in_outer(outers, a) && (a - FIRST_OUTER) % OUTER_SIZE == 0
}

#[tactic(auto, unfolding(x86_forms::specs::Watch::may_enter))]
#[inline(always)]
fn is_let_in(to: u64, call: bool, outers: u32) -> bool
    ensures { result ≡ may_enter to call outers }
{
    to == LANDING || (call && is_outer_entry(outers, to))
}

#[tactic(auto, unfolding(x86_forms::specs::Watch::is_legacy_control))]
#[inline(always)]
fn is_of_legacy(from: u64, ret: bool, outers: u32) -> bool
    ensures { result ≡ is_legacy_control from ret outers }
{
    !is_instrumented(from) || (ret && lies_in_outer(outers, from))
}

/// The verdict on control that goes from the instruction at address `from` to address `to`, by a call, by a return or by
/// neither, in an image with so many outer entries. Control of legacy code, to which the return of an outer entry belongs,
/// strays into instrumented code anywhere but at the landing and, by a call, at the first byte of an outer entry.
#[tactic(auto, unfolding(x86_forms::specs::Watch::control_strays))]
#[inline(always)]
pub fn judge_jump(from: u64, to: u64, call: bool, ret: bool, outers: u32) -> Verdict
    ensures { result ≡ verdict_of (control_strays from to call ret outers) }
{
    if is_of_legacy(from, ret, outers) && is_instrumented(to) && !is_let_in(to, call, outers) {
        Verdict::Strayed(to)
    } else {
        Verdict::Fine
    }
}
