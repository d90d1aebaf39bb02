//! The verdict on a data access.
ghost use Rattle.std.specs.Prelude.{◌≡◌, true, None};
ghost use Rattle.x86_forms.specs.Watch.{access_strays, first_sealed};
ghost use Rattle.seal_watch.specs.Verdicts.{verdict_of};

use crate::control::is_instrumented;
use crate::operands::is_for_c;
use crate::sealed::first_sealed_byte;
use x86_forms::{Instr, Span};

/// What the watch says of an access or of a change of control.
#[derive(Clone, Copy, Debug, PartialEq, Eq)]
pub enum Verdict {
    Fine,
    /// It strays at this address: the first sealed byte of an access, or where control goes.
    Strayed(u64),
}

/// Whether an access lies between the instrumented code and the cells, where no byte is sealed. Most accesses do.
#[tactic(auto, using(crate::proofs::Runs::clear_access))]
#[inline(always)]
fn is_clear(s: Span) -> bool
    ensures { result ≡ true → first_sealed s ≡ None }
{
    0x1100_0000 <= s.at && s.at < 0x7000_0000 && s.size <= 0x7000_0000 - s.at
}

/// The verdict on an access that the instruction at address `from` makes. Legacy code strays at the first sealed byte, and so
/// does an access of instrumented code that it makes for C. The reading of a service is an implicit access. An access may go
/// past the last address and on from address 0.
#[tactic(auto, unfolding(x86_forms::specs::Watch::access_strays, x86_forms::specs::Watch::is_watched))]
#[inline(always)]
pub fn judge(i: &Instr, from: u64, s: Span) -> Verdict
    ensures { result ≡ verdict_of (access_strays i.now from s) }
{
    if is_clear(s) {
        return Verdict::Fine;
    }
    if is_instrumented(from) && !is_for_c(i, s) {
        return Verdict::Fine;
    }
    match first_sealed_byte(s) {
        None => Verdict::Fine,
        Some(x) => Verdict::Strayed(x),
    }
}
