//! The verdicts of the watch on all the accesses of an instruction.
ghost use Rattle.std.specs.Prelude.{◌≡◌, Some};
ghost use Rattle.obj_file.specs.Machine.{span_strays as strays_in, is_read, reach_strays as strays_of};

use paged_memory::first_unmapped;
use seal_watch::{Verdict, judge};
use x86_forms::{Instr, Reach, Span};

/// Where an access that there is strays.
#[inline(always)]
fn strays(i: &Instr, from: u64, s: Span) -> Option<u64>
    ensures { result ≡ strays_in i.now from (Some s) }
{
    match judge(i, from, s) {
        Verdict::Fine => None,
        Verdict::Strayed(x) => Some(x),
    }
}

/// Where an access of the instruction at address `from` strays.
#[inline(always)]
pub fn span_strays(i: &Instr, from: u64, s: Option<Span>) -> Option<u64>
    ensures { result ≡ strays_in i.now from s }
{
    match s {
        None => None,
        Some(s) => strays(i, from, s),
    }
}

/// A region has each byte of a read.
#[inline(always)]
fn can_be_read(s: Option<Span>) -> bool
    ensures { result ≡ is_read s }
{
    match s {
        None => true,
        Some(s) => match first_unmapped(s.at, s.size) {
            None => true,
            Some(_) => false,
        },
    }
}

/// Where the accesses of the instruction at address `from` stray. They are judged one by one: the second, before which a read
/// comes, is judged only if that read is done.
#[tactic(auto, unfolding(obj_file::specs::Machine::reach_strays))]
#[inline(always)]
pub fn reach_strays(i: &Instr, from: u64, r: Reach) -> Option<u64>
    ensures { result ≡ strays_of i.now from r }
{
    match span_strays(i, from, r.first) {
        Some(x) => Some(x),
        None => {
            if can_be_read(r.first) {
                span_strays(i, from, r.second)
            } else {
                None
            }
        }
    }
}
