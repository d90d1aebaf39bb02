//! All that an instruction does.
ghost use Rattle.std.specs.Prelude.{◌≡◌, ℕ, ◌+◌, ◌%◌, ◌^◌, List, Some, IsTrue, slice_index};
ghost use Rattle.x86_forms.specs.Accesses.{accesses, reach_of};
ghost use Rattle.x86_forms.specs.Validity.{valid_of};
ghost use Rattle.x86_forms.specs.Watch.{control_strays};
ghost use Rattle.obj_file.specs.Machine.{is_call, is_return, is_service, unless_bare, reach_strays as strays_of, with_service_of, executed, deed_of};
ghost use Rattle.paged_memory.specs.Paged.{bytes_of};
ghost use Rattle.mx_run.specs.Backed.{ground};
ghost use Rattle.mx_run.specs.Lines.{KeepsCode};
ghost use Rattle.mx_run.specs.Parts.{state_of};
ghost use Rattle.mx_run.specs.Events.{Acts, CountsReads, CountsWrites};

use crate::executing::execute;
use crate::parts::{Doors, Parts};
use crate::serving::serve_guest;
use crate::watch::reach_strays;
use mx_base::{Sink, Source, Stop};
use seal_watch::{Verdict, judge_jump};
use x86_forms::{Instr, reach};

/// Whether an instruction is a call.
#[inline(always)]
pub fn calls(i: &Instr) -> bool
    ensures { result ≡ is_call i.now }
{
    matches!(i, Instr::CallRel { .. } | Instr::CallRm { .. })
}

/// Whether an instruction is a return.
#[inline(always)]
pub fn returns(i: &Instr) -> bool
    ensures { result ≡ is_return i.now }
{
    matches!(i, Instr::Ret { .. })
}

/// Whether an instruction asks for a service.
#[inline(always)]
fn asks(i: &Instr) -> bool
    ensures { result ≡ is_service i.now }
{
    matches!(i, Instr::Syscall)
}

/// The verdict on the accesses of an instruction.
#[inline(always)]
fn judge_accesses(p: &Parts, bare: bool, i: &Instr, next: u64) -> Option<u64>
    requires { IsTrue (valid_of i.now) }
    ensures { result ≡ unless_bare bare (strays_of i.now p.now.cpu.rip (reach_of (accesses i.now next (slice_index p.now.cpu.regs)))) }
{
    if bare {
        return None;
    }
    reach_strays(i, p.cpu.rip, reach(i, &p.cpu.regs, next))
}

/// The verdict on where an instruction leads.
#[inline(always)]
fn judge_control(doors: Doors, i: &Instr, from: u64, to: u64) -> Option<u64>
    ensures { result ≡ unless_bare doors.bare (control_strays from to (is_call i.now) (is_return i.now) doors.outers) }
{
    if doors.bare {
        return None;
    }
    match judge_jump(from, to, calls(i), returns(i), doors.outers) {
        Verdict::Fine => None,
        Verdict::Strayed(x) => Some(x),
    }
}

/// The same, out of the way of instructions that ask for none. A stop of the service leaves the parts as they were.
#[inline(never)]
fn execute_asked<I: Source, O: Sink>(
    p: &mut Parts,
    doors: Doors,
    i: &Instr,
    len: u8,
    input: &mut I,
    out: &mut O,
) -> Option<Stop>
    requires valid { IsTrue (valid_of i.now) }
    ensures acts { (bytes so_far : List ℕ) → I.left input.old ≡ Some bytes → Acts (with_service_of (ground p.old.bnd.cfg doors.outers doors.bare) i.now (state_of p.old bytes so_far) (executed (ground p.old.bnd.cfg doors.outers doors.bare) i.now ((p.old.cpu.rip + len) % 2 ^ 64) (state_of p.old bytes so_far))) (O.held out.old) so_far record { parts = p.new; left = I.left input.new; held = O.held out.new } result }
    ensures reads { CountsReads result (I.faults input.old) (I.faults input.new) }
    ensures writes { CountsWrites result (O.faults out.old) (O.faults out.new) }
    ensures cfg { p.new.bnd.cfg ≡ p.old.bnd.cfg }
    ensures frames { p.new.memory.capacity ≡ p.old.memory.capacity }
    ensures code { KeepsCode (bytes_of p.old.memory) (bytes_of p.new.memory) }
{
    if !asks(i) {
        return execute(p, i, len);
    }
    let before = p.cpu;
    if let Some(stop) = execute(p, i, len) {
        return Some(stop);
    }
    match serve_guest(p, doors.bare, before.rip, input, out) {
        None => None,
        Some(stop) => {
            p.cpu = before;
            Some(stop)
        }
    }
}

/// The instruction, and its service if it asks for one. A stop of the service leaves the parts as they were.
#[inline(always)]
fn execute_served<I: Source, O: Sink>(
    p: &mut Parts,
    doors: Doors,
    i: &Instr,
    len: u8,
    input: &mut I,
    out: &mut O,
) -> Option<Stop>
    requires valid { IsTrue (valid_of i.now) }
    ensures acts { (bytes so_far : List ℕ) → I.left input.old ≡ Some bytes → Acts (with_service_of (ground p.old.bnd.cfg doors.outers doors.bare) i.now (state_of p.old bytes so_far) (executed (ground p.old.bnd.cfg doors.outers doors.bare) i.now ((p.old.cpu.rip + len) % 2 ^ 64) (state_of p.old bytes so_far))) (O.held out.old) so_far record { parts = p.new; left = I.left input.new; held = O.held out.new } result }
    ensures reads { CountsReads result (I.faults input.old) (I.faults input.new) }
    ensures writes { CountsWrites result (O.faults out.old) (O.faults out.new) }
    ensures cfg { p.new.bnd.cfg ≡ p.old.bnd.cfg }
    ensures frames { p.new.memory.capacity ≡ p.old.memory.capacity }
    ensures code { KeepsCode (bytes_of p.old.memory) (bytes_of p.new.memory) }
{
    if asks(i) {
        let copy = *i;
        return execute_asked(p, doors, &copy, len, input, out);
    }
    execute(p, i, len)
}

/// All that an instruction of `len` bytes does: its accesses are judged, it is executed, its service is done, and then control is
/// judged.
#[inline(always)]
pub fn act<I: Source, O: Sink>(
    p: &mut Parts,
    doors: Doors,
    i: &Instr,
    len: u8,
    input: &mut I,
    out: &mut O,
) -> Option<Stop>
    requires valid { IsTrue (valid_of i.now) }
    ensures acts { (bytes so_far : List ℕ) → I.left input.old ≡ Some bytes → Acts (deed_of (ground p.old.bnd.cfg doors.outers doors.bare) i.now ((p.old.cpu.rip + len) % 2 ^ 64) (state_of p.old bytes so_far)) (O.held out.old) so_far record { parts = p.new; left = I.left input.new; held = O.held out.new } result }
    ensures reads { CountsReads result (I.faults input.old) (I.faults input.new) }
    ensures writes { CountsWrites result (O.faults out.old) (O.faults out.new) }
    ensures cfg { p.new.bnd.cfg ≡ p.old.bnd.cfg }
    ensures frames { p.new.memory.capacity ≡ p.old.memory.capacity }
    ensures code { KeepsCode (bytes_of p.old.memory) (bytes_of p.new.memory) }
{
    let from = p.cpu.rip;
    if let Some(x) = judge_accesses(p, doors.bare, i, from.wrapping_add(u64::from(len))) {
        return Some(Stop::Strayed(x));
    }
    if let Some(stop) = execute_served(p, doors, i, len, input, out) {
        return Some(stop);
    }
    match judge_control(doors, i, from, p.cpu.rip) {
        None => None,
        Some(x) => Some(Stop::Strayed(x)),
    }
}
