//! The data accesses of an instruction, before it is done.

ghost use Rattle.std.specs.Prelude.{◌≡◌, ◌%◌, ◌^◌, IsTrue, [], slice_index};
ghost use Rattle.x86_forms.specs.Processor.{address, base_value, index_value};
ghost use Rattle.x86_forms.specs.Accesses.{accesses, reach_of, span, operand_reads, operand_writes, operand_changes, call_accesses, push, pushes, pops};
ghost use Rattle.x86_forms.specs.Validity.{valid_of, mem_ok, base_ok, index_ok, rm_ok};

use crate::instr::{Base, Instr, Mem, Reg, Rm};
use crate::spans::{Reach, Span};

/// What the base of a memory operand adds to its address, `next` being the address of the next instruction.
#[inline(always)]
pub fn base_of(regs: &[u64; 16], next: u64, base: Base, index: Option<(Reg, u8)>) -> u64
    requires { IsTrue (base_ok base index) }
    ensures { result ≡ base_value (slice_index regs.now) next base }
{
    match base {
        Base::None => 0,
        Base::Reg(r) => regs[r.0 as usize],
        Base::Rip => next,
    }
}

#[inline(always)]
fn index_of(regs: &[u64; 16], index: Option<(Reg, u8)>) -> u64
    requires { IsTrue (index_ok index) }
    ensures { result ≡ index_value (slice_index regs.now) index % 2 ^ 64 }
{
    match index {
        None => 0,
        Some((r, scale)) => regs[r.0 as usize].wrapping_mul(u64::from(scale)),
    }
}

/// The address of a memory operand, `next` being the address of the next instruction.
#[tactic(auto, unfolding(crate::specs::Processor::address))]
#[inline(always)]
pub fn address_of(regs: &[u64; 16], next: u64, m: Mem) -> u64
    requires { IsTrue (mem_ok m) }
    ensures { result ≡ address (slice_index regs.now) next m }
{
    base_of(regs, next, m.base, m.index)
        .wrapping_add(index_of(regs, m.index))
        .wrapping_add(i64::from(m.disp).cast_unsigned())
}

#[inline(always)]
fn explicit(at: u64, w: u8, write: bool) -> Span
    ensures { result ≡ span at w write }
{
    Span {
        at,
        size: u64::from(w / 8),
        write,
        implicit: false,
    }
}

#[inline]
fn reads_operand(regs: &[u64; 16], next: u64, w: u8, rm: Rm) -> Reach
    requires { IsTrue (rm_ok rm) }
    ensures { result ≡ reach_of (operand_reads (slice_index regs.now) next w rm) }
{
    match rm {
        Rm::Reg(_) => Reach {
            first: None,
            second: None,
        },
        Rm::Mem(m) => Reach {
            first: Some(explicit(address_of(regs, next, m), w, false)),
            second: None,
        },
    }
}

#[inline]
fn writes_operand(regs: &[u64; 16], next: u64, w: u8, rm: Rm) -> Reach
    requires { IsTrue (rm_ok rm) }
    ensures { result ≡ reach_of (operand_writes (slice_index regs.now) next w rm) }
{
    match rm {
        Rm::Reg(_) => Reach {
            first: None,
            second: None,
        },
        Rm::Mem(m) => Reach {
            first: Some(explicit(address_of(regs, next, m), w, true)),
            second: None,
        },
    }
}

#[inline]
fn changes_operand(regs: &[u64; 16], next: u64, w: u8, rm: Rm, writes: bool) -> Reach
    requires { IsTrue (rm_ok rm) }
    ensures { result ≡ reach_of (operand_changes (slice_index regs.now) next w rm writes) }
{
    match rm {
        Rm::Reg(_) => Reach {
            first: None,
            second: None,
        },
        Rm::Mem(m) => {
            let at = address_of(regs, next, m);
            let second = if writes {
                Some(explicit(at, w, true))
            } else {
                None
            };
            Reach {
                first: Some(explicit(at, w, false)),
                second,
            }
        }
    }
}

#[inline(always)]
fn push_of(regs: &[u64; 16]) -> Span
    ensures { result ≡ push (slice_index regs.now) }
{
    Span {
        at: regs[4].wrapping_sub(8),
        size: 8,
        write: true,
        implicit: true,
    }
}

#[inline]
fn pushes_word(regs: &[u64; 16]) -> Reach
    ensures { result ≡ reach_of (pushes (slice_index regs.now)) }
{
    Reach {
        first: Some(push_of(regs)),
        second: None,
    }
}

#[inline]
fn pops_word(regs: &[u64; 16]) -> Reach
    ensures { result ≡ reach_of (pops (slice_index regs.now)) }
{
    Reach {
        first: Some(Span {
            at: regs[4],
            size: 8,
            write: false,
            implicit: true,
        }),
        second: None,
    }
}

#[inline]
fn calls_operand(regs: &[u64; 16], next: u64, rm: Rm) -> Reach
    requires { IsTrue (rm_ok rm) }
    ensures { result ≡ reach_of (call_accesses (slice_index regs.now) next rm) }
{
    match rm {
        Rm::Reg(_) => Reach {
            first: Some(push_of(regs)),
            second: None,
        },
        Rm::Mem(m) => Reach {
            first: Some(explicit(address_of(regs, next, m), 64, false)),
            second: Some(push_of(regs)),
        },
    }
}

#[inline(always)]
fn reaches_nothing() -> Reach
    ensures { result ≡ reach_of [] }
{
    Reach {
        first: None,
        second: None,
    }
}

/// The data accesses of an instruction over these registers, `next` being the address after it. Reads come first, then
/// writes and pushes; an instruction that reads and writes its memory operand has both.
#[inline(always)]
pub fn reach(i: &Instr, regs: &[u64; 16], next: u64) -> Reach
    requires { IsTrue (valid_of i.now) }
    ensures { result ≡ reach_of (accesses i.now next (slice_index regs.now)) }
{
    match *i {
        Instr::MovTo { w, rm, .. } => writes_operand(regs, next, w, rm),
        Instr::MovFrom { w, m, .. } => reads_operand(regs, next, w, Rm::Mem(m)),
        Instr::MovMemImm { w, m, .. } => writes_operand(regs, next, w, Rm::Mem(m)),
        Instr::Movsxd { rm, .. } => reads_operand(regs, next, 32, rm),
        Instr::Movzx { from, rm, .. } => reads_operand(regs, next, from, rm),
        Instr::Movsx { from, rm, .. } => reads_operand(regs, next, from, rm),
        Instr::AluTo { op, w, rm, .. } => changes_operand(regs, next, w, rm, op < 5),
        Instr::AluFrom { w, m, .. } => reads_operand(regs, next, w, Rm::Mem(m)),
        Instr::AluImm { op, w, rm, .. } => changes_operand(regs, next, w, rm, op < 5),
        Instr::Test { w, rm, .. } => reads_operand(regs, next, w, rm),
        Instr::Imul { w, rm, .. } => reads_operand(regs, next, w, rm),
        Instr::One { op, w, rm } => changes_operand(regs, next, w, rm, op < 2),
        Instr::ShiftCl { w, rm, .. } => changes_operand(regs, next, w, rm, true),
        Instr::ShiftImm { w, rm, .. } => changes_operand(regs, next, w, rm, true),
        Instr::Set { rm, .. } => writes_operand(regs, next, 8, rm),
        Instr::Push { .. } => pushes_word(regs),
        Instr::Pop { .. } => pops_word(regs),
        Instr::CallRel { .. } => pushes_word(regs),
        Instr::CallRm { rm, .. } => calls_operand(regs, next, rm),
        Instr::JmpRm { rm, .. } => reads_operand(regs, next, 64, rm),
        Instr::Ret { .. } => pops_word(regs),
        Instr::BndmovTo { m, .. } => writes_operand(regs, next, 128, Rm::Mem(m)),
        Instr::BndmovFrom { rm: Rm::Mem(m), .. } => reads_operand(regs, next, 128, Rm::Mem(m)),
        _ => reaches_nothing(),
    }
}
