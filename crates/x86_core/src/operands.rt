//! Registers, and operands in registers and memory.
ghost use Rattle.std.specs.Prelude.{◌≡◌, ◌<◌, ◌%◌, ◌^◌, IsTrue, IfOk, OnErr, slice_index};
ghost use Rattle.paged_memory.specs.Paged.{bytes_of};
ghost use Rattle.paged_memory.specs.Answers.{is_width, load_answer};
ghost use Rattle.x86_forms.specs.Arithmetic.{low as low_bits};
ghost use Rattle.x86_forms.specs.Processor.{part_written, with_part, with_reg, rsp};
ghost use Rattle.x86_forms.specs.Validity.{rm_ok, width_ok};
ghost use Rattle.paged_memory.specs.Framed.{framed_of};
ghost use Rattle.x86_core.specs.Framed.{framed_write};
ghost use Rattle.x86_core.specs.Steps.{core_answer, operand_value, StoresAs};

use crate::cpu::CoreStop;
use paged_memory::Memory;
use x86_forms::{Reg, Rm, address_of};

/// The low `w` bits.
#[inline(always)]
pub fn low(w: u8, v: u64) -> u64
    requires { IsTrue (width_ok w) }
    ensures value { result ≡ low_bits w v }
    ensures below { result < 2 ^ w }
{
    match w {
        8 => v % 0x100,
        16 => v % 0x1_0000,
        32 => v % 0x1_0000_0000,
        _ => v,
    }
}

/// What a register holds once `w` bits are written to it.
#[tactic(auto, unfolding(x86_forms::specs::Processor::part_written))]
#[inline(always)]
fn with_low(w: u8, old: u64, v: u64) -> u64
    requires { IsTrue (width_ok w) }
    ensures { result ≡ part_written w old v }
{
    match w {
        8 => old / 0x100 * 0x100 + v % 0x100,
        16 => old / 0x1_0000 * 0x1_0000 + v % 0x1_0000,
        _ => low(w, v),
    }
}

/// Writes `w` bits to a register: 32 bits clear the upper half, and 8 or 16 leave the rest.
#[inline(always)]
pub fn set_register(regs: &mut [u64; 16], w: u8, r: Reg, v: u64)
    requires width { IsTrue (width_ok w) }
    requires register { r.0 < 16 }
    ensures { slice_index regs.new ≡ with_part w (slice_index regs.old) r.0 v }
{
    let at = r.0 as usize;
    regs[at] = with_low(w, regs[at], v);
}

/// Sets the stack pointer.
#[inline(always)]
pub fn set_stack(regs: &mut [u64; 16], sp: u64)
    ensures { slice_index regs.new ≡ with_reg (slice_index regs.old) rsp sp }
{
    regs[4] = sp;
}

/// The number of `n` bytes at an address.
#[inline(always)]
pub fn load(m: &Memory, at: u64, n: u8) -> Result<u64, CoreStop>
    requires { IsTrue (is_width n) }
    ensures { result ≡ core_answer (load_answer n (bytes_of m.now) at) }
{
    match m.load(at, n) {
        Ok(v) => Ok(v),
        Err(stop) => Err(CoreStop::Mem(stop)),
    }
}

/// Stores the low `n` bytes of `v` at an address.
#[inline(always)]
pub fn store(m: &mut Memory, at: u64, n: u8, v: u64) -> Result<(), CoreStop>
    requires { IsTrue (is_width n) }
    ensures answer { StoresAs (framed_write (framed_of m.old) at n v) (framed_of m.new) result }
    ensures refused { OnErr result (m.new ≡ m.old) }
{
    match m.store(at, n, v) {
        Ok(()) => Ok(()),
        Err(stop) => Err(CoreStop::Mem(stop)),
    }
}

/// The `w` bits of a register or memory operand.
#[inline(always)]
pub fn value_of(regs: &[u64; 16], m: &Memory, next: u64, w: u8, rm: Rm) -> Result<u64, CoreStop>
    requires width { IsTrue (width_ok w) }
    requires operand { IsTrue (rm_ok rm) }
    ensures value { result ≡ core_answer (operand_value (slice_index regs.now) next (bytes_of m.now) w rm) }
    ensures below { IfOk result (λ v. v < 2 ^ w) }
{
    match rm {
        Rm::Reg(r) => Ok(low(w, regs[r.0 as usize])),
        Rm::Mem(mem) => match load(m, address_of(regs, next, mem), w / 8) {
            Ok(v) => Ok(low(w, v)),
            Err(stop) => Err(stop),
        },
    }
}
