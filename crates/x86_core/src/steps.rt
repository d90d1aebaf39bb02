ghost use Rattle.std.specs.Prelude.{◌≡◌, ◌+◌, ◌%◌, ◌^◌, IsTrue, IfOk, OnErr, true, false, if◌then◌else◌};
ghost use Rattle.x86_forms.specs.Table.{row};
ghost use Rattle.x86_forms.specs.Validity.{valid_of};
ghost use Rattle.x86_alu.specs.Alu.{flags_in};
ghost use Rattle.x86_core.specs.Steps.{BoundsState, seen, Does, is_plain, done_by};

use crate::branches::{
    call_operand, enter_service, go_to, jump_operand, pop, pop_target, push, target_of,
};
use crate::cpu::{CoreStop, Cpu, Done};
use crate::operands::low;
use crate::operations::{
    alu_op, apply, fetch_into, fetch_signed_into, imm_value, operate, operate_apart, operate_onto,
    operate_onto_apart, put, shift_op, widen,
};
use paged_memory::Memory;
use x86_alu::{AluOp, holds};
use x86_forms::{Instr, Rm, address_of};

/// Whether an instruction isn't of MPX, so that `step` does it.
#[inline(always)]
pub fn plain(i: &Instr) -> bool
    ensures { result ≡ is_plain i.now }
{
    !matches!(
        i,
        Instr::Bndmk { .. }
            | Instr::Bndcl { .. }
            | Instr::Bndcu { .. }
            | Instr::Bndcn { .. }
            | Instr::BndmovTo { .. }
            | Instr::BndmovFrom { .. }
            | Instr::Bndldx { .. }
            | Instr::Bndstx { .. }
    )
}

/// Does one instruction of `len` bytes that isn't of MPX: exactly its row of the instruction table. Reads come first, then
/// writes and pushes, and then the target. A step that isn't done changes nothing.
#[inline(always)]
pub fn step(cpu: &mut Cpu, m: &mut Memory, i: &Instr, len: u8) -> Result<Done, CoreStop>
    requires valid { IsTrue (valid_of i.now) }
    requires plain { IsTrue (is_plain i.now) }
    ensures row { (s : BoundsState) → Does s cpu.old m.old (row i.now ((cpu.old.rip + len) % 2 ^ 64) (seen s cpu.old)) cpu.new m.new result }
    ensures done { IfOk result (λ d. d ≡ done_by i.now (flags_in cpu.old.flags)) }
    ensures cpu_kept { OnErr result (cpu.new ≡ cpu.old) }
    ensures memory_kept { OnErr result (m.new ≡ m.old) }
{
    let next = cpu.rip.wrapping_add(u64::from(len));
    let flags = cpu.flags;
    match *i {
        Instr::MovTo { w, r, rm } => {
            let v = low(w, cpu.regs[r.0 as usize]);
            put(cpu, m, next, w, rm, v, flags)
        }
        Instr::MovFrom { w, r, m: at } => fetch_into(cpu, m, next, w, r, w, Rm::Mem(at)),
        Instr::MovMemImm { w, m: at, imm } => {
            put(cpu, m, next, w, Rm::Mem(at), imm_value(w, imm), flags)
        }
        Instr::MovImm { w, r, imm } => put(cpu, m, next, w, Rm::Reg(r), imm_value(w, imm), flags),
        Instr::Movsxd { r, rm } => fetch_signed_into(cpu, m, next, 64, r, 32, rm),
        Instr::Movzx { from, r, rm } => fetch_into(cpu, m, next, 32, r, from, rm),
        Instr::Movsx { w, from, r, rm } => fetch_signed_into(cpu, m, next, w, r, from, rm),
        Instr::Lea { r, m: at } => {
            let v = address_of(&cpu.regs, next, at);
            put(cpu, m, next, 64, Rm::Reg(r), v, flags)
        }
        Instr::AluTo { op, w, r, rm } => {
            let b = low(w, cpu.regs[r.0 as usize]);
            operate(cpu, m, next, alu_op(op), w, rm, b)
        }
        Instr::AluFrom { op, w, r, m: at } => {
            operate_onto(cpu, m, next, alu_op(op), w, r, Rm::Mem(at))
        }
        Instr::AluImm { op, w, rm, imm } => {
            operate(cpu, m, next, alu_op(op), w, rm, imm_value(w, imm))
        }
        Instr::Test { w, r, rm } => {
            let b = low(w, cpu.regs[r.0 as usize]);
            operate(cpu, m, next, AluOp::Test, w, rm, b)
        }
        Instr::Imul { w, r, rm } => operate_onto_apart(cpu, m, next, AluOp::Imul, w, r, rm),
        Instr::One { op, w, rm } => apply(cpu, m, next, op, w, rm),
        Instr::Wide { w } => {
            widen(cpu, next, w);
            Ok(Done::Next)
        }
        Instr::ShiftCl { op, w, rm } => {
            let count = low(8, cpu.regs[1]);
            operate_apart(cpu, m, next, shift_op(op), w, rm, count)
        }
        Instr::ShiftImm { op, w, rm, imm } => {
            operate_apart(cpu, m, next, shift_op(op), w, rm, imm_value(8, imm))
        }
        Instr::Set { op, rm } => {
            let v = u64::from(holds(op, flags));
            put(cpu, m, next, 8, rm, v, flags)
        }
        Instr::Push { r } => {
            let v = cpu.regs[r.0 as usize];
            push(cpu, m, v, next, Done::Next)
        }
        Instr::Pop { r } => pop(cpu, m, next, r),
        Instr::CallRel { prefixed, rel } => {
            push(cpu, m, next, target_of(next, rel), called(prefixed))
        }
        Instr::CallRm { prefixed, rm } => call_operand(cpu, m, next, rm, called(prefixed)),
        Instr::JmpRel { prefixed, rel } => go_to(cpu, target_of(next, rel), jumped(true, prefixed)),
        Instr::JmpRm { prefixed, rm } => jump_operand(cpu, m, next, rm, jumped(true, prefixed)),
        Instr::Jcc { prefixed, op, rel } => {
            let taken = holds(op, flags);
            let to = chosen(taken, target_of(next, rel), next);
            go_to(cpu, to, jumped(taken, prefixed))
        }
        Instr::Ret { prefixed } => pop_target(cpu, m, returned(prefixed)),
        Instr::Syscall => {
            enter_service(cpu, next);
            Ok(Done::Service)
        }
        Instr::Nop => go_to(cpu, next, Done::Next),
        Instr::Ud2 => Err(CoreStop::Undefined),
        Instr::Bndmk { .. }
        | Instr::Bndcl { .. }
        | Instr::Bndcu { .. }
        | Instr::Bndcn { .. }
        | Instr::BndmovTo { .. }
        | Instr::BndmovFrom { .. }
        | Instr::Bndldx { .. }
        | Instr::Bndstx { .. } => unreachable!(),
    }
}

#[inline(always)]
fn chosen(taken: bool, target: u64, next: u64) -> u64
    ensures { result ≡ (if taken then target else next) }
{
    if taken { target } else { next }
}

#[inline(always)]
fn called(prefixed: bool) -> Done
    ensures { result ≡ Done.Branch true false true prefixed }
{
    Done::Branch {
        call: true,
        ret: false,
        taken: true,
        prefixed,
    }
}

#[inline(always)]
fn jumped(taken: bool, prefixed: bool) -> Done
    ensures { result ≡ Done.Branch false false taken prefixed }
{
    Done::Branch {
        call: false,
        ret: false,
        taken,
        prefixed,
    }
}

#[inline(always)]
fn returned(prefixed: bool) -> Done
    ensures { result ≡ Done.Branch false true true prefixed }
{
    Done::Branch {
        call: false,
        ret: true,
        taken: true,
        prefixed,
    }
}
