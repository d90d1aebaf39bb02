//! Instructions that compute, and then go on to the next one.
ghost use Rattle.std.specs.Prelude.{◌≡◌, ◌<◌, ◌+◌, ◌-◌, ◌^◌, IsTrue, IfOk, OnErr, if◌then◌else◌};
ghost use Rattle.x86_forms.specs.Arithmetic.{bits_of, signed as signed_of, is_negative, writes_result};
ghost use Rattle.x86_forms.specs.Processor.{rax, rdx};
ghost use Rattle.x86_forms.specs.Requests.{Ends};
ghost use Rattle.x86_forms.specs.Table.{at_next, with_flags, with_result, written_to, value_then, reg_value, imm_value as imm_value_of, alu_operation, shift_operation, operated as operated_by, one_operand, quotient_kept};
ghost use Rattle.x86_forms.specs.Validity.{rm_ok, width_ok, word_ok};
ghost use Rattle.x86_forms.specs.declared.instr.Rm.TheVariants.{Reg as InReg};
ghost use Rattle.x86_alu.specs.Alu.{flags_in, operation_of};
ghost use Rattle.paged_memory.specs.Paged.{Paged};
ghost use Rattle.x86_core.specs.Steps.{BoundsState, seen, Does, spreads, less_than_64, quotient};

use crate::cpu::{CoreStop, Cpu, Done};
use crate::operands::{low, set_register, store, value_of};
use paged_memory::Memory;
use x86_alu::{AluOp, Four, arith, divide};
use x86_forms::{Reg, Rm, address_of};

/// The `w` bits of a signed immediate.
#[inline(always)]
pub fn imm_value(w: u8, imm: i64) -> u64
    requires { IsTrue (width_ok w) }
    ensures value { result ≡ imm_value_of w imm }
    ensures below { result < 2 ^ w }
{
    low(w, imm.cast_unsigned())
}

/// The operation by its place in the list `add or and sub xor cmp`.
#[inline(always)]
pub fn alu_op(op: u8) -> AluOp
    ensures { operation_of result ≡ alu_operation op }
{
    match op {
        0 => AluOp::Add,
        1 => AluOp::Or,
        2 => AluOp::And,
        3 => AluOp::Sub,
        4 => AluOp::Xor,
        _ => AluOp::Cmp,
    }
}

/// The operation by its place in the list `shl shr sar`.
#[inline(always)]
pub fn shift_op(op: u8) -> AluOp
    ensures { operation_of result ≡ shift_operation op }
{
    match op {
        0 => AluOp::Shl,
        1 => AluOp::Shr,
        _ => AluOp::Sar,
    }
}

/// Writes the `w` bits of `v` to an operand, sets the flags, and goes on.
#[inline(always)]
pub fn put(
    cpu: &mut Cpu,
    m: &mut Memory,
    next: u64,
    w: u8,
    rm: Rm,
    v: u64,
    flags: Four,
) -> Result<Done, CoreStop>
    requires width { IsTrue (width_ok w) }
    requires operand { IsTrue (rm_ok rm) }
    ensures row { (s : BoundsState) → Does s cpu.old m.old (written_to (seen s cpu.old) next w rm v (with_flags (at_next (seen s cpu.old) next) (flags_in flags))) cpu.new m.new result }
    ensures done { IfOk result (λ d. d ≡ Done.Next) }
    ensures cpu_kept { OnErr result (cpu.new ≡ cpu.old) }
    ensures memory_kept { OnErr result (m.new ≡ m.old) }
{
    match rm {
        Rm::Reg(r) => {
            set_register(&mut cpu.regs, w, r, v);
            cpu.rip = next;
            cpu.flags = flags;
            Ok(Done::Next)
        }
        Rm::Mem(mem) => {
            store(m, address_of(&cpu.regs, next, mem), w / 8, low(w, v))?;
            cpu.rip = next;
            cpu.flags = flags;
            Ok(Done::Next)
        }
    }
}

#[inline(always)]
fn has_result(op: AluOp) -> bool
    ensures { result ≡ writes_result (operation_of op) }
{
    !matches!(op, AluOp::Cmp | AluOp::Test)
}

/// An operation on the operand's value `a` and on `b`; its result is written to the operand, if it has one.
#[inline(always)]
fn operated(
    cpu: &mut Cpu,
    m: &mut Memory,
    next: u64,
    op: AluOp,
    w: u8,
    rm: Rm,
    a: u64,
    b: u64,
) -> Result<Done, CoreStop>
    requires width { IsTrue (word_ok w) }
    requires operand { IsTrue (rm_ok rm) }
    requires a_below { a < 2 ^ w }
    requires b_below { b < 2 ^ w }
    ensures row { (s : BoundsState) → Does s cpu.old m.old (operated_by (seen s cpu.old) next (operation_of op) w rm a b) cpu.new m.new result }
    ensures done { IfOk result (λ d. d ≡ Done.Next) }
    ensures cpu_kept { OnErr result (cpu.new ≡ cpu.old) }
    ensures memory_kept { OnErr result (m.new ≡ m.old) }
{
    let (v, flags) = arith(op, w, a, b, cpu.flags);
    if has_result(op) {
        put(cpu, m, next, w, rm, v, flags)
    } else {
        cpu.rip = next;
        cpu.flags = flags;
        Ok(Done::Next)
    }
}

/// An operation on an operand and `b`.
#[inline(always)]
pub fn operate(
    cpu: &mut Cpu,
    m: &mut Memory,
    next: u64,
    op: AluOp,
    w: u8,
    rm: Rm,
    b: u64,
) -> Result<Done, CoreStop>
    requires width { IsTrue (word_ok w) }
    requires operand { IsTrue (rm_ok rm) }
    requires below { b < 2 ^ w }
    ensures row { (s : BoundsState) → Does s cpu.old m.old (value_then (seen s cpu.old) next w rm (λ a. operated_by (seen s cpu.old) next (operation_of op) w rm a b)) cpu.new m.new result }
    ensures done { IfOk result (λ d. d ≡ Done.Next) }
    ensures cpu_kept { OnErr result (cpu.new ≡ cpu.old) }
    ensures memory_kept { OnErr result (m.new ≡ m.old) }
{
    let a = value_of(&cpu.regs, m, next, w, rm)?;
    operated(cpu, m, next, op, w, rm, a, b)
}

/// The same, apart from the operations that are frequent.
#[inline(never)]
pub fn operate_apart(
    cpu: &mut Cpu,
    m: &mut Memory,
    next: u64,
    op: AluOp,
    w: u8,
    rm: Rm,
    b: u64,
) -> Result<Done, CoreStop>
    requires width { IsTrue (word_ok w) }
    requires operand { IsTrue (rm_ok rm) }
    requires below { b < 2 ^ w }
    ensures row { (s : BoundsState) → Does s cpu.old m.old (value_then (seen s cpu.old) next w rm (λ a. operated_by (seen s cpu.old) next (operation_of op) w rm a b)) cpu.new m.new result }
    ensures done { IfOk result (λ d. d ≡ Done.Next) }
    ensures cpu_kept { OnErr result (cpu.new ≡ cpu.old) }
    ensures memory_kept { OnErr result (m.new ≡ m.old) }
{
    operate(cpu, m, next, op, w, rm, b)
}

/// An operation on a register and an operand.
#[inline(always)]
pub fn operate_onto(
    cpu: &mut Cpu,
    m: &mut Memory,
    next: u64,
    op: AluOp,
    w: u8,
    r: Reg,
    rm: Rm,
) -> Result<Done, CoreStop>
    requires width { IsTrue (word_ok w) }
    requires register { r.0 < 16 }
    requires operand { IsTrue (rm_ok rm) }
    ensures row { (s : BoundsState) → Does s cpu.old m.old (value_then (seen s cpu.old) next w rm (λ b. operated_by (seen s cpu.old) next (operation_of op) w (InReg r) (reg_value (seen s cpu.old) w r.0) b)) cpu.new m.new result }
    ensures done { IfOk result (λ d. d ≡ Done.Next) }
    ensures cpu_kept { OnErr result (cpu.new ≡ cpu.old) }
    ensures memory_kept { OnErr result (m.new ≡ m.old) }
{
    let b = value_of(&cpu.regs, m, next, w, rm)?;
    let a = low(w, cpu.regs[r.0 as usize]);
    operated(cpu, m, next, op, w, Rm::Reg(r), a, b)
}

/// The same, apart from the operations that are frequent.
#[inline(never)]
pub fn operate_onto_apart(
    cpu: &mut Cpu,
    m: &mut Memory,
    next: u64,
    op: AluOp,
    w: u8,
    r: Reg,
    rm: Rm,
) -> Result<Done, CoreStop>
    requires width { IsTrue (word_ok w) }
    requires register { r.0 < 16 }
    requires operand { IsTrue (rm_ok rm) }
    ensures row { (s : BoundsState) → Does s cpu.old m.old (value_then (seen s cpu.old) next w rm (λ b. operated_by (seen s cpu.old) next (operation_of op) w (InReg r) (reg_value (seen s cpu.old) w r.0) b)) cpu.new m.new result }
    ensures done { IfOk result (λ d. d ≡ Done.Next) }
    ensures cpu_kept { OnErr result (cpu.new ≡ cpu.old) }
    ensures memory_kept { OnErr result (m.new ≡ m.old) }
{
    operate_onto(cpu, m, next, op, w, r, rm)
}

/// Loads an operand into a register, with zeros above it.
#[inline(always)]
pub fn fetch_into(
    cpu: &mut Cpu,
    m: &Memory,
    next: u64,
    w: u8,
    r: Reg,
    from: u8,
    rm: Rm,
) -> Result<Done, CoreStop>
    requires width { IsTrue (width_ok w) }
    requires from { IsTrue (width_ok from) }
    requires register { r.0 < 16 }
    requires operand { IsTrue (rm_ok rm) }
    ensures row { (s : BoundsState) → Does s cpu.old m.now (value_then (seen s cpu.old) next from rm (λ v. Ends (with_result (at_next (seen s cpu.old) next) w r.0 v))) cpu.new m.now result }
    ensures done { IfOk result (λ d. d ≡ Done.Next) }
    ensures cpu_kept { OnErr result (cpu.new ≡ cpu.old) }
{
    let v = value_of(&cpu.regs, m, next, from, rm)?;
    set_register(&mut cpu.regs, w, r, v);
    cpu.rip = next;
    Ok(Done::Next)
}

/// The least number of 8, 16 or 32 bits whose top bit is set.
#[inline(always)]
fn half(from: u8) -> u64
    requires { IsTrue (less_than_64 from) }
    ensures { result ≡ 2 ^ (from - 1) }
{
    match from {
        8 => 0x80,
        16 => 0x8000,
        _ => 0x8000_0000,
    }
}

/// All bits above 8, 16 or 32.
#[inline(always)]
fn above(from: u8) -> u64
    requires { IsTrue (less_than_64 from) }
    ensures { result + 2 ^ from ≡ 2 ^ 64 }
{
    match from {
        8 => 0xffff_ffff_ffff_ff00,
        16 => 0xffff_ffff_ffff_0000,
        _ => 0xffff_ffff_0000_0000,
    }
}

/// The `w` bits of the signed number that `from` bits stand for.
#[inline(never)]
fn spread(w: u8, from: u8, v: u64) -> u64
    requires width { IsTrue (word_ok w) }
    requires from { IsTrue (spreads w from) }
    requires below { v < 2 ^ from }
    ensures { result ≡ bits_of w (signed_of from v) }
{
    if v < half(from) {
        v
    } else {
        low(w, above(from) + v)
    }
}

/// Loads an operand into a register, with its sign above it.
#[inline(never)]
pub fn fetch_signed_into(
    cpu: &mut Cpu,
    m: &Memory,
    next: u64,
    w: u8,
    r: Reg,
    from: u8,
    rm: Rm,
) -> Result<Done, CoreStop>
    requires width { IsTrue (word_ok w) }
    requires from { IsTrue (spreads w from) }
    requires register { r.0 < 16 }
    requires operand { IsTrue (rm_ok rm) }
    ensures row { (s : BoundsState) → Does s cpu.old m.now (value_then (seen s cpu.old) next from rm (λ v. Ends (with_result (at_next (seen s cpu.old) next) w r.0 (bits_of w (signed_of from v))))) cpu.new m.now result }
    ensures done { IfOk result (λ d. d ≡ Done.Next) }
    ensures cpu_kept { OnErr result (cpu.new ≡ cpu.old) }
{
    let v = value_of(&cpu.regs, m, next, from, rm)?;
    set_register(&mut cpu.regs, w, r, spread(w, from, v));
    cpu.rip = next;
    Ok(Done::Next)
}

/// All bits 1 for a number below 0, and else all 0.
#[tactic(auto, unfolding(x86_forms::specs::Arithmetic::is_negative))]
fn sign_bits(w: u8, v: u64) -> u64
    requires { IsTrue (word_ok w) }
    ensures { result ≡ (if is_negative w v then 2 ^ w - 1 else 0) }
{
    if w == 64 {
        if v >= 0x8000_0000_0000_0000 {
            u64::MAX
        } else {
            0
        }
    } else if v >= 0x8000_0000 {
        0xffff_ffff
    } else {
        0
    }
}

/// `cdq` and `cqo`: the sign of rax in every bit of rdx.
#[inline(never)]
pub fn widen(cpu: &mut Cpu, next: u64, w: u8)
    requires { IsTrue (word_ok w) }
    ensures { (s : BoundsState) → seen s cpu.new ≡ with_result (at_next (seen s cpu.old) next) w rdx (if is_negative w (reg_value (seen s cpu.old) w rax) then 2 ^ w - 1 else 0) }
{
    let sign = sign_bits(w, low(w, cpu.regs[0]));
    set_register(&mut cpu.regs, w, Reg(2), sign);
    cpu.rip = next;
}

/// Divides rdx:rax by `a`: the quotient goes to rax and the rest to rdx.
fn divide_by(cpu: &mut Cpu, next: u64, is_signed: bool, w: u8, a: u64) -> Result<Done, CoreStop>
    requires width { IsTrue (word_ok w) }
    requires below { a < 2 ^ w }
    ensures row { (s : BoundsState) (m : Paged) → Does s cpu.old m (quotient_kept (seen s cpu.old) next w (quotient is_signed w (reg_value (seen s cpu.old) w rdx) (reg_value (seen s cpu.old) w rax) a)) cpu.new m result }
    ensures done { IfOk result (λ d. d ≡ Done.Next) }
    ensures cpu_kept { OnErr result (cpu.new ≡ cpu.old) }
{
    match divide(is_signed, w, cpu.regs[2], cpu.regs[0], a) {
        None => Err(CoreStop::Divide),
        Some((quotient, rest)) => {
            set_register(&mut cpu.regs, w, Reg(0), quotient);
            set_register(&mut cpu.regs, w, Reg(2), rest);
            cpu.rip = next;
            cpu.flags = Four {
                cf: false,
                zf: false,
                sf: false,
                of: false,
            };
            Ok(Done::Next)
        }
    }
}

/// Divides rdx:rax by an operand.
#[inline(never)]
pub fn divide_by_operand(
    cpu: &mut Cpu,
    m: &Memory,
    next: u64,
    is_signed: bool,
    w: u8,
    rm: Rm,
) -> Result<Done, CoreStop>
    requires width { IsTrue (word_ok w) }
    requires operand { IsTrue (rm_ok rm) }
    ensures row { (s : BoundsState) → Does s cpu.old m.now (value_then (seen s cpu.old) next w rm (λ a. quotient_kept (seen s cpu.old) next w (quotient is_signed w (reg_value (seen s cpu.old) w rdx) (reg_value (seen s cpu.old) w rax) a))) cpu.new m.now result }
    ensures done { IfOk result (λ d. d ≡ Done.Next) }
    ensures cpu_kept { OnErr result (cpu.new ≡ cpu.old) }
{
    let a = value_of(&cpu.regs, m, next, w, rm)?;
    divide_by(cpu, next, is_signed, w, a)
}

/// `not`, `neg`, `div` or `idiv` of an operand, by the place in this list.
#[inline(never)]
pub fn apply(
    cpu: &mut Cpu,
    m: &mut Memory,
    next: u64,
    op: u8,
    w: u8,
    rm: Rm,
) -> Result<Done, CoreStop>
    requires width { IsTrue (word_ok w) }
    requires operand { IsTrue (rm_ok rm) }
    ensures row { (s : BoundsState) → Does s cpu.old m.old (value_then (seen s cpu.old) next w rm (one_operand (seen s cpu.old) next op w rm)) cpu.new m.new result }
    ensures done { IfOk result (λ d. d ≡ Done.Next) }
    ensures cpu_kept { OnErr result (cpu.new ≡ cpu.old) }
    ensures memory_kept { OnErr result (m.new ≡ m.old) }
{
    match op {
        0 => operate(cpu, m, next, AluOp::Not, w, rm, 0),
        1 => operate(cpu, m, next, AluOp::Neg, w, rm, 0),
        2 => divide_by_operand(cpu, m, next, false, w, rm),
        _ => divide_by_operand(cpu, m, next, true, w, rm),
    }
}
