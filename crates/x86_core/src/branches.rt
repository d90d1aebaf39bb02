//! Instructions that use the stack or lead elsewhere.
ghost use Rattle.std.specs.Prelude.{◌≡◌, ◌<◌, IsTrue, IfOk, OnErr, true};
ghost use Rattle.x86_forms.specs.Processor.{rsp, rcx, r11, above_stack, branch_target};
ghost use Rattle.x86_forms.specs.Arithmetic.{low as low_bits};
ghost use Rattle.x86_forms.specs.Requests.{Ends, Reads};
ghost use Rattle.x86_forms.specs.Table.{at_next, with_result, with_stack, value_then, pushed};
ghost use Rattle.x86_forms.specs.Validity.{rm_ok};
ghost use Rattle.x86_core.specs.Steps.{BoundsState, seen, Does, moved};

use crate::cpu::{CoreStop, Cpu, Done};
use crate::operands::{load, set_register, set_stack, store, value_of};
use paged_memory::Memory;
use x86_forms::{Reg, Rm};

/// The target of a relative branch.
#[inline(always)]
pub fn target_of(next: u64, rel: i32) -> u64
    ensures { result ≡ branch_target next rel }
{
    next.wrapping_add(i64::from(rel).cast_unsigned())
}

/// Leads to an address.
#[inline(always)]
pub fn go_to(cpu: &mut Cpu, to: u64, done: Done) -> Result<Done, CoreStop>
    ensures cpu { cpu.new ≡ record cpu.old { rip = to } }
    ensures done { result ≡ Ok done }
{
    cpu.rip = to;
    Ok(done)
}

/// Pushes 8 bytes, and leads to an address.
#[inline(always)]
pub fn push(cpu: &mut Cpu, m: &mut Memory, v: u64, to: u64, done: Done) -> Result<Done, CoreStop>
    ensures row { (s : BoundsState) → Does s cpu.old m.old (pushed (seen s cpu.old) v (moved done (seen s cpu.old) to)) cpu.new m.new result }
    ensures done { IfOk result (λ d. d ≡ done) }
    ensures cpu_kept { OnErr result (cpu.new ≡ cpu.old) }
    ensures memory_kept { OnErr result (m.new ≡ m.old) }
{
    let sp = cpu.regs[4].wrapping_sub(8);
    store(m, sp, 8, v)?;
    set_stack(&mut cpu.regs, sp);
    cpu.rip = to;
    Ok(done)
}

/// Pops 8 bytes into a register.
#[inline(always)]
pub fn pop(cpu: &mut Cpu, m: &Memory, next: u64, r: Reg) -> Result<Done, CoreStop>
    requires { r.0 < 16 }
    ensures row { (s : BoundsState) → Does s cpu.old m.now (Reads ((seen s cpu.old).regs rsp) 8 true (λ v. Ends (with_result (with_stack (at_next (seen s cpu.old) next) (above_stack ((seen s cpu.old).regs rsp))) 64 r.0 v))) cpu.new m.now result }
    ensures done { IfOk result (λ d. d ≡ Done.Next) }
    ensures cpu_kept { OnErr result (cpu.new ≡ cpu.old) }
{
    let v = load(m, cpu.regs[4], 8)?;
    let sp = cpu.regs[4].wrapping_add(8);
    set_stack(&mut cpu.regs, sp);
    set_register(&mut cpu.regs, 64, r, v);
    cpu.rip = next;
    Ok(Done::Next)
}

/// Pops 8 bytes, and leads there.
#[inline(always)]
pub fn pop_target(cpu: &mut Cpu, m: &Memory, done: Done) -> Result<Done, CoreStop>
    ensures row { (s : BoundsState) → Does s cpu.old m.now (Reads ((seen s cpu.old).regs rsp) 8 true (λ target. Ends (with_stack (moved done (seen s cpu.old) (low_bits 64 target)) (above_stack ((seen s cpu.old).regs rsp))))) cpu.new m.now result }
    ensures done { IfOk result (λ d. d ≡ done) }
    ensures cpu_kept { OnErr result (cpu.new ≡ cpu.old) }
{
    let target = load(m, cpu.regs[4], 8)?;
    let sp = cpu.regs[4].wrapping_add(8);
    set_stack(&mut cpu.regs, sp);
    cpu.rip = target;
    Ok(done)
}

/// Calls the address in an operand.
#[inline(never)]
pub fn call_operand(
    cpu: &mut Cpu,
    m: &mut Memory,
    next: u64,
    rm: Rm,
    done: Done,
) -> Result<Done, CoreStop>
    requires { IsTrue (rm_ok rm) }
    ensures row { (s : BoundsState) → Does s cpu.old m.old (value_then (seen s cpu.old) next 64 rm (λ target. pushed (seen s cpu.old) next (moved done (seen s cpu.old) target))) cpu.new m.new result }
    ensures done { IfOk result (λ d. d ≡ done) }
    ensures cpu_kept { OnErr result (cpu.new ≡ cpu.old) }
    ensures memory_kept { OnErr result (m.new ≡ m.old) }
{
    let target = value_of(&cpu.regs, m, next, 64, rm)?;
    push(cpu, m, next, target, done)
}

/// Leads to the address in an operand.
#[inline(never)]
pub fn jump_operand(
    cpu: &mut Cpu,
    m: &Memory,
    next: u64,
    rm: Rm,
    done: Done,
) -> Result<Done, CoreStop>
    requires { IsTrue (rm_ok rm) }
    ensures row { (s : BoundsState) → Does s cpu.old m.now (value_then (seen s cpu.old) next 64 rm (λ target. Ends (moved done (seen s cpu.old) target))) cpu.new m.now result }
    ensures done { IfOk result (λ d. d ≡ done) }
    ensures cpu_kept { OnErr result (cpu.new ≡ cpu.old) }
{
    let target = value_of(&cpu.regs, m, next, 64, rm)?;
    go_to(cpu, target, done)
}

/// `syscall`: rcx gets the address of the next instruction and r11 the flags, which are 0.
#[inline(never)]
pub fn enter_service(cpu: &mut Cpu, next: u64)
    ensures { (s : BoundsState) → seen s cpu.new ≡ with_result (with_result (at_next (seen s cpu.old) next) 64 rcx next) 64 r11 0 }
{
    set_register(&mut cpu.regs, 64, Reg(1), next);
    set_register(&mut cpu.regs, 64, Reg(11), 0);
    cpu.rip = next;
}
