//! Which accesses of instrumented code are made for C.
ghost use Rattle.std.specs.Prelude.{◌≡◌};
ghost use Rattle.x86_forms.specs.Watch.{memory_of, operand_of, is_c_base, is_c_operand, is_c_access};

use x86_forms::{Base, Instr, Mem, Rm, Span};

#[inline(always)]
fn in_memory(rm: Rm) -> Option<Mem>
    ensures { result ≡ memory_of rm }
{
    match rm {
        Rm::Reg(_) => None,
        Rm::Mem(m) => Some(m),
    }
}

/// The memory operand of an instruction.
#[inline(always)]
fn operand(i: &Instr) -> Option<Mem>
    ensures { result ≡ operand_of i.now }
{
    match *i {
        Instr::MovTo { rm, .. } => in_memory(rm),
        Instr::MovFrom { m, .. } => Some(m),
        Instr::MovMemImm { m, .. } => Some(m),
        Instr::Movsxd { rm, .. } => in_memory(rm),
        Instr::Movzx { rm, .. } => in_memory(rm),
        Instr::Movsx { rm, .. } => in_memory(rm),
        Instr::Lea { m, .. } => Some(m),
        Instr::AluTo { rm, .. } => in_memory(rm),
        Instr::AluFrom { m, .. } => Some(m),
        Instr::AluImm { rm, .. } => in_memory(rm),
        Instr::Test { rm, .. } => in_memory(rm),
        Instr::Imul { rm, .. } => in_memory(rm),
        Instr::One { rm, .. } => in_memory(rm),
        Instr::ShiftCl { rm, .. } => in_memory(rm),
        Instr::ShiftImm { rm, .. } => in_memory(rm),
        Instr::Set { rm, .. } => in_memory(rm),
        Instr::CallRm { rm, .. } => in_memory(rm),
        Instr::JmpRm { rm, .. } => in_memory(rm),
        Instr::Bndmk { m, .. } => Some(m),
        Instr::Bndcl { rm, .. } => in_memory(rm),
        Instr::Bndcu { rm, .. } => in_memory(rm),
        Instr::Bndcn { rm, .. } => in_memory(rm),
        Instr::BndmovTo { m, .. } => Some(m),
        Instr::BndmovFrom { rm, .. } => in_memory(rm),
        Instr::Bndldx { m, .. } => Some(m),
        Instr::Bndstx { m, .. } => Some(m),
        _ => None,
    }
}

/// By rsp, which is register 4, the code reaches its own frame; without a base register, or from rip, the cells.
#[inline(always)]
fn is_base_of_c(base: Base) -> bool
    ensures { result ≡ is_c_base base }
{
    match base {
        Base::None => false,
        Base::Reg(r) => r.0 != 4,
        Base::Rip => false,
    }
}

#[inline(always)]
fn is_operand_of_c(m: Option<Mem>) -> bool
    ensures { result ≡ is_c_operand m }
{
    match m {
        None => false,
        Some(m) => is_base_of_c(m.base),
    }
}

/// Whether an access of an instruction of instrumented code is one that it makes for C.
#[tactic(auto, unfolding(x86_forms::specs::Watch::is_c_access))]
#[inline(always)]
pub fn is_for_c(i: &Instr, s: Span) -> bool
    ensures { result ≡ is_c_access i.now s }
{
    !s.implicit && is_operand_of_c(operand(i))
}
