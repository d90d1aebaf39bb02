//! Which instructions are valid.

ghost use Rattle.std.specs.Prelude.{◌≡◌};
ghost use Rattle.x86_forms.specs.Fits.{fits_8, fits_16, fits_32, fits_count};
ghost use Rattle.x86_forms.specs.Validity.{valid_of, reg_ok, scale_ok, index_ok, base_ok, mem_ok, rm_ok, bnd_rm_ok, bnd_ok, is_not_rip, has_base_reg, word_ok, width_ok, narrow_ok, condition_ok, imm_ok, mov_imm_ok};

use crate::instr::{Base, Instr, Mem, Reg, Rm};

fn is_reg(r: Reg) -> bool
    ensures { result ≡ reg_ok r }
{
    r.0 < 16
}

fn is_bnd(b: u8) -> bool
    ensures { result ≡ bnd_ok b }
{
    b < 4
}

fn is_scale(s: u8) -> bool
    ensures { result ≡ scale_ok s }
{
    s == 1 || s == 2 || s == 4 || s == 8
}

fn is_index(index: Option<(Reg, u8)>) -> bool
    ensures { result ≡ index_ok index }
{
    match index {
        None => true,
        Some((r, s)) => r.0 < 16 && r.0 != 4 && is_scale(s),
    }
}

fn is_base(base: Base, index: Option<(Reg, u8)>) -> bool
    ensures { result ≡ base_ok base index }
{
    match base {
        Base::None => true,
        Base::Reg(r) => r.0 < 16,
        Base::Rip => index.is_none(),
    }
}

fn is_mem(m: Mem) -> bool
    ensures { result ≡ mem_ok m }
{
    is_base(m.base, m.index) && is_index(m.index)
}

fn is_rm(rm: Rm) -> bool
    ensures { result ≡ rm_ok rm }
{
    match rm {
        Rm::Reg(r) => r.0 < 16,
        Rm::Mem(m) => is_mem(m),
    }
}

fn is_bnd_rm(rm: Rm) -> bool
    ensures { result ≡ bnd_rm_ok rm }
{
    match rm {
        Rm::Reg(r) => r.0 < 4,
        Rm::Mem(m) => is_mem(m),
    }
}

fn is_base_not_rip(base: Base) -> bool
    ensures { result ≡ is_not_rip base }
{
    !matches!(base, Base::Rip)
}

fn is_base_reg(base: Base) -> bool
    ensures { result ≡ has_base_reg base }
{
    matches!(base, Base::Reg(_))
}

fn is_word(w: u8) -> bool
    ensures { result ≡ word_ok w }
{
    w == 32 || w == 64
}

fn is_width(w: u8) -> bool
    ensures { result ≡ width_ok w }
{
    w == 8 || w == 16 || w == 32 || w == 64
}

fn is_narrow(w: u8) -> bool
    ensures { result ≡ narrow_ok w }
{
    w == 8 || w == 16
}

fn is_condition(op: u8) -> bool
    ensures { result ≡ condition_ok op }
{
    op < 16 && op != 10 && op != 11
}

fn has_32(z: i64) -> bool
    ensures { result ≡ fits_32 z }
{
    i32::try_from(z).is_ok()
}

/// The type of a target holds nothing else.
fn is_rel(_rel: i32) -> bool
    ensures { result ≡ fits_32 _rel }
{
    true
}

fn is_imm(w: u8, imm: i64) -> bool
    ensures { result ≡ imm_ok w imm }
{
    if w == 8 {
        i8::try_from(imm).is_ok()
    } else if w == 16 {
        i16::try_from(imm).is_ok()
    } else {
        has_32(imm)
    }
}

fn is_mov_imm(w: u8, imm: i64) -> bool
    ensures { result ≡ mov_imm_ok w imm }
{
    w != 32 || has_32(imm)
}

fn is_count(imm: i64) -> bool
    ensures { result ≡ fits_count imm }
{
    u8::try_from(imm).is_ok()
}

/// Whether the instruction is valid: its operands are of its form. Exactly the valid instructions have a spelling.
pub fn valid(i: &Instr) -> bool
    ensures { result ≡ valid_of i.now }
{
    match *i {
        Instr::MovTo { w, r, rm } => is_width(w) && is_reg(r) && is_rm(rm),
        Instr::MovFrom { w, r, m } => is_width(w) && is_reg(r) && is_mem(m),
        Instr::MovMemImm { w, m, imm } => is_width(w) && is_mem(m) && is_imm(w, imm),
        Instr::MovImm { w, r, imm } => is_word(w) && is_reg(r) && is_mov_imm(w, imm),
        Instr::Movsxd { r, rm } => is_reg(r) && is_rm(rm),
        Instr::Movzx { from, r, rm } => is_narrow(from) && is_reg(r) && is_rm(rm),
        Instr::Movsx { w, from, r, rm } => is_word(w) && is_narrow(from) && is_reg(r) && is_rm(rm),
        Instr::Lea { r, m } => is_reg(r) && is_mem(m),
        Instr::AluTo { op, w, r, rm } => op < 6 && is_word(w) && is_reg(r) && is_rm(rm),
        Instr::AluFrom { op, w, r, m } => op < 6 && is_word(w) && is_reg(r) && is_mem(m),
        Instr::AluImm { op, w, rm, imm } => op < 6 && is_word(w) && is_rm(rm) && has_32(imm),
        Instr::Test { w, r, rm } => is_word(w) && is_reg(r) && is_rm(rm),
        Instr::Imul { w, r, rm } => is_word(w) && is_reg(r) && is_rm(rm),
        Instr::One { op, w, rm } => op < 4 && is_word(w) && is_rm(rm),
        Instr::Wide { w } => is_word(w),
        Instr::ShiftCl { op, w, rm } => op < 3 && is_word(w) && is_rm(rm),
        Instr::ShiftImm { op, w, rm, imm } => op < 3 && is_word(w) && is_rm(rm) && is_count(imm),
        Instr::Set { op, rm } => is_condition(op) && is_rm(rm),
        Instr::Push { r } => is_reg(r),
        Instr::Pop { r } => is_reg(r),
        Instr::CallRel { rel, .. } => is_rel(rel),
        Instr::JmpRel { rel, .. } => is_rel(rel),
        Instr::CallRm { rm, .. } => is_rm(rm),
        Instr::JmpRm { rm, .. } => is_rm(rm),
        Instr::Jcc { op, rel, .. } => is_condition(op) && is_rel(rel),
        Instr::Ret { .. } => true,
        Instr::Syscall => true,
        Instr::Ud2 => true,
        Instr::Nop => true,
        Instr::Bndmk { b, m } => is_bnd(b) && is_mem(m) && is_base_not_rip(m.base),
        Instr::Bndcl { b, rm } => is_bnd(b) && is_rm(rm),
        Instr::Bndcu { b, rm } => is_bnd(b) && is_rm(rm),
        Instr::Bndcn { b, rm } => is_bnd(b) && is_rm(rm),
        Instr::BndmovTo { b, m } => is_bnd(b) && is_mem(m),
        Instr::BndmovFrom { b, rm } => is_bnd(b) && is_bnd_rm(rm),
        Instr::Bndldx { b, m } => is_bnd(b) && is_mem(m) && is_base_reg(m.base),
        Instr::Bndstx { b, m } => is_bnd(b) && is_mem(m) && is_base_reg(m.base),
    }
}
