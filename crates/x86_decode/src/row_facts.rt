//! What a row says of its operands, and the instruction of a row.

ghost use Rattle.std.specs.Prelude.{◌≡◌, ◌≤◌, IsTrue};
ghost use Rattle.x86_decode.specs.Rows.{build, takes, digit_alu, digit_one, digit_shift, imm_len, any_reg, takes_reg, low_in_reg, low_in_rm, is_bare, is_in_opcode, build_mem, build_rel, rel_fits, allows_rip, allows_no_base};

use crate::rows::Row;
use x86_forms::{Instr, Mem, Reg, Rm};

/// The opcode says all, but for an immediate.
#[tactic(auto, unfolding(crate::specs::Rows::is_bare))]
pub fn is_bare_row(row: Row) -> bool
    ensures { result ≡ is_bare row }
{
    matches!(
        row,
        Row::Wide(_)
            | Row::Ret(_)
            | Row::Syscall
            | Row::Ud2
            | Row::Nop
            | Row::CallRel(_)
            | Row::JmpRel(_)
            | Row::Jcc(..)
    )
}

/// A register stands in the low three bits of the opcode.
#[tactic(auto, unfolding(crate::specs::Rows::is_in_opcode))]
pub fn is_in_opcode_row(row: Row) -> bool
    ensures { result ≡ is_in_opcode row }
{
    matches!(row, Row::Push | Row::Pop | Row::MovImm(_))
}

/// The bytes of the immediate.
#[tactic(auto, unfolding(crate::specs::Rows::imm_len))]
pub fn imm_length(row: Row) -> u8
    ensures value { result ≡ imm_len row }
    ensures small { result ≤ 8 }
{
    match row {
        Row::MovMem(8) => 1,
        Row::MovMem(16) => 2,
        Row::MovMem(_) => 4,
        Row::MovImm(64) => 8,
        Row::MovImm(_) => 4,
        Row::AluImm(_, long) => if long { 4 } else { 1 },
        Row::ShiftImm(_) => 1,
        Row::CallRel(_) => 4,
        Row::JmpRel(_) => 4,
        Row::Jcc(..) => 4,
        _ => 0,
    }
}

/// The reg field of ModRM is a register, so that REX.R may be set.
#[tactic(auto, unfolding(crate::specs::Rows::any_reg))]
pub fn has_register(row: Row) -> bool
    ensures { result ≡ any_reg row }
{
    matches!(
        row,
        Row::MovTo(_)
            | Row::MovFrom(_)
            | Row::Movsxd
            | Row::Movzx(_)
            | Row::Movsx(..)
            | Row::Lea
            | Row::AluTo(..)
            | Row::AluFrom(..)
            | Row::Test(_)
            | Row::Imul(_)
    )
}

/// The three bits of the reg field are a digit or a bounds register of this row.
#[tactic(auto, unfolding(crate::specs::Rows::takes))]
pub fn takes_code(row: Row, g: u8) -> bool
    ensures { result ≡ takes row g }
{
    match row {
        Row::MovMem(_) => g == 0,
        Row::AluImm(..) => g != 2 && g != 3,
        Row::One(_) => g == 2 || g == 3 || g == 6 || g == 7,
        Row::ShiftCl(_) => g == 4 || g == 5 || g == 7,
        Row::ShiftImm(_) => g == 4 || g == 5 || g == 7,
        Row::Set(_) => g == 0,
        Row::Ff(_) => g == 2 || g == 4,
        Row::Bndmk
        | Row::Bndcl
        | Row::Bndcu
        | Row::Bndcn
        | Row::BndmovTo
        | Row::BndmovFrom
        | Row::Bndldx
        | Row::Bndstx => g < 4,
        _ => true,
    }
}

/// The operand may be this register.
#[tactic(auto, unfolding(crate::specs::Rows::takes_reg))]
pub fn takes_register(row: Row, r: u8) -> bool
    ensures { result ≡ takes_reg row r }
{
    match row {
        Row::MovMem(w) => w == 64,
        Row::BndmovFrom => r < 4,
        Row::MovFrom(_)
        | Row::Lea
        | Row::AluFrom(..)
        | Row::Bndmk
        | Row::BndmovTo
        | Row::Bndldx
        | Row::Bndstx => false,
        _ => true,
    }
}

/// The reg field is a register of 8 bits.
#[tactic(auto, unfolding(crate::specs::Rows::low_in_reg))]
pub fn has_low_reg(row: Row) -> bool
    ensures { result ≡ low_in_reg row }
{
    match row {
        Row::MovTo(w) => w == 8,
        Row::MovFrom(w) => w == 8,
        _ => false,
    }
}

/// The operand is of 8 bits.
#[tactic(auto, unfolding(crate::specs::Rows::low_in_rm))]
pub fn has_low_rm(row: Row) -> bool
    ensures { result ≡ low_in_rm row }
{
    match row {
        Row::MovTo(w) => w == 8,
        Row::Movzx(f) => f == 8,
        Row::Movsx(_, f) => f == 8,
        Row::Set(_) => true,
        _ => false,
    }
}

/// The operand may be relative to rip.
#[tactic(auto, unfolding(crate::specs::Rows::allows_rip))]
pub fn allows_rip_row(row: Row) -> bool
    ensures { result ≡ allows_rip row }
{
    !matches!(row, Row::Bndmk | Row::Bndldx | Row::Bndstx)
}

/// The operand may have no base register.
#[tactic(auto, unfolding(crate::specs::Rows::allows_no_base))]
pub fn allows_no_base_row(row: Row) -> bool
    ensures { result ≡ allows_no_base row }
{
    !matches!(row, Row::Bndldx | Row::Bndstx)
}

fn alu_of(g: u8) -> u8
    ensures { result ≡ digit_alu g }
{
    match g {
        0 => 0,
        1 => 1,
        4 => 2,
        5 => 3,
        6 => 4,
        _ => 5,
    }
}

fn one_of(g: u8) -> u8
    ensures { result ≡ digit_one g }
{
    match g {
        2 => 0,
        3 => 1,
        6 => 2,
        _ => 3,
    }
}

fn shift_of(g: u8) -> u8
    ensures { result ≡ digit_shift g }
{
    match g {
        4 => 0,
        5 => 1,
        _ => 2,
    }
}

fn with_mem(row: Row, g: u8, m: Mem) -> Instr
    ensures { result ≡ build_mem row g m }
{
    match row {
        Row::MovFrom(w) => Instr::MovFrom { w, r: Reg(g), m },
        Row::Lea => Instr::Lea { r: Reg(g), m },
        Row::AluFrom(op, w) => Instr::AluFrom {
            op,
            w,
            r: Reg(g),
            m,
        },
        Row::Bndmk => Instr::Bndmk { b: g, m },
        Row::BndmovTo => Instr::BndmovTo { b: g, m },
        Row::Bndldx => Instr::Bndldx { b: g, m },
        Row::Bndstx => Instr::Bndstx { b: g, m },
        _ => Instr::Nop,
    }
}

fn with_rel(row: Row, rel: i32) -> Instr
    ensures { result ≡ build_rel row rel }
{
    match row {
        Row::CallRel(prefixed) => Instr::CallRel { prefixed, rel },
        Row::JmpRel(prefixed) => Instr::JmpRel { prefixed, rel },
        Row::Jcc(prefixed, op) => Instr::Jcc { prefixed, op, rel },
        _ => Instr::Nop,
    }
}

/// The instruction of a row.
#[tactic(auto, unfolding(crate::specs::Rows::build))]
pub fn instr_of(row: Row, g: u8, rm: Rm, imm: i64) -> Instr
    requires { IsTrue (rel_fits row imm) }
    ensures { result ≡ build row g rm imm }
{
    match row {
        Row::MovTo(w) => Instr::MovTo { w, r: Reg(g), rm },
        Row::MovMem(w) => match rm {
            Rm::Reg(r) => Instr::MovImm { w, r, imm },
            Rm::Mem(m) => Instr::MovMemImm { w, m, imm },
        },
        Row::MovImm(w) => Instr::MovImm { w, r: Reg(g), imm },
        Row::Movsxd => Instr::Movsxd { r: Reg(g), rm },
        Row::Movzx(from) => Instr::Movzx {
            from,
            r: Reg(g),
            rm,
        },
        Row::Movsx(w, from) => Instr::Movsx {
            w,
            from,
            r: Reg(g),
            rm,
        },
        Row::AluTo(op, w) => Instr::AluTo {
            op,
            w,
            r: Reg(g),
            rm,
        },
        Row::AluImm(w, _) => Instr::AluImm {
            op: alu_of(g),
            w,
            rm,
            imm,
        },
        Row::Test(w) => Instr::Test { w, r: Reg(g), rm },
        Row::Imul(w) => Instr::Imul { w, r: Reg(g), rm },
        Row::One(w) => Instr::One {
            op: one_of(g),
            w,
            rm,
        },
        Row::Wide(w) => Instr::Wide { w },
        Row::ShiftCl(w) => Instr::ShiftCl {
            op: shift_of(g),
            w,
            rm,
        },
        Row::ShiftImm(w) => Instr::ShiftImm {
            op: shift_of(g),
            w,
            rm,
            imm,
        },
        Row::Set(op) => Instr::Set { op, rm },
        Row::Push => Instr::Push { r: Reg(g) },
        Row::Pop => Instr::Pop { r: Reg(g) },
        Row::Ff(prefixed) => if g == 2 {
            Instr::CallRm { prefixed, rm }
        } else {
            Instr::JmpRm { prefixed, rm }
        },
        Row::Ret(prefixed) => Instr::Ret { prefixed },
        Row::Syscall => Instr::Syscall,
        Row::Ud2 => Instr::Ud2,
        Row::Nop => Instr::Nop,
        Row::Bndcl => Instr::Bndcl { b: g, rm },
        Row::Bndcu => Instr::Bndcu { b: g, rm },
        Row::Bndcn => Instr::Bndcn { b: g, rm },
        Row::BndmovFrom => Instr::BndmovFrom { b: g, rm },
        Row::CallRel(_) | Row::JmpRel(_) | Row::Jcc(..) => with_rel(row, imm as i32),
        Row::MovFrom(_)
        | Row::Lea
        | Row::AluFrom(..)
        | Row::Bndmk
        | Row::BndmovTo
        | Row::Bndldx
        | Row::Bndstx => match rm {
            Rm::Reg(_) => Instr::Nop,
            Rm::Mem(m) => with_mem(row, g, m),
        },
    }
}
