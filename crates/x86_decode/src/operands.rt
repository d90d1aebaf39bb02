//! ModRM and SIB.

ghost use Rattle.std.specs.Prelude.{◌≡◌, ◌<◌};
ghost use Rattle.x86_decode.specs.Steps.{done, over, no_base, modrm_reg, modrm_mem, modrm_step, scale_of, sib_base, sib_step};

use crate::fields::{agrees, b_of, is_low_code, r_of, x_of};
use crate::row_facts::{
    allows_no_base_row, allows_rip_row, has_low_reg, has_low_rm, imm_length, instr_of, takes_code,
    takes_register,
};
use crate::rows::Row;
use crate::states::{Head, Next, State};
use x86_forms::{Base, Mem, Reg, Rm};

/// The operands in registers and memory have been read.
#[tactic(auto, unfolding(crate::specs::Steps::done))]
pub fn after_operands(head: Head, row: Row, reg: u8, rm: Rm) -> Next
    ensures { result ≡ done head row reg rm }
{
    if imm_length(row) == 0 {
        Next::End(instr_of(row, reg, rm, 0))
    } else {
        Next::Go(State::Imm {
            head,
            row,
            reg,
            rm,
            have: 0,
            bytes: [0; 8],
        })
    }
}

#[tactic(auto, unfolding(crate::specs::Steps::over))]
fn over_base(head: Head, row: Row, reg: u8, mode: u8, r: u8, index: Option<(Reg, u8)>) -> Next
    ensures { result ≡ over head row reg mode r index }
{
    let base = Base::Reg(Reg(r));
    if mode == 0 {
        after_operands(
            head,
            row,
            reg,
            Rm::Mem(Mem {
                base,
                index,
                disp: 0,
            }),
        )
    } else {
        Next::Go(State::Disp {
            head,
            row,
            reg,
            mode,
            base,
            index,
            free: mode == 1 && r % 8 == 5,
            have: 0,
            bytes: [0; 4],
        })
    }
}

/// A displacement of 32 bits with no base register follows.
#[tactic(auto, unfolding(crate::specs::Steps::no_base))]
fn over_no_base(head: Head, row: Row, reg: u8, base: Base, index: Option<(Reg, u8)>) -> Next
    ensures { result ≡ no_base head row reg base index }
{
    Next::Go(State::Disp {
        head,
        row,
        reg,
        mode: 0,
        base,
        index,
        free: true,
        have: 0,
        bytes: [0; 4],
    })
}

#[tactic(auto, unfolding(crate::specs::Steps::modrm_reg))]
fn register_operand(head: Head, row: Row, reg: u8, r: u8) -> Next
    ensures { result ≡ modrm_reg head row reg r }
{
    let low = has_low_reg(row) && is_low_code(reg) || has_low_rm(row) && is_low_code(r);
    if x_of(head.rex) == 0 && takes_register(row, r) && agrees(head.rex, low) {
        after_operands(head, row, reg, Rm::Reg(Reg(r)))
    } else {
        Next::Dead
    }
}

#[tactic(auto, unfolding(crate::specs::Steps::modrm_mem))]
fn memory_operand(head: Head, row: Row, reg: u8, modrm: u8) -> Next
    ensures { result ≡ modrm_mem head row reg modrm }
{
    if !agrees(head.rex, has_low_reg(row) && is_low_code(reg)) {
        Next::Dead
    } else if modrm % 8 == 4 {
        Next::Go(State::Sib(head, row, modrm))
    } else if x_of(head.rex) == 1 {
        Next::Dead
    } else if modrm / 64 == 0 && modrm % 8 == 5 {
        if b_of(head.rex) == 0 && allows_rip_row(row) {
            over_no_base(head, row, reg, Base::Rip, None)
        } else {
            Next::Dead
        }
    } else {
        over_base(
            head,
            row,
            reg,
            modrm / 64,
            modrm % 8 + 8 * b_of(head.rex),
            None,
        )
    }
}

#[tactic(auto, unfolding(crate::specs::Steps::modrm_step))]
pub fn step_modrm(head: Head, row: Row, b: u8) -> Next
    ensures { result ≡ modrm_step head row b }
{
    let reg = b / 8 % 8 + 8 * r_of(head.rex);
    if !takes_code(row, b / 8 % 8) {
        Next::Dead
    } else if b / 64 == 3 {
        register_operand(head, row, reg, b % 8 + 8 * b_of(head.rex))
    } else {
        memory_operand(head, row, reg, b)
    }
}

fn scale(code: u8) -> u8
    ensures { result ≡ scale_of code }
{
    match code {
        0 => 1,
        1 => 2,
        2 => 4,
        _ => 8,
    }
}

#[tactic(auto, unfolding(crate::specs::Steps::sib_base))]
fn base_of_sib(head: Head, row: Row, modrm: u8, low: u8, index: Option<(Reg, u8)>) -> Next
    requires { low < 8 }
    ensures { result ≡ sib_base head row modrm low index }
{
    let reg = modrm / 8 % 8 + 8 * r_of(head.rex);
    if modrm / 64 == 0 && low == 5 {
        if b_of(head.rex) == 0 && allows_no_base_row(row) {
            over_no_base(head, row, reg, Base::None, index)
        } else {
            Next::Dead
        }
    } else if index.is_none() && low != 4 {
        Next::Dead
    } else {
        over_base(head, row, reg, modrm / 64, low + 8 * b_of(head.rex), index)
    }
}

#[tactic(auto, unfolding(crate::specs::Steps::sib_step))]
pub fn step_sib(head: Head, row: Row, modrm: u8, b: u8) -> Next
    ensures { result ≡ sib_step head row modrm b }
{
    let x = b / 8 % 8 + 8 * x_of(head.rex);
    if x != 4 {
        base_of_sib(head, row, modrm, b % 8, Some((Reg(x), scale(b / 64))))
    } else if b / 64 == 0 {
        base_of_sib(head, row, modrm, b % 8, None)
    } else {
        Next::Dead
    }
}
