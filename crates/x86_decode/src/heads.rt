//! Prefix, REX, 0F and opcode.

ghost use Rattle.std.specs.Prelude.{◌≡◌};
ghost use Rattle.x86_decode.specs.Steps.{key_of, live_rex, begin, opcode_step, after_prefix, escape_or_opcode};

use crate::fields::{b_of, r_of, w_of, x_of};
use crate::operands::after_operands;
use crate::row_facts::{has_low_reg, has_low_rm, has_register, is_bare_row, is_in_opcode_row};
use crate::rows::{Row, row_at};
use crate::states::{Head, Next, State};
use x86_forms::{Reg, Rm};

/// The opcode without the register that it holds.
fn key(escape: bool, opcode: u8) -> u8
    ensures { result ≡ key_of escape opcode }
{
    if escape {
        opcode
    } else if opcode / 8 == 10 {
        0x50
    } else if opcode / 8 == 11 {
        0x58
    } else if opcode / 8 == 23 {
        0xB8
    } else {
        opcode
    }
}

#[tactic(auto, unfolding(crate::specs::Steps::begin))]
fn begin_row(head: Head, row: Row) -> Next
    ensures { result ≡ begin head row }
{
    if is_bare_row(row) {
        if head.rex == 0 || head.rex == 0x48 {
            after_operands(head, row, 0, Rm::Reg(Reg(0)))
        } else {
            Next::Dead
        }
    } else if is_in_opcode_row(row) {
        if r_of(head.rex) == 0 && x_of(head.rex) == 0 && head.rex != 0x40 {
            after_operands(
                head,
                row,
                head.opcode % 8 + 8 * b_of(head.rex),
                Rm::Reg(Reg(0)),
            )
        } else {
            Next::Dead
        }
    } else if (r_of(head.rex) == 0 || has_register(row))
        && (head.rex != 0x40 || has_low_reg(row) || has_low_rm(row))
    {
        Next::Go(State::ModRm(head, row))
    } else {
        Next::Dead
    }
}

#[tactic(auto, unfolding(crate::specs::Steps::opcode_step))]
pub fn step_opcode(prefix: u8, rex: u8, escape: bool, opcode: u8) -> Next
    ensures { result ≡ opcode_step prefix rex escape opcode }
{
    match row_at(prefix, w_of(rex), escape, key(escape, opcode)) {
        None => Next::Dead,
        Some(row) => begin_row(
            Head {
                prefix,
                rex,
                escape,
                opcode,
            },
            row,
        ),
    }
}

#[tactic(auto, unfolding(crate::specs::Steps::escape_or_opcode))]
pub fn step_rex(prefix: u8, rex: u8, b: u8) -> Next
    ensures { result ≡ escape_or_opcode prefix rex b }
{
    if b == 0x0F {
        if prefix != 0x66 || r_of(rex) == 0 {
            Next::Go(State::Escape(prefix, rex))
        } else {
            Next::Dead
        }
    } else {
        step_opcode(prefix, rex, false, b)
    }
}

/// Some instruction has this REX byte behind the prefix.
fn is_live_rex(prefix: u8, rex: u8) -> bool
    ensures { result ≡ live_rex prefix rex }
{
    match prefix {
        0 => true,
        0x66 => rex < 0x48 && rex != 0x40,
        _ => rex < 0x44 && rex != 0x40,
    }
}

#[tactic(auto, unfolding(crate::specs::Steps::after_prefix))]
pub fn step_prefix(prefix: u8, b: u8) -> Next
    ensures { result ≡ after_prefix prefix b }
{
    if b / 16 == 4 {
        if is_live_rex(prefix, b) {
            Next::Go(State::Rex(prefix, b))
        } else {
            Next::Dead
        }
    } else {
        step_rex(prefix, 0, b)
    }
}
