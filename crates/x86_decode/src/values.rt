//! Displacements and immediates.

ghost use Rattle.std.specs.Prelude.{◌≡◌, ◌≤◌, IsTrue};
ghost use Rattle.x86_forms.specs.Fits.{fits_8, fits_32};
ghost use Rattle.x86_decode.specs.Rows.{rel_fits};
ghost use Rattle.x86_decode.specs.Steps.{disp_len, disp_value, disp_fine, disp_end, signed, rel_value, imm_value, imm_fine, imm_end};

use crate::operands::after_operands;
use crate::row_facts::{imm_length, instr_of};
use crate::rows::Row;
use crate::states::{Head, Next};
use x86_forms::{Base, Mem, Reg, Rm};

fn has_8(z: i64) -> bool
    ensures { result ≡ fits_8 z }
{
    i8::try_from(z).is_ok()
}

fn has_32(z: i64) -> bool
    ensures { result ≡ fits_32 z }
{
    i32::try_from(z).is_ok()
}

/// The bytes of a displacement that is there.
pub fn disp_length(mode: u8) -> u8
    ensures value { result ≡ disp_len mode }
    ensures small { result ≤ 4 }
{
    if mode == 1 { 1 } else { 4 }
}

#[tactic(auto, unfolding(crate::specs::Steps::disp_value))]
fn displacement(mode: u8, bytes: [u8; 4]) -> i32
    ensures { result ≡ disp_value mode bytes }
{
    if mode == 1 {
        i32::from(i8::from_le_bytes([bytes[0]]))
    } else {
        i32::from_le_bytes(bytes)
    }
}

/// No shorter form has this displacement.
#[tactic(auto, unfolding(crate::specs::Steps::disp_fine, x86_forms::specs::Spelling::is_zero))]
fn is_disp_shortest(free: bool, mode: u8, disp: i32) -> bool
    ensures { result ≡ disp_fine free mode disp }
{
    if free {
        true
    } else if mode == 1 {
        disp != 0
    } else {
        !has_8(i64::from(disp))
    }
}

#[tactic(auto, unfolding(crate::specs::Steps::disp_end))]
pub fn end_disp(
    head: Head,
    row: Row,
    reg: u8,
    mode: u8,
    base: Base,
    index: Option<(Reg, u8)>,
    free: bool,
    bytes: [u8; 4],
) -> Next
    ensures { result ≡ disp_end head row reg mode base index free bytes }
{
    let disp = displacement(mode, bytes);
    if is_disp_shortest(free, mode, disp) {
        after_operands(head, row, reg, Rm::Mem(Mem { base, index, disp }))
    } else {
        Next::Dead
    }
}

#[tactic(auto, unfolding(crate::specs::Steps::signed))]
fn signed_of(n: u8, bytes: [u8; 8]) -> i64
    ensures { result ≡ signed n bytes }
{
    match n {
        1 => i64::from(i8::from_le_bytes([bytes[0]])),
        2 => i64::from(i16::from_le_bytes([bytes[0], bytes[1]])),
        4 => i64::from(i32::from_le_bytes([bytes[0], bytes[1], bytes[2], bytes[3]])),
        _ => i64::from_le_bytes(bytes),
    }
}

fn rel_of(bytes: [u8; 8]) -> i32
    ensures { result ≡ rel_value bytes }
{
    i32::from_le_bytes([bytes[0], bytes[1], bytes[2], bytes[3]])
}

#[tactic(auto, unfolding(crate::specs::Steps::imm_value))]
fn immediate(row: Row, bytes: [u8; 8]) -> i64
    ensures value { result ≡ imm_value row bytes }
    ensures rel { IsTrue (rel_fits row result) }
{
    match row {
        Row::ShiftImm(_) => i64::from(bytes[0]),
        Row::CallRel(_) => i64::from(rel_of(bytes)),
        Row::JmpRel(_) => i64::from(rel_of(bytes)),
        Row::Jcc(..) => i64::from(rel_of(bytes)),
        _ => signed_of(imm_length(row), bytes),
    }
}

/// No shorter form has this immediate.
#[tactic(auto, unfolding(crate::specs::Steps::imm_fine))]
fn is_imm_shortest(row: Row, imm: i64) -> bool
    ensures { result ≡ imm_fine row imm }
{
    match row {
        Row::AluImm(_, true) => !has_8(imm),
        Row::MovImm(64) => !has_32(imm),
        _ => true,
    }
}

#[tactic(auto, unfolding(crate::specs::Steps::imm_end))]
pub fn end_imm(row: Row, reg: u8, rm: Rm, bytes: [u8; 8]) -> Next
    ensures { result ≡ imm_end row reg rm bytes }
{
    let imm = immediate(row, bytes);
    if is_imm_shortest(row, imm) {
        Next::End(instr_of(row, reg, rm, imm))
    } else {
        Next::Dead
    }
}
