//! The parts of the bytes of each instruction.

ghost use Rattle.std.specs.Prelude.{◌≡◌, ◌<◌, IsTrue, if◌then◌else◌};
ghost use Rattle.x86_forms.specs.Fits.{fits_8, fits_32};
ghost use Rattle.x86_forms.specs.Layout.{layout_of, one_byte, two_byte, with_imm, size_prefix, bnd_prefix, alu_digit, one_digit, shift_digit, mov_imm_len, mov_imm, alu_imm, operands};
ghost use Rattle.x86_forms.specs.Validity.{valid_of};

use x86_forms::{Instr, Layout, Operands, Reg, Rm};

fn one_byte_of(prefix: u8, wide: bool, opcode: u8, ops: Operands) -> Layout
    ensures { result ≡ one_byte prefix wide opcode ops }
{
    Layout {
        prefix,
        wide,
        escape: false,
        opcode,
        operands: ops,
        imm: 0,
        imm_len: 0,
    }
}

fn two_byte_of(prefix: u8, wide: bool, opcode: u8, ops: Operands) -> Layout
    ensures { result ≡ two_byte prefix wide opcode ops }
{
    Layout {
        prefix,
        wide,
        escape: true,
        opcode,
        operands: ops,
        imm: 0,
        imm_len: 0,
    }
}

fn with_imm_of(layout: Layout, imm_len: u8, imm: i64) -> Layout
    ensures { result ≡ with_imm layout imm_len imm }
{
    Layout {
        imm,
        imm_len,
        ..layout
    }
}

fn size_prefix_of(w: u8) -> u8
    ensures { result ≡ size_prefix w }
{
    if w == 16 { 0x66 } else { 0 }
}

fn bnd_prefix_of(prefixed: bool) -> u8
    ensures { result ≡ bnd_prefix prefixed }
{
    if prefixed { 0xF2 } else { 0 }
}

fn has_8(imm: i64) -> bool
    ensures { result ≡ fits_8 imm }
{
    i8::try_from(imm).is_ok()
}

fn has_32(imm: i64) -> bool
    ensures { result ≡ fits_32 imm }
{
    i32::try_from(imm).is_ok()
}

fn alu_digit_of(op: u8) -> u8
    ensures value { result ≡ alu_digit op }
    ensures small { result < 8 }
{
    match op {
        0 => 0,
        1 => 1,
        2 => 4,
        3 => 5,
        4 => 6,
        _ => 7,
    }
}

fn one_digit_of(op: u8) -> u8
    ensures { result ≡ one_digit op }
{
    match op {
        0 => 2,
        1 => 3,
        2 => 6,
        _ => 7,
    }
}

fn shift_digit_of(op: u8) -> u8
    ensures { result ≡ shift_digit op }
{
    match op {
        0 => 4,
        1 => 5,
        _ => 7,
    }
}

fn mov_imm_len_of(w: u8) -> u8
    ensures { result ≡ mov_imm_len w }
{
    match w {
        8 => 1,
        16 => 2,
        _ => 4,
    }
}

fn operands_of(reg: u8, rm: Rm) -> Operands
    ensures { result ≡ operands reg rm }
{
    Operands::InModrm {
        reg,
        low_reg: false,
        rm,
        low_rm: false,
    }
}

fn low_operands_of(reg: u8, low_reg: bool, rm: Rm, low_rm: bool) -> Operands
    ensures { result ≡ Operands.InModrm reg low_reg rm low_rm }
{
    Operands::InModrm {
        reg,
        low_reg,
        rm,
        low_rm,
    }
}

fn mov_imm_of(w: u8, r: u8, imm: i64) -> Layout
    ensures { result ≡ mov_imm w r imm }
{
    if w == 64 {
        if has_32(imm) {
            with_imm_of(
                one_byte_of(0, true, 0xC7, operands_of(0, Rm::Reg(Reg(r)))),
                4,
                imm,
            )
        } else {
            with_imm_of(one_byte_of(0, true, 0xB8, Operands::InOpcode(r)), 8, imm)
        }
    } else {
        with_imm_of(one_byte_of(0, false, 0xB8, Operands::InOpcode(r)), 4, imm)
    }
}

fn alu_imm_of(op: u8, w: u8, rm: Rm, imm: i64) -> Layout
    ensures { result ≡ alu_imm op w rm imm }
{
    let ops = operands_of(alu_digit_of(op), rm);
    if has_8(imm) {
        with_imm_of(one_byte_of(0, w == 64, 0x83, ops), 1, imm)
    } else {
        with_imm_of(one_byte_of(0, w == 64, 0x81, ops), 4, imm)
    }
}

/// The first opcode is that of 8 bits.
fn opcode_of(byte: bool, of_byte: u8, of_others: u8) -> u8
    ensures { result ≡ (if byte then of_byte else of_others) }
{
    if byte { of_byte } else { of_others }
}

/// The parts of the instruction's bytes.
pub fn lay_out(i: &Instr) -> Layout
    requires { IsTrue (valid_of i.now) }
    ensures { result ≡ layout_of i.now }
{
    match *i {
        Instr::MovTo { w, r, rm } => one_byte_of(
            size_prefix_of(w),
            w == 64,
            opcode_of(w == 8, 0x88, 0x89),
            low_operands_of(r.0, w == 8, rm, w == 8),
        ),
        Instr::MovFrom { w, r, m } => one_byte_of(
            size_prefix_of(w),
            w == 64,
            opcode_of(w == 8, 0x8A, 0x8B),
            low_operands_of(r.0, w == 8, Rm::Mem(m), false),
        ),
        Instr::MovMemImm { w, m, imm } => with_imm_of(
            one_byte_of(
                size_prefix_of(w),
                w == 64,
                opcode_of(w == 8, 0xC6, 0xC7),
                operands_of(0, Rm::Mem(m)),
            ),
            mov_imm_len_of(w),
            imm,
        ),
        Instr::MovImm { w, r, imm } => mov_imm_of(w, r.0, imm),
        Instr::Movsxd { r, rm } => one_byte_of(0, true, 0x63, operands_of(r.0, rm)),
        Instr::Movzx { from, r, rm } => two_byte_of(
            0,
            false,
            opcode_of(from == 8, 0xB6, 0xB7),
            low_operands_of(r.0, false, rm, from == 8),
        ),
        Instr::Movsx { w, from, r, rm } => two_byte_of(
            0,
            w == 64,
            opcode_of(from == 8, 0xBE, 0xBF),
            low_operands_of(r.0, false, rm, from == 8),
        ),
        Instr::Lea { r, m } => one_byte_of(0, true, 0x8D, operands_of(r.0, Rm::Mem(m))),
        Instr::AluTo { op, w, r, rm } => one_byte_of(
            0,
            w == 64,
            8 * alu_digit_of(op) + 1,
            operands_of(r.0, rm),
        ),
        Instr::AluFrom { op, w, r, m } => one_byte_of(
            0,
            w == 64,
            8 * alu_digit_of(op) + 3,
            operands_of(r.0, Rm::Mem(m)),
        ),
        Instr::AluImm { op, w, rm, imm } => alu_imm_of(op, w, rm, imm),
        Instr::Test { w, r, rm } => one_byte_of(0, w == 64, 0x85, operands_of(r.0, rm)),
        Instr::Imul { w, r, rm } => two_byte_of(0, w == 64, 0xAF, operands_of(r.0, rm)),
        Instr::One { op, w, rm } => one_byte_of(
            0,
            w == 64,
            0xF7,
            operands_of(one_digit_of(op), rm),
        ),
        Instr::Wide { w } => one_byte_of(0, w == 64, 0x99, Operands::Bare),
        Instr::ShiftCl { op, w, rm } => one_byte_of(
            0,
            w == 64,
            0xD3,
            operands_of(shift_digit_of(op), rm),
        ),
        Instr::ShiftImm { op, w, rm, imm } => with_imm_of(
            one_byte_of(0, w == 64, 0xC1, operands_of(shift_digit_of(op), rm)),
            1,
            imm,
        ),
        Instr::Set { op, rm } => two_byte_of(
            0,
            false,
            0x90 + op,
            low_operands_of(0, false, rm, true),
        ),
        Instr::Push { r } => one_byte_of(0, false, 0x50, Operands::InOpcode(r.0)),
        Instr::Pop { r } => one_byte_of(0, false, 0x58, Operands::InOpcode(r.0)),
        Instr::CallRel { prefixed, rel } => with_imm_of(
            one_byte_of(bnd_prefix_of(prefixed), false, 0xE8, Operands::Bare),
            4,
            i64::from(rel),
        ),
        Instr::JmpRel { prefixed, rel } => with_imm_of(
            one_byte_of(bnd_prefix_of(prefixed), false, 0xE9, Operands::Bare),
            4,
            i64::from(rel),
        ),
        Instr::CallRm { prefixed, rm } => one_byte_of(
            bnd_prefix_of(prefixed),
            false,
            0xFF,
            operands_of(2, rm),
        ),
        Instr::JmpRm { prefixed, rm } => one_byte_of(
            bnd_prefix_of(prefixed),
            false,
            0xFF,
            operands_of(4, rm),
        ),
        Instr::Jcc { prefixed, op, rel } => with_imm_of(
            two_byte_of(bnd_prefix_of(prefixed), false, 0x80 + op, Operands::Bare),
            4,
            i64::from(rel),
        ),
        Instr::Ret { prefixed } => one_byte_of(
            bnd_prefix_of(prefixed),
            false,
            0xC3,
            Operands::Bare,
        ),
        Instr::Syscall => two_byte_of(0, false, 0x05, Operands::Bare),
        Instr::Ud2 => two_byte_of(0, false, 0x0B, Operands::Bare),
        Instr::Nop => one_byte_of(0, false, 0x90, Operands::Bare),
        Instr::Bndmk { b, m } => two_byte_of(0xF3, false, 0x1B, operands_of(b, Rm::Mem(m))),
        Instr::Bndcl { b, rm } => two_byte_of(0xF3, false, 0x1A, operands_of(b, rm)),
        Instr::Bndcu { b, rm } => two_byte_of(0xF2, false, 0x1A, operands_of(b, rm)),
        Instr::Bndcn { b, rm } => two_byte_of(0xF2, false, 0x1B, operands_of(b, rm)),
        Instr::BndmovTo { b, m } => two_byte_of(0x66, false, 0x1B, operands_of(b, Rm::Mem(m))),
        Instr::BndmovFrom { b, rm } => two_byte_of(0x66, false, 0x1A, operands_of(b, rm)),
        Instr::Bndldx { b, m } => two_byte_of(0, false, 0x1A, operands_of(b, Rm::Mem(m))),
        Instr::Bndstx { b, m } => two_byte_of(0, false, 0x1B, operands_of(b, Rm::Mem(m))),
    }
}
