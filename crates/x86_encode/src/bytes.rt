//! The bytes of a layout, part after part.

ghost use Rattle.std.specs.Prelude.{◌≡◌, ◌≤◌, ◌<◌, ◌+◌, ◌++◌, IsTrue};
ghost use Rattle.arrayvec.specs.ArrayVec.{array_vec_len};
ghost use Rattle.x86_forms.specs.Spelling.{bytes_of, low_bytes, mod_of, disp_bytes, scale_code, modrm, sib, over_base, mem_bytes, rm_bytes, index_high, base_high, rm_high, high_bits, is_low, rm_is_low, forces_rex, rex_bits, rex_bytes, prefix_bytes, escape_bytes, operand_bytes, spelling};
ghost use Rattle.x86_forms.specs.Validity.{valid_of};
ghost use Rattle.x86_forms.specs.Room.{room_for, opcode_fits, IsWritable};

use crate::layouts::lay_out;
use arrayvec::ArrayVec;
use x86_forms::{Base, Instr, Layout, Mem, Operands, Reg, Rm};

type Code = ArrayVec<u8, 15>;

#[tactic(auto, unfolding(x86_forms::specs::Spelling::low_bytes))]
fn push_low(out: &mut Code, n: u8, z: i64)
    requires small { n ≤ 8 }
    requires room { array_vec_len out.old + n ≤ 15 }
    ensures items { out.new.items ≡ out.old.items ++ low_bytes n z }
    ensures bound { array_vec_len out.new ≤ array_vec_len out.old + n }
{
    let all = z.to_le_bytes();
    let _ = out.try_extend_from_slice(&all[..n as usize]);
}

#[tactic(auto, unfolding(x86_forms::specs::Spelling::mod_of))]
fn mod_code(r: u8, disp: i32) -> u8
    ensures value { result ≡ mod_of r disp }
    ensures small { result < 3 }
{
    if disp == 0 && r % 8 != 5 {
        0
    } else if -128 <= disp && disp < 128 {
        1
    } else {
        2
    }
}

#[tactic(auto, unfolding(x86_forms::specs::Spelling::disp_bytes))]
fn push_disp(out: &mut Code, mode: u8, disp: i32)
    requires { array_vec_len out.old ≤ 11 }
    ensures items { out.new.items ≡ out.old.items ++ disp_bytes mode disp }
    ensures bound { array_vec_len out.new ≤ array_vec_len out.old + 4 }
{
    if mode == 0 {} else if mode == 1 {
        push_low(out, 1, i64::from(disp))
    } else {
        push_low(out, 4, i64::from(disp))
    }
}

#[tactic(auto, unfolding(x86_forms::specs::Spelling::scale_code))]
fn scale_bits(s: u8) -> u8
    ensures value { result ≡ scale_code s }
    ensures small { result < 4 }
{
    match s {
        1 => 0,
        2 => 1,
        4 => 2,
        _ => 3,
    }
}

#[tactic(auto, unfolding(x86_forms::specs::Spelling::modrm))]
fn modrm_byte(mode: u8, reg: u8, rm: u8) -> u8
    requires { mode < 4 }
    ensures { result ≡ modrm mode reg rm }
{
    64 * mode + 8 * (reg % 8) + rm % 8
}

#[tactic(auto, unfolding(x86_forms::specs::Spelling::sib))]
fn sib_byte(index: Option<(Reg, u8)>, base: u8) -> u8
    ensures { result ≡ sib index base }
{
    match index {
        None => 32 + base % 8,
        Some((r, s)) => 64 * scale_bits(s) + 8 * (r.0 % 8) + base % 8,
    }
}

#[tactic(auto, unfolding(x86_forms::specs::Spelling::over_base))]
fn push_over(out: &mut Code, reg: u8, r: u8, index: Option<(Reg, u8)>, disp: i32)
    requires { array_vec_len out.old ≤ 9 }
    ensures items { out.new.items ≡ out.old.items ++ over_base reg r index disp }
    ensures bound { array_vec_len out.new ≤ array_vec_len out.old + 6 }
{
    let mode = mod_code(r, disp);
    match index {
        None => {
            if r % 8 == 4 {
                out.push(modrm_byte(mode, reg, 4));
                out.push(sib_byte(None, r));
                push_disp(out, mode, disp)
            } else {
                out.push(modrm_byte(mode, reg, r));
                push_disp(out, mode, disp)
            }
        }
        Some(x) => {
            out.push(modrm_byte(mode, reg, 4));
            out.push(sib_byte(Some(x), r));
            push_disp(out, mode, disp)
        }
    }
}

#[tactic(auto, unfolding(x86_forms::specs::Spelling::mem_bytes))]
fn push_mem(out: &mut Code, reg: u8, m: Mem)
    requires { array_vec_len out.old ≤ 9 }
    ensures items { out.new.items ≡ out.old.items ++ mem_bytes reg m.base m.index m.disp }
    ensures bound { array_vec_len out.new ≤ array_vec_len out.old + 6 }
{
    match m.base {
        Base::None => {
            out.push(modrm_byte(0, reg, 4));
            out.push(sib_byte(m.index, 5));
            push_low(out, 4, i64::from(m.disp))
        }
        Base::Rip => {
            out.push(modrm_byte(0, reg, 5));
            push_low(out, 4, i64::from(m.disp))
        }
        Base::Reg(r) => push_over(out, reg, r.0, m.index, m.disp),
    }
}

#[tactic(auto, unfolding(x86_forms::specs::Spelling::rm_bytes))]
fn push_rm(out: &mut Code, reg: u8, rm: Rm)
    requires { array_vec_len out.old ≤ 9 }
    ensures items { out.new.items ≡ out.old.items ++ rm_bytes reg rm }
    ensures bound { array_vec_len out.new ≤ array_vec_len out.old + 6 }
{
    match rm {
        Rm::Reg(r) => out.push(modrm_byte(3, reg, r.0)),
        Rm::Mem(m) => push_mem(out, reg, m),
    }
}

#[tactic(auto, unfolding(x86_forms::specs::Spelling::operand_bytes))]
fn push_operands(out: &mut Code, opcode: u8, ops: Operands)
    requires room { array_vec_len out.old ≤ 8 }
    requires fits { IsTrue (opcode_fits opcode ops) }
    ensures items { out.new.items ≡ out.old.items ++ operand_bytes opcode ops }
    ensures bound { array_vec_len out.new ≤ array_vec_len out.old + room_for ops }
{
    match ops {
        Operands::Bare => out.push(opcode),
        Operands::InOpcode(r) => out.push(opcode + r % 8),
        Operands::InModrm { reg, rm, .. } => {
            out.push(opcode);
            push_rm(out, reg, rm)
        }
    }
}

#[tactic(auto, unfolding(x86_forms::specs::Spelling::index_high))]
fn index_bit(index: Option<(Reg, u8)>) -> u8
    ensures value { result ≡ index_high index }
    ensures small { result < 32 }
{
    match index {
        None => 0,
        Some((r, _)) => r.0 / 8,
    }
}

#[tactic(auto, unfolding(x86_forms::specs::Spelling::base_high))]
fn base_bit(base: Base) -> u8
    ensures value { result ≡ base_high base }
    ensures small { result < 32 }
{
    match base {
        Base::None => 0,
        Base::Reg(r) => r.0 / 8,
        Base::Rip => 0,
    }
}

#[tactic(auto, unfolding(x86_forms::specs::Spelling::rm_high))]
fn rm_bits(rm: Rm) -> u8
    ensures value { result ≡ rm_high rm }
    ensures small { result < 96 }
{
    match rm {
        Rm::Reg(r) => r.0 / 8,
        Rm::Mem(m) => 2 * index_bit(m.index) + base_bit(m.base),
    }
}

#[tactic(auto, unfolding(x86_forms::specs::Spelling::high_bits))]
fn high_bits_of(ops: Operands) -> u8
    ensures value { result ≡ high_bits ops }
    ensures small { result < 224 }
{
    match ops {
        Operands::Bare => 0,
        Operands::InOpcode(r) => r / 8,
        Operands::InModrm { reg, rm, .. } => 4 * (reg / 8) + rm_bits(rm),
    }
}

#[tactic(auto, unfolding(x86_forms::specs::Spelling::is_low))]
fn is_low_code(r: u8) -> bool
    ensures { result ≡ is_low r }
{
    4 <= r && r < 8
}

#[tactic(auto, unfolding(x86_forms::specs::Spelling::rm_is_low))]
fn is_rm_low(rm: Rm) -> bool
    ensures { result ≡ rm_is_low rm }
{
    match rm {
        Rm::Reg(r) => is_low_code(r.0),
        Rm::Mem(_) => false,
    }
}

#[tactic(auto, unfolding(x86_forms::specs::Spelling::forces_rex))]
fn is_rex_forced(ops: Operands) -> bool
    ensures { result ≡ forces_rex ops }
{
    match ops {
        Operands::Bare => false,
        Operands::InOpcode(_) => false,
        Operands::InModrm {
            reg,
            low_reg,
            rm,
            low_rm,
        } => (low_reg && is_low_code(reg)) || (low_rm && is_rm_low(rm)),
    }
}

#[tactic(auto, unfolding(x86_forms::specs::Spelling::prefix_bytes))]
fn push_prefix(out: &mut Code, prefix: u8)
    requires { array_vec_len out.old ≤ 14 }
    ensures items { out.new.items ≡ out.old.items ++ prefix_bytes prefix }
    ensures bound { array_vec_len out.new ≤ array_vec_len out.old + 1 }
{
    if prefix != 0 {
        out.push(prefix);
    }
}

#[tactic(auto, unfolding(x86_forms::specs::Spelling::escape_bytes))]
fn push_escape(out: &mut Code, escape: bool)
    requires { array_vec_len out.old ≤ 14 }
    ensures items { out.new.items ≡ out.old.items ++ escape_bytes escape }
    ensures bound { array_vec_len out.new ≤ array_vec_len out.old + 1 }
{
    if escape {
        out.push(0x0F);
    }
}

#[tactic(auto, unfolding(x86_forms::specs::Spelling::rex_bits, x86_forms::specs::Spelling::rex_bytes))]
fn push_rex(out: &mut Code, wide: bool, ops: Operands)
    requires room { array_vec_len out.old ≤ 14 }
    requires fits { rex_bits wide ops < 16 }
    ensures items { out.new.items ≡ out.old.items ++ rex_bytes (forces_rex ops) (rex_bits wide ops) }
    ensures bound { array_vec_len out.new ≤ array_vec_len out.old + 1 }
{
    let bits = if wide { 8 } else { 0 } + high_bits_of(ops);
    if bits != 0 || is_rex_forced(ops) {
        out.push(0x40 + bits);
    }
}

fn emit(l: &Layout) -> ArrayVec<u8, 15>
    requires { IsWritable l.now }
    ensures { result.items ≡ bytes_of l.now }
{
    let mut out = ArrayVec::new();
    push_prefix(&mut out, l.prefix);
    push_rex(&mut out, l.wide, l.operands);
    push_escape(&mut out, l.escape);
    push_operands(&mut out, l.opcode, l.operands);
    push_low(&mut out, l.imm_len, l.imm);
    out
}

/// The one spelling of the instruction.
pub fn encode(i: &Instr) -> ArrayVec<u8, 15>
    requires { IsTrue (valid_of i.now) }
    ensures { result.items ≡ spelling i.now }
{
    emit(&lay_out(i))
}
