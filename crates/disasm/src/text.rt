//! Texts put at the end of a line of fixed room.

ghost use Rattle.std.specs.Prelude.{◌≡◌, ◌+◌, ◌≤◌, ◌++◌, length, codes, decimal};
ghost use Rattle.std.specs.Fmt.{signed_decimal};
ghost use Rattle.arrayvec.specs.ArrayVec.{array_vec_len};
ghost use Rattle.asm_names.specs.Mnemonics as names;
ghost use Rattle.asm_names.specs.Registers as registers;
ghost use Rattle.disasm.specs.Operands.{plus, offset_text, disp_text, scaled_text, index_text, address_text, memory_text, operand_text, behind};
ghost use Rattle.disasm.specs.Written.{text_of_written};

use crate::operand::{Operand, Written};
use arrayvec::ArrayVec;
use asm_names::{Mnemonic, bounds_text, mnemonic_text, register_text, size_text};
use itoa::Buffer;
use x86_forms::{Base, Mem, Reg};

/// Room for the longest line, which has 81 bytes.
pub type Text = ArrayVec<u8, 96>;

pub fn push(text: &mut Text, more: &[u8])
    requires { array_vec_len text.old + length more.now ≤ 96 }
    ensures items { text.new.items ≡ text.old.items ++ more.now }
    ensures len { array_vec_len text.new ≡ array_vec_len text.old + length more.now }
{
    match text.try_extend_from_slice(more) {
        Ok(()) => {}
        Err(_) => unreachable!(),
    }
}

fn push_register(text: &mut Text, w: u8, r: u8)
    requires { array_vec_len text.old ≤ 80 }
    ensures items { text.new.items ≡ text.old.items ++ registers.register_text w r }
    ensures len { array_vec_len text.new ≤ array_vec_len text.old + 4 }
{
    push(text, register_text(w, r).as_bytes());
}

fn push_bounds(text: &mut Text, b: u8)
    requires { array_vec_len text.old ≤ 80 }
    ensures items { text.new.items ≡ text.old.items ++ registers.bounds_text b }
    ensures len { array_vec_len text.new ≤ array_vec_len text.old + 4 }
{
    push(text, bounds_text(b).as_bytes());
}

fn push_size(text: &mut Text, w: u8)
    requires { array_vec_len text.old ≤ 80 }
    ensures items { text.new.items ≡ text.old.items ++ registers.size_text w }
    ensures len { array_vec_len text.new ≤ array_vec_len text.old + 5 }
{
    push(text, size_text(w).as_bytes());
}

fn push_mnemonic(text: &mut Text, m: Mnemonic)
    requires { array_vec_len text.old ≤ 80 }
    ensures items { text.new.items ≡ text.old.items ++ names.mnemonic_text m }
    ensures len { array_vec_len text.new ≤ array_vec_len text.old + 7 }
{
    push(text, mnemonic_text(m).as_bytes());
}

/// A number in decimal, with `-` where it is negative.
fn push_signed(text: &mut Text, z: i64)
    requires { array_vec_len text.old ≤ 76 }
    ensures items { text.new.items ≡ text.old.items ++ signed_decimal z }
    ensures len { array_vec_len text.new ≤ array_vec_len text.old + 20 }
{
    let mut buffer = Buffer::new();
    push(text, buffer.format(z).as_bytes());
}

/// The same of a number of 32 bits, which is shorter.
fn push_short(text: &mut Text, z: i32)
    requires { array_vec_len text.old ≤ 80 }
    ensures items { text.new.items ≡ text.old.items ++ signed_decimal z }
    ensures len { array_vec_len text.new ≤ array_vec_len text.old + 11 }
{
    let mut buffer = Buffer::new();
    push(text, buffer.format(z).as_bytes());
}

fn push_scale(text: &mut Text, scale: u8)
    requires { array_vec_len text.old ≤ 80 }
    ensures items { text.new.items ≡ text.old.items ++ (codes "*" ++ decimal scale) }
    ensures len { array_vec_len text.new ≤ array_vec_len text.old + 4 }
{
    let mut buffer = Buffer::new();
    push(text, b"*");
    push(text, buffer.format(scale).as_bytes());
}

/// A displacement behind something.
fn push_offset(text: &mut Text, disp: i32)
    requires { array_vec_len text.old ≤ 79 }
    ensures items { text.new.items ≡ text.old.items ++ offset_text disp }
    ensures len { array_vec_len text.new ≤ array_vec_len text.old + 12 }
{
    if disp >= 0 {
        push(text, b"+");
    }
    push_short(text, disp);
}

fn push_disp(text: &mut Text, disp: i32)
    requires { array_vec_len text.old ≤ 79 }
    ensures items { text.new.items ≡ text.old.items ++ disp_text disp }
    ensures len { array_vec_len text.new ≤ array_vec_len text.old + 12 }
{
    if disp != 0 {
        push_offset(text, disp);
    }
}

fn push_scaled(text: &mut Text, r: Reg, scale: u8)
    requires { array_vec_len text.old ≤ 70 }
    ensures items { text.new.items ≡ text.old.items ++ scaled_text r scale }
    ensures len { array_vec_len text.new ≤ array_vec_len text.old + 8 }
{
    push_register(text, 64, r.0);
    push_scale(text, scale);
}

/// An index register behind a base.
fn push_index(text: &mut Text, index: Option<(Reg, u8)>)
    requires { array_vec_len text.old ≤ 69 }
    ensures items { text.new.items ≡ text.old.items ++ index_text index }
    ensures len { array_vec_len text.new ≤ array_vec_len text.old + 9 }
{
    match index {
        None => {}
        Some((r, scale)) => {
            push(text, b"+");
            if scale == 1 {
                push_register(text, 64, r.0);
            } else {
                push_scaled(text, r, scale);
            }
        }
    }
}

/// An address without a base register.
fn push_baseless(text: &mut Text, index: Option<(Reg, u8)>, disp: i32)
    requires { array_vec_len text.old ≤ 65 }
    ensures items { text.new.items ≡ text.old.items ++ address_text Base.None index disp }
    ensures len { array_vec_len text.new ≤ array_vec_len text.old + 25 }
{
    match index {
        None => push_short(text, disp),
        Some((r, scale)) => {
            push_scaled(text, r, scale);
            push_disp(text, disp);
        }
    }
}

fn push_address(text: &mut Text, m: Mem)
    requires { array_vec_len text.old ≤ 65 }
    ensures items { text.new.items ≡ text.old.items ++ address_text m.base m.index m.disp }
    ensures len { array_vec_len text.new ≤ array_vec_len text.old + 25 }
{
    match m.base {
        Base::None => push_baseless(text, m.index, m.disp),
        Base::Rip => {
            push(text, b"rip");
            push_offset(text, m.disp);
        }
        Base::Reg(r) => {
            push_register(text, 64, r.0);
            push_index(text, m.index);
            push_disp(text, m.disp);
        }
    }
}

#[tactic(auto, unfolding(crate::specs::Operands::memory_text))]
fn push_memory(text: &mut Text, m: Mem)
    requires { array_vec_len text.old ≤ 64 }
    ensures items { text.new.items ≡ text.old.items ++ memory_text m }
    ensures len { array_vec_len text.new ≤ array_vec_len text.old + 27 }
{
    push(text, b"[");
    push_address(text, m);
    push(text, b"]");
}

fn push_sized(text: &mut Text, w: u8, m: Mem)
    requires { array_vec_len text.old ≤ 58 }
    ensures items { text.new.items ≡ text.old.items ++ (registers.size_text w ++ codes " " ++ memory_text m) }
    ensures len { array_vec_len text.new ≤ array_vec_len text.old + 33 }
{
    push_size(text, w);
    push(text, b" ");
    push_memory(text, m);
}

#[tactic(auto, unfolding(crate::specs::Operands::operand_text))]
fn push_operand(text: &mut Text, x: Operand)
    requires { array_vec_len text.old ≤ 58 }
    ensures items { text.new.items ≡ text.old.items ++ operand_text x }
    ensures len { array_vec_len text.new ≤ array_vec_len text.old + 33 }
{
    match x {
        Operand::Nothing => {}
        Operand::Register { w, r } => push_register(text, w, r.0),
        Operand::Bounds(b) => push_bounds(text, b),
        Operand::Memory(m) => push_memory(text, m),
        Operand::Sized { w, m } => push_sized(text, w, m),
        Operand::Signed(z) => push_signed(text, z),
        Operand::Relative(z) => {
            push(text, b"rel ");
            push_short(text, z);
        }
    }
}

/// An operand behind a mark, if there is one.
#[tactic(auto, unfolding(crate::specs::Operands::behind))]
fn push_behind(text: &mut Text, mark: &[u8], x: Operand)
    requires short { length mark.now ≤ 2 }
    requires room { array_vec_len text.old ≤ 56 }
    ensures items { text.new.items ≡ text.old.items ++ behind mark.now x }
    ensures len { array_vec_len text.new ≤ array_vec_len text.old + 35 }
{
    if let Operand::Nothing = x {
        return;
    }
    push(text, mark);
    push_operand(text, x);
}

/// The line of an instruction.
pub fn text_of(w: Written) -> Text
    ensures { result.items ≡ text_of_written w }
{
    let mut text = Text::new();
    if w.prefixed {
        push(&mut text, b"bnd ");
    }
    push_mnemonic(&mut text, w.mnemonic);
    push_behind(&mut text, b" ", w.first);
    push_behind(&mut text, b", ", w.second);
    text
}
