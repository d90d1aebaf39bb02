//! The parts of the gates that depend on what a function takes and gives, put at the end of a gate.

ghost use Rattle.std.specs.Prelude.{◌≡◌, ◌≤◌, ◌<◌, ◌+◌, ◌*◌, ◌++◌, length};
ghost use Rattle.std.specs.Option.{option_map};
ghost use Rattle.arrayvec.specs.ArrayVec.{array_vec_len};
ghost use Rattle.call_sigs.specs.Signatures as sigs;
ghost use Rattle.call_gates.specs.Gates as spec;

use crate::code::{Bytes, put};
use crate::instr::{R8, R9, RAX, RCX, RDI, RDX, RSI, clear, in_reg};
use crate::lists::{clear_carriers, init_all, init_one, init_three, init_two};
use call_sigs::kind_of_letter;
use mx_base::IntKind;
use x86_forms::{Instr, Reg};

/// The register of the k-th parameter, from 0.
fn parameter_register(k: usize) -> u8
    requires { k < 6 }
    ensures { result ≡ sigs.parameter_register k }
{
    match k {
        0 => RDI,
        1 => RSI,
        2 => RDX,
        3 => RCX,
        4 => R8,
        _ => R9,
    }
}

/// What makes the word of a kind in a register a word of 64 bits; nothing does at 64 bits and at a pointer, which has no kind.
fn extension(kind: Option<IntKind>, r: u8) -> Option<Instr>
    ensures { result ≡ option_map spec.only_instr (spec.word_extension kind r) }
{
    let (reg, rm) = (Reg(r), in_reg(r));
    match kind {
        Some(IntKind::I8) => Some(Instr::Movsx {
            w: 64,
            from: 8,
            r: reg,
            rm,
        }),
        Some(IntKind::U8) => Some(Instr::Movzx {
            from: 8,
            r: reg,
            rm,
        }),
        Some(IntKind::I16) => Some(Instr::Movsx {
            w: 64,
            from: 16,
            r: reg,
            rm,
        }),
        Some(IntKind::U16) => Some(Instr::Movzx {
            from: 16,
            r: reg,
            rm,
        }),
        Some(IntKind::I32) => Some(Instr::Movsxd { r: reg, rm }),
        Some(IntKind::U32) => Some(Instr::MovTo { w: 32, r: reg, rm }),
        Some(IntKind::I64) | Some(IntKind::U64) | None => None,
    }
}

/// The k-th parameter is made a word of 64 bits.
fn extend_parameter(out: &mut Bytes, letter: u8, k: usize)
    requires place { k < 6 }
    requires room { array_vec_len out.old + 4 ≤ 128 }
    ensures items { out.new.items ≡ out.old.items ++ spec.bytes_of_code (spec.extends_parameter (sigs.kind_of_letter letter) (sigs.parameter_register k)) }
    ensures bound { array_vec_len out.new ≤ array_vec_len out.old + 4 }
{
    if let Some(instr) = extension(kind_of_letter(letter), parameter_register(k)) {
        put(out, &[instr]);
    }
}

/// All parameters are.
pub fn extend_parameters(out: &mut Bytes, params: &[u8])
    requires few { length params.now ≤ 6 }
    requires room { array_vec_len out.old + 4 * length params.now ≤ 128 }
    ensures items { out.new.items ≡ out.old.items ++ spec.bytes_of_code (spec.extend_parameters 0 (sigs.kinds_of_letters params.now)) }
    ensures bound { array_vec_len out.new ≤ array_vec_len out.old + 4 * length params.now }
{
    'all: for k in 0..params.len() {
        extend_parameter(out, params[k], k);
    }
}

/// The result in rax is, which becomes 0 where there is none.
pub fn extend_result(out: &mut Bytes, letter: u8)
    requires { array_vec_len out.old + 4 ≤ 128 }
    ensures items { out.new.items ≡ out.old.items ++ spec.bytes_of_code (spec.extends_result (sigs.result_of_letter letter)) }
    ensures bound { array_vec_len out.new ≤ array_vec_len out.old + 4 }
{
    if letter == b'v' {
        put(out, &[clear(RAX)]);
    } else if let Some(instr) = extension(kind_of_letter(letter), RAX) {
        put(out, &[instr]);
    }
}

/// The registers of parameters from the n-th on become 0.
pub fn clear_rest(out: &mut Bytes, n: usize)
    requires few { n ≤ 6 }
    requires room { array_vec_len out.old + 16 ≤ 128 }
    ensures items { out.new.items ≡ out.old.items ++ spec.bytes_of_code (spec.clear_all (spec.not_carrying n)) }
    ensures bound { array_vec_len out.new + 2 * n ≤ array_vec_len out.old + 16 }
{
    let all = clear_carriers();
    put(out, &all[n..]);
}

/// The bounds registers from b on become INIT, by a register that is 0.
pub fn init_from(out: &mut Bytes, none: u8, b: u8)
    requires zero { none < 2 }
    requires few { b ≤ 4 }
    requires room { array_vec_len out.old + 17 ≤ 128 }
    ensures items { out.new.items ≡ out.old.items ++ spec.bytes_of_code (spec.init_from none b) }
    ensures bound { array_vec_len out.new ≤ array_vec_len out.old + 17 }
{
    match b {
        0 => put(out, &init_all(none)),
        1 => put(out, &init_three(none)),
        2 => put(out, &init_two(none)),
        3 => put(out, &init_one(none)),
        _ => {}
    }
}

/// How many of the parameters are pointers.
pub fn count_pointers(params: &[u8]) -> u8
    requires { length params.now ≤ 6 }
    ensures { result ≡ sigs.pointers (sigs.kinds_of_letters params.now) }
{
    let mut count = 0;
    'all: for letter in params {
        if kind_of_letter(*letter).is_none() {
            count += 1;
        }
    }
    count
}

/// And of the result.
pub fn count_result_pointers(letter: u8) -> u8
    ensures { result ≡ sigs.result_pointers (sigs.result_of_letter letter) }
{
    if letter != b'v' && kind_of_letter(letter).is_none() {
        1
    } else {
        0
    }
}
