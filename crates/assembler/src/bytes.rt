//! The bytes that lines add.

ghost use Rattle.std.specs.Prelude.{◌≡◌, ◌≤◌, ◌+◌, ◌^◌, ◌++◌, true, false, IsTrue, length, replicate, map, pos, ◌+ℤ◌, ◌-ℤ◌, OnOk};
ghost use Rattle.x86_forms.specs.Fits.{fits_32};
ghost use Rattle.x86_forms.specs.Validity.{valid_of};
ghost use Rattle.asm_text.specs.Assembly as spec;
ghost use Rattle.asm_text.specs.Lines.{parts_of};
ghost use Rattle.asm_text.specs.Lexical.{is_local};
ghost use Rattle.asm_text.specs.Seen.{seen_line};
ghost use Rattle.asm_text.specs.declared.parts.Kind.TheVariants as k;
ghost use Rattle.assembler.specs.Held as held;
ghost use Rattle.assembler.specs.Sound.{IsSound};

use crate::cursor::size_of;
use crate::labels::Labels;
use asm_text::{Cursor, Kind, Line, behind_field, cut_at, is_local, number_alone};
use std::alloc::AllocError;
use x86_encode::{encode, lay_out};
use x86_forms::Instr;

fn way_to(target: u64, addend: i64, end: u64) -> i128
    ensures { result ≡ (pos target +ℤ addend) -ℤ pos end }
{
    i128::from(target) + i128::from(addend) - i128::from(end)
}

/// The way from the end of an instruction to a target in the code.
pub fn way(at: Cursor, l: &Line, i: &Instr, target: u64) -> i128
    requires valid { IsTrue (valid_of i.now) }
    requires room { at.code ≤ 2 ^ 62 }
    ensures { result ≡ spec.way (held.placed_at at l.now) i.now target }
{
    way_to(target, l.addend, at.code + encode(i).len() as u64)
}

/// A branch whose target is counted from its end.
#[tactic(auto, unfolding(asm_text::specs::Assembly::with_target))]
fn with_target(i: Instr, rel: i32) -> Instr
    ensures { result ≡ spec.with_target i rel }
{
    match i {
        Instr::CallRel { prefixed, .. } => Instr::CallRel { prefixed, rel },
        Instr::JmpRel { prefixed, .. } => Instr::JmpRel { prefixed, rel },
        Instr::Jcc { prefixed, op, .. } => Instr::Jcc { prefixed, op, rel },
        _ => i,
    }
}

/// A branch to a target in the code.
#[tactic(auto, using(crate::proofs::BranchLemmas::word_32, crate::proofs::BranchLemmas::valid_target))]
fn put_branch(
    out: &mut Vec<u8>,
    at: Cursor,
    l: &Line,
    i: &Instr,
    target: u64,
) -> Result<(), AllocError>
    requires valid { IsTrue (valid_of i.now) }
    requires room { at.code ≤ 2 ^ 62 }
    requires near { fits_32 (spec.way (held.placed_at at l.now) i.now target) ≡ true }
    ensures { OnOk result (out.new.items ≡ out.old.items ++ held.branch_bytes (held.placed_at at l.now) i.now target) }
{
    let rel = way(at, l, i, target) as i32;
    out.extend_from_slice(encode(&with_target(*i, rel)).as_slice())
}

/// A branch to a local label, if the code has it.
fn put_local(
    out: &mut Vec<u8>,
    labels: &Labels,
    at: Cursor,
    l: &Line,
    i: &Instr,
) -> Result<(), AllocError>
    requires valid { IsTrue (valid_of i.now) }
    requires room { at.code ≤ 2 ^ 62 }
    requires local { is_local l.now.name.now ≡ true }
    requires near { spec.is_far labels.now (held.placed_at at l.now) (k.Code i.now) ≡ false }
    ensures { OnOk result (out.new.items ≡ out.old.items ++ spec.local_code labels.now (held.placed_at at l.now) i.now) }
{
    match labels.target(l.name) {
        None => Ok(()),
        Some(target) => put_branch(out, at, l, i, target),
    }
}

/// The bytes of an instruction with zeros in the field for the linker.
fn put_blanked(out: &mut Vec<u8>, code: &[u8], behind: u8) -> Result<(), AllocError>
    requires { behind + 4 ≤ length code.now }
    ensures { OnOk result (out.new.items ≡ out.old.items ++ spec.blanked code.now behind) }
{
    let field = code.len() - (behind as usize + 4);
    let (front, rest) = code.split_at(field);
    let (_, last) = rest.split_at(4);
    out.extend_from_slice(front)?;
    out.extend_from_slice(&[0, 0, 0, 0])?;
    out.extend_from_slice(last)?;
    Ok(())
}

/// The bytes of an instruction.
#[tactic(auto, unfolding(asm_text::specs::Assembly::code_of, crate::specs::Sound::IsSound))]
fn put_code(
    out: &mut Vec<u8>,
    labels: &Labels,
    at: Cursor,
    l: &Line,
    i: &Instr,
) -> Result<(), AllocError>
    requires sound { (seen_line l.now).kind ≡ k.Code i.now × IsSound at.in_data (seen_line l.now) }
    requires room { at.code ≤ 2 ^ 62 }
    requires near { spec.is_far labels.now (held.placed_at at l.now) (k.Code i.now) ≡ false }
    ensures { OnOk result (out.new.items ≡ out.old.items ++ spec.code_of labels.now (held.placed_at at l.now) i.now) }
{
    if l.name.is_empty() {
        return out.extend_from_slice(encode(i).as_slice());
    }
    if is_local(l.name) {
        return put_local(out, labels, at, l, i);
    }
    put_blanked(out, encode(i).as_slice(), behind_field(&lay_out(i)))
}

/// The byte that a number of `.byte` is.
#[tactic(auto, unfolding(mx_base::specs::Numbers::residue))]
fn byte_of(part: &[u8]) -> u8
    ensures { result ≡ spec.byte_of part.now }
{
    match number_alone(part) {
        Some(Some(n)) => n.rem_euclid(256) as u8,
        _ => 0,
    }
}

/// Numbers between commas, each a byte.
fn put_numbers(out: &mut Vec<u8>, text: &[u8]) -> Result<(), AllocError>
    ensures { OnOk result (out.new.items ≡ out.old.items ++ map spec.byte_of (parts_of text.now)) }
{
    let mut left = Some(text);
    while let Some(rest) = left {
        let cut = cut_at(rest, b',');
        out.push(byte_of(cut.part))?;
        left = cut.more;
    }
    Ok(())
}

fn put_zeros(out: &mut Vec<u8>, n: u64) -> Result<(), AllocError>
    requires { n ≤ 1_073_741_824 }
    ensures { OnOk result (out.new.items ≡ out.old.items ++ replicate n 0) }
{
    out.resize(out.len() + n as usize, 0)
}

/// The bytes that a line adds.
#[tactic(auto, unfolding(asm_text::specs::Assembly::bytes_of, asm_text::specs::Assembly::size_of))]
pub fn put_bytes(out: &mut Vec<u8>, labels: &Labels, at: Cursor, l: &Line) -> Result<(), AllocError>
    requires sound { IsSound at.in_data (seen_line l.now) }
    requires room { at.code ≤ 2 ^ 62 }
    requires near { spec.is_far labels.now (held.placed_at at l.now) l.now.kind ≡ false }
    ensures { OnOk result (out.new.items ≡ out.old.items ++ spec.bytes_of labels.now (held.placed_at at l.now) l.now.kind) }
{
    match l.kind {
        Kind::Code(i) => put_code(out, labels, at, l, &i),
        Kind::Bytes(_) => put_numbers(out, l.text),
        Kind::Quad(n) => out.extend_from_slice(&n.to_le_bytes()),
        Kind::Address | Kind::Zero(_) | Kind::Align(_) => put_zeros(out, size_of(at, l)),
        _ => Ok(()),
    }
}
