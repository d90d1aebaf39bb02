//! The object so far, and what a line adds to it.

ghost use Rattle.std.specs.Prelude.{◌≡◌, ◌≤◌, ◌<◌, ◌+◌, ◌^◌, ◌++◌, false, None, length, OnOk};
ghost use Rattle.std.specs.Option.{option_to_list};
ghost use Rattle.asm_text.specs.Assembly as spec;
ghost use Rattle.asm_text.specs.Seen.{seen_line};
ghost use Rattle.assembler.specs.Held as held;
ghost use Rattle.assembler.specs.Seen.{seen_draft};
ghost use Rattle.assembler.specs.Sound.{IsSound};

use crate::bytes::put_bytes;
use crate::faults::{is_import, labels_after, uses};
use crate::labels::Labels;
use crate::symbols::{Spot, SymbolTable};
use asm_text::{Cursor, Kind, Line, behind_field};
use mx_base::OutOfMemory;
use obj_file::Fix;
use std::alloc::Global;
use x86_encode::{encode, lay_out};
use x86_forms::{Base, Instr, Operands, Rm};

/// What lines have put down: the bytes of code and data, how many of the labels that are symbols stood in them, all symbols,
/// and the fix-ups of each part.
#[derive(Drop)]
pub struct Draft {
    pub code: Vec<u8>,
    pub stored: Vec<u8>,
    pub labels: u64,
    pub symbols: SymbolTable,
    pub code_fixes: Vec<Fix>,
    pub stored_fixes: Vec<Fix>,
}

/// Nothing but symbols.
pub fn draft_of(alloc: Global, symbols: SymbolTable) -> Draft
    ensures { seen_draft result ≡ held.bare_draft symbols }
{
    Draft {
        code: Vec::new(alloc),
        stored: Vec::new(alloc),
        labels: 0,
        symbols,
        code_fixes: Vec::new(alloc),
        stored_fixes: Vec::new(alloc),
    }
}

/// The form of a field: 2, relative to its end, in a branch and behind `rip`, else 1, absolute.
fn form_of(ops: Operands) -> u8
    ensures { result ≡ spec.form_of ops }
{
    match ops {
        Operands::Bare => 2,
        Operands::InModrm { rm: Rm::Mem(m), .. } => match m.base {
            Base::Rip => 2,
            _ => 1,
        },
        _ => 1,
    }
}

/// The number of the symbol of a name: its own, or that of the next.
fn number_of(symbols: &SymbolTable, name: &[u8]) -> usize
    ensures value { result ≡ spec.number_of symbols.now name.now }
    ensures small { result ≤ length symbols.now }
{
    symbols.number(name).unwrap_or(symbols.len())
}

/// The fix-up of an instruction.
fn code_fix(symbols: &SymbolTable, at: Cursor, l: &Line, i: &Instr) -> Fix
    requires valid { held.IsValid i.now }
    requires room { at.code ≤ 16_777_216 }
    requires few { length symbols.now < 2 ^ 31 }
    ensures { result ≡ held.code_fix symbols.now (held.placed_at at l.now) i.now }
{
    let layout = lay_out(i);
    let field = encode(i)
        .len()
        .saturating_sub(behind_field(&layout) as usize + 4);
    Fix {
        part: 1,
        offset: at.code as u32 + field as u32,
        form: form_of(layout.operands),
        symbol: number_of(symbols, l.name) as u32,
        addend: l.addend,
    }
}

/// The fix-up of an address in data.
fn stored_fix(symbols: &SymbolTable, at: Cursor, l: &Line) -> Fix
    requires room { at.stored ≤ 16_777_216 }
    requires few { length symbols.now < 2 ^ 31 }
    ensures { result ≡ held.stored_fix symbols.now (held.placed_at at l.now) }
{
    Fix {
        part: 2,
        offset: at.stored as u32,
        form: 0,
        symbol: number_of(symbols, l.name) as u32,
        addend: l.addend,
    }
}

/// The fix-up that a line adds.
#[tactic(auto, using(crate::proofs::UseLemmas::unused), unfolding(asm_text::specs::Assembly::fix_of, crate::specs::Sound::IsSound))]
fn fix_of(d: &Draft, at: Cursor, l: &Line) -> Option<Fix>
    requires sound { IsSound at.in_data (seen_line l.now) }
    requires code { at.code ≤ 16_777_216 }
    requires stored { at.stored ≤ 16_777_216 }
    requires few { length d.now.symbols < 2 ^ 31 }
    ensures { option_to_list result ≡ spec.fix_of (seen_draft d.now) (held.placed_at at l.now) l.now.kind }
{
    if !uses(l) {
        return None;
    }
    match l.kind {
        Kind::Code(i) => Some(code_fix(&d.symbols, at, l, &i)),
        Kind::Address => Some(stored_fix(&d.symbols, at, l)),
        _ => None,
    }
}

/// The symbols with what a line uses.
fn use_symbol(symbols: &mut SymbolTable, l: &Line) -> Result<(), OutOfMemory>
    ensures { OnOk result (symbols.new ≡ held.used symbols.old (seen_line l.now) l.now.kind) }
{
    if is_import(symbols, l) {
        symbols.add(l.name, Spot { part: 0, offset: 0 })?;
    }
    Ok(())
}

/// The symbols with what a line uses or signs.
#[tactic(auto, unfolding(asm_text::specs::Assembly::symbols_after))]
fn put_symbol(symbols: &mut SymbolTable, l: &Line) -> Result<(), OutOfMemory>
    requires { held.MaySign symbols.old (seen_line l.now) l.now.kind }
    ensures { OnOk result (symbols.new ≡ spec.symbols_after (held.bare_draft symbols.old) (seen_line l.now) l.now.kind) }
{
    match l.kind {
        Kind::Sig => symbols.sign(l.name, l.text),
        _ => use_symbol(symbols, l),
    }
}

/// What a line adds to its part.
fn put_part(
    out: &mut Vec<u8>,
    fixes: &mut Vec<Fix>,
    labels: &Labels,
    at: Cursor,
    l: &Line,
    fix: Option<Fix>,
) -> Result<(), OutOfMemory>
    requires sound { IsSound at.in_data (seen_line l.now) }
    requires room { at.code ≤ 2 ^ 62 }
    requires near { spec.is_far labels.now (held.placed_at at l.now) l.now.kind ≡ false }
    ensures bytes { OnOk result (out.new.items ≡ out.old.items ++ spec.bytes_of labels.now (held.placed_at at l.now) l.now.kind) }
    ensures fixes { OnOk result (fixes.new.items ≡ fixes.old.items ++ option_to_list fix) }
{
    put_bytes(out, labels, at, l)?;
    if let Some(fix) = fix {
        fixes.push(fix)?;
    }
    Ok(())
}

/// What a line adds to the object.
#[tactic(auto, unfolding(asm_text::specs::Assembly::with_line))]
pub fn put_line(d: &mut Draft, labels: &Labels, at: Cursor, l: &Line) -> Result<(), OutOfMemory>
    requires sound { IsSound at.in_data (seen_line l.now) }
    requires near { spec.is_far labels.now (held.placed_at at l.now) l.now.kind ≡ false }
    requires sign { held.MaySign d.old.symbols (seen_line l.now) l.now.kind }
    requires code { at.code ≤ 16_777_216 }
    requires stored { at.stored ≤ 16_777_216 }
    requires few { length d.old.symbols < 2 ^ 31 }
    requires labels { d.old.labels ≤ 65_536 }
    ensures { OnOk result (seen_draft d.new ≡ spec.with_line labels.now (seen_draft d.old) (held.placed_at at l.now)) }
{
    let fix = fix_of(d, at, l);
    d.labels = labels_after(d, l);
    put_symbol(&mut d.symbols, l)?;
    if at.in_data {
        put_part(&mut d.stored, &mut d.stored_fixes, labels, at, l, fix)?;
    } else {
        put_part(&mut d.code, &mut d.code_fixes, labels, at, l, fix)?;
    }
    Ok(())
}
