//! Why lines are refused.

ghost use Rattle.std.specs.Prelude.{◌≡◌, ◌≤◌, ◌+◌, ◌^◌, ◌<◌, length, if◌then◌else◌};
ghost use Rattle.obj_file.specs.Object as object;
ghost use Rattle.asm_text.specs.Assembly as spec;
ghost use Rattle.asm_text.specs.Seen.{seen_line};
ghost use Rattle.assembler.specs.Good.{IsWithin};
ghost use Rattle.assembler.specs.Held as held;
ghost use Rattle.assembler.specs.Seen.{seen_draft};
ghost use Rattle.assembler.specs.Sound.{IsSound};

use crate::bytes::way;
use crate::cursor::after;
use crate::draft::Draft;
use crate::labels::Labels;
use crate::symbols::SymbolTable;
use asm_text::{AsmKind, Cursor, Kind, Line, is_local};
use obj_file::{is_data_sig, is_function_sig};

/// Whether a signature may stand on a label: that of a function not on data, that of data not on code.
#[tactic(auto, unfolding(obj_file::specs::Object::suits))]
fn suits(in_data: bool, sig: &[u8]) -> bool
    ensures { result ≡ object.suits (if in_data then 2 else 1) sig.now }
{
    sig.is_empty() || is_function_sig(sig) && !in_data || is_data_sig(sig) && in_data
}

/// A signature of a function on data, or of data on a function.
#[tactic(auto, unfolding(asm_text::specs::Assembly::unsuited, asm_text::specs::Assembly::earlier_label))]
fn is_unsuited(labels: &Labels, at: Cursor, l: &Line) -> bool
    requires { held.AreDistinct labels.now }
    ensures { result ≡ spec.unsuited labels.now (held.placed_at at l.now) l.now.kind }
{
    match l.kind {
        Kind::Sig => match labels.earlier(l.name, at.line) {
            Some(m) => !suits(m.in_data, l.text),
            None => false,
        },
        _ => false,
    }
}

/// A local label too far away.
#[tactic(auto, using(crate::proofs::BranchLemmas::word_32_is), unfolding(asm_text::specs::Assembly::is_far, crate::specs::Sound::IsSound))]
fn is_far(labels: &Labels, at: Cursor, l: &Line) -> bool
    requires sound { IsSound at.in_data (seen_line l.now) }
    requires room { at.code ≤ 2 ^ 62 }
    ensures { result ≡ spec.is_far labels.now (held.placed_at at l.now) l.now.kind }
{
    match l.kind {
        Kind::Code(i) if is_local(l.name) => match labels.target(l.name) {
            Some(target) => i32::try_from(way(at, l, &i, target)).is_err(),
            None => false,
        },
        _ => false,
    }
}

/// Whether the line uses a symbol.
#[tactic(auto, unfolding(asm_text::specs::Assembly::uses))]
pub fn uses(l: &Line) -> bool
    ensures { result ≡ spec.uses (seen_line l.now) l.now.kind }
{
    match l.kind {
        Kind::Address => true,
        Kind::Code(_) => !l.name.is_empty() && !is_local(l.name),
        _ => false,
    }
}

/// How many labels that are symbols stand in the lines up to this one.
pub fn labels_after(d: &Draft, l: &Line) -> u64
    requires { d.now.labels ≤ 65_536 }
    ensures { result ≡ spec.labels_after (seen_draft d.now) (seen_line l.now) l.now.kind }
{
    match l.kind {
        Kind::Label if !is_local(l.name) => d.labels + 1,
        _ => d.labels,
    }
}

/// Whether the line uses a name that is no symbol yet.
pub fn is_import(symbols: &SymbolTable, l: &Line) -> bool
    ensures { result ≡ held.imports symbols.now (seen_line l.now) l.now.kind }
{
    uses(l) && symbols.number(l.name).is_none()
}

/// How many symbols there are with what the line uses.
#[tactic(auto, using(crate::proofs::UseLemmas::used_length))]
fn symbols_after(d: &Draft, l: &Line) -> usize
    ensures value { result ≡ length (spec.symbols_after (seen_draft d.now) (seen_line l.now) l.now.kind) }
    ensures small { result ≤ 2 ^ 63 }
{
    if is_import(&d.symbols, l) {
        d.symbols.len() + 1
    } else {
        d.symbols.len()
    }
}

/// How many fix-ups the line adds.
#[tactic(auto, unfolding(asm_text::specs::Assembly::fix_of, asm_text::specs::Assembly::uses))]
fn fixes_of(d: &Draft, at: Cursor, l: &Line) -> usize
    ensures value { result ≡ length (spec.fix_of (seen_draft d.now) (held.placed_at at l.now) l.now.kind) }
    ensures small { result ≤ 1 }
{
    if uses(l) { 1 } else { 0 }
}

/// The line passes a limit of objects.
#[tactic(auto, unfolding(asm_text::specs::Assembly::passes))]
fn passes(labels: &Labels, defined: usize, d: &Draft, at: Cursor, l: &Line) -> bool
    requires sound { IsSound at.in_data (seen_line l.now) }
    requires small { held.IsSmall at }
    requires few { at.line < held.most_lines }
    requires within { IsWithin labels.now at (seen_draft d.now) }
    ensures { result ≡ spec.passes defined (seen_draft d.now) (held.placed_at at l.now) l.now.kind }
{
    let next = after(at, l);
    let imports = symbols_after(d, l).saturating_sub(defined);
    let fixes = d.code_fixes.len() + d.stored_fixes.len() + fixes_of(d, at, l);
    next.code > 16_777_216
        || next.stored > 16_777_216
        || labels_after(d, l) + imports as u64 > 65_536
        || fixes > 1_048_576
}

/// A label or a signature again.
#[tactic(auto, unfolding(asm_text::specs::Assembly::again, asm_text::specs::Assembly::earlier_label))]
fn is_again(labels: &Labels, d: &Draft, at: Cursor, l: &Line) -> bool
    requires { held.AreDistinct labels.now }
    ensures { result ≡ spec.again labels.now (seen_draft d.now) (held.placed_at at l.now) l.now.kind }
{
    match l.kind {
        Kind::Label => labels.earlier(l.name, at.line).is_some(),
        Kind::Sig => !d.symbols.sig(l.name).is_empty(),
        _ => false,
    }
}

/// A local label, or the name of a signature, that isn't defined.
#[tactic(auto, unfolding(asm_text::specs::Assembly::lacks, asm_text::specs::Assembly::earlier_label))]
fn lacks(labels: &Labels, at: Cursor, l: &Line) -> bool
    requires { held.AreDistinct labels.now }
    ensures { result ≡ spec.lacks labels.now (held.placed_at at l.now) l.now.kind }
{
    match l.kind {
        Kind::Code(_) => is_local(l.name) && labels.target(l.name).is_none(),
        Kind::Sig => labels.earlier(l.name, at.line).is_none(),
        _ => false,
    }
}

fn is_shapeless(l: &Line) -> bool
    ensures { result ≡ spec.is_shapeless l.now.kind }
{
    matches!(l.kind, Kind::Shape)
}

fn is_outside(l: &Line) -> bool
    ensures { result ≡ spec.is_outside l.now.kind }
{
    matches!(l.kind, Kind::Range)
}

/// Why a line is refused, if it is. `defined` is the number of labels that are symbols.
#[tactic(auto, unfolding(asm_text::specs::Assembly::fault_of))]
pub fn fault_of(labels: &Labels, defined: usize, d: &Draft, at: Cursor, l: &Line) -> Option<AsmKind>
    requires distinct { held.AreDistinct labels.now }
    requires sound { IsSound at.in_data (seen_line l.now) }
    requires small { held.IsSmall at }
    requires few { at.line < held.most_lines }
    requires within { IsWithin labels.now at (seen_draft d.now) }
    ensures { result ≡ spec.fault_of labels.now defined (seen_draft d.now) (held.placed_at at l.now) l.now.kind }
{
    if is_shapeless(l) || is_unsuited(labels, at, l) {
        Some(AsmKind::Shape)
    } else if is_outside(l) || is_far(labels, at, l) || passes(labels, defined, d, at, l) {
        Some(AsmKind::Range)
    } else if is_again(labels, d, at, l) {
        Some(AsmKind::Twice)
    } else if lacks(labels, at, l) {
        Some(AsmKind::NoLocal)
    } else {
        None
    }
}
