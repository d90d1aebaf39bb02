//! The lines of a text, in two passes: its labels, and then the object.

ghost use Rattle.std.specs.Prelude.{◌≡◌, ◌≤◌, ◌<◌, ◌+◌, length, IfOk, OnOk};
ghost use Rattle.asm_text.specs.Assembly as spec;
ghost use Rattle.asm_text.specs.Seen.{seen_line};
ghost use Rattle.assembler.specs.Good.{IsWithin, added, lines_of};
ghost use Rattle.assembler.specs.Held as held;
ghost use Rattle.assembler.specs.Seen.{seen_draft};
ghost use Rattle.assembler.specs.Sound.{IsSound, most_text};
ghost use Rattle.assembler.specs.Told.{Tells};

use crate::cursor::{after, offset_of, sound_line, start};
use crate::draft::{Draft, put_line};
use crate::faults::fault_of;
use crate::labels::{Labels, Mark};
use crate::symbols::{Spot, SymbolTable};
use asm_text::{AsmFault, Cursor, Kind, Line, cut_at, is_local};
use mx_base::OutOfMemory;
use std::alloc::Global;

/// The labels of lines, and the symbols that they are.
#[derive(Drop)]
pub struct Found {
    pub labels: Labels,
    pub symbols: SymbolTable,
}

/// Notes the label that a line defines, if its name has none yet.
#[tactic(auto, using(crate::proofs::LabelLemmas::unlabelled))]
fn note(found: &mut Found, at: Cursor, l: &Line) -> Result<(), OutOfMemory>
    requires { found.old.symbols ≡ spec.labelled found.old.labels }
    ensures labels { OnOk result (found.new.labels ≡ spec.with_label found.old.labels (held.placed_at at l.now)) }
    ensures symbols { OnOk result (found.new.symbols ≡ spec.labelled found.new.labels) }
{
    let Kind::Label = l.kind else {
        return Ok(());
    };
    if found.labels.find(l.name).is_some() {
        return Ok(());
    }
    let offset = offset_of(at);
    found.labels.add(
        l.name,
        Mark {
            in_data: at.in_data,
            offset,
            line: at.line,
        },
    )?;
    if !is_local(l.name) {
        let part = if at.in_data { 2 } else { 1 };
        found.symbols.add(l.name, Spot { part, offset })?;
    }
    Ok(())
}

/// The labels of a text, and the symbols that they are.
pub fn found_in(alloc: Global, text: &[u8]) -> Result<Found, OutOfMemory>
    requires { length text.now ≤ most_text }
    ensures labels { IfOk result (λ found. found.labels ≡ spec.labels_of (lines_of text.now)) }
    ensures symbols { IfOk result (λ found. found.symbols ≡ spec.labelled found.labels) }
{
    let mut found = Found {
        labels: Labels::new(alloc),
        symbols: SymbolTable::new(alloc),
    };
    let mut at = start();
    let mut left = Some(text);
    while let Some(rest) = left {
        let cut = cut_at(rest, b'\n');
        let line = sound_line(at.in_data, cut.part);
        note(&mut found, at, &line)?;
        at = after(at, &line);
        left = cut.more;
    }
    Ok(found)
}

/// Puts a line down, or tells why it is refused. `defined` is the number of labels that are symbols.
fn add_line(
    d: &mut Draft,
    labels: &Labels,
    defined: usize,
    at: Cursor,
    l: &Line,
) -> Result<(), AsmFault>
    requires sound { IsSound at.in_data (seen_line l.now) }
    requires distinct { held.AreDistinct labels.now }
    requires defined { (defined ≡ length (spec.labelled labels.now)) × (defined ≤ held.most_lines) }
    requires small { held.IsSmall at }
    requires few { at.line < held.most_lines }
    requires within { IsWithin labels.now at (seen_draft d.old) }
    ensures told { Tells (λ _. seen_draft d.new) result (added labels.now (seen_draft d.old) (held.placed_at at l.now)) }
    ensures within { OnOk result (IsWithin labels.now (spec.after at l.now.kind) (seen_draft d.new)) }
{
    if let Some(kind) = fault_of(labels, defined, d, at, l) {
        return Err(AsmFault::Line {
            line: at.line,
            kind,
        });
    }
    put_line(d, labels, at, l)?;
    Ok(())
}

/// Puts the lines of a text down, up to the first that is refused.
pub fn put_lines(d: &mut Draft, labels: &Labels, text: &[u8]) -> Result<(), AsmFault>
    requires few { length text.now ≤ most_text }
    requires labels { labels.now ≡ spec.labels_of (lines_of text.now) }
    requires bare { seen_draft d.old ≡ spec.nothing labels.now }
    ensures { Tells (λ _. seen_draft d.new) result (spec.drafted labels.now (spec.nothing labels.now) (lines_of text.now)) }
{
    let defined = d.symbols.len();
    let mut at = start();
    let mut left = Some(text);
    while let Some(rest) = left {
        let cut = cut_at(rest, b'\n');
        let line = sound_line(at.in_data, cut.part);
        add_line(d, labels, defined, at, &line)?;
        at = after(at, &line);
        left = cut.more;
    }
    Ok(())
}
