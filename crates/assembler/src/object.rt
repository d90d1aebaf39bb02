//! The object of a text.

ghost use Rattle.std.specs.Prelude.{◌≡◌, ◌≤◌, ◌++◌, length, IfOk};
ghost use Rattle.asm_text.specs.Assembly.{assembled, object_of};
ghost use Rattle.obj_file.specs.Object.{IsObject};
ghost use Rattle.assembler.specs.Good.{drafted_text};
ghost use Rattle.assembler.specs.Held as held;
ghost use Rattle.assembler.specs.Seen.{seen_draft};
ghost use Rattle.assembler.specs.Sound.{most_text};
ghost use Rattle.assembler.specs.Told.{Tells};

use crate::draft::{Draft, draft_of};
use crate::lines::{found_in, put_lines};
use crate::symbols::SymbolTable;
use asm_text::AsmFault;
use mx_base::OutOfMemory;
use obj_file::{Bytes, Fixes, Object, Spots3, Symbol, Symbols, Text};
use std::alloc::Global;

/// The symbols of a table, in order.
fn symbols_of(alloc: Global, table: &SymbolTable) -> Result<Vec<Symbol>, OutOfMemory>
    requires { held.AreWritten table.now }
    ensures { IfOk result (λ symbols. symbols.items ≡ table.now) }
{
    let mut symbols = Vec::new(alloc);
    for number in 0..table.len() {
        symbols.push(table.at(number)?)?;
    }
    Ok(symbols)
}

/// The object of a draft.
fn built(alloc: Global, draft: Draft) -> Result<Object, OutOfMemory>
    requires { held.AreWritten draft.symbols }
    ensures { IfOk result (λ o. o ≡ object_of (seen_draft draft)) }
{
    let mut draft = draft;
    let symbols = symbols_of(alloc, &draft.symbols)?;
    draft
        .code_fixes
        .extend_from_slice(draft.stored_fixes.as_slice())?;
    Ok(Object {
        legacy: true,
        file: Text::from_string(String::new(alloc)),
        code: Bytes::from_vec(draft.code),
        stored: Bytes::from_vec(draft.stored),
        symbols: Symbols::from_vec(symbols),
        fixes: Fixes::from_vec(draft.code_fixes),
        places: Spots3::from_vec(Vec::new(alloc)),
    })
}

/// The draft of all lines of a text, or its first refused line and why.
fn drafted(alloc: Global, text: &[u8]) -> Result<Draft, AsmFault>
    requires { length text.now ≤ most_text }
    ensures { Tells seen_draft result (drafted_text text.now) }
{
    let found = found_in(alloc, text)?;
    let mut draft = draft_of(alloc, found.symbols);
    match put_lines(&mut draft, &found.labels, text) {
        Ok(()) => Ok(draft),
        Err(fault) => Err(fault),
    }
}

/// The object of a text, or its first refused line and why.
#[tactic(auto, unfolding(asm_text::specs::Assembly::assembled))]
pub fn assemble(alloc: Global, text: &[u8]) -> Result<Object, AsmFault>
    requires { length text.now ≤ most_text }
    ensures told { Tells (λ o. o) result (assembled text.now) }
    ensures formed { IfOk result IsObject }
{
    match drafted(alloc, text) {
        Ok(draft) => Ok(built(alloc, draft)?),
        Err(fault) => Err(fault),
    }
}
