//! The numbers of symbols.

ghost use Rattle.std.specs.Prelude.{◌≡◌, ◌+◌, ℕ, [], ◌∷◌, List, IfOk, slice_set};
ghost use Rattle.c_tree.specs.declared.tree.Tree.{Tree};
ghost use Rattle.c_check.specs.declared.symbols.Subject.{Subject as Named};
ghost use Rattle.c_check.specs.declared.symbols.Subject.TheVariants.{Global as OfGlobal, Function as OfFunction};
ghost use Rattle.c_check.specs.Symbols.{symbols as symbols_of, named as named_by};
ghost use Rattle.steps_source.specs.Symbols.{named_in, numbered, placed_from};

use c_check::{Subject, Symbol};
use mx_base::OutOfMemory;
use sqlite_items::Items;
use std::alloc::Global;

/// The numbers of the symbols of a source: of each global and function by its number, and of its literals. What has no symbol has a number
/// of its own behind those of all symbols.
#[derive(Drop)]
pub struct SymbolNumbers {
    pub globals: Items<u32>,
    pub functions: Items<u32>,
    pub texts: u32,
}

/// The globals and functions that symbols name, up to the literals.
fn named_of(alloc: Global, symbols: &[Symbol]) -> Result<Items<Subject>, OutOfMemory>
    ensures { IfOk result (λ named. named ≡ named_in symbols.now) }
{
    let mut named = Items::new(alloc);
    for one in symbols {
        match one.subject {
            Subject::Literals => return Ok(named),
            Subject::Global(_) | Subject::Function(_) => named.push(one.subject)?,
        }
    }
    Ok(named)
}

/// A count of 32 bits.
fn number_of(count: usize) -> Result<u32, OutOfMemory>
    ensures { IfOk result (λ n. n ≡ count) }
{
    match u32::try_from(count) {
        Ok(n) => Ok(n),
        Err(_) => Err(OutOfMemory),
    }
}

fn plus(x: u32, more: u32) -> Result<u32, OutOfMemory>
    ensures { IfOk result (λ y. y ≡ x + more) }
{
    match x.checked_add(more) {
        Some(y) => Ok(y),
        None => Err(OutOfMemory),
    }
}

/// So many numbers, from one on.
fn numbers_behind(alloc: Global, behind: u32, count: u32) -> Result<Items<u32>, OutOfMemory>
    ensures { IfOk result (λ all. (subject : ℕ → Named) (at : ℕ) → all ≡ placed_from subject [] at behind 0 count) }
{
    let mut all = Items::new(alloc);
    'numbers: for first in 0..count {
        all.push(plus(behind, first)?)?;
    }
    Ok(all)
}

/// Sets a number, if there is one at this place.
fn set_number(all: &mut Items<u32>, at: u32, number: u32)
    ensures { all.new ≡ slice_set all.old at number }
{
    if (at as usize) < all.len() {
        all.set(at as usize, number);
    }
}

/// Gives what a symbol names the symbol's number.
#[tactic(auto, using(crate::proofs::SymbolLemmas::set_global, crate::proofs::SymbolLemmas::set_function, crate::proofs::SymbolLemmas::other_global, crate::proofs::SymbolLemmas::other_function))]
fn put_symbol(globals: &mut Items<u32>, functions: &mut Items<u32>, subject: Subject, at: u32)
    ensures globals { (rest : List Named) (behind count : ℕ) → globals.old ≡ placed_from OfGlobal rest (at + 1) behind 0 count → globals.new ≡ placed_from OfGlobal (subject ∷ rest) at behind 0 count }
    ensures functions { (rest : List Named) (behind count : ℕ) → functions.old ≡ placed_from OfFunction rest (at + 1) behind 0 count → functions.new ≡ placed_from OfFunction (subject ∷ rest) at behind 0 count }
{
    match subject {
        Subject::Global(n) => set_number(globals, n, at),
        Subject::Function(n) => set_number(functions, n, at),
        Subject::Literals => (),
    }
}

/// The numbers of so many globals and functions, by what symbols name in order.
fn numbers_of(
    alloc: Global,
    named: &[Subject],
    globals: u32,
    functions: u32,
) -> Result<SymbolNumbers, OutOfMemory>
    ensures { IfOk result (λ s. s ≡ numbered named.now globals functions) }
{
    let texts = number_of(named.len())?;
    let behind = plus(texts, 1)?;
    let last = plus(behind, globals)?;
    let mut of_globals = numbers_behind(alloc, behind, globals)?;
    let mut of_functions = numbers_behind(alloc, last, functions)?;
    let mut at = texts;
    'symbols: while at > 0 {
        at -= 1;
        put_symbol(&mut of_globals, &mut of_functions, named[at as usize], at);
    }
    Ok(SymbolNumbers {
        globals: of_globals,
        functions: of_functions,
        texts,
    })
}

/// The numbers of the symbols of a source with so many globals and functions. All its literals have one symbol, which is its last one.
pub fn symbol_numbers(
    alloc: Global,
    symbols: &[Symbol],
    globals: u32,
    functions: u32,
) -> Result<SymbolNumbers, OutOfMemory>
    ensures { (tree : Tree) → symbols.now ≡ symbols_of tree → IfOk result (λ s. s ≡ numbered (named_by tree) globals functions) }
{
    let before_literals = named_of(alloc, symbols)?;
    numbers_of(alloc, before_literals.as_slice(), globals, functions)
}
