//! The symbols of a draft, numbered in order and found by their names.

ghost use Rattle.std.specs.Prelude.{◌≡◌, ◌<◌, ◌^◌, true, [], ◌∷◌, ◌++◌, None, Some, length, map, slice_get, OnOk, IfOk};
ghost use Rattle.std.specs.Str.{is_utf8};
ghost use Rattle.std.specs.Option.{is_some};
ghost use Rattle.asm_text.specs.Assembly.{number_from, sig_of, signed};
ghost use Rattle.assembler.specs.Held as held;

use indexmap::IndexMap;
use mx_base::OutOfMemory;
use obj_file::{Symbol, Text};
use std::alloc::Global;
use std::marker::Model;
use std::str;

/// The part and offset of a symbol. Part 1 is code, 2 data; an import has part 0.
#[derive(Clone, Copy, Drop)]
pub struct Spot {
    pub part: u8,
    pub offset: u64,
}

/// Symbols in order, with the signatures that their names were given.
#[derive(Drop)]
pub struct SymbolTable {
    alloc: Global,
    names: IndexMap<Vec<u8>, Spot>,
    signs: IndexMap<Vec<u8>, Vec<u8>>,
}

impl Model for SymbolTable {
    ghost use Rattle.std.specs.Prelude.{List};
    ghost use Rattle.obj_file.specs.declared.object.Symbol.{Symbol};
    ghost use Rattle.assembler.specs.Held.{symbols_in, AreKnown};

    ghost Value = { List Symbol };

    ghost view = { λ t. symbols_in t.signs.entries t.names.entries };

    ghost invariant = { λ t. AreKnown t.signs.entries (symbols_in t.signs.entries t.names.entries) };
}

/// The signature that a name was given, or nothing.
fn sign_in<'a>(signs: &'a IndexMap<Vec<u8>, Vec<u8>>, name: &[u8]) -> &'a [u8]
    ensures { result.now ≡ held.sign_in signs.now.entries name.now }
{
    match signs.get(name) {
        Some(sig) => sig.as_slice(),
        None => &[],
    }
}

/// Bytes of a name or a signature, as a text.
fn text_of(alloc: Global, bytes: &[u8]) -> Result<Text, OutOfMemory>
    requires { is_utf8 bytes.now ≡ true }
    ensures { IfOk result (λ text. text ≡ bytes.now) }
{
    match str::from_utf8(bytes) {
        Ok(text) => Ok(Text::from_string(String::from_str(alloc, text)?)),
        Err(_) => unreachable!(),
    }
}

fn symbol_of(alloc: Global, name: &[u8], spot: Spot, sig: &[u8]) -> Result<Symbol, OutOfMemory>
    requires { held.IsWritten (held.symbol name.now spot sig.now) }
    ensures { IfOk result (λ s. s ≡ held.symbol name.now spot sig.now) }
{
    let name = text_of(alloc, name)?;
    let sig = text_of(alloc, sig)?;
    Ok(Symbol {
        part: spot.part,
        offset: spot.offset as u32,
        name,
        sig,
    })
}

impl SymbolTable {
    /// No symbols. It takes no memory.
    pub fn new(alloc: Global) -> SymbolTable
        ensures { result ≡ [] }
    {
        SymbolTable {
            alloc,
            names: IndexMap::new(alloc),
            signs: IndexMap::new(alloc),
        }
    }

    pub fn len(&self) -> usize
        ensures count { result ≡ length self.now }
        ensures small { result < 2 ^ 63 }
    {
        self.names.len()
    }

    /// The number of the symbol of a name.
    pub fn number(&self, name: &[u8]) -> Option<usize>
        ensures { result ≡ number_from name.now 0 self.now }
    {
        self.names.get_index_of(name)
    }

    /// One symbol more, of a name that has none.
    pub fn add(&mut self, name: &[u8], spot: Spot) -> Result<(), OutOfMemory>
        requires { number_from name.now 0 self.old ≡ None }
        ensures { OnOk result (self.new ≡ self.old ++ held.symbol name.now spot [] ∷ []) }
    {
        let key = Vec::from_slice(self.alloc, name)?;
        self.names.insert(key, spot)?;
        Ok(())
    }

    /// The signature of the symbol of a name, or nothing.
    pub fn sig(&self, name: &[u8]) -> &[u8]
        ensures { result.now ≡ sig_of self.now name.now }
    {
        sign_in(&self.signs, name)
    }

    /// Gives the symbol of a name a signature.
    pub fn sign(&mut self, name: &[u8], sig: &[u8]) -> Result<(), OutOfMemory>
        requires { is_some (number_from name.now 0 self.old) ≡ true }
        ensures { OnOk result (self.new ≡ map (signed name.now sig.now) self.old) }
    {
        let key = Vec::from_slice(self.alloc, name)?;
        let text = Vec::from_slice(self.alloc, sig)?;
        self.signs.insert(key, text)?;
        Ok(())
    }

    /// The symbol of a number, with its texts.
    pub fn at(&self, number: usize) -> Result<Symbol, OutOfMemory>
        requires within { number < length self.now }
        requires written { held.AreWritten self.now }
        ensures { IfOk result (λ s. slice_get self.now number ≡ Some s) }
    {
        let (name, spot) = self.names.get_index(number).unwrap();
        symbol_of(
            self.alloc,
            name.as_slice(),
            *spot,
            sign_in(&self.signs, name.as_slice()),
        )
    }
}
