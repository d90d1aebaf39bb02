//! Objects and their parts.

ghost use Rattle.std.specs.Prelude.{◌≡◌};

use crate::lists::{Bytes, Text};
use std::marker::Model;

/// A compiled source or assembled text, to be linked.
#[derive(Drop)]
pub struct Object {
    /// Legacy code, which has no checks; otherwise instrumented code.
    pub legacy: bool,
    /// The name of the source, or nothing.
    pub file: Text,
    pub code: Bytes,
    /// The data.
    pub stored: Bytes,
    pub symbols: Symbols,
    pub fixes: Fixes,
    pub places: Spots3,
}

/// A name, with its signature: an import, or an offset in a part.
#[derive(Drop)]
pub struct Symbol {
    /// 0 import, 1 code, 2 data.
    pub part: u8,
    pub offset: u32,
    pub name: Text,
    pub sig: Text,
}

/// A field that the linker fills.
#[derive(Clone, Copy, Debug, PartialEq, Eq, Drop)]
pub struct Fix {
    /// 1 code, 2 data.
    pub part: u8,
    pub offset: u32,
    /// 0 absolute in 64 bits, 1 absolute and 2 relative, signed in 32 bits.
    pub form: u8,
    /// The number of the symbol whose address it takes.
    pub symbol: u32,
    pub addend: i64,
}

/// The place in the source of the instruction at an offset of the code: line and column from 1, and the access that it checks.
#[derive(Clone, Copy, Debug, PartialEq, Eq, Drop)]
pub struct Spot3 {
    pub offset: u32,
    pub line: u32,
    pub col: u32,
    /// 0 unknown, 1 read, 2 write.
    pub kind: u8,
    /// How many bytes are accessed, 1 to 16,777,216; 0 where the kind is unknown.
    pub size: u32,
}

/// Symbols in order.
#[derive(Drop)]
pub struct Symbols {
    items: Vec<Symbol>,
}

impl Model for Symbols {
    ghost use Rattle.std.specs.Prelude.{List};
    ghost use Rattle.obj_file.specs.declared.object.Symbol.{Symbol};

    ghost Value = { List Symbol };

    ghost view = { λ held. held.items.items };
}

impl Symbols {
    pub fn from_vec(items: Vec<Symbol>) -> Symbols
        ensures { result ≡ items.items }
    {
        Symbols { items }
    }

    pub fn as_slice(&self) -> &[Symbol]
        ensures { result.now ≡ self.now }
    {
        self.items.as_slice()
    }

    pub fn into_vec(self) -> Vec<Symbol>
        ensures { result.items ≡ self }
    {
        self.items
    }
}

/// Fix-ups in order of their fields.
#[derive(Drop)]
pub struct Fixes {
    items: Vec<Fix>,
}

impl Model for Fixes {
    ghost use Rattle.std.specs.Prelude.{List};
    ghost use Rattle.obj_file.specs.declared.object.Fix.{Fix};

    ghost Value = { List Fix };

    ghost view = { λ held. held.items.items };
}

impl Fixes {
    pub fn from_vec(items: Vec<Fix>) -> Fixes
        ensures { result ≡ items.items }
    {
        Fixes { items }
    }

    pub fn as_slice(&self) -> &[Fix]
        ensures { result.now ≡ self.now }
    {
        self.items.as_slice()
    }

    pub fn into_vec(self) -> Vec<Fix>
        ensures { result.items ≡ self }
    {
        self.items
    }
}

/// Places in order of their offsets.
#[derive(Drop)]
pub struct Spots3 {
    items: Vec<Spot3>,
}

impl Model for Spots3 {
    ghost use Rattle.std.specs.Prelude.{List};
    ghost use Rattle.obj_file.specs.declared.object.Spot3.{Spot3};

    ghost Value = { List Spot3 };

    ghost view = { λ held. held.items.items };
}

impl Spots3 {
    pub fn from_vec(items: Vec<Spot3>) -> Spots3
        ensures { result ≡ items.items }
    {
        Spots3 { items }
    }

    pub fn as_slice(&self) -> &[Spot3]
        ensures { result.now ≡ self.now }
    {
        self.items.as_slice()
    }

    pub fn into_vec(self) -> Vec<Spot3>
        ensures { result.items ≡ self }
    {
        self.items
    }
}
