//! The bytes of text literals, which clauses see as a list.

ghost use Rattle.std.specs.Prelude.{◌≡◌, ◌∷◌, ◌++◌, [], OnOk, length, take};

use std::alloc::{AllocError, Global};
use std::marker::Model;

/// The bytes of text literals in order, each text with the byte 0 at its end.
#[derive(Drop)]
pub struct Literals {
    bytes: Vec<u8>,
}

impl Model for Literals {
    ghost use Rattle.std.specs.Prelude.{ℕ, List};

    ghost Value = { List ℕ };

    ghost view = { λ literals. literals.bytes.items };
}

impl Literals {
    /// No literals. It takes no memory.
    pub fn new(alloc: Global) -> Literals
        ensures { result ≡ [] }
    {
        Literals {
            bytes: Vec::new(alloc),
        }
    }

    pub fn as_slice(&self) -> &[u8]
        ensures { result.now ≡ self.now }
    {
        self.bytes.as_slice()
    }

    /// The number of bytes.
    pub fn len(&self) -> usize
        ensures { result ≡ length self.now }
    {
        self.bytes.len()
    }

    /// Puts a text and the byte 0 behind the others.
    pub fn push(&mut self, text: &[u8]) -> Result<(), AllocError>
        ensures { OnOk result (self.new ≡ self.old ++ (text.now ++ 0 ∷ [])) }
    {
        self.bytes.extend_from_slice(text)?;
        self.bytes.push(0)?;
        Ok(())
    }

    /// Keeps the first bytes alone.
    pub fn truncate(&mut self, count: usize)
        ensures { self.new ≡ take count self.old }
    {
        self.bytes.truncate(count);
    }
}
