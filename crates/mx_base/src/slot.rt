//! A place for one file, which has all its room from the start.
ghost use Rattle.std.specs.Prelude.{◌≡◌, ℕ, false, [], length, ◌≤◌, vec_capacity, IfOk};
ghost use Rattle.std.specs.Str.{bytes_eq};
ghost use Rattle.mx_base.specs.Shelf.{new_file, is_named};
ghost use Rattle.mx_base.specs.Slot.{empty_slot};

use super::memory::OutOfMemory;
use std::alloc::Global;
use std::marker::Model;

/// A file, or a place for one: a name of at most 255 bytes, and at most `each` bytes.
#[derive(Drop)]
pub struct Slot {
    pub name: Vec<u8>,
    pub bytes: Vec<u8>,
    pub told: bool,
    each: usize,
}

impl Model for Slot {
    ghost use Rattle.std.specs.Prelude.{◌≤◌, vec_capacity};
    ghost use Rattle.mx_base.specs.Slot.{SlotState};

    ghost Value = { SlotState };

    ghost view = { λ s. record { file = record { name = s.name.items; bytes = s.bytes.items; told = s.told }; each = s.each } };

    ghost invariant = { λ s. (255 ≤ vec_capacity s.name) × (s.each ≤ vec_capacity s.bytes) };
}

impl Slot {
    /// An empty place for a file of at most `each` bytes.
    pub fn make(alloc: Global, each: usize) -> Result<Slot, OutOfMemory>
        ensures { IfOk result (λ s. s ≡ empty_slot each) }
    {
        Ok(Slot {
            name: Vec::with_capacity(alloc, 255)?,
            bytes: Vec::with_capacity(alloc, each)?,
            told: false,
            each,
        })
    }

    /// Whether the file has this name.
    pub fn has_name(&self, name: &[u8]) -> bool
        ensures { result ≡ is_named name.now self.now.file }
    {
        self.name.as_slice() == name
    }

    /// Makes it the file of this name with these bytes, which are told.
    pub fn fill(&mut self, name: &[u8], bytes: &[u8])
        requires name { length name.now ≤ 255 }
        requires bytes { length bytes.now ≤ self.old.each }
        ensures { self.new ≡ record { file = new_file name.now bytes.now; each = self.old.each } }
    {
        rewrite(&mut self.name, name);
        rewrite(&mut self.bytes, bytes);
        self.told = true;
    }
}

/// Puts these items in place of the old ones, for which there is room.
fn rewrite(items: &mut Vec<u8>, new: &[u8])
    requires { length new.now ≤ vec_capacity items.old }
    ensures items { items.new.items ≡ new.now }
    ensures capacity { vec_capacity items.old ≤ vec_capacity items.new }
{
    items.clear();
    items.extend_from_slice(new).unwrap();
}
