//! Files in memory, which have all their room from the start.
ghost use Rattle.std.specs.Prelude.{◌≡◌, ℕ, Some, length, min, take, is_some, if◌then◌else◌, IfOk, ◌↔◌, IsTrue};
ghost use Rattle.std.specs.List.{position};
ghost use Rattle.std.specs.Option.{option_map};
ghost use Rattle.mx_base.specs.Front.{laid_over};
ghost use Rattle.mx_base.specs.Shelf.{shelf_of, is_named, file_named, with_file, with_untold, has_room, bytes_from, IsPlaceOf};

use super::front::copy_front;
use super::memory::OutOfMemory;
use super::slot::Slot;
use std::alloc::Global;
use std::marker::Model;

/// As many slots as names may be held, of which the first `used` hold one.
#[derive(Drop)]
pub struct Shelf {
    slots: Vec<Slot>,
    used: usize,
    each: usize,
}

impl Model for Shelf {
    ghost use Rattle.std.specs.Prelude.{◌≡◌, ◌≤◌, length, map, take, All};
    ghost use Rattle.mx_base.specs.Shelf.{ShelfState};

    ghost Value = { ShelfState };

    ghost view = { λ s. record { held = map (λ t. t.file) (take s.used s.slots.items); files = length s.slots.items; each = s.each } };

    ghost invariant = { λ s. (s.used ≤ length s.slots.items) × All (λ t. t.each ≡ s.each) s.slots.items };
}

impl Shelf {
    /// Room for this many names with at most `each` bytes each, all of it taken at once.
    pub fn make(alloc: Global, files: usize, each: usize) -> Result<Shelf, OutOfMemory>
        ensures { IfOk result (λ s. s ≡ shelf_of files each) }
    {
        let mut slots = Vec::with_capacity(alloc, files)?;
        for _made in 0..files {
            slots.push(Slot::make(alloc, each)?)?;
        }
        Ok(Shelf {
            slots,
            used: 0,
            each,
        })
    }

    /// Copies bytes of the file from the offset `at` on into the front of `buf`, and answers how many.
    pub fn read(&self, name: &[u8], at: u64, buf: &mut [u8]) -> Option<usize>
        ensures count { result ≡ option_map (λ f. min (length (bytes_from (Some f) at)) (length buf.old)) (file_named self.now.held name.now) }
        ensures copied { buf.new ≡ laid_over (bytes_from (file_named self.now.held name.now) at) buf.old }
    {
        let slot = &self.slots[self.place(name)?];
        let from = at.min(slot.bytes.len() as u64) as usize;
        Some(copy_front(&slot.bytes[from..], buf))
    }

    /// Makes `bytes` the contents of the file, where there is room, and answers whether there is.
    pub fn write(&mut self, name: &[u8], bytes: &[u8]) -> bool
        ensures room { result ≡ has_room self.old name.now bytes.now }
        ensures written { self.new ≡ (if result then record self.old { held = with_file self.old.held name.now bytes.now } else self.old) }
    {
        if name.len() > 255 || bytes.len() > self.each {
            return false;
        }
        match self.place(name) {
            Some(place) => self.slots[place].fill(name, bytes),
            None => {
                if self.used == self.slots.len() {
                    return false;
                }
                self.slots[self.used].fill(name, bytes);
                self.used += 1;
            }
        }
        true
    }

    /// Tells the bytes of this name no more, and answers whether it is held.
    pub fn untell(&mut self, name: &[u8]) -> bool
        ensures held { result ≡ is_some (file_named self.old.held name.now) }
        ensures untold { self.new ≡ record self.old { held = with_untold self.old.held name.now } }
    {
        match self.place(name) {
            Some(place) => {
                self.slots[place].told = false;
                true
            }
            None => false,
        }
    }

    /// Where the slot of this name stands.
    fn place(&self, name: &[u8]) -> Option<usize>
        ensures { IsPlaceOf self.now.held name.now result }
    {
        place_of(&self.slots[..self.used], name)
    }
}

/// The place of the first slot of this name.
fn place_of(slots: &[Slot], name: &[u8]) -> Option<usize>
    ensures { result ≡ position (λ s. is_named name.now s.file) slots.now }
{
    slots.iter().position(|slot| slot.has_name(name))
}
