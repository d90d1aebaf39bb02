ghost use Rattle.std.specs.Prelude.{◌≡◌, ◌≢◌, ℕ, List, length, ◌↔◌, IsTrue, IsErr, IfOk, OnOk, OnErr};
ghost use Rattle.mx_base.specs.Outside.{Untold, Reads, HoldsWhereTold, KeepsWhereTold, Counts};
ghost use Rattle.mx_base.specs.Calls.{is_to_fail};
ghost use Rattle.mx_base.specs.Front.{laid_over};
ghost use Rattle.mx_base.specs.Shelf.{file_named, bytes_from};
ghost use Rattle.mx_base.specs.MemFiles.{files_of, told_of, read_count, after_read, after_refused_read, refuses_write, after_write, after_refused_write};

use super::calls::Calls;
use super::externals::{Failed, Files};
use super::memory::OutOfMemory;
use super::shelf::Shelf;
use std::alloc::Global;
use std::marker::Model;

/// Files over memory, which tell their contents, but that a write that failed leaves its name untold; if that name is not
/// held, then from then on every name that is not held is untold. They fail exactly at the calls of `read_at` and
/// `write_all` that they were made to fail at, counted together from 0, and at a write past the room: a new name where as
/// many are held as may be, a name over 255 bytes, or too many bytes.
#[derive(Drop)]
pub struct MemFiles {
    shelf: Shelf,
    others_told: bool,
    calls: Calls,
    read_faults: u64,
    write_faults: u64,
}

impl Model for MemFiles {
    ghost use Rattle.mx_base.specs.MemFiles.{FilesState};

    ghost Value = { FilesState };

    ghost view = { λ s. record { shelf = s.shelf; others_told = s.others_told; calls = s.calls; read_faults = s.read_faults; write_faults = s.write_faults } };
}

impl MemFiles {
    /// No files, with room for `files` names and `each` bytes of each, whose calls with the numbers `fails` fail. They
    /// take all their room at once.
    pub fn make(
        alloc: Global,
        files: usize,
        each: usize,
        fails: &[u64],
    ) -> Result<MemFiles, OutOfMemory>
        ensures { IfOk result (λ s. s ≡ files_of files each fails.now) }
    {
        Ok(MemFiles {
            shelf: Shelf::make(alloc, files, each)?,
            others_told: true,
            calls: Calls::make(alloc, fails)?,
            read_faults: 0,
            write_faults: 0,
        })
    }
}

impl Files for MemFiles {
    ghost contents = { told_of };

    ghost read_faults = { λ s. s.read_faults };

    ghost write_faults = { λ s. s.write_faults };

    fn read_at(&mut self, name: &str, at: u64, buf: &mut [u8]) -> Result<Option<usize>, Failed>
        ensures answer { Reads (told_of self.old name.now) at buf.new result }
        ensures contents { (n : List ℕ) → told_of self.new n ≡ told_of self.old n }
        ensures read_faults { Counts result self.old.read_faults self.new.read_faults }
        ensures write_faults { self.new.write_faults ≡ self.old.write_faults }

        // It fails exactly at the calls that it was made to fail at, and then has changed nothing else.
        ensures fails { IsErr result ↔ IsTrue (is_to_fail self.old.calls) }
        ensures refused { OnErr result (self.new ≡ after_refused_read self.old) }
        ensures kept { OnErr result (buf.new ≡ buf.old) }

        // Otherwise it fills the buffer as far as the file has bytes.
        ensures most { IfOk result (λ n. n ≡ read_count self.old name.now at (length buf.old)) }
        ensures filled { OnOk result (buf.new ≡ laid_over (bytes_from (file_named self.old.shelf.held name.now) at) buf.old) }
        ensures done { OnOk result (self.new ≡ after_read self.old) }
    {
        if self.calls.count() {
            self.read_faults = self.read_faults.saturating_add(1);
            return Err(Failed);
        }
        Ok(self.shelf.read(name.as_bytes(), at, buf))
    }

    fn write_all(&mut self, name: &str, bytes: &[u8]) -> Result<(), Failed>
        ensures written { OnOk result (HoldsWhereTold (told_of self.new name.now) bytes.now) }
        ensures refused { OnErr result (told_of self.new name.now ≡ Untold) }
        ensures others { (n : List ℕ) → n ≢ name.now → KeepsWhereTold (told_of self.old n) (told_of self.new n) }
        ensures read_faults { self.new.read_faults ≡ self.old.read_faults }
        ensures write_faults { Counts result self.old.write_faults self.new.write_faults }

        // It fails exactly where it was made to, or there is no room.
        ensures fails { IsErr result ↔ IsTrue (refuses_write self.old name.now bytes.now) }
        ensures untold { OnErr result (self.new ≡ after_refused_write self.old name.now) }
        ensures done { OnOk result (self.new ≡ after_write self.old name.now bytes.now) }
    {
        let is_to_fail = self.calls.count();
        if is_to_fail || !self.shelf.write(name.as_bytes(), bytes) {
            self.write_faults = self.write_faults.saturating_add(1);
            let is_held = self.shelf.untell(name.as_bytes());
            self.others_told = self.others_told && is_held;
            return Err(Failed);
        }
        Ok(())
    }

    fn read_faults(&self) -> u64 {
        self.read_faults
    }

    fn write_faults(&self) -> u64 {
        self.write_faults
    }
}
