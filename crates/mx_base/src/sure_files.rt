ghost use Rattle.std.specs.Prelude.{◌≡◌, ◌≢◌, ℕ, List, length, IsOk, IfOk, OnOk, OnErr};
ghost use Rattle.mx_base.specs.Outside.{Untold, Reads, HoldsWhereTold, KeepsWhereTold, Counts};
ghost use Rattle.mx_base.specs.Front.{laid_over};
ghost use Rattle.mx_base.specs.Shelf.{file_named, bytes_from};
ghost use Rattle.mx_base.specs.SureFiles.{sure_files_of, files_told, sure_read_count, after_sure_write};

use super::externals::{Failed, Files};
use super::memory::OutOfMemory;
use super::shelf::Shelf;
use std::alloc::Global;
use std::marker::Model;

/// Files over memory that never fail. A write past the room is dropped whole: a new name where as many are held as may
/// be, a name over 255 bytes, or too many bytes. They tell their contents as long as nothing was dropped.
#[derive(Drop)]
pub struct SureFiles {
    shelf: Shelf,
    dropped: bool,
}

impl Model for SureFiles {
    ghost use Rattle.mx_base.specs.SureFiles.{SureFilesState};

    ghost Value = { SureFilesState };

    ghost view = { λ s. record { shelf = s.shelf; dropped = s.dropped } };
}

impl SureFiles {
    /// No files, with room for `files` names and `each` bytes of each. They take all their room at once.
    pub fn make(alloc: Global, files: usize, each: usize) -> Result<SureFiles, OutOfMemory>
        ensures { IfOk result (λ s. s ≡ sure_files_of files each) }
    {
        Ok(SureFiles {
            shelf: Shelf::make(alloc, files, each)?,
            dropped: false,
        })
    }
}

impl Files for SureFiles {
    ghost contents = { files_told };

    ghost read_faults = { λ _. 0 };

    ghost write_faults = { λ _. 0 };

    fn read_at(&mut self, name: &str, at: u64, buf: &mut [u8]) -> Result<Option<usize>, Failed>
        ensures answer { Reads (files_told self.old name.now) at buf.new result }
        ensures contents { (n : List ℕ) → files_told self.new n ≡ files_told self.old n }
        ensures read_faults { Counts result 0 0 }

        // It fills the buffer as far as the file has bytes.
        ensures most { result ≡ Ok (sure_read_count self.old name.now at (length buf.old)) }
        ensures filled { buf.new ≡ laid_over (bytes_from (file_named self.old.shelf.held name.now) at) buf.old }
        ensures kept { self.new ≡ self.old }
    {
        Ok(self.shelf.read(name.as_bytes(), at, buf))
    }

    fn write_all(&mut self, name: &str, bytes: &[u8]) -> Result<(), Failed>
        ensures written { OnOk result (HoldsWhereTold (files_told self.new name.now) bytes.now) }
        ensures refused { OnErr result (files_told self.new name.now ≡ Untold) }
        ensures others { (n : List ℕ) → n ≢ name.now → KeepsWhereTold (files_told self.old n) (files_told self.new n) }
        ensures write_faults { Counts result 0 0 }

        // It is always done, and drops what has no room.
        ensures always { IsOk result }
        ensures done { self.new ≡ after_sure_write self.old name.now bytes.now }
    {
        if !self.shelf.write(name.as_bytes(), bytes) {
            self.dropped = true;
        }
        Ok(())
    }

    fn read_faults(&self) -> u64 {
        0
    }

    fn write_faults(&self) -> u64 {
        0
    }
}
