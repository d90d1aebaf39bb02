//! What the product asks of the outside: files by name, one source of bytes, and sinks of bytes.
//!
//! Each kind of call that can fail has a count of its faults. A call answers `Failed` only where its count rose in that
//! call, and a count grows in no other call. What an object holds may be known to a proof ("told") or not: an object
//! over memory tells, and one over real files tells nothing.
ghost use Rattle.std.specs.Prelude.{◌≡◌, ◌≢◌, ℕ, List, Option, IsErr, OnOk, OnErr};
ghost use Rattle.mx_base.specs.Outside.{FileFacts, Untold, Reads, HoldsWhereTold, KeepsWhereTold, Takes, Puts, Counts};
ghost use Rattle.mx_base.specs.Guests.{TellsBytes};

use std::error::Error;
use std::fmt;

/// A call of the outside failed, and its count of faults rose.
#[derive(Clone, Copy, Debug, PartialEq, Eq)]
pub struct Failed;

impl fmt::Display for Failed {
    ghost use Rattle.std.specs.Prelude.{Some, codes};

    ghost output = { λ _. Some (codes "a call of the outside failed") };

    fn fmt<W: fmt::Write>(&self, f: &mut fmt::Formatter<W>) -> fmt::Result {
        f.write_str("a call of the outside failed")
    }
}

impl Error for Failed {}

/// Files by name. A proof sees what is told of each name: nothing, that no file has it, or the file's bytes.
pub trait Files {
    ghost contents: { Self → List ℕ → FileFacts };

    ghost read_faults: { Self → ℕ };

    ghost write_faults: { Self → ℕ };

    /// Reads bytes of the file `name` from the offset `at` on into the front of `buf`, and answers how many: 0 for a
    /// buffer that is not empty is the end of the file. `None` says that no file has the name.
    fn read_at(&mut self, name: &str, at: u64, buf: &mut [u8]) -> Result<Option<usize>, Failed>
        ensures answer { Reads (contents self.old name.now) at buf.new result }
        ensures contents { (n : List ℕ) → contents self.new n ≡ contents self.old n }
        ensures read_faults { Counts result (read_faults self.old) (read_faults self.new) }
        ensures write_faults { write_faults self.new ≡ write_faults self.old };

    /// Makes `bytes` the contents of the file `name`, whether or not there is one. A refused write leaves that one file
    /// untold.
    fn write_all(&mut self, name: &str, bytes: &[u8]) -> Result<(), Failed>
        ensures written { OnOk result (HoldsWhereTold (contents self.new name.now) bytes.now) }
        ensures refused { OnErr result (contents self.new name.now ≡ Untold) }
        ensures others { (n : List ℕ) → n ≢ name.now → KeepsWhereTold (contents self.old n) (contents self.new n) }
        ensures read_faults { read_faults self.new ≡ read_faults self.old }
        ensures write_faults { Counts result (write_faults self.old) (write_faults self.new) };

    /// How many calls of `read_at` failed, as far as a `u64` counts.
    fn read_faults(&self) -> u64
        ensures { result ≡ read_faults self.now };

    /// How many calls of `write_all` failed, as far as a `u64` counts.
    fn write_faults(&self) -> u64
        ensures { result ≡ write_faults self.now };
}

/// A source of bytes, as standard input. A proof sees the bytes that are left, where they are told.
pub trait Source {
    ghost left: { Self → Option (List ℕ) };

    ghost faults: { Self → ℕ };

    /// Takes the first of the bytes left into the front of `buf`, and answers how many: 0 for a buffer that is not empty
    /// is the end. A refused call leaves the bytes left as they were.
    fn take(&mut self, buf: &mut [u8]) -> Result<usize, Failed>
        ensures answer { Takes (left self.old) (left self.new) buf.new result }
        ensures faults { Counts result (faults self.old) (faults self.new) };

    /// How many calls of `take` failed, as far as a `u64` counts. What is told of the bytes left is bytes.
    fn faults(&self) -> u64
        ensures count { result ≡ faults self.now }
        ensures bytes { TellsBytes (left self.now) };
}

/// A sink of bytes, as standard output. A proof sees the bytes that it holds, where they are told.
pub trait Sink {
    ghost held: { Self → Option (List ℕ) };

    ghost faults: { Self → ℕ };

    /// Adds the first bytes of the piece to the bytes held, and answers how many, at least one if the piece has any. A
    /// refused call has taken nothing.
    fn put(&mut self, bytes: &[u8]) -> Result<usize, Failed>
        ensures answer { Puts (held self.old) (held self.new) bytes.now result }
        ensures faults { Counts result (faults self.old) (faults self.new) };

    /// How many calls of `put` failed, as far as a `u64` counts.
    fn faults(&self) -> u64
        ensures { result ≡ faults self.now };
}
