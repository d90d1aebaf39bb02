//! Loads and stores of table entries.
ghost use Rattle.std.specs.Prelude.{◌≡◌, IsTrue, OnErr};
ghost use Rattle.paged_memory.specs.Paged.{bytes_of};
ghost use Rattle.bound_tables.specs.Walks.{is_configuration};
ghost use Rattle.bound_tables.specs.Entries.{loaded_at, stored_at, entry_loaded, entry_stored, place_of, WritesEntry};

use crate::parts::{three_words, word_at};
use crate::walks::{Walk, table_entry};
use paged_memory::Memory;

/// A table entry: the lower bound of a pointer, its upper bound in one's complement form, and the pointer's value. 8 more bytes
/// of a table entry are reserved, and no call writes them.
#[derive(Clone, Copy, Debug, PartialEq, Eq)]
pub struct Entry {
    pub lb: u64,
    pub held: u64,
    pub value: u64,
}

#[inline(always)]
fn read_entry(m: &Memory, at: u64) -> Result<Entry, Walk>
    ensures { result ≡ loaded_at (bytes_of m.now) at }
{
    let mut bytes = [0u8; 24];
    match m.read(at, &mut bytes) {
        Ok(()) => Ok(Entry {
            lb: word_at(&bytes, 0),
            held: word_at(&bytes, 8),
            value: word_at(&bytes, 16),
        }),
        Err(stop) => Err(Walk::Stop(stop)),
    }
}

#[inline(always)]
fn write_entry(m: &mut Memory, at: u64, e: Entry) -> Result<(), Walk>
    ensures answer { WritesEntry at (stored_at (bytes_of m.old) e at) m.old m.new result }
    ensures refused { OnErr result (m.new ≡ m.old) }
{
    match m.write(at, &three_words(e.lb, e.held, e.value)) {
        Ok(()) => Ok(()),
        Err(stop) => Err(Walk::Stop(stop)),
    }
}

/// The table entry of the pointer at address `la`, by the configuration register. It is refused as `Invalid` exactly where
/// `la` is below 2^47 and the directory entry names no table, and as `Unmapped` at `la` exactly where that is 2^47 or more, or
/// at the first of the entry's 24 bytes that is in no region.
#[inline(always)]
pub fn load_entry(m: &Memory, cfg: u64, la: u64) -> Result<Entry, Walk>
    requires { IsTrue (is_configuration cfg) }
    ensures { result ≡ entry_loaded (bytes_of m.now) cfg la }
{
    match table_entry(m, cfg, la) {
        Ok(at) => read_entry(m, at),
        Err(refusal) => Err(refusal),
    }
}

/// Makes this the table entry of the pointer at address `la`. It is refused as `load_entry`, but that the bytes have to be
/// writable, and as `NoFrames` exactly where they are and the memory has too few frames for their pages. A refused call
/// changes nothing.
#[inline(always)]
pub fn store_entry(m: &mut Memory, cfg: u64, la: u64, e: Entry) -> Result<(), Walk>
    requires { IsTrue (is_configuration cfg) }
    ensures answer { WritesEntry (place_of (bytes_of m.old) cfg la) (entry_stored (bytes_of m.old) cfg la e) m.old m.new result }
    ensures refused { OnErr result (m.new ≡ m.old) }
{
    match table_entry(m, cfg, la) {
        Ok(at) => write_entry(m, at, e),
        Err(refusal) => Err(refusal),
    }
}
