//! One table for one directory entry.
ghost use Rattle.std.specs.Prelude.{◌≡◌, ◌+◌, ◌≤◌, ◌%◌, ◌↔◌, Err, IsTrue, OnOk, OnErr};
ghost use Rattle.mx_base.specs.BoundsStore.{most_tables};
ghost use Rattle.mx_base.specs.Walk.{next_entry};
ghost use Rattle.paged_memory.specs.Paged.{bytes_of};
ghost use Rattle.br_runtime.specs.Serving.{is_directory_entry, named_entry, Serves};

use crate::refusals::Serve;
use paged_memory::{MemStop, Memory};

/// How many tables may be made: their region has room for no more.
const MOST_TABLES: u32 = 1024;

/// How many tables were made.
#[derive(Clone, Copy, Debug, PartialEq, Eq)]
pub struct Tables {
    pub made: u32,
}

/// The directory entry of the next table: its address, with the lowest bit set.
#[tactic(auto, unfolding(mx_base::specs::Walk::next_entry))]
fn entry_of_next(made: u32) -> u64
    ensures { result ≡ next_entry made }
{
    0x5000_0000_0001 + 0x40_0000 * u64::from(made)
}

/// Puts the next table into the directory entry that the status register names with code 2. Tables stand in order from
/// 0x500000000000 on, 4 MB each. `NoTable` comes exactly where 1,024 were made.
pub fn serve(m: &mut Memory, t: &mut Tables, status: u64) -> Result<(), Serve>
    requires code { status % 4 ≡ 2 }
    requires entry { IsTrue (is_directory_entry (named_entry status)) }
    requires few { t.old.made ≤ most_tables }
    ensures answer { Serves (named_entry status) t.old.made m.old m.new result }
    ensures no_table { (result ≡ Err Serve.NoTable) ↔ (t.old.made ≡ most_tables) }
    ensures made { OnOk result (t.new.made ≡ t.old.made + 1) }
    ensures refused { OnErr result ((m.new ≡ m.old) × (t.new ≡ t.old)) }
{
    if t.made >= MOST_TABLES {
        return Err(Serve::NoTable);
    }
    match m.store(status - 2, 8, entry_of_next(t.made)) {
        Ok(()) => {
            t.made += 1;
            Ok(())
        }
        Err(MemStop::NoFrames { in_use, capacity }) => Err(Serve::NoFrames { in_use, capacity }),
        Err(MemStop::Unmapped(_)) => unreachable!(),
    }
}
