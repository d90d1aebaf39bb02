//! Where the table entry of an address stands.
ghost use Rattle.std.specs.Prelude.{◌≡◌, IsTrue};
ghost use Rattle.mx_base.specs.Memory.{number_at};
ghost use Rattle.mx_base.specs.Walk.{walk, directory_entry_at, table_entry_at};
ghost use Rattle.paged_memory.specs.Paged.{bytes_of};
ghost use Rattle.bound_tables.specs.Walks.{is_configuration, at_place};

use paged_memory::{MemStop, Memory};

/// Why a walk gives no table entry, or the access of the entry is refused.
#[derive(Clone, Copy, Debug, PartialEq, Eq)]
pub enum Walk {
    /// The directory entry at this address names no table: its lowest bit is 0.
    Invalid { entry: u64 },
    /// The address has no bounds, or the memory refused the access of the table entry.
    Stop(MemStop),
}

/// Where the directory entry of an address stands.
#[tactic(auto, unfolding(mx_base::specs::Walk::directory_entry_at))]
#[inline(always)]
fn directory_entry(cfg: u64, la: u64) -> u64
    requires { IsTrue (is_configuration cfg) }
    ensures { result ≡ directory_entry_at cfg la }
{
    cfg / 0x1000 * 0x1000 + la / 0x10_0000 % 0x1000_0000 * 8
}

/// The directory entry there.
#[inline(always)]
fn entry_word(m: &Memory, cfg: u64, la: u64) -> u64
    requires { IsTrue (is_configuration cfg) }
    ensures { result ≡ number_at 8 (bytes_of m.now) (directory_entry_at cfg la) }
{
    match m.load(directory_entry(cfg, la), 8) {
        Ok(word) => word,
        Err(_) => unreachable!(),
    }
}

/// Where the table entry of an address stands in the table of this directory entry.
#[tactic(auto, unfolding(mx_base::specs::Walk::table_entry_at))]
#[inline(always)]
fn place_in_table(entry: u64, la: u64) -> u64
    ensures { result ≡ table_entry_at entry la }
{
    (entry / 8 * 8).wrapping_add(la / 8 % 0x2_0000 * 32)
}

/// Where the table entry of an address stands.
#[tactic(auto, unfolding(mx_base::specs::Walk::walk))]
#[inline(always)]
pub fn table_entry(m: &Memory, cfg: u64, la: u64) -> Result<u64, Walk>
    requires { IsTrue (is_configuration cfg) }
    ensures { result ≡ at_place (walk (bytes_of m.now) cfg la) (λ at. Ok at) }
{
    if la >= 0x8000_0000_0000 {
        return Err(Walk::Stop(MemStop::Unmapped(la)));
    }
    let word = entry_word(m, cfg, la);
    if word % 2 == 1 {
        Ok(place_in_table(word, la))
    } else {
        Err(Walk::Invalid {
            entry: directory_entry(cfg, la),
        })
    }
}
