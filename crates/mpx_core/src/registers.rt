//! The bounds registers.
ghost use Rattle.std.specs.Prelude.{◌≡◌, ◌<◌, ◌||◌, if◌then◌else◌, slice_index};
ghost use Rattle.mx_base.specs.Bounds.{complement};
ghost use Rattle.x86_forms.specs.Processor.{with_reg, with_bounds};
ghost use Rattle.x86_forms.specs.Table.{init_bounds};
ghost use Rattle.mpx_core.specs.Registers.{bounds_of, held_bounds, preserves};

use paged_memory::MemStop;

/// BND0 to BND3, each as its lower bound and its upper one in one's complement form; BNDCFGU and BNDSTATUS.
#[derive(Clone, Copy, Debug, PartialEq, Eq)]
pub struct BndRegs {
    pub lb: [u64; 4],
    pub held: [u64; 4],
    pub cfg: u64,
    pub status: u64,
}

/// Why an MPX instruction isn't done. The first two, which are #BR, set BNDSTATUS; nothing else changes.
#[derive(Clone, Copy, Debug, PartialEq, Eq)]
pub enum BndStop {
    /// The value lies outside the bounds on the side that was checked.
    Violation { value: u64, lb: u64, ub: u64 },
    /// The directory entry at this address names no table.
    Invalid { entry: u64 },
    /// The memory refused an access, or the address has no bounds.
    Stop(MemStop),
}

#[inline(always)]
fn set_word(words: &mut [u64; 4], k: u8, word: u64)
    requires { k < 4 }
    ensures { slice_index words.new ≡ with_reg (slice_index words.old) k word }
{
    words[k as usize] = word;
}

/// One of four words.
#[inline(always)]
pub fn word_of(words: &[u64; 4], k: u8) -> u64
    requires { k < 4 }
    ensures { result ≡ slice_index words.now k }
{
    words[k as usize]
}

/// Sets one bounds register.
#[inline(always)]
pub fn set_register(b: &mut BndRegs, k: u8, lb: u64, held: u64)
    requires { k < 4 }
    ensures bounds { bounds_of b.new ≡ with_bounds (bounds_of b.old) k (held_bounds lb held) }
    ensures cfg { b.new.cfg ≡ b.old.cfg }
    ensures status { b.new.status ≡ b.old.status }
{
    set_word(&mut b.lb, k, lb);
    set_word(&mut b.held, k, held);
}

/// The word in which a register holds its upper bound.
#[inline(always)]
pub fn held_word(b: &BndRegs, k: u8) -> u64
    requires { k < 4 }
    ensures { result ≡ complement (bounds_of b.now k).ub }
{
    word_of(&b.held, k)
}

/// What a near branch makes of the bounds registers: without the BND prefix all four allow every address, unless BNDPRESERVE is
/// set.
#[inline(always)]
pub fn branch(b: &mut BndRegs, prefixed: bool)
    ensures bounds { bounds_of b.new ≡ (if prefixed || preserves b.old.cfg then bounds_of b.old else init_bounds) }
    ensures cfg { b.new.cfg ≡ b.old.cfg }
    ensures status { b.new.status ≡ b.old.status }
{
    if prefixed || b.cfg / 2 % 2 == 1 {
        return;
    }
    b.lb = [0; 4];
    b.held = [0; 4];
}
