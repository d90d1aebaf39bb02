//! Bounds as 16 bytes of memory: the lower bound, and the upper one in one's complement form.
ghost use Rattle.std.specs.Prelude.{◌≡◌, ℕ, ◌+◌, ◌<◌, ◌≤◌, ◌++◌, false, slice_range, IfErr, OnErr};
ghost use Rattle.std.specs.Int.{w64, from_le_bytes, to_le_bytes};
ghost use Rattle.x86_forms.specs.Requests.{Reads, Writes, Ends};
ghost use Rattle.x86_forms.specs.Table.{at_next, with_bnd, from_stored, as_stored};
ghost use Rattle.mpx_core.specs.Registers.{bounds_of, with_status};
ghost use Rattle.mpx_core.specs.Steps.{Beside, seen, Does, status_of};

use crate::registers::{BndRegs, BndStop, set_register, word_of};
use paged_memory::Memory;

/// The number in the 8 bytes from a place on.
fn word_at(bytes: &[u8; 16], from: usize) -> u64
    requires { from + 8 ≤ 16 }
    ensures { result ≡ from_le_bytes w64 (slice_range bytes.now from (from + 8)) }
{
    let mut word = [0u8; 8];
    word.copy_from_slice(&bytes[from..from + 8]);
    u64::from_le_bytes(word)
}

/// The bytes of two numbers, one behind the other.
fn two_words(first: u64, second: u64) -> [u8; 16]
    ensures { result ≡ to_le_bytes w64 first ++ to_le_bytes w64 second }
{
    let mut bytes = [0u8; 16];
    bytes[..8].copy_from_slice(&first.to_le_bytes());
    bytes[8..].copy_from_slice(&second.to_le_bytes());
    bytes
}

/// BNDMOV from memory.
pub fn load_bounds(b: &mut BndRegs, m: &Memory, k: u8, at: u64) -> Result<(), BndStop>
    requires { k < 4 }
    ensures row { (s : Beside) (regs : ℕ → ℕ) (next : ℕ) → Does s regs next b.old m.now (Reads at 16 false (λ v. Ends (with_bnd (at_next (seen s regs b.old) next) k (from_stored v)))) b.new m.now result }
    ensures kept { IfErr result (λ e. b.new ≡ with_status b.old (status_of e b.old.status)) }
    ensures cfg { b.new.cfg ≡ b.old.cfg }
{
    let mut bytes = [0u8; 16];
    match m.read(at, &mut bytes) {
        Ok(()) => {
            set_register(b, k, word_at(&bytes, 0), word_at(&bytes, 8));
            Ok(())
        }
        Err(stop) => Err(BndStop::Stop(stop)),
    }
}

/// BNDMOV to memory.
pub fn store_bounds(b: &BndRegs, m: &mut Memory, k: u8, at: u64) -> Result<(), BndStop>
    requires { k < 4 }
    ensures row { (s : Beside) (regs : ℕ → ℕ) (next : ℕ) → Does s regs next b.now m.old (Writes at 16 (as_stored (bounds_of b.now k)) false (Ends (at_next (seen s regs b.now) next))) b.now m.new result }
    ensures kept { IfErr result (λ e. b.now ≡ with_status b.now (status_of e b.now.status)) }
    ensures refused { OnErr result (m.new ≡ m.old) }
{
    let lb = word_of(&b.lb, k);
    let held = word_of(&b.held, k);
    match m.write(at, &two_words(lb, held)) {
        Ok(()) => Ok(()),
        Err(stop) => Err(BndStop::Stop(stop)),
    }
}
