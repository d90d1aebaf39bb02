//! Bounds from and to tables.
ghost use Rattle.std.specs.Prelude.{◌≡◌, ℕ, ◌<◌, IsTrue, IfErr, OnErr};
ghost use Rattle.bound_tables.specs.Walks.{is_configuration};
ghost use Rattle.x86_forms.specs.Requests.{Loads, Keeps, Ends};
ghost use Rattle.x86_forms.specs.Table.{at_next, with_bnd};
ghost use Rattle.mpx_core.specs.Registers.{bounds_of, with_status};
ghost use Rattle.paged_memory.specs.Framed.{framed_of};
ghost use Rattle.mpx_core.specs.Steps.{Beside, seen, Does, status_of, stop_of, status_after, IsLow, walked_keep, framed_result};

use crate::registers::{BndRegs, BndStop, set_register, word_of};
use bound_tables::{Entry, Walk, load_entry, store_entry};
use paged_memory::Memory;

/// A walk that gave no entry, as a stop. A directory entry that names no table is told in BNDSTATUS.
#[inline(never)]
fn refuse(b: &mut BndRegs, refusal: Walk) -> BndStop
    requires { IsLow refusal }
    ensures stop { result ≡ stop_of refusal }
    ensures after { b.new ≡ with_status b.old (status_after refusal b.old.status) }
{
    match refusal {
        Walk::Invalid { entry } => {
            b.status = entry + 2;
            BndStop::Invalid { entry }
        }
        Walk::Stop(stop) => BndStop::Stop(stop),
    }
}

/// BNDLDX: the bounds of the pointer of this value at address `la`; every address where another value's bounds are stored.
#[inline(always)]
pub fn load_from_table(
    b: &mut BndRegs,
    m: &Memory,
    k: u8,
    la: u64,
    value: u64,
) -> Result<(), BndStop>
    requires register { k < 4 }
    requires configured { IsTrue (is_configuration b.old.cfg) }
    ensures row { (s : Beside) (regs : ℕ → ℕ) (next : ℕ) → Does s regs next b.old m.now (Loads la value (λ x. Ends (with_bnd (at_next (seen s regs b.old) next) k x))) b.new m.now result }
    ensures kept { IfErr result (λ e. b.new ≡ with_status b.old (status_of e b.old.status)) }
    ensures cfg { b.new.cfg ≡ b.old.cfg }
{
    match load_entry(m, b.cfg, la) {
        Ok(e) => {
            if e.value == value {
                set_register(b, k, e.lb, e.held);
            } else {
                set_register(b, k, 0, 0);
            }
            Ok(())
        }
        Err(refusal) => Err(refuse(b, refusal)),
    }
}

/// A walk that puts bounds into its table entry.
#[inline(always)]
fn keep(b: &BndRegs, m: &mut Memory, k: u8, la: u64, value: u64) -> Result<(), Walk>
    requires register { k < 4 }
    requires configured { IsTrue (is_configuration b.now.cfg) }
    ensures answer { walked_keep b.now.cfg (framed_of m.old) la value (bounds_of b.now k) ≡ framed_result m.new result }
    ensures low { IfErr result IsLow }
    ensures refused { OnErr result (m.new ≡ m.old) }
{
    let lb = word_of(&b.lb, k);
    let held = word_of(&b.held, k);
    store_entry(m, b.cfg, la, Entry { lb, held, value })
}

/// BNDSTX: stores the bounds of the pointer of this value at address `la`.
#[inline(always)]
pub fn store_to_table(
    b: &mut BndRegs,
    m: &mut Memory,
    k: u8,
    la: u64,
    value: u64,
) -> Result<(), BndStop>
    requires register { k < 4 }
    requires configured { IsTrue (is_configuration b.old.cfg) }
    ensures row { (s : Beside) (regs : ℕ → ℕ) (next : ℕ) → Does s regs next b.old m.old (Keeps la value (bounds_of b.old k) (Ends (at_next (seen s regs b.old) next))) b.new m.new result }
    ensures kept { IfErr result (λ e. b.new ≡ with_status b.old (status_of e b.old.status)) }
    ensures refused { OnErr result (m.new ≡ m.old) }
    ensures cfg { b.new.cfg ≡ b.old.cfg }
{
    match keep(b, m, k, la, value) {
        Ok(()) => Ok(()),
        Err(refusal) => Err(refuse(b, refusal)),
    }
}
