//! One MPX instruction.
ghost use Rattle.std.specs.Prelude.{◌≡◌, ◌<◌, IsTrue, IfErr, OnErr, slice_index};
ghost use Rattle.bound_tables.specs.Walks.{is_configuration};
ghost use Rattle.x86_forms.specs.Table.{row};
ghost use Rattle.x86_forms.specs.Validity.{valid_of, bnd_rm_ok};
ghost use Rattle.mpx_core.specs.Registers.{with_status};
ghost use Rattle.mpx_core.specs.Steps.{Beside, seen, Does, is_bounds, status_of, taken};

use crate::addresses::{operand_value, pointer_of, pointer_value};
use crate::checks::check;
use crate::moves::{load_bounds, store_bounds};
use crate::registers::{BndRegs, BndStop, held_word, set_register};
use crate::tables::{load_from_table, store_to_table};
use paged_memory::Memory;
use x86_forms::{Instr, Rm, address_of, base_of};

/// Whether an instruction is of MPX, so that `step` does it.
#[inline(always)]
pub fn bounds(i: &Instr) -> bool
    ensures { result ≡ is_bounds i.now }
{
    matches!(
        i,
        Instr::Bndmk { .. }
            | Instr::Bndcl { .. }
            | Instr::Bndcu { .. }
            | Instr::Bndcn { .. }
            | Instr::BndmovTo { .. }
            | Instr::BndmovFrom { .. }
            | Instr::Bndldx { .. }
            | Instr::Bndstx { .. }
    )
}

/// BNDMOV from a bounds register or memory.
#[inline(always)]
fn move_from(
    b: &mut BndRegs,
    regs: &[u64; 16],
    next: u64,
    m: &Memory,
    k: u8,
    rm: Rm,
) -> Result<(), BndStop>
    requires register { k < 4 }
    requires operand { IsTrue (bnd_rm_ok rm) }
    ensures row { (s : Beside) → Does s (slice_index regs.now) next b.old m.now (taken (seen s (slice_index regs.now) b.old) next k rm) b.new m.now result }
    ensures kept { IfErr result (λ e. b.new ≡ with_status b.old (status_of e b.old.status)) }
    ensures cfg { b.new.cfg ≡ b.old.cfg }
{
    match rm {
        Rm::Reg(r) => {
            let lb = b.lb[r.0 as usize];
            let held = b.held[r.0 as usize];
            set_register(b, k, lb, held);
            Ok(())
        }
        Rm::Mem(at) => load_bounds(b, m, k, address_of(regs, next, at)),
    }
}

/// Does one MPX instruction over these registers, `next` being the address after it: exactly its row of the instruction table,
/// with the walk as the store of bounds. A step that isn't done changes nothing but BNDSTATUS, which a failed check sets to 1
/// and a directory entry that names no table to that entry's address plus 2.
#[inline(always)]
pub fn step(
    b: &mut BndRegs,
    regs: &[u64; 16],
    next: u64,
    m: &mut Memory,
    i: &Instr,
) -> Result<(), BndStop>
    requires valid { IsTrue (valid_of i.now) }
    requires bounds { IsTrue (is_bounds i.now) }
    requires configured { IsTrue (is_configuration b.old.cfg) }
    ensures row { (s : Beside) → Does s (slice_index regs.now) next b.old m.old (row i.now next (seen s (slice_index regs.now) b.old)) b.new m.new result }
    ensures kept { IfErr result (λ e. b.new ≡ with_status b.old (status_of e b.old.status)) }
    ensures refused { OnErr result (m.new ≡ m.old) }
    ensures cfg { b.new.cfg ≡ b.old.cfg }
{
    match *i {
        Instr::Bndmk { b: k, m: at } => {
            let lb = base_of(regs, next, at.base, at.index);
            let ub = address_of(regs, next, at);
            set_register(b, k, lb, u64::MAX - ub);
            Ok(())
        }
        Instr::Bndcl { b: k, rm } => {
            let value = operand_value(regs, next, rm);
            let fails = value < b.lb[k as usize];
            check(b, k, fails, value)
        }
        Instr::Bndcu { b: k, rm } => {
            let value = operand_value(regs, next, rm);
            let fails = value > u64::MAX - b.held[k as usize];
            check(b, k, fails, value)
        }
        Instr::Bndcn { b: k, rm } => {
            let value = operand_value(regs, next, rm);
            let fails = value > held_word(b, k);
            check(b, k, fails, value)
        }
        Instr::BndmovTo { b: k, m: at } => store_bounds(b, m, k, address_of(regs, next, at)),
        Instr::BndmovFrom { b: k, rm } => move_from(b, regs, next, m, k, rm),
        Instr::Bndldx { b: k, m: at } => {
            let la = pointer_of(regs, next, at);
            load_from_table(b, m, k, la, pointer_value(regs, at.index))
        }
        Instr::Bndstx { b: k, m: at } => {
            let la = pointer_of(regs, next, at);
            store_to_table(b, m, k, la, pointer_value(regs, at.index))
        }
        _ => unreachable!(),
    }
}
