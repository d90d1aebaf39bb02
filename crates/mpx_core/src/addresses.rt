//! The addresses of operands.
ghost use Rattle.std.specs.Prelude.{◌≡◌, IsTrue, slice_index};
ghost use Rattle.x86_forms.specs.Processor.{index_register, pointer_address};
ghost use Rattle.x86_forms.specs.Validity.{mem_ok, index_ok, rm_ok};
ghost use Rattle.mpx_core.specs.Operands.{value_checked};

use x86_forms::{Mem, Reg, Rm, address_of, base_of};

/// The address of the pointer in the operand of BNDLDX and BNDSTX: base and displacement alone.
#[tactic(auto, unfolding(x86_forms::specs::Processor::pointer_address))]
#[inline(always)]
pub fn pointer_of(regs: &[u64; 16], next: u64, m: Mem) -> u64
    requires { IsTrue (mem_ok m) }
    ensures { result ≡ pointer_address (slice_index regs.now) next m }
{
    base_of(regs, next, m.base, m.index).wrapping_add(i64::from(m.disp).cast_unsigned())
}

/// The value of the pointer: the index register, 0 where there is none.
#[inline(always)]
pub fn pointer_value(regs: &[u64; 16], index: Option<(Reg, u8)>) -> u64
    requires { IsTrue (index_ok index) }
    ensures { result ≡ index_register (slice_index regs.now) index }
{
    match index {
        None => 0,
        Some((r, _)) => regs[r.0 as usize],
    }
}

/// The value that a bounds check compares: a register's, or the address of a memory operand.
#[inline(always)]
pub fn operand_value(regs: &[u64; 16], next: u64, rm: Rm) -> u64
    requires { IsTrue (rm_ok rm) }
    ensures { result ≡ value_checked (slice_index regs.now) next rm }
{
    match rm {
        Rm::Reg(r) => regs[r.0 as usize],
        Rm::Mem(m) => address_of(regs, next, m),
    }
}
