//! Bounds checks.
ghost use Rattle.std.specs.Prelude.{◌≡◌, ℕ, ◌<◌, IfErr};
ghost use Rattle.paged_memory.specs.Paged.{Paged};
ghost use Rattle.x86_forms.specs.Table.{checked};
ghost use Rattle.mpx_core.specs.Registers.{bounds_of, with_status};
ghost use Rattle.mpx_core.specs.Steps.{Beside, seen, Does, status_of};

use crate::registers::{BndRegs, BndStop};

/// A check of a value against a bounds register, which fails or not. A failed one sets BNDSTATUS to 1.
#[inline(always)]
pub fn check(b: &mut BndRegs, k: u8, fails: bool, value: u64) -> Result<(), BndStop>
    requires { k < 4 }
    ensures row { (s : Beside) (regs : ℕ → ℕ) (next : ℕ) (m : Paged) → Does s regs next b.old m (checked (seen s regs b.old) next fails value (bounds_of b.old k)) b.new m result }
    ensures kept { IfErr result (λ e. b.new ≡ with_status b.old (status_of e b.old.status)) }
    ensures cfg { b.new.cfg ≡ b.old.cfg }
{
    if fails {
        b.status = 1;
        return Err(BndStop::Violation {
            value,
            lb: b.lb[k as usize],
            ub: u64::MAX - b.held[k as usize],
        });
    }
    Ok(())
}
