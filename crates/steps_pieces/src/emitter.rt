//! The steps as they are put down.

ghost use Rattle.std.specs.Prelude.{◌≡◌, ◌+◌, ◌≤◌, ◌^◌, ◌∷◌, [], OnOk, IfOk};
ghost use Rattle.steps_pieces.specs.Put.{put_of, added, skipped};

use fat_ir::FatStep;
use mx_base::OutOfMemory;
use sqlite_items::Items;
use std::alloc::Global;

/// The steps so far, and the first label that none of them has.
#[derive(Drop)]
pub struct Emitter {
    pub alloc: Global,
    pub steps: Items<FatStep>,
    pub label: u32,
}

/// The last value that may have others behind it, and the last label.
pub const LAST: u32 = 4_000_000_000;

/// `n` labels are taken, of which the first is given, if they are not past the last one.
#[tactic(auto, unfolding(crate::specs::Put::skipped))]
pub fn take_labels(out: &mut Emitter, n: u32) -> Result<u32, OutOfMemory>
    requires { n ≤ 4 }
    ensures put { OnOk result (put_of out.new ≡ skipped n (put_of out.old)) }
    ensures first { IfOk result (λ l. l ≡ out.old.label) }
    ensures room { IfOk result (λ l. l + 4 ≤ 2 ^ 32) }
{
    let first = out.label;
    if first > LAST {
        return Err(OutOfMemory);
    }
    out.label = first + n;
    Ok(first)
}
