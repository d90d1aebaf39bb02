//! Scalars that no initialiser fills become 0.

ghost use Rattle.std.specs.Prelude.{◌≡◌, ◌+◌, ◌≤◌, ◌^◌, OnOk, IfOk};
ghost use Rattle.steps_facts.specs.Around.{scalars_seen};
ghost use Rattle.steps_pieces.specs.Put.{put_of};
ghost use Rattle.steps_filling.specs.Effects.{went_effects};
ghost use Rattle.steps_filling.specs.Parts.{zeros_filled};

use crate::parts::put_zero;
use mx_base::{OutOfMemory, Place};
use steps_facts::{ScalarAt, Standing};
use steps_pieces::Emitter;

/// So many bytes more.
pub fn further(offset: u64, size: u64) -> Result<u64, OutOfMemory>
    ensures { IfOk result (λ end. end ≡ offset + size) }
{
    match offset.checked_add(size) {
        Some(end) => Ok(end),
        None => Err(OutOfMemory),
    }
}

/// The scalars of a part of a variable at an offset become 0, in order.
pub fn put_zeros(
    out: &mut Emitter,
    at: Standing,
    offset: u64,
    scalars: &[ScalarAt],
    place: Place,
    d: u32,
) -> Result<(), OutOfMemory>
    requires { d + 8 ≤ 2 ^ 32 }
    ensures { OnOk result (put_of out.new ≡ went_effects (zeros_filled at offset place (scalars_seen scalars.now)) d (put_of out.old)) }
{
    for x in scalars {
        let to = further(offset, x.offset)?;
        let kind = x.kind;
        put_zero(out, at, ScalarAt { offset: to, kind }, place, d)?;
    }
    Ok(())
}
