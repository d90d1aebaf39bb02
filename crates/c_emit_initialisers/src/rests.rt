//! What is left of an array or of a struct becomes 0.

ghost use Rattle.std.specs.Prelude.{◌≡◌, ◌+◌, ◌≤◌, ◌^◌, OnOk, All};
ghost use Rattle.c_types.specs.Types.{Array, type_at, IsIn};
ghost use Rattle.bounds_plan.specs.elaboration.Scalars.{repeated};
ghost use Rattle.bounds_plan.specs.elaboration.Types.{size_in};
ghost use Rattle.bounds_plan.specs.elaboration.Initialisers.{zeros, member_zeros};
ghost use Rattle.steps_facts.specs.Around.{standing_at, scalars_seen, part_types, part_offsets, IsPart};
ghost use Rattle.steps_pieces.specs.Put.{put_of};
ghost use Rattle.steps_filling.specs.Effects.{went_effects};
ghost use Rattle.steps_filling.specs.Parts.{zeros_filled};

use c_types::TypeId;
use mx_base::{OutOfMemory, Place};
use steps_facts::{Knows, Part, ScalarAt, Standing};
use steps_filling::{further, put_zeros};
use steps_pieces::Emitter;

/// So many elements of `size` bytes, of which each has these scalars, become 0.
fn put_elements_zero(
    out: &mut Emitter,
    at: Standing,
    offset: u64,
    scalars: &[ScalarAt],
    size: u64,
    count: u64,
    place: Place,
    d: u32,
) -> Result<(), OutOfMemory>
    requires { d + 8 ≤ 2 ^ 32 }
    ensures { OnOk result (put_of out.new ≡ went_effects (zeros_filled at offset place (repeated count 0 size (scalars_seen
        scalars.now))) d (put_of out.old)) }
{
    let mut left = count;
    let mut to = offset;
    'elements: while left > 0 {
        put_zeros(out, at, to, scalars, place, d)?;
        to = further(to, size)?;
        left -= 1;
    }
    Ok(())
}

/// So many elements of a type, which has `size` bytes, become 0.
pub fn put_elements_rest<K: Knows>(
    out: &mut Emitter,
    known: &K,
    element: TypeId,
    size: u64,
    count: u64,
    at: Standing,
    offset: u64,
    place: Place,
    d: u32,
) -> Result<(), OutOfMemory>
    requires known { IsIn (K.table known.now) element }
    requires size { size ≡ size_in (K.around known.now).structs (type_at (K.table known.now) element) }
    requires room { d + 8 ≤ 2 ^ 32 }
    ensures { OnOk result (put_of out.new ≡ went_effects (zeros (K.around known.now).structs place (Array (type_at (K.table known.now)
        element) count) (standing_at at) offset) d (put_of out.old)) }
{
    let scalars = known.scalars(out.alloc, element)?;
    put_elements_zero(out, at, offset, scalars.as_slice(), size, count, place, d)
}

/// The members of a struct that are left become 0.
pub fn put_members_rest<K: Knows>(
    out: &mut Emitter,
    known: &K,
    parts: &[Part],
    at: Standing,
    offset: u64,
    place: Place,
    d: u32,
) -> Result<(), OutOfMemory>
    requires known { All (IsPart (K.table known.now)) parts.now }
    requires room { d + 8 ≤ 2 ^ 32 }
    ensures { OnOk result (put_of out.new ≡ went_effects (member_zeros (K.around known.now).structs place (part_types (K.table
        known.now) parts.now) (part_offsets parts.now) (standing_at at) offset) d (put_of out.old)) }
{
    for part in parts {
        let scalars = known.scalars(out.alloc, part.kind)?;
        let to = further(offset, part.offset)?;
        put_zeros(out, at, to, scalars.as_slice(), place, d)?;
    }
    Ok(())
}
