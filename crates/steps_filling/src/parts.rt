//! Parts of a variable, and the words that are written there.

ghost use Rattle.std.specs.Prelude.{◌≡◌, ◌+◌, ◌≤◌, ◌^◌, ◌∷◌, [], OnOk};
ghost use Rattle.bounds_plan.specs.elaboration.Initialisers.{zero_written};
ghost use Rattle.steps_facts.specs.Seen.{spot_of};
ghost use Rattle.steps_facts.specs.Around.{standing_at, scalar_of};
ghost use Rattle.steps_pieces.specs.Put.{put_of, added};
ghost use Rattle.steps_pieces.specs.Wanted.{given_number};
ghost use Rattle.steps_pieces.specs.Own.{storing};
ghost use Rattle.steps_filling.specs.Effects.{went_effect};
ghost use Rattle.steps_filling.specs.Parts.{further as further_by, part_own, address_own, number_filled, null_filled};

use fat_ir::FatStep;
use mx_base::{Arithmetic, IntKind, OutOfMemory, Place};
use steps_facts::{Facts, Reached, ScalarAt, Seen, Sorted, Spot, Standing};
use steps_pieces::{Emitter, put_assigned, put_no_pointer, put_word, value_at};

/// One step more.
#[tactic(auto, unfolding(steps_pieces::specs::Put::added))]
pub fn put(out: &mut Emitter, step: FatStep) -> Result<(), OutOfMemory>
    ensures { OnOk result (put_of out.new ≡ added (step ∷ []) (put_of out.old)) }
{
    out.steps.push(step)?;
    Ok(())
}

/// Where a variable stands, as a place.
pub fn spot_at(at: Standing) -> Spot
    ensures { result ≡ spot_of (standing_at at) }
{
    match at {
        Standing::Number(x) => Spot::Number(x),
        Standing::Pointer(x) => Spot::Pointer(x),
        Standing::Frame { .. } | Standing::Nowhere => Spot::Memory,
    }
}

/// So many bytes further than the address in `d`.
fn put_further(out: &mut Emitter, offset: u64, d: u32) -> Result<(), OutOfMemory>
    requires { d + 6 ≤ 2 ^ 32 }
    ensures { OnOk result (put_of out.new ≡ added (further_by offset d) (put_of out.old)) }
{
    if offset == 0 {
        return Ok(());
    }
    let free = d + 2;
    put(
        out,
        FatStep::Const {
            to: free,
            n: offset,
        },
    )?;
    put(
        out,
        FatStep::Arith {
            to: d,
            op: Arithmetic::Add,
            kind: IntKind::U64,
            a: d,
            b: free,
        },
    )
}

/// The address of the part of a variable at an offset, in bytes; a private variable has none.
pub fn put_part(out: &mut Emitter, at: Standing, offset: u64, d: u32) -> Result<(), OutOfMemory>
    requires { d + 6 ≤ 2 ^ 32 }
    ensures { OnOk result (put_of out.new ≡ added (part_own at offset d) (put_of out.old)) }
{
    match at {
        Standing::Number(_) => Ok(()),
        Standing::Pointer(_) => Ok(()),
        Standing::Frame {
            offset: front,
            size,
        } => {
            put(
                out,
                FatStep::Place {
                    to: d,
                    bounds: d + 1,
                    symbol: None,
                    offset: front,
                    size,
                },
            )?;
            put_further(out, offset, d)
        }
        Standing::Nowhere => {
            put_no_pointer(out, d)?;
            put_further(out, offset, d)
        }
    }
}

/// The same for a struct, which is never private.
pub fn put_struct_address(
    out: &mut Emitter,
    at: Standing,
    offset: u64,
    d: u32,
) -> Result<(), OutOfMemory>
    requires { d + 6 ≤ 2 ^ 32 }
    ensures { OnOk result (put_of out.new ≡ added (address_own at offset d) (put_of out.old)) }
{
    match at {
        Standing::Number(_) => put_no_pointer(out, d),
        Standing::Pointer(_) => put_no_pointer(out, d),
        Standing::Frame { .. } => put_part(out, at, offset, d),
        Standing::Nowhere => put_part(out, at, offset, d),
    }
}

/// A place or a value, of which no more is known than a sort, a spot, whether it is a number, and where it stands in the sources.
fn scalar(sort: Sorted, spot: Spot, number: bool, place: Place) -> Seen
    ensures sort { result.facts.sort ≡ sort }
    ensures spot { result.spot ≡ spot }
    ensures number { result.number ≡ number }
    ensures place { result.place ≡ place }
{
    let facts = Facts {
        sort,
        array: false,
        size: 0,
        step: 0,
        owner: 0,
        target: 0,
    };
    let after = Reached {
        kind: 0,
        name: 0,
        declaration: 0,
        literal: 0,
        body: 0,
    };
    Seen {
        facts,
        number,
        spot,
        place,
        after,
    }
}

/// A value of a sort, which stands where `value_at` says, is written to a scalar whose address is in `d`.
pub fn put_stored(
    out: &mut Emitter,
    sort: Sorted,
    spot: Spot,
    number: bool,
    place: Place,
    d: u32,
) -> Result<(), OutOfMemory>
    requires { d + 6 ≤ 2 ^ 32 }
    ensures { OnOk result (put_of out.new ≡ added (storing spot sort (given_number sort number) place d) (put_of out.old)) }
{
    let to = scalar(sort, spot, false, place);
    let from = scalar(sort, spot, number, place);
    put_assigned(out, None, to, from, false, d)
}

/// A number is written to the part of a variable at an offset.
pub fn put_number(
    out: &mut Emitter,
    at: Standing,
    offset: u64,
    kind: IntKind,
    n: u64,
    place: Place,
    d: u32,
) -> Result<(), OutOfMemory>
    requires { d + 8 ≤ 2 ^ 32 }
    ensures { OnOk result (put_of out.new ≡ went_effect (number_filled kind at offset place n) d (put_of out.old)) }
{
    let spot = spot_at(at);
    put_part(out, at, offset, d)?;
    put_word(out, n, false, value_at(spot, d))?;
    put_stored(out, Sorted::Number(kind), spot, true, place, d)
}

/// The null pointer is written there.
fn put_null(
    out: &mut Emitter,
    at: Standing,
    offset: u64,
    place: Place,
    d: u32,
) -> Result<(), OutOfMemory>
    requires { d + 8 ≤ 2 ^ 32 }
    ensures { OnOk result (put_of out.new ≡ went_effect (null_filled at offset place) d (put_of out.old)) }
{
    let spot = spot_at(at);
    put_part(out, at, offset, d)?;
    put_no_pointer(out, value_at(spot, d))?;
    put_stored(out, Sorted::Pointer, spot, true, place, d)
}

/// A scalar of a variable becomes 0.
pub fn put_zero(
    out: &mut Emitter,
    at: Standing,
    x: ScalarAt,
    place: Place,
    d: u32,
) -> Result<(), OutOfMemory>
    requires { d + 8 ≤ 2 ^ 32 }
    ensures { OnOk result (put_of out.new ≡ went_effect (zero_written place (standing_at at) (scalar_of x)) d (put_of out.old)) }
{
    match x.kind {
        Some(kind) => put_number(out, at, x.offset, kind, 0, place, d),
        None => put_null(out, at, x.offset, place, d),
    }
}
