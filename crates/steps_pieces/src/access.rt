//! Accesses, and the addresses of elements and members.

ghost use Rattle.std.specs.Prelude.{◌≡◌, ◌+◌, ◌≤◌, ◌^◌, ◌++◌, ◌∷◌, [], OnOk};
ghost use Rattle.bounds_plan.specs.steps.Code.{ruled, offset_by};
ghost use Rattle.steps_pieces.specs.Own.{writing, part_ruled};
ghost use Rattle.steps_pieces.specs.Wanted.{loading, reading, read_unless};

use crate::emitter::LAST;
use crate::kinds::size_of;
use crate::put::{put, put_const, put_copy, put_make, put_meet, put_offset};
use fat_ir::FatStep;
use mx_base::{OutOfMemory, Place};
use narrowing::Rule;
use sqlite_items::Items;
use steps_facts::{Sorted, Spot};

/// An access at the pointer in `d` is judged.
pub fn put_judge(
    steps: &mut Items<FatStep>,
    size: u32,
    write: bool,
    place: Place,
    d: u32,
) -> Result<(), OutOfMemory>
    requires { d + 6 ≤ 2 ^ 32 }
    ensures { OnOk result (steps.new ≡ steps.old ++ FatStep.Judge d size (d + 1) write place ∷ []) }
{
    put(
        steps,
        FatStep::Judge {
            value: d,
            size,
            bounds: d + 1,
            write,
            place,
        },
    )
}

/// What is read at the address in `d`.
fn put_loading(
    steps: &mut Items<FatStep>,
    sort: Sorted,
    place: Place,
    d: u32,
) -> Result<(), OutOfMemory>
    requires { d + 6 ≤ 2 ^ 32 }
    ensures { OnOk result (steps.new ≡ steps.old ++ loading sort place d) }
{
    match sort {
        Sorted::Number(kind) => {
            put_judge(steps, size_of(kind), false, place, d)?;
            put(steps, FatStep::Load { p: d, to: d, kind })
        }
        Sorted::Pointer => {
            put_judge(steps, 8, false, place, d)?;
            put(
                steps,
                FatStep::LoadPtr {
                    p: d,
                    to: d,
                    bounds: d + 1,
                },
            )
        }
        Sorted::Whole | Sorted::Nothing => Ok(()),
    }
}

/// What is read of a place.
fn put_reading(
    steps: &mut Items<FatStep>,
    spot: Spot,
    sort: Sorted,
    place: Place,
    d: u32,
) -> Result<(), OutOfMemory>
    requires { d + 6 ≤ 2 ^ 32 }
    ensures { OnOk result (steps.new ≡ steps.old ++ reading spot sort place d) }
{
    match spot {
        Spot::Number(x) => put_copy(steps, d, x),
        Spot::Pointer(x) => {
            if x > LAST {
                return Err(OutOfMemory);
            }
            put_copy(steps, d, x)?;
            put_copy(steps, d + 1, x + 1)
        }
        Spot::Memory => put_loading(steps, sort, place, d),
    }
}

/// The end of a place.
pub fn put_read_unless(
    steps: &mut Items<FatStep>,
    wanted: bool,
    spot: Spot,
    sort: Sorted,
    place: Place,
    d: u32,
) -> Result<(), OutOfMemory>
    requires { d + 6 ≤ 2 ^ 32 }
    ensures { OnOk result (steps.new ≡ steps.old ++ read_unless wanted spot sort place d) }
{
    if wanted {
        Ok(())
    } else {
        put_reading(steps, spot, sort, place, d)
    }
}

/// What is in `d + 2` is written at the address in `d`.
pub fn put_writing(
    steps: &mut Items<FatStep>,
    sort: Sorted,
    place: Place,
    d: u32,
) -> Result<(), OutOfMemory>
    requires { d + 6 ≤ 2 ^ 32 }
    ensures { OnOk result (steps.new ≡ steps.old ++ writing sort place d) }
{
    let from = d + 2;
    match sort {
        Sorted::Number(kind) => {
            put_judge(steps, size_of(kind), true, place, d)?;
            put(steps, FatStep::Store { p: d, from, kind })?;
            put_copy(steps, d, from)
        }
        Sorted::Pointer => {
            put_judge(steps, 8, true, place, d)?;
            put(
                steps,
                FatStep::StorePtr {
                    p: d,
                    from,
                    bounds: from + 1,
                },
            )?;
            put_copy(steps, d, from)?;
            put_copy(steps, d + 1, from + 1)
        }
        Sorted::Whole | Sorted::Nothing => Ok(()),
    }
}

/// The bounds of the pointer in `d` under a rule.
fn put_ruled(steps: &mut Items<FatStep>, rule: Rule, d: u32) -> Result<(), OutOfMemory>
    requires { d + 6 ≤ 2 ^ 32 }
    ensures { OnOk result (steps.new ≡ steps.old ++ ruled rule d) }
{
    match rule {
        Rule::Keep => Ok(()),
        Rule::Meet { offset, size } => {
            let own = d + 2 + 1;
            put_offset(steps, offset, d + 4, d, d + 2)?;
            put_const(steps, d + 2, size)?;
            put_make(steps, own, d + 4, d + 2)?;
            put_meet(steps, d + 1, d + 1, own)
        }
    }
}

/// The address of a part from the address in `d`.
pub fn put_part(
    steps: &mut Items<FatStep>,
    offset: u64,
    rule: Rule,
    d: u32,
) -> Result<(), OutOfMemory>
    requires { d + 6 ≤ 2 ^ 32 }
    ensures { OnOk result (steps.new ≡ steps.old ++ (ruled rule d ++ offset_by offset d d (d + 2))) }
{
    put_ruled(steps, rule, d)?;
    put_offset(steps, offset, d, d, d + 2)
}

/// An element under its rule.
pub fn put_part_ruled(steps: &mut Items<FatStep>, rule: Rule, d: u32) -> Result<(), OutOfMemory>
    requires { d + 6 ≤ 2 ^ 32 }
    ensures { OnOk result (steps.new ≡ steps.old ++ part_ruled rule d) }
{
    match rule {
        Rule::Keep => Ok(()),
        Rule::Meet { offset, size } => put_part(steps, 0, Rule::Meet { offset, size }, d),
    }
}
