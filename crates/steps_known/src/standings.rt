//! Where the variables of a function stand, by their private values.

ghost use Rattle.std.specs.Prelude.{◌≡◌, ◌+◌, map, All, IfOk};
ghost use Rattle.c_types.specs.Types.{type_at, IsIn};
ghost use Rattle.c_accepted.specs.Planned.{stand_of};
ghost use Rattle.steps_structs.specs.Structs.{AreKnown, structs_known};
ghost use Rattle.steps_known.specs.Standings as spec;

use c_types::{TypeId, TypeTable};
use mx_base::OutOfMemory;
use place_plan::Spot;
use sqlite_items::Items;
use std::alloc::Global;
use steps_facts::{Sorted, Standing};
use steps_structs::{KnownStruct, layout, sorted};

fn standing(sort: Sorted, spot: Spot, x: u32, size: u64) -> Standing
    ensures { result ≡ spec.standing sort (stand_of spot) x size }
{
    match spot {
        Spot::Private(_) => match sort {
            Sorted::Number(_) => Standing::Number(x),
            Sorted::Pointer => Standing::Pointer(x),
            Sorted::Whole | Sorted::Nothing => Standing::Frame { offset: 0, size },
        },
        Spot::Frame(offset) => match sort {
            Sorted::Number(_) | Sorted::Pointer | Sorted::Whole | Sorted::Nothing =>
                Standing::Frame { offset, size },
        },
    }
}

/// How many private values a variable has.
fn values(sort: Sorted, spot: Spot) -> u32
    ensures { result ≡ spec.values sort (stand_of spot) }
{
    match spot {
        Spot::Private(_) => match sort {
            Sorted::Number(_) => 1,
            Sorted::Pointer => 2,
            Sorted::Whole | Sorted::Nothing => 0,
        },
        Spot::Frame(_) => match sort {
            Sorted::Number(_) | Sorted::Pointer | Sorted::Whole | Sorted::Nothing => 0,
        },
    }
}

fn plus(x: u32, more: u32) -> Result<u32, OutOfMemory>
    ensures { IfOk result (λ y. y ≡ x + more) }
{
    match x.checked_add(more) {
        Some(y) => Ok(y),
        None => Err(OutOfMemory),
    }
}

/// Where variables of these types stand, one for each spot.
pub fn standings_of(
    alloc: Global,
    types: &TypeTable,
    structs: &[KnownStruct],
    variables: &[TypeId],
    spots: &[Spot],
) -> Result<Items<Standing>, OutOfMemory>
    requires known { AreKnown types.now structs.now }
    requires variables { All (IsIn types.now) variables.now }
    ensures { IfOk result (λ all. all ≡ spec.standings_from (structs_known types.now structs.now) 0 (map (type_at types.now) variables.now) (map stand_of spots.now)) }
{
    let mut all = Items::new(alloc);
    let mut left = spots;
    let mut x = 0u32;
    for one in variables {
        let Some((spot, more)) = left.split_first() else {
            return Ok(all);
        };
        let shape = types.shape(*one);
        let sort = sorted(shape);
        let laid = layout(types, structs, shape)?;
        all.push(standing(sort, *spot, x, laid.size))?;
        x = plus(x, values(sort, *spot))?;
        left = more;
    }
    Ok(all)
}
