//! The data of a source.

ghost use Rattle.std.specs.Prelude.{◌≡◌, ◌+◌, ◌≤◌, All, IfOk};
ghost use Rattle.c_types.specs.Types.{structs_of};
ghost use Rattle.c_types.specs.Layouts.{layout_at};
ghost use Rattle.place_plan.specs.Data.{offset_at, end_after, offsets_from, globals_end};
ghost use Rattle.place_plan.specs.Globals.{globals_of, CanBeLaid};

use crate::frames::round_up;
use c_check::GlobalVariable;
use c_types::{TypeTable, sizes_are_multiples};
use mx_base::OutOfMemory;
use sqlite_items::Items;
use std::alloc::Global;

/// Where a global stands, and the first byte after it.
fn place_global(table: &TypeTable, global: GlobalVariable, free: u64) -> (u32, u64)
    requires known { CanBeLaid table.now global }
    requires end { end_after global.defined (layout_at table.now global.kind) free ≤ 16777216 }
    requires before { free ≤ 16777216 }
    ensures offset { result.0 ≡ offset_at global.defined (layout_at table.now global.kind) free }
    ensures end { result.1 ≡ end_after global.defined (layout_at table.now global.kind) free }
{
    sizes_are_multiples();
    if global.defined {
        let at = round_up(free, table.align(global.kind));
        let end = at + table.size(global.kind);
        let offset = at as u32;
        (offset, end)
    } else {
        (0, free)
    }
}

/// Where the globals of a source stand, by their numbers, and the first byte behind them.
#[derive(Drop)]
pub struct PlacedGlobals {
    pub offsets: Items<u32>,
    pub end: u64,
}

/// Where the globals of a source stand, in order of declaration, from the front of its data, and the first byte behind them: each that it defines at
/// the next multiple of its alignment. Of another one the answer is 0, and nothing stands there. The data has at most 16,777,216 bytes.
pub fn lay_globals(
    alloc: Global,
    table: &TypeTable,
    globals: &[GlobalVariable],
) -> Result<PlacedGlobals, OutOfMemory>
    requires known { All (CanBeLaid table.now) globals.now }
    requires small { globals_end (structs_of table.now) 0 (globals_of table.now globals.now) ≤ 16777216 }
    ensures offsets { IfOk result (λ placed. placed.offsets ≡ offsets_from (structs_of table.now) 0 (globals_of table.now globals.now)) }
    ensures end { IfOk result (λ placed. placed.end ≡ globals_end (structs_of table.now) 0 (globals_of table.now globals.now)) }
{
    sizes_are_multiples();
    let mut offsets = Vec::new(alloc);
    let mut end = 0;
    for global in globals {
        let (offset, after) = place_global(table, *global, end);
        offsets.push(offset)?;
        end = after;
    }
    let offsets = Items::from_vec(offsets);
    Ok(PlacedGlobals { offsets, end })
}
