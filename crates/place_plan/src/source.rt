//! The plan of a whole source.

ghost use Rattle.std.specs.Prelude.{◌≡◌, ◌+◌, ◌≤◌, map, length, drop, All, IfOk};
ghost use Rattle.c_types.specs.Types.{structs_of};
ghost use Rattle.c_check.specs.Accepted.{after};
ghost use Rattle.c_check.specs.Checked.{IsChecked};
ghost use Rattle.place_plan.specs.Data.{globals_end};
ghost use Rattle.place_plan.specs.Frames.{frame_plan};
ghost use Rattle.place_plan.specs.Globals.{globals_of, CanBeLaid};
ghost use Rattle.place_plan.specs.Members.{AreKnown};
ghost use Rattle.place_plan.specs.Plans.{planned, body_variables, HasRoom};
ghost use Rattle.place_plan.specs.Source.{plan_of, globals_size, image_size};

use crate::data::lay_globals;
use crate::frames::place_locals;
use crate::image::data_bytes;
use crate::plans::{FramePlan, Plan};
use c_check::{
    Checked, CheckedBody, accepted_frames_have_room, accepted_sources_can_be_numbered,
    checked_sizes_are_those_of_types,
};
use c_tree::{Item, Tree};
use c_types::{TypeTable, multiples_are_the_next};
use mx_base::OutOfMemory;
use sqlite_items::Items;
use std::alloc::Global;

/// The frames of functions, in order.
fn plan_frames(
    alloc: Global,
    table: &TypeTable,
    bodies: &[CheckedBody],
) -> Result<Items<FramePlan>, OutOfMemory>
    requires { All (HasRoom table.now) bodies.now }
    ensures { IfOk result (λ frames. frames ≡ map (frame_plan (structs_of table.now)) (map (body_variables table.now) bodies.now)) }
{
    let mut frames = Items::new(alloc);
    'bodies: for body in bodies {
        let frame = place_locals(alloc, table, body.variables.as_slice())?;
        frames.push(frame)?;
    }
    Ok(frames)
}

/// The plan of a source whose data and frames have room.
fn plan_items(alloc: Global, items: &[Item], checked: &Checked) -> Result<Plan, OutOfMemory>
    requires known { All (CanBeLaid checked.now.types) checked.now.variables }
    requires members { AreKnown checked.now.types checked.now.structs }
    requires small { globals_end (structs_of checked.now.types) 0 (globals_of checked.now.types checked.now.variables) ≤ 16777216 }
    requires room { All (HasRoom checked.now.types) checked.now.bodies }
    ensures plan { IfOk result (λ p. p ≡ planned (structs_of checked.now.types) (globals_of checked.now.types checked.now.variables) checked.now.global_items checked.now.constants checked.now.literals (map (body_variables checked.now.types) checked.now.bodies) items.now) }
    ensures length { IfOk result (λ p. length p.image ≡ globals_end (structs_of checked.now.types) 0 (globals_of checked.now.types checked.now.variables) + length checked.now.literals) }
{
    let placed = lay_globals(alloc, &checked.types, checked.variables.as_slice())?;
    let image = data_bytes(alloc, items, checked, placed.offsets.as_slice(), placed.end)?;
    let frames = plan_frames(alloc, &checked.types, checked.bodies.as_slice())?;
    let globals = placed.offsets;
    Ok(Plan {
        globals,
        image,
        frames,
    })
}

/// The plan of an accepted source, by what the checks say of it: where its globals stand, in order of their first declarations, the bytes of its
/// data, which are its defined globals and then its text literals, and the frame of each function with a body. No initialiser writes into a literal.
pub fn plan(alloc: Global, tree: &Tree, checked: &Checked) -> Result<Plan, OutOfMemory>
    requires { IsChecked tree.now checked.now }
    ensures plan { IfOk result (λ p. p ≡ plan_of tree.now) }
    ensures length { IfOk result (λ p. length p.image ≡ image_size tree.now) }
    ensures literals { IfOk result (λ p. drop (globals_size (after tree.now)) p.image ≡ (after tree.now).notes.literals) }
{
    multiples_are_the_next();
    checked_sizes_are_those_of_types();
    accepted_sources_can_be_numbered();
    accepted_frames_have_room();
    let planned = plan_items(alloc, tree.items.as_slice(), checked)?;
    Ok(planned)
}
