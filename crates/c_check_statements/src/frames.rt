//! The room of a function.

ghost use Rattle.std.specs.Prelude.{◌≡◌, ◌≤◌, true, false, replicate, slice_index_or, slice_set, IfOk};
ghost use Rattle.c_check_statements.specs.Frames as spec;

use crate::placing::kind_placed;
use crate::state::BodyVariable;
use c_check_rules::{StructInfo, Type, is_scalar};
use mx_base::OutOfMemory;
use sqlite_items::Items;
use std::alloc::Global;

/// The most bytes of a data frame.
const FRAME: u64 = 1_048_576;

/// The private variables of a function, counted to 65, and the first free byte of its frame, as long as that is within the limit.
#[derive(Clone, Copy, Debug)]
pub struct Room {
    pub privates: u64,
    pub free: Option<u64>,
}

fn is_private(v: &BodyVariable) -> bool
    ensures { result ≡ spec.is_private v.now }
{
    is_scalar(&v.kind) && !v.taken
}

fn room_after(structs: &[StructInfo], room: Room, v: &BodyVariable) -> Room
    ensures { result ≡ spec.room_after structs.now room v.now }
{
    if is_private(v) {
        Room {
            privates: room.privates.saturating_add(1).min(65),
            free: room.free,
        }
    } else {
        Room {
            privates: room.privates,
            free: kind_placed(FRAME, structs, room.free, &v.kind),
        }
    }
}

/// Whether a function with these variables has too many private ones, or too large a data frame.
pub fn is_large(structs: &[StructInfo], variables: &[BodyVariable]) -> bool
    ensures { result ≡ spec.is_large (spec.room_of structs.now spec.no_room variables.now) }
{
    let mut room = Room {
        privates: 0,
        free: Some(0),
    };
    'variables: for v in variables {
        room = room_after(structs, room, v);
    }
    64 < room.privates || room.free.is_none()
}

/// Marks a number, where it is one of those that can be marked.
fn mark(marks: &mut Vec<bool>, number: usize)
    ensures { marks.new.items ≡ slice_set marks.old.items number true }
{
    if number < marks.len() {
        marks[number] = true;
    }
}

/// Of so many numbers, from 0, which are in a list.
fn marks_of(alloc: Global, count: usize, numbers: &[u32]) -> Result<Vec<bool>, OutOfMemory>
    ensures { IfOk result (λ marks. marks.items ≡ spec.marked 0 numbers.now (replicate count false)) }
{
    let mut marks = vec![in alloc; false; count]?;
    'numbers: for number in numbers {
        mark(&mut marks, *number as usize);
    }
    Ok(marks)
}

/// Whether a number is marked.
fn is_marked(marks: &[bool], number: usize) -> bool
    ensures { result ≡ slice_index_or marks.now number false }
{
    match marks.get(number) {
        Some(mark) => *mark,
        None => false,
    }
}

/// The variables of these types in order, of which `&` is applied to those of the taken numbers.
#[tactic(auto, using(crate::proofs::Marking::mark_of))]
pub fn variables_of(
    alloc: Global,
    taken: &[u32],
    kinds: &[Type],
) -> Result<Items<BodyVariable>, OutOfMemory>
    ensures { IfOk result (λ all. all ≡ spec.variables_from 0 taken.now kinds.now) }
{
    let marks = marks_of(alloc, kinds.len(), taken)?;
    let mut all = Items::new(alloc);
    'kinds: for (number, kind) in kinds.iter().enumerate() {
        let kind = kind.copy(alloc)?;
        let taken = is_marked(marks.as_slice(), number);
        all.push(BodyVariable { kind, taken })?;
    }
    Ok(all)
}
