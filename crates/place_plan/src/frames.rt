//! Frames of functions.

ghost use Rattle.std.specs.Prelude.{◌≡◌, ℕ, ◌+◌, ◌^◌, ◌<◌, ◌≤◌, All, IfOk, length};
ghost use Rattle.c_types.specs.declared.shape.TypeId.{TypeId as TypeNumber};
ghost use Rattle.c_types.specs.Types.{CType, type_at, structs_of, built};
ghost use Rattle.c_types.specs.Layouts.{next_multiple, layout_at};
ghost use Rattle.place_plan.specs.Frames.{scalar_values, values_of, spot_at, free_after, frame_plan};
ghost use Rattle.place_plan.specs.Locals.{variables_of, CanBePlaced};

use crate::plans::{FramePlan, Spot};
use c_check::LocalVariable;
use c_types::{Shape, TypeTable, sizes_are_multiples};
use mx_base::OutOfMemory;
use sqlite_items::Items;
use std::alloc::Global;

/// The next private value and the next byte of the frame that are free.
#[derive(Clone, Copy, Debug)]
struct Free {
    value: u64,
    byte: u64,
}

/// The first multiple of `align` that is not below `n`.
pub fn round_up(n: u64, align: u64) -> u64
    requires some { 1 ≤ align }
    requires few { align ≤ 16 }
    requires fits { n < 2 ^ 63 }
    ensures value { result ≡ next_multiple n align }
    ensures near { result < n + align }
{
    (n + (align - 1)) / align * align
}

/// The private values of a scalar of this shape; what is no scalar has none.
fn scalar_values_of(shape: Shape) -> u64
    ensures value { (at : TypeNumber → CType) → scalar_values (built at shape) ≡ result }
    ensures few { result ≤ 2 }
{
    match shape {
        Shape::Int(_) => 1,
        Shape::Pointer(_) => 2,
        Shape::Void | Shape::Array(_, _) | Shape::Struct(_) => 0,
    }
}

/// The private values of a parameter or local: one to which `&` is applied has none.
fn private_values(table: &TypeTable, local: LocalVariable) -> u64
    requires { CanBePlaced table.now local }
    ensures value { result ≡ values_of local.taken (type_at table.now local.kind) }
    ensures few { result ≤ 2 }
{
    if local.taken {
        0
    } else {
        scalar_values_of(table.shape(local.kind))
    }
}

/// Where a parameter or local stands, and what is free after it.
fn place_local(table: &TypeTable, local: LocalVariable, free: Free) -> (Spot, Free)
    requires known { CanBePlaced table.now local }
    requires value { free.value ≤ 196608 }
    requires byte { (free_after (values_of local.taken (type_at table.now local.kind)) (layout_at table.now local.kind) free).byte ≤ 1048576 }
    requires before { free.byte ≤ 1048576 }
    ensures spot { result.0 ≡ spot_at (values_of local.taken (type_at table.now local.kind)) (layout_at table.now local.kind) free }
    ensures free { result.1 ≡ free_after (values_of local.taken (type_at table.now local.kind)) (layout_at table.now local.kind) free }
    ensures few { result.1.value ≤ free.value + 2 }
{
    sizes_are_multiples();
    let values = private_values(table, local);
    if values == 0 {
        let at = round_up(free.byte, table.align(local.kind));
        let byte = at + table.size(local.kind);
        let spot = Spot::Frame(at as u32);
        let value = free.value;
        (spot, Free { value, byte })
    } else {
        let spot = Spot::Private(free.value as u32);
        let value = free.value + values;
        let byte = free.byte;
        (spot, Free { value, byte })
    }
}

/// The data frame of a function whose parameters and locals, in order of declaration, are these: a scalar to which no `&` is
/// applied is private, the others stand in order from the frame's lowest address, each at the next multiple of its alignment.
/// They are 98,304 at most, and the frame has at most 1,048,576 bytes.
pub fn place_locals(
    alloc: Global,
    table: &TypeTable,
    locals: &[LocalVariable],
) -> Result<FramePlan, OutOfMemory>
    requires known { All (CanBePlaced table.now) locals.now }
    requires few { length locals.now ≤ 98304 }
    requires small { (frame_plan (structs_of table.now) (variables_of table.now locals.now)).size ≤ 1048576 }
    ensures { IfOk result (λ plan. plan ≡ frame_plan (structs_of table.now) (variables_of table.now locals.now)) }
{
    sizes_are_multiples();
    let mut spots = Vec::new(alloc);
    let mut free = Free { value: 0, byte: 0 };
    for local in locals {
        let (spot, after) = place_local(table, *local, free);
        spots.push(spot)?;
        free = after;
    }
    let size = round_up(free.byte, 16) as u32;
    let spots = Items::from_vec(spots);
    Ok(FramePlan { size, spots })
}
