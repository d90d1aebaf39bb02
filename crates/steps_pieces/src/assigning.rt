//! What assignments do with a place.

ghost use Rattle.std.specs.Prelude.{◌≡◌, ◌+◌, ◌≤◌, ◌^◌, ◌++◌, ◌∷◌, [], OnOk};
ghost use Rattle.bounds_plan.specs.steps.Code.{before_or_after};
ghost use Rattle.steps_facts.specs.Seen.{view_of};
ghost use Rattle.steps_pieces.specs.Own.{is_copied as copied, value_at as goes_at, assigned_sort as sort_wanted, storing};
ghost use Rattle.steps_pieces.specs.Own.{changing, changing_at, changing_number, changing_number_at, number_read, number_written};
ghost use Rattle.steps_pieces.specs.Own.{advancing, advancing_at, assigned_steps, one_for};

use crate::access::{put_judge, put_writing};
use crate::emitter::LAST;
use crate::joining::{moving, put_right};
use crate::kinds::{done_in, given_number, kind_of, size_of};
use crate::put::{put, put_addressing, put_arith, put_const, put_copy, put_scaled};
use c_check_rules::takes_away;
use fat_ir::FatStep;
use mx_base::{Arithmetic, IntKind, OutOfMemory, Place};
use sqlite_items::Items;
use steps_facts::{Seen, Sorted, Spot};

/// Whether an assignment leaves a place as it is: that of an array or a struct is no value.
pub fn is_copied(spot: Spot, sort: Sorted) -> bool
    ensures { result ≡ copied spot sort }
{
    match spot {
        Spot::Number(_) | Spot::Pointer(_) => false,
        Spot::Memory => match sort {
            Sorted::Number(_) | Sorted::Pointer => false,
            Sorted::Whole | Sorted::Nothing => true,
        },
    }
}

/// Where the value for a place goes: a place in memory has its address in `d`.
pub fn value_at(spot: Spot, d: u32) -> u32
    requires { d + 6 ≤ 2 ^ 32 }
    ensures { result ≡ goes_at spot d }
{
    match spot {
        Spot::Number(_) | Spot::Pointer(_) => d,
        Spot::Memory => d + 2,
    }
}

/// The sort of value that is wanted for `=`; an operator takes any.
pub fn assigned_sort(op: Option<Arithmetic>, sort: Sorted) -> Sorted
    ensures { result ≡ sort_wanted op sort }
{
    match op {
        None => sort,
        Some(_) => Sorted::Nothing,
    }
}

/// A value of a place's sort is written there.
fn put_storing(
    steps: &mut Items<FatStep>,
    spot: Spot,
    sort: Sorted,
    number: bool,
    place: Place,
    d: u32,
) -> Result<(), OutOfMemory>
    requires { d + 6 ≤ 2 ^ 32 }
    ensures { OnOk result (steps.new ≡ steps.old ++ storing spot sort number place d) }
{
    match spot {
        Spot::Number(x) => put_copy(steps, x, d),
        Spot::Pointer(x) => {
            if x > LAST {
                return Err(OutOfMemory);
            }
            put_addressing(steps, number, d)?;
            put_copy(steps, x, d)?;
            put_copy(steps, x + 1, d + 1)
        }
        Spot::Memory => put_writing(steps, sort, place, d),
    }
}

/// The value before, or the one after.
fn before_or(old: bool, before: u32, after: u32) -> u32
    ensures { result ≡ before_or_after old before after }
{
    if old { before } else { after }
}

/// A number in a private variable is changed.
fn put_changing_number(
    steps: &mut Items<FatStep>,
    x: u32,
    kind: IntKind,
    op: Arithmetic,
    from: IntKind,
    old: bool,
    d: u32,
) -> Result<(), OutOfMemory>
    requires { d + 6 ≤ 2 ^ 32 }
    ensures { OnOk result (steps.new ≡ steps.old ++ changing_number x kind op from old d) }
{
    let common = done_in(op, kind, from);
    put_right(steps, op, from, common, d)?;
    put_copy(steps, d + 2, x)?;
    put_arith(steps, d, op, common, d + 2, d)?;
    put(
        steps,
        FatStep::Extend {
            to: d,
            from: d,
            kind,
        },
    )?;
    put_copy(steps, x, d)?;
    put_copy(steps, d, before_or(old, d + 2, d))
}

/// A pointer in a private variable is moved.
fn put_advancing(
    steps: &mut Items<FatStep>,
    x: u32,
    minus: bool,
    size: u64,
    old: bool,
    d: u32,
) -> Result<(), OutOfMemory>
    requires { d + 6 ≤ 2 ^ 32 }
    ensures { OnOk result (steps.new ≡ steps.old ++ advancing x minus size old d) }
{
    if x > LAST {
        return Err(OutOfMemory);
    }
    put_scaled(steps, size, d, d + 2)?;
    put_copy(steps, d + 2, x)?;
    put_arith(steps, d, moving(minus), IntKind::U64, d + 2, d)?;
    put_copy(steps, x, d)?;
    put_copy(steps, d, before_or(old, d + 2, d))?;
    put_copy(steps, d + 1, x + 1)
}

/// A number in memory is read into `d + 4`, and the operator's result comes into `d + 2`.
fn put_number_read(
    steps: &mut Items<FatStep>,
    place: Place,
    kind: IntKind,
    op: Arithmetic,
    common: IntKind,
    d: u32,
) -> Result<(), OutOfMemory>
    requires { d + 6 ≤ 2 ^ 32 }
    ensures { OnOk result (steps.new ≡ steps.old ++ number_read place kind op common d) }
{
    let b = d + 2;
    let a = d + 4;
    put_judge(steps, size_of(kind), false, place, d)?;
    put(steps, FatStep::Load { p: d, to: a, kind })?;
    put_arith(steps, b, op, common, a, b)?;
    put(
        steps,
        FatStep::Extend {
            to: b,
            from: b,
            kind,
        },
    )
}

/// The number in `d + 2` is written, and the value is the one before or the one after.
fn put_number_written(
    steps: &mut Items<FatStep>,
    place: Place,
    kind: IntKind,
    old: bool,
    d: u32,
) -> Result<(), OutOfMemory>
    requires { d + 6 ≤ 2 ^ 32 }
    ensures { OnOk result (steps.new ≡ steps.old ++ number_written place kind old d) }
{
    let b = d + 2;
    put_judge(steps, size_of(kind), true, place, d)?;
    put(
        steps,
        FatStep::Store {
            p: d,
            from: b,
            kind,
        },
    )?;
    put_copy(steps, d, before_or(old, d + 4, b))
}

/// A number in memory is changed.
fn put_changing_number_at(
    steps: &mut Items<FatStep>,
    place: Place,
    kind: IntKind,
    op: Arithmetic,
    from: IntKind,
    old: bool,
    d: u32,
) -> Result<(), OutOfMemory>
    requires { d + 6 ≤ 2 ^ 32 }
    ensures { OnOk result (steps.new ≡ steps.old ++ changing_number_at place kind op from old d) }
{
    let common = done_in(op, kind, from);
    put_right(steps, op, from, common, d + 2)?;
    put_number_read(steps, place, kind, op, common, d)?;
    put_number_written(steps, place, kind, old, d)
}

/// A pointer in memory is moved.
fn put_advancing_at(
    steps: &mut Items<FatStep>,
    place: Place,
    minus: bool,
    size: u64,
    old: bool,
    d: u32,
) -> Result<(), OutOfMemory>
    requires { d + 6 ≤ 2 ^ 32 }
    ensures { OnOk result (steps.new ≡ steps.old ++ advancing_at place minus size old d) }
{
    let b = d + 2;
    let a = d + 4;
    put_scaled(steps, size, b, a)?;
    put_judge(steps, 8, false, place, d)?;
    put(
        steps,
        FatStep::LoadPtr {
            p: d,
            to: a,
            bounds: a + 1,
        },
    )?;
    put_arith(steps, b, moving(minus), IntKind::U64, a, b)?;
    put_judge(steps, 8, true, place, d)?;
    put(
        steps,
        FatStep::StorePtr {
            p: d,
            from: b,
            bounds: a + 1,
        },
    )?;
    put_copy(steps, d, before_or(old, a, b))?;
    put_copy(steps, d + 1, a + 1)
}

/// A place in memory is changed.
fn put_changing_at(
    steps: &mut Items<FatStep>,
    sort: Sorted,
    place: Place,
    op: Arithmetic,
    from: IntKind,
    size: u64,
    old: bool,
    d: u32,
) -> Result<(), OutOfMemory>
    requires { d + 6 ≤ 2 ^ 32 }
    ensures { OnOk result (steps.new ≡ steps.old ++ changing_at sort place op from size old d) }
{
    match sort {
        Sorted::Number(kind) => put_changing_number_at(steps, place, kind, op, from, old, d),
        Sorted::Pointer => put_advancing_at(steps, place, takes_away(op), size, old, d),
        Sorted::Whole | Sorted::Nothing => Ok(()),
    }
}

/// A place is changed by an operator and a number of the type `from`; `size` is that of what a pointer there points to.
pub fn put_changing(
    steps: &mut Items<FatStep>,
    x: Seen,
    op: Arithmetic,
    from: IntKind,
    old: bool,
    d: u32,
) -> Result<(), OutOfMemory>
    requires { d + 6 ≤ 2 ^ 32 }
    ensures { OnOk result (steps.new ≡ steps.old ++ changing x.spot x.facts.sort x.place op from x.facts.step old d) }
{
    let sort = x.facts.sort;
    let size = x.facts.step;
    match x.spot {
        Spot::Number(v) => put_changing_number(steps, v, kind_of(sort), op, from, old, d),
        Spot::Pointer(v) => put_advancing(steps, v, takes_away(op), size, old, d),
        Spot::Memory => put_changing_at(steps, sort, x.place, op, from, size, old, d),
    }
}

/// A place becomes a value, or what an operator makes of both.
pub fn put_assigned_steps(
    steps: &mut Items<FatStep>,
    op: Option<Arithmetic>,
    x: Seen,
    y: Seen,
    d: u32,
) -> Result<(), OutOfMemory>
    requires { d + 6 ≤ 2 ^ 32 }
    ensures { OnOk result (steps.new ≡ steps.old ++ assigned_steps op (view_of x) (view_of y) d) }
{
    match op {
        None => {
            let number = given_number(x.facts.sort, y.number);
            put_storing(steps, x.spot, x.facts.sort, number, x.place, d)
        }
        Some(operator) => put_changing(steps, x, operator, kind_of(y.facts.sort), false, d),
    }
}

/// The number by which `++` and `--` change a place.
pub fn put_one(
    steps: &mut Items<FatStep>,
    spot: Spot,
    sort: Sorted,
    d: u32,
) -> Result<(), OutOfMemory>
    requires { d + 6 ≤ 2 ^ 32 }
    ensures { OnOk result (steps.new ≡ steps.old ++ one_for spot sort d) }
{
    if is_copied(spot, sort) {
        Ok(())
    } else {
        put_const(steps, value_at(spot, d), 1)
    }
}
