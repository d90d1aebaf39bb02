//! Single steps, and those that turn one value into another.

ghost use Rattle.std.specs.Prelude.{◌≡◌, ◌+◌, ◌≤◌, ◌^◌, ◌++◌, ◌∷◌, [], OnOk};
ghost use Rattle.bounds_plan.specs.steps.Code.{scaled, offset_by};
ghost use Rattle.steps_pieces.specs.Wanted.{addressing, ending, extending, null_at};

use crate::kinds::keeps;
use fat_ir::FatStep;
use mx_base::{Arithmetic, Comparison, IntKind, OutOfMemory};
use sqlite_items::Items;

/// One step more.
pub fn put(steps: &mut Items<FatStep>, step: FatStep) -> Result<(), OutOfMemory>
    ensures { OnOk result (steps.new ≡ steps.old ++ step ∷ []) }
{
    steps.push(step)?;
    Ok(())
}

/// A number.
pub fn put_const(steps: &mut Items<FatStep>, to: u32, n: u64) -> Result<(), OutOfMemory>
    ensures { OnOk result (steps.new ≡ steps.old ++ FatStep.Const to n ∷ []) }
{
    put(steps, FatStep::Const { to, n })
}

/// An operator on numbers.
pub fn put_arith(
    steps: &mut Items<FatStep>,
    to: u32,
    op: Arithmetic,
    kind: IntKind,
    a: u32,
    b: u32,
) -> Result<(), OutOfMemory>
    ensures { OnOk result (steps.new ≡ steps.old ++ FatStep.Arith to op kind a b ∷ []) }
{
    put(steps, FatStep::Arith { to, op, kind, a, b })
}

/// A comparison of the numbers in `d` and `d + 2`.
pub fn put_compare(
    steps: &mut Items<FatStep>,
    op: Comparison,
    kind: IntKind,
    d: u32,
) -> Result<(), OutOfMemory>
    requires { d + 6 ≤ 2 ^ 32 }
    ensures { OnOk result (steps.new ≡ steps.old ++ FatStep.Compare d op kind d (d + 2) ∷ []) }
{
    put(
        steps,
        FatStep::Compare {
            to: d,
            op,
            kind,
            a: d,
            b: d + 2,
        },
    )
}

/// A copy.
pub fn put_copy(steps: &mut Items<FatStep>, to: u32, from: u32) -> Result<(), OutOfMemory>
    ensures { OnOk result (steps.new ≡ steps.old ++ FatStep.Copy to from ∷ []) }
{
    put(steps, FatStep::Copy { to, from })
}

/// The bounds of `n` bytes at `p`.
pub fn put_make(steps: &mut Items<FatStep>, to: u32, p: u32, n: u32) -> Result<(), OutOfMemory>
    ensures { OnOk result (steps.new ≡ steps.old ++ FatStep.Make to p n ∷ []) }
{
    put(steps, FatStep::Make { to, p, n })
}

/// The bounds with the addresses of both.
pub fn put_meet(steps: &mut Items<FatStep>, to: u32, a: u32, b: u32) -> Result<(), OutOfMemory>
    ensures { OnOk result (steps.new ≡ steps.old ++ FatStep.Meet to a b ∷ []) }
{
    put(steps, FatStep::Meet { to, a, b })
}

/// The address of an object, or of what stands in the data frame.
pub fn put_place(
    steps: &mut Items<FatStep>,
    symbol: Option<u32>,
    offset: u32,
    size: u64,
    d: u32,
) -> Result<(), OutOfMemory>
    requires { d + 6 ≤ 2 ^ 32 }
    ensures { OnOk result (steps.new ≡ steps.old ++ FatStep.Place d (d + 1) symbol offset size ∷ []) }
{
    put(
        steps,
        FatStep::Place {
            to: d,
            bounds: d + 1,
            symbol,
            offset,
            size,
        },
    )
}

/// The null pointer.
pub fn put_null(steps: &mut Items<FatStep>, d: u32) -> Result<(), OutOfMemory>
    requires { d + 6 ≤ 2 ^ 32 }
    ensures { OnOk result (steps.new ≡ steps.old ++ null_at d) }
{
    put_const(steps, d, 0)?;
    put_make(steps, d + 1, d, d)
}

/// A value as an address: an integer gets full bounds.
pub fn put_addressing(steps: &mut Items<FatStep>, number: bool, d: u32) -> Result<(), OutOfMemory>
    requires { d + 6 ≤ 2 ^ 32 }
    ensures { OnOk result (steps.new ≡ steps.old ++ addressing number d) }
{
    if !number {
        return Ok(());
    }
    let free = d + 2;
    put_const(steps, free, 0)?;
    put_make(steps, d + 1, free, free)
}

/// The end of what is no place.
pub fn put_ending(
    steps: &mut Items<FatStep>,
    place: bool,
    number: bool,
    d: u32,
) -> Result<(), OutOfMemory>
    requires { d + 6 ≤ 2 ^ 32 }
    ensures { OnOk result (steps.new ≡ steps.old ++ ending place number d) }
{
    if place {
        put_addressing(steps, number, d)
    } else {
        Ok(())
    }
}

/// A number in another type.
pub fn put_extending(
    steps: &mut Items<FatStep>,
    from: IntKind,
    to: IntKind,
    d: u32,
) -> Result<(), OutOfMemory>
    ensures { OnOk result (steps.new ≡ steps.old ++ extending from to d) }
{
    if keeps(from, to) {
        Ok(())
    } else {
        put(
            steps,
            FatStep::Extend {
                to: d,
                from: d,
                kind: to,
            },
        )
    }
}

/// A number times a size.
pub fn put_scaled(
    steps: &mut Items<FatStep>,
    size: u64,
    a: u32,
    free: u32,
) -> Result<(), OutOfMemory>
    ensures { OnOk result (steps.new ≡ steps.old ++ scaled size a free) }
{
    put_const(steps, free, size)?;
    put_arith(steps, a, Arithmetic::Mul, IntKind::U64, a, free)
}

/// The number `n` more than `a` into `to`, by a number that is free.
pub fn put_offset(
    steps: &mut Items<FatStep>,
    n: u64,
    to: u32,
    a: u32,
    free: u32,
) -> Result<(), OutOfMemory>
    ensures { OnOk result (steps.new ≡ steps.old ++ offset_by n to a free) }
{
    put_const(steps, free, n)?;
    put_arith(steps, to, Arithmetic::Add, IntKind::U64, a, free)
}
