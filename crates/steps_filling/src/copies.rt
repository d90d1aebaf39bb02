//! A struct is copied, scalar by scalar.

ghost use Rattle.std.specs.Prelude.{◌≡◌, ◌+◌, ◌≤◌, ◌^◌, OnOk, IfOk};
ghost use Rattle.bounds_plan.specs.steps.Code.{offset_by, copied};
ghost use Rattle.steps_facts.specs.Around.{scalars_seen};
ghost use Rattle.steps_pieces.specs.Put.{put_of, added};
ghost use Rattle.steps_filling.specs.Parts.{went_copies, copying};

use crate::parts::put;
use fat_ir::FatStep;
use mx_base::{Arithmetic, IntKind, OutOfMemory, Place};
use steps_facts::ScalarAt;
use steps_pieces::Emitter;

/// The number `n` more than `a` into `to`, by a number that is free.
fn put_offset(out: &mut Emitter, n: u64, to: u32, a: u32, free: u32) -> Result<(), OutOfMemory>
    ensures { OnOk result (put_of out.new ≡ added (offset_by n to a free) (put_of out.old)) }
{
    put(out, FatStep::Const { to: free, n })?;
    put(
        out,
        FatStep::Arith {
            to,
            op: Arithmetic::Add,
            kind: IntKind::U64,
            a,
            b: free,
        },
    )
}

/// A scalar of the struct at `d + 2` is copied to the one at `d`.
fn put_copy(out: &mut Emitter, x: ScalarAt, d: u32) -> Result<(), OutOfMemory>
    requires { d + 8 ≤ 2 ^ 32 }
    ensures { OnOk result (put_of out.new ≡ added (copied x.offset x.kind d) (put_of out.old)) }
{
    let to = d + 4;
    let from = d + 6;
    put_offset(out, x.offset, from, d + 2, to)?;
    match x.kind {
        None => {
            put(
                out,
                FatStep::LoadPtr {
                    p: from,
                    to: from,
                    bounds: from + 1,
                },
            )?;
            put_offset(out, x.offset, to, d, to)?;
            put(
                out,
                FatStep::StorePtr {
                    p: to,
                    from,
                    bounds: from + 1,
                },
            )
        }
        Some(kind) => {
            put(
                out,
                FatStep::Load {
                    p: from,
                    to: from,
                    kind,
                },
            )?;
            put_offset(out, x.offset, to, d, to)?;
            put(out, FatStep::Store { p: to, from, kind })
        }
    }
}

/// The scalars of the struct at `d + 2` are copied to the one at `d`.
fn put_copies(out: &mut Emitter, scalars: &[ScalarAt], d: u32) -> Result<(), OutOfMemory>
    requires { d + 8 ≤ 2 ^ 32 }
    ensures { OnOk result (put_of out.new ≡ went_copies (scalars_seen scalars.now) d (put_of out.old)) }
{
    for x in scalars {
        put_copy(out, *x, d)?;
    }
    Ok(())
}

/// A size for a check of bounds.
fn judged_size(size: u64) -> Result<u32, OutOfMemory>
    ensures { IfOk result (λ n. n ≡ size) }
{
    match u32::try_from(size) {
        Ok(n) => Ok(n),
        Err(_) => Err(OutOfMemory),
    }
}

/// The struct at `d + 2`, of `size` bytes and these scalars, is copied to the one at `d`; both accesses are judged, by where they stand in
/// the sources.
pub fn put_copied(
    out: &mut Emitter,
    size: u64,
    scalars: &[ScalarAt],
    to: Place,
    from: Place,
    d: u32,
) -> Result<(), OutOfMemory>
    requires { d + 8 ≤ 2 ^ 32 }
    ensures { OnOk result (put_of out.new ≡ added (copying size (scalars_seen scalars.now) to from d) (put_of out.old)) }
{
    let n = judged_size(size)?;
    let source = d + 2;
    put(
        out,
        FatStep::Extend {
            to: source,
            from: source,
            kind: IntKind::U64,
        },
    )?;
    put(
        out,
        FatStep::Judge {
            value: source,
            size: n,
            bounds: source + 1,
            write: false,
            place: from,
        },
    )?;
    put(
        out,
        FatStep::Extend {
            to: d,
            from: d,
            kind: IntKind::U64,
        },
    )?;
    put(
        out,
        FatStep::Judge {
            value: d,
            size: n,
            bounds: d + 1,
            write: true,
            place: to,
        },
    )?;
    put_copies(out, scalars, d)
}
