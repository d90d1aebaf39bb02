//! What operators do between and behind their operands.

ghost use Rattle.std.specs.Prelude.{◌≡◌, ◌+◌, ◌≤◌, ◌^◌, ◌++◌, ◌∷◌, [], OnOk};
ghost use Rattle.bounds_plan.specs.steps.Code.{scaled, plus_or_minus};
ghost use Rattle.steps_facts.specs.Seen.{view_of};
ghost use Rattle.steps_pieces.specs.Own.{between, behind, with_word as on_word, right_extending, parting, deciding, single_steps};
ghost use Rattle.steps_pieces.specs.Own.{cast_steps, hidden};

use crate::access::put_read_unless;
use crate::kinds::{common, done_in, kind_of, promoted};
use crate::put::{
    put, put_addressing, put_arith, put_compare, put_const, put_copy, put_ending, put_extending,
    put_null, put_scaled,
};
use c_check_rules::{shifts, takes_away};
use c_tree::{BinaryOp, Logical, UnaryOp};
use fat_ir::FatStep;
use mx_base::{Arithmetic, Comparison, IntKind, OutOfMemory, Place};
use sqlite_items::Items;
use steps_facts::{Seen, Sorted, Spot};

/// An operator on the promoted operand in `d` and a number.
fn put_with_word(
    steps: &mut Items<FatStep>,
    op: Arithmetic,
    kind: IntKind,
    n: u64,
    d: u32,
) -> Result<(), OutOfMemory>
    requires { d + 6 ≤ 2 ^ 32 }
    ensures { OnOk result (steps.new ≡ steps.old ++ on_word op kind n d) }
{
    put_extending(steps, kind, promoted(kind), d)?;
    put_const(steps, d + 2, n)?;
    put_arith(steps, d, op, promoted(kind), d, d + 2)
}

/// A private variable has no address.
fn put_hidden(steps: &mut Items<FatStep>, spot: Spot, d: u32) -> Result<(), OutOfMemory>
    requires { d + 6 ≤ 2 ^ 32 }
    ensures { OnOk result (steps.new ≡ steps.old ++ hidden spot d) }
{
    match spot {
        Spot::Number(_) | Spot::Pointer(_) => put_null(steps, d),
        Spot::Memory => Ok(()),
    }
}

/// An operator on one operand.
pub fn put_single_steps(
    steps: &mut Items<FatStep>,
    op: UnaryOp,
    x: Seen,
    sort: Sorted,
    wanted: bool,
    place: Place,
    d: u32,
) -> Result<(), OutOfMemory>
    requires { d + 6 ≤ 2 ^ 32 }
    ensures { OnOk result (steps.new ≡ steps.old ++ single_steps op (view_of x) sort wanted place d) }
{
    let kind = kind_of(x.facts.sort);
    match op {
        UnaryOp::Neg => {
            put_with_word(steps, Arithmetic::Mul, kind, 0xffff_ffff_ffff_ffff, d)?;
            put_ending(steps, wanted, true, d)
        }
        UnaryOp::BitNot => {
            put_with_word(steps, Arithmetic::BitXor, kind, 0xffff_ffff_ffff_ffff, d)?;
            put_ending(steps, wanted, true, d)
        }
        UnaryOp::Not => {
            put_const(steps, d + 2, 0)?;
            put_compare(steps, Comparison::Equal, kind, d)?;
            put_ending(steps, wanted, true, d)
        }
        UnaryOp::Deref => {
            put_addressing(steps, x.number, d)?;
            put_read_unless(steps, wanted, Spot::Memory, sort, place, d)
        }
        UnaryOp::AddressOf => put_hidden(steps, x.spot, d),
    }
}

/// A cast to a type of a sort.
pub fn put_cast_steps(
    steps: &mut Items<FatStep>,
    x: Seen,
    sort: Sorted,
    wanted: bool,
    d: u32,
) -> Result<(), OutOfMemory>
    requires { d + 6 ≤ 2 ^ 32 }
    ensures { OnOk result (steps.new ≡ steps.old ++ cast_steps (view_of x) sort wanted d) }
{
    match sort {
        Sorted::Number(kind) => {
            put_extending(steps, kind_of(x.facts.sort), kind, d)?;
            put_ending(steps, wanted, true, d)
        }
        Sorted::Pointer => put_addressing(steps, x.number, d),
        Sorted::Whole | Sorted::Nothing => put_ending(steps, wanted, x.number, d),
    }
}

/// The right operand of an operator in the type in which it is done.
pub fn put_right(
    steps: &mut Items<FatStep>,
    op: Arithmetic,
    from: IntKind,
    to: IntKind,
    d: u32,
) -> Result<(), OutOfMemory>
    ensures { OnOk result (steps.new ≡ steps.old ++ right_extending op from to d) }
{
    if shifts(op) {
        Ok(())
    } else {
        put_extending(steps, from, to, d)
    }
}

/// On at the label `on` if `d` is not 0, and else at `end`.
fn put_parting(steps: &mut Items<FatStep>, on: u32, end: u32, d: u32) -> Result<(), OutOfMemory>
    ensures { OnOk result (steps.new ≡ steps.old ++ parting on end d) }
{
    put(steps, FatStep::JumpIf { from: d, n: on })?;
    put(steps, FatStep::Jump { n: end })?;
    put(steps, FatStep::Label { n: on })
}

/// The same, and 1 into `d` before `end`.
fn put_deciding(steps: &mut Items<FatStep>, on: u32, end: u32, d: u32) -> Result<(), OutOfMemory>
    ensures { OnOk result (steps.new ≡ steps.old ++ deciding on end d) }
{
    put_parting(steps, on, end, d)?;
    put_const(steps, d, 1)?;
    put(steps, FatStep::Label { n: end })
}

/// What stands between the operands.
pub fn put_between(
    steps: &mut Items<FatStep>,
    joint: BinaryOp,
    a: Seen,
    b: Seen,
    first: u32,
    d: u32,
) -> Result<(), OutOfMemory>
    requires { first + 4 ≤ 2 ^ 32 }
    ensures { OnOk result (steps.new ≡ steps.old ++ between joint (view_of a) (view_of b) first d) }
{
    let from = kind_of(a.facts.sort);
    let other = kind_of(b.facts.sort);
    match joint {
        BinaryOp::Arithmetic(op) => {
            if a.number && b.number {
                put_extending(steps, from, done_in(op, from, other), d)
            } else {
                Ok(())
            }
        }
        BinaryOp::Comparison(_) => {
            if a.number && b.number {
                put_extending(steps, from, common(from, other), d)
            } else {
                Ok(())
            }
        }
        BinaryOp::Logical(Logical::And) => put_parting(steps, first, first + 1, d),
        BinaryOp::Logical(Logical::Or) => put(steps, FatStep::JumpIf { from: d, n: first }),
    }
}

/// Two numbers are calculated with.
fn put_numbers(
    steps: &mut Items<FatStep>,
    op: Arithmetic,
    from: IntKind,
    to: IntKind,
    d: u32,
) -> Result<(), OutOfMemory>
    requires { d + 6 ≤ 2 ^ 32 }
    ensures { OnOk result (steps.new ≡ steps.old ++ (right_extending op from to (d + 2) ++ (FatStep.Arith d op to d (d + 2) ∷ []))) }
{
    put_right(steps, op, from, to, d + 2)?;
    put_arith(steps, d, op, to, d, d + 2)
}

/// The operator that moves a pointer.
pub fn moving(minus: bool) -> Arithmetic
    ensures { result ≡ plus_or_minus minus }
{
    if minus {
        Arithmetic::Sub
    } else {
        Arithmetic::Add
    }
}

/// An element of the pointer in `d`.
pub fn put_indexing(
    steps: &mut Items<FatStep>,
    minus: bool,
    size: u64,
    d: u32,
) -> Result<(), OutOfMemory>
    requires { d + 6 ≤ 2 ^ 32 }
    ensures { OnOk result (steps.new ≡ steps.old ++ (scaled size (d + 2) (d + 4) ++ (FatStep.Arith d (plus_or_minus minus) IntKind.U64 d (d + 2) ∷ []))) }
{
    put_scaled(steps, size, d + 2, d + 4)?;
    put_arith(steps, d, moving(minus), IntKind::U64, d, d + 2)
}

/// The same where the number stands before the pointer.
fn put_indexing_after(steps: &mut Items<FatStep>, size: u64, d: u32) -> Result<(), OutOfMemory>
    requires { d + 6 ≤ 2 ^ 32 }
    ensures { OnOk result (steps.new ≡ steps.old ++ (scaled size d (d + 4) ++ (FatStep.Arith d Arithmetic.Add IntKind.U64 (d + 2) d ∷ FatStep.Copy (d + 1) (d + 2 + 1) ∷ []))) }
{
    put_scaled(steps, size, d, d + 4)?;
    let p = d + 2;
    put_arith(steps, d, Arithmetic::Add, IntKind::U64, p, d)?;
    put_copy(steps, d + 1, p + 1)
}

/// The difference of two pointers.
fn put_distance(steps: &mut Items<FatStep>, size: u64, d: u32) -> Result<(), OutOfMemory>
    requires { d + 6 ≤ 2 ^ 32 }
    ensures { OnOk result (steps.new ≡ steps.old ++ (FatStep.Arith d Arithmetic.Sub IntKind.I64 d (d + 2) ∷ FatStep.Const (d + 2) size ∷ FatStep.Arith d Arithmetic.Div IntKind.I64 d (d + 2) ∷ [])) }
{
    put_arith(steps, d, Arithmetic::Sub, IntKind::I64, d, d + 2)?;
    put_const(steps, d + 2, size)?;
    put_arith(steps, d, Arithmetic::Div, IntKind::I64, d, d + 2)
}

/// A calculation with two operands.
fn put_calculated(
    steps: &mut Items<FatStep>,
    op: Arithmetic,
    a: Seen,
    b: Seen,
    d: u32,
) -> Result<(), OutOfMemory>
    requires { d + 6 ≤ 2 ^ 32 }
    ensures { OnOk result (steps.new ≡ steps.old ++ behind (BinaryOp.Arithmetic op) (view_of a) (view_of b) 0 d) }
{
    if a.number {
        if b.number {
            let from = kind_of(b.facts.sort);
            let to = done_in(op, kind_of(a.facts.sort), from);
            put_numbers(steps, op, from, to, d)
        } else {
            put_indexing_after(steps, b.facts.step, d)
        }
    } else if b.number {
        put_indexing(steps, takes_away(op), a.facts.step, d)
    } else {
        put_distance(steps, a.facts.step, d)
    }
}

/// A comparison of two operands.
fn put_compared(
    steps: &mut Items<FatStep>,
    op: Comparison,
    a: Seen,
    b: Seen,
    d: u32,
) -> Result<(), OutOfMemory>
    requires { d + 6 ≤ 2 ^ 32 }
    ensures { OnOk result (steps.new ≡ steps.old ++ behind (BinaryOp.Comparison op) (view_of a) (view_of b) 0 d) }
{
    if a.number && b.number {
        let from = kind_of(b.facts.sort);
        let to = common(kind_of(a.facts.sort), from);
        put_extending(steps, from, to, d + 2)?;
        put_compare(steps, op, to, d)
    } else {
        put_compare(steps, op, IntKind::U64, d)
    }
}

/// What stands behind the operands.
pub fn put_behind(
    steps: &mut Items<FatStep>,
    joint: BinaryOp,
    a: Seen,
    b: Seen,
    first: u32,
    d: u32,
) -> Result<(), OutOfMemory>
    requires labels { first + 4 ≤ 2 ^ 32 }
    requires room { d + 6 ≤ 2 ^ 32 }
    ensures { OnOk result (steps.new ≡ steps.old ++ behind joint (view_of a) (view_of b) first d) }
{
    match joint {
        BinaryOp::Arithmetic(op) => put_calculated(steps, op, a, b, d),
        BinaryOp::Comparison(op) => put_compared(steps, op, a, b, d),
        BinaryOp::Logical(Logical::And) => put_deciding(steps, first + 2, first + 1, d),
        BinaryOp::Logical(Logical::Or) => put_deciding(steps, first, first + 1, d),
    }
}
