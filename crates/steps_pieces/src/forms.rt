//! The steps of each form of expression that are its own.

ghost use Rattle.std.specs.Prelude.{◌≡◌, ◌+◌, ◌≤◌, ◌^◌, ◌++◌, ◌∷◌, [], OnOk};
ghost use Rattle.steps_facts.specs.Seen.{view_of};
ghost use Rattle.steps_facts.specs.Around.{standing_at};
ghost use Rattle.steps_pieces.specs.Own.{word_own, text_own, local_steps, name_own, single_own, cast_own, joint_between};
ghost use Rattle.steps_pieces.specs.Own.{joint_behind, crossing, choice_end, assigned_own, stepped_own, element_own, member_own};
ghost use Rattle.steps_pieces.specs.Own.{converting, call_own};
ghost use Rattle.steps_pieces.specs.Put.{put_of, added};
ghost use Rattle.steps_pieces.specs.Wanted.{addressing, null_at};

use crate::access::{put_part, put_part_ruled, put_read_unless};
use crate::assigning::{put_assigned_steps, put_changing, put_one};
use crate::calls::put_call_steps;
use crate::emitter::Emitter;
use crate::joining::{put_behind, put_between, put_cast_steps, put_indexing, put_single_steps};
use crate::kinds::{kind_of, reads_number};
use crate::operators::step_operator;
use crate::put::{put, put_addressing, put_const, put_ending, put_extending, put_null, put_place};
use c_check_rules::Bind;
use c_tree::{BinaryOp, UnaryOp};
use fat_ir::FatStep;
use mx_base::{Arithmetic, IntKind, OutOfMemory, Place};
use narrowing::Rule;
use sqlite_items::Items;
use steps_facts::{Facts, Knows, Seen, Sorted, Spot, Standing};

/// A number into `d`.
#[tactic(auto, unfolding(crate::specs::Put::added, crate::specs::Own::word_own))]
pub fn put_word(out: &mut Emitter, n: u64, wanted: bool, d: u32) -> Result<(), OutOfMemory>
    requires { d + 6 ≤ 2 ^ 32 }
    ensures { OnOk result (put_of out.new ≡ added (word_own n wanted d) (put_of out.old)) }
{
    put_const(&mut out.steps, d, n)?;
    put_ending(&mut out.steps, wanted, true, d)
}

/// The address of a text of `size` bytes, with the byte 0 at its end, at an offset behind the symbol of the texts.
#[tactic(auto, unfolding(crate::specs::Put::added, crate::specs::Own::text_own))]
pub fn put_text(
    out: &mut Emitter,
    symbol: u32,
    offset: u32,
    size: u64,
    d: u32,
) -> Result<(), OutOfMemory>
    requires { d + 6 ≤ 2 ^ 32 }
    ensures { OnOk result (put_of out.new ≡ added (text_own symbol offset size d) (put_of out.old)) }
{
    put_place(&mut out.steps, Some(symbol), offset, size, d)
}

/// A parameter or local, by where it stands.
fn put_standing(
    steps: &mut Items<FatStep>,
    at: Standing,
    sort: Sorted,
    wanted: bool,
    place: Place,
    d: u32,
) -> Result<(), OutOfMemory>
    requires { d + 6 ≤ 2 ^ 32 }
    ensures { OnOk result (steps.new ≡ steps.old ++ local_steps (standing_at at) sort wanted place d) }
{
    match at {
        Standing::Number(x) => put_read_unless(steps, wanted, Spot::Number(x), sort, place, d),
        Standing::Pointer(x) => put_read_unless(steps, wanted, Spot::Pointer(x), sort, place, d),
        Standing::Frame { offset, size } => {
            put_place(steps, None, offset, size, d)?;
            put_read_unless(steps, wanted, Spot::Memory, sort, place, d)
        }
        Standing::Nowhere => {
            put_null(steps, d)?;
            put_read_unless(steps, wanted, Spot::Memory, sort, place, d)
        }
    }
}

/// What a name means, which has a type of these facts.
#[tactic(auto, unfolding(crate::specs::Put::added, crate::specs::Own::name_own))]
pub fn put_name<K: Knows>(
    out: &mut Emitter,
    known: &K,
    bind: Bind,
    facts: Facts,
    wanted: bool,
    place: Place,
    d: u32,
) -> Result<(), OutOfMemory>
    requires { d + 6 ≤ 2 ^ 32 }
    ensures { OnOk result (put_of out.new ≡ added (name_own (K.around known.now) bind facts wanted place d) (put_of out.old)) }
{
    let steps = &mut out.steps;
    match bind {
        Bind::Global(number) => {
            put_place(steps, Some(known.global(number)), 0, facts.size, d)?;
            put_read_unless(steps, wanted, Spot::Memory, facts.sort, place, d)
        }
        Bind::Local(number) => {
            let at = known.variable(number);
            put_standing(steps, at, facts.sort, wanted, place, d)
        }
        Bind::Fun(number) => {
            put_place(steps, Some(known.function(number)), 0, 1, d)?;
            put_ending(steps, wanted, false, d)
        }
        Bind::Service(_) | Bind::Builtin(_) => {
            put_const(steps, d, 0)?;
            put_ending(steps, wanted, true, d)
        }
    }
}

/// An operator on the operand `x`, which gives a type of a sort.
#[tactic(auto, unfolding(crate::specs::Put::added, crate::specs::Own::single_own))]
pub fn put_single(
    out: &mut Emitter,
    op: UnaryOp,
    x: Seen,
    sort: Sorted,
    wanted: bool,
    place: Place,
    d: u32,
) -> Result<(), OutOfMemory>
    requires { d + 6 ≤ 2 ^ 32 }
    ensures { OnOk result (put_of out.new ≡ added (single_own op (view_of x) sort wanted place d) (put_of out.old)) }
{
    put_single_steps(&mut out.steps, op, x, sort, wanted, place, d)
}

/// A cast of `x` to a type of a sort.
#[tactic(auto, unfolding(crate::specs::Put::added, crate::specs::Own::cast_own))]
pub fn put_cast(
    out: &mut Emitter,
    x: Seen,
    sort: Sorted,
    wanted: bool,
    d: u32,
) -> Result<(), OutOfMemory>
    requires { d + 6 ≤ 2 ^ 32 }
    ensures { OnOk result (put_of out.new ≡ added (cast_own (view_of x) sort wanted d) (put_of out.old)) }
{
    put_cast_steps(&mut out.steps, x, sort, wanted, d)
}

/// What stands between the operands `a` and `b`; `first` is the first label of the operator.
#[tactic(auto, unfolding(crate::specs::Put::added, crate::specs::Own::joint_between))]
pub fn put_joint(
    out: &mut Emitter,
    joint: BinaryOp,
    a: Seen,
    b: Seen,
    first: u32,
    d: u32,
) -> Result<(), OutOfMemory>
    requires { first + 4 ≤ 2 ^ 32 }
    ensures { OnOk result (put_of out.new ≡ added (joint_between joint (view_of a) (view_of b) first d) (put_of out.old)) }
{
    put_between(&mut out.steps, joint, a, b, first, d)
}

/// What stands behind them.
#[tactic(auto, unfolding(crate::specs::Put::added, crate::specs::Own::joint_behind))]
pub fn put_joined(
    out: &mut Emitter,
    joint: BinaryOp,
    a: Seen,
    b: Seen,
    first: u32,
    wanted: bool,
    number: bool,
    d: u32,
) -> Result<(), OutOfMemory>
    requires labels { first + 4 ≤ 2 ^ 32 }
    requires room { d + 6 ≤ 2 ^ 32 }
    ensures { OnOk result (put_of out.new ≡ added (joint_behind joint (view_of a) (view_of b) first wanted number d) (put_of out.old)) }
{
    put_behind(&mut out.steps, joint, a, b, first, d)?;
    put_ending(&mut out.steps, wanted, number, d)
}

/// A jump, if `d` is not 0.
#[tactic(auto, unfolding(crate::specs::Put::added))]
pub fn put_jump_if(out: &mut Emitter, d: u32, n: u32) -> Result<(), OutOfMemory>
    ensures { OnOk result (put_of out.new ≡ added (FatStep.JumpIf d n ∷ []) (put_of out.old)) }
{
    put(&mut out.steps, FatStep::JumpIf { from: d, n })
}

/// To the label `end` from here, and on from `on`.
#[tactic(auto, unfolding(crate::specs::Put::added))]
pub fn put_crossing(out: &mut Emitter, on: u32, end: u32) -> Result<(), OutOfMemory>
    ensures { OnOk result (put_of out.new ≡ added (crossing on end) (put_of out.old)) }
{
    put(&mut out.steps, FatStep::Jump { n: end })?;
    put(&mut out.steps, FatStep::Label { n: on })
}

/// The end of `?:`.
#[tactic(auto, unfolding(crate::specs::Put::added, crate::specs::Own::choice_end))]
pub fn put_choice_end(
    out: &mut Emitter,
    end: u32,
    wanted: bool,
    number: bool,
    d: u32,
) -> Result<(), OutOfMemory>
    requires { d + 6 ≤ 2 ^ 32 }
    ensures { OnOk result (put_of out.new ≡ added (choice_end end wanted number d) (put_of out.old)) }
{
    put(&mut out.steps, FatStep::Label { n: end })?;
    put_ending(&mut out.steps, wanted, number, d)
}

/// The place `x` becomes the value `y`, or what an operator makes of both.
#[tactic(auto, unfolding(crate::specs::Put::added, crate::specs::Own::assigned_own))]
pub fn put_assigned(
    out: &mut Emitter,
    op: Option<Arithmetic>,
    x: Seen,
    y: Seen,
    wanted: bool,
    d: u32,
) -> Result<(), OutOfMemory>
    requires { d + 6 ≤ 2 ^ 32 }
    ensures { OnOk result (put_of out.new ≡ added (assigned_own op (view_of x) (view_of y) wanted d) (put_of out.old)) }
{
    put_assigned_steps(&mut out.steps, op, x, y, d)?;
    let number = reads_number(x.spot, x.facts.sort);
    put_ending(&mut out.steps, wanted, number, d)
}

/// `++` or `--` of the place `x`, before or behind it.
#[tactic(auto, unfolding(crate::specs::Put::added, crate::specs::Own::stepped_own))]
pub fn put_stepped(
    out: &mut Emitter,
    up: bool,
    before: bool,
    x: Seen,
    wanted: bool,
    d: u32,
) -> Result<(), OutOfMemory>
    requires { d + 6 ≤ 2 ^ 32 }
    ensures { OnOk result (put_of out.new ≡ added (stepped_own up before (view_of x) wanted d) (put_of out.old)) }
{
    put_one(&mut out.steps, x.spot, x.facts.sort, d)?;
    put_changing(
        &mut out.steps,
        x,
        step_operator(up),
        IntKind::I32,
        !before,
        d,
    )?;
    let number = reads_number(x.spot, x.facts.sort);
    put_ending(&mut out.steps, wanted, number, d)
}

/// A value as an address: an integer gets full bounds.
#[tactic(auto, unfolding(crate::specs::Put::added))]
pub fn put_addressed(out: &mut Emitter, number: bool, d: u32) -> Result<(), OutOfMemory>
    requires { d + 6 ≤ 2 ^ 32 }
    ensures { OnOk result (put_of out.new ≡ added (addressing number d) (put_of out.old)) }
{
    put_addressing(&mut out.steps, number, d)
}

/// The element, of a type of these facts, of a number in `d + 2` behind the pointer in `d`.
#[tactic(auto, unfolding(crate::specs::Put::added, crate::specs::Own::element_own))]
pub fn put_element(
    out: &mut Emitter,
    rule: Rule,
    facts: Facts,
    wanted: bool,
    place: Place,
    d: u32,
) -> Result<(), OutOfMemory>
    requires { d + 6 ≤ 2 ^ 32 }
    ensures { OnOk result (put_of out.new ≡ added (element_own rule facts wanted place d) (put_of out.old)) }
{
    put_indexing(&mut out.steps, false, facts.size, d)?;
    put_part_ruled(&mut out.steps, rule, d)?;
    put_read_unless(&mut out.steps, wanted, Spot::Memory, facts.sort, place, d)
}

/// A member from the value of its struct, which may be a number, and what is read there.
#[tactic(auto, unfolding(crate::specs::Put::added, crate::specs::Own::member_own))]
pub fn put_member(
    out: &mut Emitter,
    number: bool,
    offset: u64,
    rule: Rule,
    sort: Sorted,
    wanted: bool,
    place: Place,
    d: u32,
) -> Result<(), OutOfMemory>
    requires { d + 6 ≤ 2 ^ 32 }
    ensures { OnOk result (put_of out.new ≡ added (member_own number offset rule sort wanted place d) (put_of out.old)) }
{
    put_addressing(&mut out.steps, number, d)?;
    put_part(&mut out.steps, offset, rule, d)?;
    put_read_unless(&mut out.steps, wanted, Spot::Memory, sort, place, d)
}

/// What is seen so, in another type.
#[tactic(auto, unfolding(crate::specs::Put::added, crate::specs::Own::converting))]
pub fn put_converted(out: &mut Emitter, x: Seen, kind: IntKind, d: u32) -> Result<(), OutOfMemory>
    ensures { OnOk result (put_of out.new ≡ added (converting (view_of x) kind d) (put_of out.old)) }
{
    put_extending(&mut out.steps, kind_of(x.facts.sort), kind, d)
}

/// The null pointer.
#[tactic(auto, unfolding(crate::specs::Put::added))]
pub fn put_no_pointer(out: &mut Emitter, d: u32) -> Result<(), OutOfMemory>
    requires { d + 6 ≤ 2 ^ 32 }
    ensures { OnOk result (put_of out.new ≡ added (null_at d) (put_of out.old)) }
{
    put_null(&mut out.steps, d)
}

/// A call of what a name means, whose arguments stand there and whose result is of a sort; `first` is the first label of the call.
#[tactic(auto, unfolding(crate::specs::Put::added, crate::specs::Own::call_own))]
pub fn put_call<K: Knows>(
    out: &mut Emitter,
    known: &K,
    bind: Bind,
    args: Items<(u32, Option<u32>)>,
    sort: Sorted,
    first: u32,
    wanted: bool,
    number: bool,
    d: u32,
) -> Result<(), OutOfMemory>
    requires { d + 6 ≤ 2 ^ 32 }
    ensures { OnOk result (put_of out.new ≡ added (call_own (K.around known.now) bind args sort first wanted number d) (put_of out.old)) }
{
    put_call_steps(&mut out.steps, known, bind, args, sort, first, d)?;
    put_ending(&mut out.steps, wanted, number, d)
}
