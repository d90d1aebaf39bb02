//! A text fills an array.

ghost use Rattle.std.specs.Prelude.{◌≡◌, ◌+◌, ◌≤◌, ◌^◌, OnOk};
ghost use Rattle.bounds_plan.specs.elaboration.Initialisers.{text_filled};
ghost use Rattle.steps_facts.specs.Around.{standing_at};
ghost use Rattle.steps_pieces.specs.Put.{put_of};
ghost use Rattle.steps_filling.specs.Effects.{went_effects};
ghost use Rattle.c_emit_initialisers.specs.Texts.{HasText, first_word as first_of, behind_first as left_of};

use c_tree::{Expr, ExprKind};
use mx_base::{IntKind, OutOfMemory, Place, extend};
use steps_facts::Standing;
use steps_filling::{further, put_number};
use steps_pieces::Emitter;

/// The bytes of a text; what is no text has none.
pub fn text_of(e: &Expr) -> &[u8]
    ensures { HasText e.now result.now }
{
    match &e.kind {
        ExprKind::Text(bytes) => bytes.as_slice(),
        ExprKind::Number(_, _) => &[],
        ExprKind::Var(_) => &[],
        ExprKind::Unary(_, _) => &[],
        ExprKind::Binary(_, _, _) => &[],
        ExprKind::Assign(_, _, _) => &[],
        ExprKind::StepBy(_, _, _) => &[],
        ExprKind::Cond(_, _, _) => &[],
        ExprKind::Call(_, _) => &[],
        ExprKind::Index(_, _) => &[],
        ExprKind::Member(_, _) => &[],
        ExprKind::Arrow(_, _) => &[],
        ExprKind::Cast(_, _, _) => &[],
        ExprKind::SizeOfKind(_, _) => &[],
        ExprKind::SizeOfValue(_) => &[],
    }
}

/// The word of the first byte in a type of integers, which is 0 behind the end.
fn first_word(kind: IntKind, bytes: &[u8]) -> u64
    ensures { result ≡ first_of kind bytes.now }
{
    match bytes.split_first() {
        Some((byte, _)) => extend(kind, u64::from(*byte)),
        None => 0,
    }
}

/// The bytes behind the first one.
fn behind_first(bytes: &[u8]) -> &[u8]
    ensures { result.now ≡ left_of bytes.now }
{
    match bytes.split_first() {
        Some((_, more)) => more,
        None => bytes,
    }
}

/// The bytes of a text fill an array of so many elements, `step` bytes apart, from an offset on; what they leave of it becomes 0.
pub fn put_text_filled(
    out: &mut Emitter,
    at: Standing,
    offset: u64,
    kind: IntKind,
    count: u64,
    step: u64,
    text: &[u8],
    place: Place,
    d: u32,
) -> Result<(), OutOfMemory>
    requires { d + 8 ≤ 2 ^ 32 }
    ensures { OnOk result (put_of out.new ≡ went_effects (text_filled place kind count (standing_at at) offset step text.now) d (put_of
        out.old)) }
{
    let mut rest = text;
    let mut left = count;
    let mut to = offset;
    'bytes: while left > 0 {
        put_number(out, at, to, kind, first_word(kind, rest), place, d)?;
        to = further(to, step)?;
        rest = behind_first(rest);
        left -= 1;
    }
    Ok(())
}
