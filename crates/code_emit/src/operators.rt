//! The operators between two numbers, on rax and rcx with the result in rax.

ghost use Rattle.std.specs.Prelude.{◌≡◌, ◌++◌, List, OnOk};
ghost use Rattle.mx_base.specs.Numbers.{is_signed};
ghost use Rattle.step_code.specs.Steps as spec;
ghost use Rattle.step_code.specs.declared.pieces.Piece.{Piece};
ghost use Rattle.step_code.specs.declared.pieces.Piece.TheVariants as piece;
ghost use Rattle.x86_forms.specs.Examples as x;
ghost use Rattle.x86_forms.specs.declared.instr.Instr.TheVariants as i;
ghost use Rattle.mx_base.specs.declared.operators.Arithmetic.TheVariants as a;
ghost use Rattle.code_emit.specs.Plans.{plan_of};

use crate::arguments::append;
use crate::homes::{RAX, RCX, RDX, get, in_reg, put};
use crate::numbers::{extend, set};
use crate::plan::{FunctionPlan, home};
use mx_base::{Arithmetic, Comparison, IntKind, OutOfMemory};
use step_code::Piece;
use x86_forms::{Instr, Reg};

fn is_narrow(kind: IntKind) -> bool
    ensures { result ≡ spec.is_narrow kind }
{
    match kind {
        IntKind::I64 | IntKind::U64 => false,
        _ => true,
    }
}

/// Whether the type has numbers below 0.
fn has_sign(kind: IntKind) -> bool
    ensures { result ≡ is_signed kind }
{
    match kind {
        IntKind::I8 | IntKind::I16 | IntKind::I32 | IntKind::I64 => true,
        IntKind::U8 | IntKind::U16 | IntKind::U32 | IntKind::U64 => false,
    }
}

/// A register of a narrow type becomes the word of its number.
fn widen(out: &mut Vec<Piece>, kind: IntKind, r: u8) -> Result<(), OutOfMemory>
    ensures { (rest : List Piece) → OnOk result (out.new.items ++ rest ≡ out.old.items ++ spec.widen kind r rest) }
{
    if is_narrow(kind) {
        append(out, &[Piece::Plain(extend(kind, r))])
    } else {
        Ok(())
    }
}

/// Two numbers come to rax and rcx, as words of their type where `words` says so.
fn load_two(
    out: &mut Vec<Piece>,
    p: &FunctionPlan,
    words: bool,
    kind: IntKind,
    a: u32,
    b: u32,
) -> Result<(), OutOfMemory>
    ensures { (rest : List Piece) → OnOk result (out.new.items ++ rest
        ≡ out.old.items ++ spec.load_two (plan_of p.now) words kind a b rest) }
{
    if words {
        append(out, &[get(RAX, home(p, a))])?;
        widen(out, kind, RAX)?;
        append(out, &[get(RCX, home(p, b))])?;
        widen(out, kind, RCX)
    } else {
        append(out, &[get(RAX, home(p, a)), get(RCX, home(p, b))])
    }
}

fn alu(op: u8) -> Piece
    ensures { result ≡ piece.Plain (i.AluTo op 64 (x.reg 1) (x.in_reg 0)) }
{
    Piece::Plain(Instr::AluTo {
        op,
        w: 64,
        r: Reg(RCX),
        rm: in_reg(RAX),
    })
}

/// The signed (3) or unsigned (2) division by rcx: the quotient comes to rax and the remainder to rdx.
fn divided(op: u8) -> Piece
    ensures { result ≡ piece.Plain (i.One op 64 (x.in_reg 1)) }
{
    Piece::Plain(Instr::One {
        op,
        w: 64,
        rm: in_reg(RCX),
    })
}

fn quotient(out: &mut Vec<Piece>, kind: IntKind) -> Result<(), OutOfMemory>
    ensures { (rest : List Piece) → OnOk result (out.new.items ++ rest ≡ out.old.items ++ spec.operation a.Div kind rest) }
{
    if has_sign(kind) {
        append(out, &[Piece::Plain(Instr::Wide { w: 64 }), divided(3)])
    } else {
        append(out, &[set(RDX, 0), divided(2)])
    }
}

fn remainder(out: &mut Vec<Piece>, kind: IntKind) -> Result<(), OutOfMemory>
    ensures { (rest : List Piece) → OnOk result (out.new.items ++ rest ≡ out.old.items ++ spec.operation a.Rem kind rest) }
{
    let moved = Piece::Plain(Instr::MovTo {
        w: 64,
        r: Reg(RDX),
        rm: in_reg(RAX),
    });
    if has_sign(kind) {
        append(
            out,
            &[Piece::Plain(Instr::Wide { w: 64 }), divided(3), moved],
        )
    } else {
        append(out, &[set(RDX, 0), divided(2), moved])
    }
}

fn shift_width(kind: IntKind) -> u8
    ensures { result ≡ spec.shift_width kind }
{
    if is_narrow(kind) { 32 } else { 64 }
}

fn right_shift(kind: IntKind) -> u8
    ensures { result ≡ spec.right_shift kind }
{
    if has_sign(kind) { 2 } else { 1 }
}

fn shifted(op: u8, kind: IntKind) -> Piece
    ensures { result ≡ piece.Plain (i.ShiftCl op (spec.shift_width kind) (x.in_reg 0)) }
{
    Piece::Plain(Instr::ShiftCl {
        op,
        w: shift_width(kind),
        rm: in_reg(RAX),
    })
}

fn operation(out: &mut Vec<Piece>, op: Arithmetic, kind: IntKind) -> Result<(), OutOfMemory>
    ensures { (rest : List Piece) → OnOk result (out.new.items ++ rest ≡ out.old.items ++ spec.operation op kind rest) }
{
    match op {
        Arithmetic::Add => append(out, &[alu(0)]),
        Arithmetic::Sub => append(out, &[alu(3)]),
        Arithmetic::Mul => append(
            out,
            &[Piece::Plain(Instr::Imul {
                w: 64,
                r: Reg(RAX),
                rm: in_reg(RCX),
            })],
        ),
        Arithmetic::BitAnd => append(out, &[alu(2)]),
        Arithmetic::BitOr => append(out, &[alu(1)]),
        Arithmetic::BitXor => append(out, &[alu(4)]),
        Arithmetic::Shl => append(out, &[shifted(0, kind)]),
        Arithmetic::Shr => append(out, &[shifted(right_shift(kind), kind)]),
        Arithmetic::Div => quotient(out, kind),
        Arithmetic::Rem => remainder(out, kind),
    }
}

/// Whether an operator's operands are made words of their type first.
fn needs_words(op: Arithmetic) -> bool
    ensures { result ≡ spec.needs_words op }
{
    match op {
        Arithmetic::Add | Arithmetic::Sub => false,
        Arithmetic::Mul
        | Arithmetic::Div
        | Arithmetic::Rem
        | Arithmetic::Shl
        | Arithmetic::Shr
        | Arithmetic::BitAnd
        | Arithmetic::BitXor
        | Arithmetic::BitOr => true,
    }
}

/// The pieces of an operator.
pub fn lower_arith(
    out: &mut Vec<Piece>,
    p: &FunctionPlan,
    op: Arithmetic,
    kind: IntKind,
    to: u32,
    a: u32,
    b: u32,
) -> Result<(), OutOfMemory>
    ensures { OnOk result (out.new.items ≡ out.old.items ++ spec.lower_arith (plan_of p.now) op kind to a b) }
{
    load_two(out, p, needs_words(op), kind, a, b)?;
    operation(out, op, kind)?;
    append(
        out,
        &[Piece::Plain(extend(kind, RAX)), put(home(p, to), RAX)],
    )
}

/// The condition of a comparison, of numbers with a sign or without one.
fn condition(op: Comparison, signed: bool) -> u8
    ensures { result ≡ spec.condition op signed }
{
    match op {
        Comparison::Less => { if signed { 12 } else { 2 } }
        Comparison::LessOrEqual => { if signed { 14 } else { 6 } }
        Comparison::Greater => { if signed { 15 } else { 7 } }
        Comparison::GreaterOrEqual => { if signed { 13 } else { 3 } }
        Comparison::Equal => 4,
        Comparison::NotEqual => 5,
    }
}

/// The pieces of a comparison.
pub fn lower_compare(
    out: &mut Vec<Piece>,
    p: &FunctionPlan,
    op: Comparison,
    kind: IntKind,
    to: u32,
    a: u32,
    b: u32,
) -> Result<(), OutOfMemory>
    ensures { OnOk result (out.new.items ≡ out.old.items ++ spec.lower_compare (plan_of p.now) op kind to a b) }
{
    load_two(out, p, true, kind, a, b)?;
    append(
        out,
        &[
            alu(5),
            Piece::Plain(Instr::Set {
                op: condition(op, has_sign(kind)),
                rm: in_reg(RAX),
            }),
            Piece::Plain(Instr::Movzx {
                from: 8,
                r: Reg(RAX),
                rm: in_reg(RAX),
            }),
            put(home(p, to), RAX),
        ],
    )
}
