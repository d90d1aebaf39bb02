//! Instructions by their mnemonics and operands.

ghost use Rattle.std.specs.Prelude.{◌≡◌};
ghost use Rattle.asm_text.specs.Instructions as spec;

use crate::operands::{is_signed_32, signed_32};
use crate::parts::{Choice, Operand, Target};
use asm_names::Mnemonic;
use mx_base::{IntKind, wrap};
use x86_forms::{Instr, Mem, Reg, Rm};

/// An immediate or displacement that no shorter field holds.
const WIDE_FIELD: i64 = 0x7FFF_FFFF;

fn fit(instr: Instr, fits: bool) -> Choice
    ensures { result ≡ spec.fit instr fits }
{
    Choice { instr, fits }
}

/// A register of this width, or memory without a size word.
#[tactic(auto, unfolding(crate::specs::Instructions::beside))]
fn of_width(w: u8, x: Operand) -> Option<Target>
    ensures { result ≡ spec.beside w x }
{
    match x {
        Operand::Register { w: v, r } => {
            if v == w {
                Some(Target {
                    w,
                    rm: Rm::Reg(r),
                    fits: true,
                })
            } else {
                None
            }
        }
        Operand::Memory { m, fits } => Some(Target {
            w,
            rm: Rm::Mem(m),
            fits,
        }),
        _ => None,
    }
}

/// A register, or memory behind a size word.
#[tactic(auto, unfolding(crate::specs::Instructions::sized))]
fn sized(x: Operand) -> Option<Target>
    ensures { result ≡ spec.sized x }
{
    match x {
        Operand::Register { w, r } => Some(Target {
            w,
            rm: Rm::Reg(r),
            fits: true,
        }),
        Operand::Sized { w, m, fits } => Some(Target {
            w,
            rm: Rm::Mem(m),
            fits,
        }),
        _ => None,
    }
}

fn kind_of(w: u8) -> IntKind
    ensures { result ≡ spec.kind_of w }
{
    match w {
        8 => IntKind::I8,
        16 => IntKind::I16,
        32 => IntKind::I32,
        _ => IntKind::I64,
    }
}

fn unsigned_kind(w: u8) -> IntKind
    ensures { result ≡ spec.unsigned_kind w }
{
    if w == 32 { IntKind::U32 } else { IntKind::U64 }
}

/// The signed number of `w` bits, for a field of at most 32.
#[tactic(auto, unfolding(crate::specs::Instructions::narrow, crate::specs::Instructions::taken))]
fn narrow(w: u8, n: Option<i128>) -> Option<i64>
    ensures { result ≡ spec.narrow w n }
{
    let z = wrap(kind_of(w), n?);
    match i32::try_from(z) {
        Ok(v) => Some(i64::from(v)),
        Err(_) => None,
    }
}

/// The signed number of `w` bits.
#[tactic(auto, unfolding(crate::specs::Instructions::wide, crate::specs::Instructions::taken))]
fn wide(w: u8, n: Option<i128>) -> Option<i64>
    ensures { result ≡ spec.wide w n }
{
    let z = wrap(kind_of(w), n?);
    Some(z as i64)
}

/// The count of a shift.
#[tactic(auto, unfolding(crate::specs::Instructions::count))]
fn count(w: u8, n: Option<i128>) -> Option<i64>
    ensures { result ≡ spec.count w n }
{
    let z = wrap(unsigned_kind(w), n?);
    match u8::try_from(z) {
        Ok(v) => Some(i64::from(v)),
        Err(_) => None,
    }
}

fn field(n: Option<i64>) -> i64
    ensures { result ≡ spec.field n }
{
    n.unwrap_or(0)
}

fn has_field(n: Option<i64>) -> bool
    ensures { result ≡ spec.has_field n }
{
    n.is_some()
}

#[tactic(auto, unfolding(crate::specs::Instructions::alu_registers, crate::specs::Instructions::to))]
fn alu_registers(op: u8, a: Operand, b: Operand) -> Option<Choice>
    ensures { result ≡ spec.alu_registers op a b }
{
    match b {
        Operand::Register { w, r } => {
            let t = of_width(w, a)?;
            Some(fit(Instr::AluTo { op, w, r, rm: t.rm }, t.fits))
        }
        Operand::Memory { m, fits } => match a {
            Operand::Register { w, r } => Some(fit(Instr::AluFrom { op, w, r, m }, fits)),
            _ => None,
        },
        _ => None,
    }
}

#[tactic(auto, unfolding(crate::specs::Instructions::alu_number))]
fn alu_number(op: u8, a: Operand, n: Option<i128>) -> Option<Choice>
    ensures { result ≡ spec.alu_number op a n }
{
    let t = sized(a)?;
    let imm = narrow(t.w, n);
    Some(fit(
        Instr::AluImm {
            op,
            w: t.w,
            rm: t.rm,
            imm: field(imm),
        },
        t.fits && has_field(imm),
    ))
}

#[tactic(auto, unfolding(crate::specs::Instructions::alu))]
fn alu(op: u8, a: Operand, b: Operand) -> Option<Choice>
    ensures { result ≡ spec.alu op a b }
{
    match b {
        Operand::Number(n) => alu_number(op, a, n),
        b => alu_registers(op, a, b),
    }
}

#[tactic(auto, unfolding(crate::specs::Instructions::mov_number))]
fn mov_number(a: Operand, n: Option<i128>) -> Option<Choice>
    ensures { result ≡ spec.mov_number a n }
{
    match a {
        Operand::Register { w, r } => {
            let imm = wide(w, n);
            Some(fit(
                Instr::MovImm {
                    w,
                    r,
                    imm: field(imm),
                },
                n.is_some(),
            ))
        }
        Operand::Sized { w, m, fits } => {
            let imm = narrow(w, n);
            Some(fit(
                Instr::MovMemImm {
                    w,
                    m,
                    imm: field(imm),
                },
                fits && has_field(imm),
            ))
        }
        _ => None,
    }
}

#[tactic(auto, unfolding(crate::specs::Instructions::mov_symbol))]
fn mov_symbol(a: Operand) -> Option<Choice>
    ensures { result ≡ spec.mov_symbol a }
{
    match a {
        Operand::Register { w, r } => Some(fit(
            Instr::MovImm {
                w,
                r,
                imm: WIDE_FIELD,
            },
            true,
        )),
        _ => None,
    }
}

#[tactic(auto, unfolding(crate::specs::Instructions::mov_registers, crate::specs::Instructions::to))]
fn mov_registers(a: Operand, b: Operand) -> Option<Choice>
    ensures { result ≡ spec.mov_registers a b }
{
    match b {
        Operand::Register { w, r } => {
            let t = of_width(w, a)?;
            Some(fit(Instr::MovTo { w, r, rm: t.rm }, t.fits))
        }
        Operand::Memory { m, fits } => match a {
            Operand::Register { w, r } => Some(fit(Instr::MovFrom { w, r, m }, fits)),
            _ => None,
        },
        _ => None,
    }
}

#[tactic(auto, unfolding(crate::specs::Instructions::mov))]
fn mov(a: Operand, b: Operand) -> Option<Choice>
    ensures { result ≡ spec.mov a b }
{
    match b {
        Operand::Number(n) => mov_number(a, n),
        Operand::Symbol => mov_symbol(a),
        b => mov_registers(a, b),
    }
}

#[tactic(auto, unfolding(crate::specs::Instructions::test_operands, crate::specs::Instructions::to))]
fn test_registers(a: Operand, b: Operand) -> Option<Choice>
    ensures { result ≡ spec.test_operands a b }
{
    match b {
        Operand::Register { w, r } => {
            let t = of_width(w, a)?;
            Some(fit(Instr::Test { w, r, rm: t.rm }, t.fits))
        }
        _ => None,
    }
}

#[tactic(auto, unfolding(crate::specs::Instructions::imul))]
fn imul(a: Operand, b: Operand) -> Option<Choice>
    ensures { result ≡ spec.imul a b }
{
    match a {
        Operand::Register { w, r } => {
            let t = of_width(w, b)?;
            Some(fit(Instr::Imul { w, r, rm: t.rm }, t.fits))
        }
        _ => None,
    }
}

#[tactic(auto, unfolding(crate::specs::Instructions::movsxd))]
fn movsxd(a: Operand, b: Operand) -> Option<Choice>
    ensures { result ≡ spec.movsxd a b }
{
    match a {
        Operand::Register { w: 64, r } => {
            let t = of_width(32, b)?;
            Some(fit(Instr::Movsxd { r, rm: t.rm }, t.fits))
        }
        _ => None,
    }
}

#[tactic(auto, unfolding(crate::specs::Instructions::movzx))]
fn movzx(a: Operand, b: Operand) -> Option<Choice>
    ensures { result ≡ spec.movzx a b }
{
    match a {
        Operand::Register { w: 32, r } => {
            let t = sized(b)?;
            Some(fit(
                Instr::Movzx {
                    from: t.w,
                    r,
                    rm: t.rm,
                },
                t.fits,
            ))
        }
        _ => None,
    }
}

#[tactic(auto, unfolding(crate::specs::Instructions::movsx))]
fn movsx(a: Operand, b: Operand) -> Option<Choice>
    ensures { result ≡ spec.movsx a b }
{
    match a {
        Operand::Register { w, r } => {
            let t = sized(b)?;
            Some(fit(
                Instr::Movsx {
                    w,
                    from: t.w,
                    r,
                    rm: t.rm,
                },
                t.fits,
            ))
        }
        _ => None,
    }
}

#[tactic(auto, unfolding(crate::specs::Instructions::lea))]
fn lea(a: Operand, b: Operand) -> Option<Choice>
    ensures { result ≡ spec.lea a b }
{
    match (a, b) {
        (Operand::Register { w: 64, r }, Operand::Memory { m, fits }) => {
            Some(fit(Instr::Lea { r, m }, fits))
        }
        _ => None,
    }
}

#[tactic(auto, unfolding(crate::specs::Instructions::one))]
fn one(op: u8, a: Operand) -> Option<Choice>
    ensures { result ≡ spec.one op a }
{
    let t = sized(a)?;
    Some(fit(
        Instr::One {
            op,
            w: t.w,
            rm: t.rm,
        },
        t.fits,
    ))
}

#[tactic(auto, unfolding(crate::specs::Instructions::shift_by))]
fn shift_by(op: u8, t: Target, b: Operand) -> Option<Choice>
    ensures { result ≡ spec.shift_by op t b }
{
    match b {
        Operand::Number(n) => {
            let imm = count(t.w, n);
            Some(fit(
                Instr::ShiftImm {
                    op,
                    w: t.w,
                    rm: t.rm,
                    imm: field(imm),
                },
                t.fits && has_field(imm),
            ))
        }
        Operand::Register { w: 8, r: Reg(1) } => Some(fit(
            Instr::ShiftCl {
                op,
                w: t.w,
                rm: t.rm,
            },
            t.fits,
        )),
        _ => None,
    }
}

#[tactic(auto, unfolding(crate::specs::Instructions::shift))]
fn shift(op: u8, a: Operand, b: Operand) -> Option<Choice>
    ensures { result ≡ spec.shift op a b }
{
    let t = sized(a)?;
    shift_by(op, t, b)
}

#[tactic(auto, unfolding(crate::specs::Instructions::set))]
fn set(op: u8, a: Operand) -> Option<Choice>
    ensures { result ≡ spec.set op a }
{
    let t = sized(a)?;
    if t.w == 8 {
        Some(fit(Instr::Set { op, rm: t.rm }, t.fits))
    } else {
        None
    }
}

#[tactic(auto, unfolding(crate::specs::Instructions::push))]
fn push(a: Operand) -> Option<Choice>
    ensures { result ≡ spec.push a }
{
    match a {
        Operand::Register { w: 64, r } => Some(fit(Instr::Push { r }, true)),
        _ => None,
    }
}

#[tactic(auto, unfolding(crate::specs::Instructions::pop))]
fn pop(a: Operand) -> Option<Choice>
    ensures { result ≡ spec.pop a }
{
    match a {
        Operand::Register { w: 64, r } => Some(fit(Instr::Pop { r }, true)),
        _ => None,
    }
}

/// The way of a branch, and whether it fits.
#[tactic(auto, unfolding(crate::specs::Instructions::way_of))]
fn way_of(a: Operand) -> Option<(i32, bool)>
    ensures { result ≡ spec.way_of a }
{
    match a {
        Operand::Symbol => Some((0, true)),
        Operand::Local => Some((0, true)),
        Operand::Relative(n) => Some((signed_32(n), is_signed_32(n))),
        _ => None,
    }
}

#[tactic(auto, unfolding(crate::specs::Instructions::call, crate::specs::Instructions::branch))]
fn call(prefixed: bool, a: Operand) -> Option<Choice>
    ensures { result ≡ spec.call prefixed a }
{
    match a {
        Operand::Register { w, r } => {
            let rm = Rm::Reg(r);
            if w == 64 {
                Some(fit(Instr::CallRm { prefixed, rm }, true))
            } else {
                None
            }
        }
        Operand::Memory { m, fits } => {
            let rm = Rm::Mem(m);
            Some(fit(Instr::CallRm { prefixed, rm }, fits))
        }
        a => {
            let (rel, fits) = way_of(a)?;
            Some(fit(Instr::CallRel { prefixed, rel }, fits))
        }
    }
}

#[tactic(auto, unfolding(crate::specs::Instructions::jump, crate::specs::Instructions::branch))]
fn jump(prefixed: bool, a: Operand) -> Option<Choice>
    ensures { result ≡ spec.jump prefixed a }
{
    match a {
        Operand::Register { w, r } => {
            let rm = Rm::Reg(r);
            if w == 64 {
                Some(fit(Instr::JmpRm { prefixed, rm }, true))
            } else {
                None
            }
        }
        Operand::Memory { m, fits } => {
            let rm = Rm::Mem(m);
            Some(fit(Instr::JmpRm { prefixed, rm }, fits))
        }
        a => {
            let (rel, fits) = way_of(a)?;
            Some(fit(Instr::JmpRel { prefixed, rel }, fits))
        }
    }
}

#[tactic(auto, unfolding(crate::specs::Instructions::branch))]
fn jump_if(prefixed: bool, op: u8, a: Operand) -> Option<Choice>
    ensures { result ≡ spec.branch (Instr.Jcc prefixed op) a }
{
    let (rel, fits) = way_of(a)?;
    Some(fit(Instr::Jcc { prefixed, op, rel }, fits))
}

/// A bounds register, and a register or memory.
fn bounds_target(a: Operand, c: Operand) -> Option<(u8, Target)>
    ensures { result ≡ spec.bounds_and_target a c }
{
    match a {
        Operand::Bounds(b) => Some((b, of_width(64, c)?)),
        _ => None,
    }
}

/// `bndcl b, rm`.
fn bndcl(a: Operand, c: Operand) -> Option<Choice>
    ensures { result ≡ spec.bndcl a c }
{
    let (b, t) = bounds_target(a, c)?;
    Some(fit(Instr::Bndcl { b, rm: t.rm }, t.fits))
}

/// `bndcu b, rm`.
fn bndcu(a: Operand, c: Operand) -> Option<Choice>
    ensures { result ≡ spec.bndcu a c }
{
    let (b, t) = bounds_target(a, c)?;
    Some(fit(Instr::Bndcu { b, rm: t.rm }, t.fits))
}

/// `bndcn b, rm`.
fn bndcn(a: Operand, c: Operand) -> Option<Choice>
    ensures { result ≡ spec.bndcn a c }
{
    let (b, t) = bounds_target(a, c)?;
    Some(fit(Instr::Bndcn { b, rm: t.rm }, t.fits))
}

/// `b, m`.
fn bounds_memory(a: Operand, c: Operand) -> Option<(u8, Mem, bool)>
    ensures { result ≡ spec.bounds_and_memory a c }
{
    match (a, c) {
        (Operand::Bounds(b), Operand::Memory { m, fits }) => Some((b, m, fits)),
        _ => None,
    }
}

fn bndmk(a: Operand, c: Operand) -> Option<Choice>
    ensures { result ≡ spec.bndmk a c }
{
    let (b, m, fits) = bounds_memory(a, c)?;
    Some(fit(Instr::Bndmk { b, m }, fits))
}

fn bndldx(a: Operand, c: Operand) -> Option<Choice>
    ensures { result ≡ spec.bndldx a c }
{
    let (b, m, fits) = bounds_memory(a, c)?;
    Some(fit(Instr::Bndldx { b, m }, fits))
}

fn bndstx(a: Operand, c: Operand) -> Option<Choice>
    ensures { result ≡ spec.bndstx a c }
{
    let (b, m, fits) = bounds_memory(c, a)?;
    Some(fit(Instr::Bndstx { b, m }, fits))
}

#[tactic(auto, unfolding(crate::specs::Instructions::bndmov))]
fn bndmov(a: Operand, c: Operand) -> Option<Choice>
    ensures { result ≡ spec.bndmov a c }
{
    match (a, c) {
        (Operand::Bounds(b), Operand::Bounds(c)) => {
            let rm = Rm::Reg(Reg(c));
            Some(fit(Instr::BndmovFrom { b, rm }, true))
        }
        (Operand::Bounds(b), Operand::Memory { m, fits }) => {
            let rm = Rm::Mem(m);
            Some(fit(Instr::BndmovFrom { b, rm }, fits))
        }
        (Operand::Memory { m, fits }, Operand::Bounds(b)) => {
            Some(fit(Instr::BndmovTo { b, m }, fits))
        }
        _ => None,
    }
}

fn nullary(instr: Instr, a: Operand) -> Option<Choice>
    ensures { result ≡ spec.nullary instr a }
{
    match a {
        Operand::Nothing => Some(fit(instr, true)),
        _ => None,
    }
}

/// The forms with no operand or with one.
#[tactic(auto, unfolding(crate::specs::Instructions::unary))]
fn unary(prefixed: bool, m: Mnemonic, a: Operand) -> Option<Choice>
    ensures { result ≡ spec.unary prefixed m a }
{
    match m {
        Mnemonic::Cdq => nullary(Instr::Wide { w: 32 }, a),
        Mnemonic::Cqo => nullary(Instr::Wide { w: 64 }, a),
        Mnemonic::Ret => nullary(Instr::Ret { prefixed }, a),
        Mnemonic::Syscall => nullary(Instr::Syscall, a),
        Mnemonic::Ud2 => nullary(Instr::Ud2, a),
        Mnemonic::Nop => nullary(Instr::Nop, a),
        Mnemonic::One(op) => one(op, a),
        Mnemonic::Set(op) => set(op, a),
        Mnemonic::Push => push(a),
        Mnemonic::Pop => pop(a),
        Mnemonic::Call => call(prefixed, a),
        Mnemonic::Jmp => jump(prefixed, a),
        Mnemonic::JumpIf(op) => jump_if(prefixed, op, a),
        _ => None,
    }
}

/// The forms with two operands.
#[tactic(auto, unfolding(crate::specs::Instructions::binary))]
fn binary(m: Mnemonic, a: Operand, b: Operand) -> Option<Choice>
    ensures { result ≡ spec.binary m a b }
{
    match m {
        Mnemonic::Mov => mov(a, b),
        Mnemonic::Movsxd => movsxd(a, b),
        Mnemonic::Movzx => movzx(a, b),
        Mnemonic::Movsx => movsx(a, b),
        Mnemonic::Lea => lea(a, b),
        Mnemonic::Alu(op) => alu(op, a, b),
        Mnemonic::Test => test_registers(a, b),
        Mnemonic::Imul => imul(a, b),
        Mnemonic::Shift(op) => shift(op, a, b),
        Mnemonic::Bndmk => bndmk(a, b),
        Mnemonic::Bndcl => bndcl(a, b),
        Mnemonic::Bndcu => bndcu(a, b),
        Mnemonic::Bndcn => bndcn(a, b),
        Mnemonic::Bndmov => bndmov(a, b),
        Mnemonic::Bndldx => bndldx(a, b),
        Mnemonic::Bndstx => bndstx(a, b),
        _ => None,
    }
}

/// Whether the BND prefix may stand before it: it is a near branch.
#[tactic(auto, unfolding(crate::specs::Instructions::may_be_prefixed))]
fn may_be_prefixed(m: Mnemonic) -> bool
    ensures { result ≡ spec.may_be_prefixed m }
{
    matches!(
        m,
        Mnemonic::Call | Mnemonic::Jmp | Mnemonic::JumpIf(_) | Mnemonic::Ret
    )
}

/// The instruction of a mnemonic and its operands, if they are of one of its forms.
#[tactic(auto, unfolding(crate::specs::Instructions::built))]
pub fn built(prefixed: bool, m: Mnemonic, a: Operand, b: Operand) -> Option<Choice>
    ensures { result ≡ spec.built prefixed m a b }
{
    if prefixed && !may_be_prefixed(m) {
        return None;
    }
    match b {
        Operand::Nothing => unary(prefixed, m, a),
        b => { if prefixed { None } else { binary(m, a, b) } }
    }
}
