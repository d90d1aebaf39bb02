//! The parts of each instruction's line.

ghost use Rattle.std.specs.Prelude.{◌≡◌};
ghost use Rattle.disasm.specs.Written as spec;

use crate::operand::{Operand, Written};
use asm_names::Mnemonic;
use x86_forms::{Instr, Reg, Rm};

/// The count register of shifts.
const CL: Operand = Operand::Register { w: 8, r: Reg(1) };

fn register(w: u8, r: Reg) -> Operand
    ensures { result ≡ Operand.Register w r }
{
    Operand::Register { w, r }
}

fn plain(w: u8, rm: Rm) -> Operand
    ensures { result ≡ spec.plain w rm }
{
    match rm {
        Rm::Reg(r) => Operand::Register { w, r },
        Rm::Mem(m) => Operand::Memory(m),
    }
}

fn sized(w: u8, rm: Rm) -> Operand
    ensures { result ≡ spec.sized w rm }
{
    match rm {
        Rm::Reg(r) => Operand::Register { w, r },
        Rm::Mem(m) => Operand::Sized { w, m },
    }
}

fn bounds_or_memory(rm: Rm) -> Operand
    ensures { result ≡ spec.bounds_or_memory rm }
{
    match rm {
        Rm::Reg(r) => Operand::Bounds(r.0),
        Rm::Mem(m) => Operand::Memory(m),
    }
}

fn prefixed_one(prefixed: bool, mnemonic: Mnemonic, first: Operand) -> Written
    ensures { result ≡ spec.prefixed_one prefixed mnemonic first }
{
    Written {
        prefixed,
        mnemonic,
        first,
        second: Operand::Nothing,
    }
}

fn none(mnemonic: Mnemonic) -> Written
    ensures { result ≡ spec.none mnemonic }
{
    prefixed_one(false, mnemonic, Operand::Nothing)
}

fn single(mnemonic: Mnemonic, first: Operand) -> Written
    ensures { result ≡ spec.single mnemonic first }
{
    prefixed_one(false, mnemonic, first)
}

fn pair(mnemonic: Mnemonic, first: Operand, second: Operand) -> Written
    ensures { result ≡ spec.pair mnemonic first second }
{
    Written {
        prefixed: false,
        mnemonic,
        first,
        second,
    }
}

/// The mnemonic and the operands of an instruction.
#[tactic(auto, unfolding(crate::specs::Written::written_of))]
pub fn written_of(i: Instr) -> Written
    ensures { result ≡ spec.written_of i }
{
    match i {
        Instr::MovTo { w, r, rm } => pair(Mnemonic::Mov, plain(w, rm), register(w, r)),
        Instr::MovFrom { w, r, m } => pair(Mnemonic::Mov, register(w, r), Operand::Memory(m)),
        Instr::MovMemImm { w, m, imm } => pair(
            Mnemonic::Mov,
            Operand::Sized { w, m },
            Operand::Signed(imm),
        ),
        Instr::MovImm { w, r, imm } => pair(Mnemonic::Mov, register(w, r), Operand::Signed(imm)),
        Instr::Movsxd { r, rm } => pair(Mnemonic::Movsxd, register(64, r), plain(32, rm)),
        Instr::Movzx { from, r, rm } => pair(Mnemonic::Movzx, register(32, r), sized(from, rm)),
        Instr::Movsx { w, from, r, rm } => pair(Mnemonic::Movsx, register(w, r), sized(from, rm)),
        Instr::Lea { r, m } => pair(Mnemonic::Lea, register(64, r), Operand::Memory(m)),
        Instr::AluTo { op, w, r, rm } => pair(Mnemonic::Alu(op), plain(w, rm), register(w, r)),
        Instr::AluFrom { op, w, r, m } => pair(
            Mnemonic::Alu(op),
            register(w, r),
            Operand::Memory(m),
        ),
        Instr::AluImm { op, w, rm, imm } => pair(
            Mnemonic::Alu(op),
            sized(w, rm),
            Operand::Signed(imm),
        ),
        Instr::Test { w, r, rm } => pair(Mnemonic::Test, plain(w, rm), register(w, r)),
        Instr::Imul { w, r, rm } => pair(Mnemonic::Imul, register(w, r), plain(w, rm)),
        Instr::One { op, w, rm } => single(Mnemonic::One(op), sized(w, rm)),
        Instr::Wide { w } => none(if w == 32 {
            Mnemonic::Cdq
        } else {
            Mnemonic::Cqo
        }),
        Instr::ShiftCl { op, w, rm } => pair(Mnemonic::Shift(op), sized(w, rm), CL),
        Instr::ShiftImm { op, w, rm, imm } => pair(
            Mnemonic::Shift(op),
            sized(w, rm),
            Operand::Signed(imm),
        ),
        Instr::Set { op, rm } => single(Mnemonic::Set(op), sized(8, rm)),
        Instr::Push { r } => single(Mnemonic::Push, register(64, r)),
        Instr::Pop { r } => single(Mnemonic::Pop, register(64, r)),
        Instr::CallRel { prefixed, rel } => prefixed_one(
            prefixed,
            Mnemonic::Call,
            Operand::Relative(rel),
        ),
        Instr::JmpRel { prefixed, rel } => prefixed_one(
            prefixed,
            Mnemonic::Jmp,
            Operand::Relative(rel),
        ),
        Instr::CallRm { prefixed, rm } => prefixed_one(prefixed, Mnemonic::Call, plain(64, rm)),
        Instr::JmpRm { prefixed, rm } => prefixed_one(prefixed, Mnemonic::Jmp, plain(64, rm)),
        Instr::Jcc { prefixed, op, rel } => prefixed_one(
            prefixed,
            Mnemonic::JumpIf(op),
            Operand::Relative(rel),
        ),
        Instr::Ret { prefixed } => prefixed_one(prefixed, Mnemonic::Ret, Operand::Nothing),
        Instr::Syscall => none(Mnemonic::Syscall),
        Instr::Ud2 => none(Mnemonic::Ud2),
        Instr::Nop => none(Mnemonic::Nop),
        Instr::Bndmk { b, m } => pair(Mnemonic::Bndmk, Operand::Bounds(b), Operand::Memory(m)),
        Instr::Bndcl { b, rm } => pair(Mnemonic::Bndcl, Operand::Bounds(b), plain(64, rm)),
        Instr::Bndcu { b, rm } => pair(Mnemonic::Bndcu, Operand::Bounds(b), plain(64, rm)),
        Instr::Bndcn { b, rm } => pair(Mnemonic::Bndcn, Operand::Bounds(b), plain(64, rm)),
        Instr::BndmovTo { b, m } => pair(Mnemonic::Bndmov, Operand::Memory(m), Operand::Bounds(b)),
        Instr::BndmovFrom { b, rm } => pair(
            Mnemonic::Bndmov,
            Operand::Bounds(b),
            bounds_or_memory(rm),
        ),
        Instr::Bndldx { b, m } => pair(Mnemonic::Bndldx, Operand::Bounds(b), Operand::Memory(m)),
        Instr::Bndstx { b, m } => pair(Mnemonic::Bndstx, Operand::Memory(m), Operand::Bounds(b)),
    }
}
