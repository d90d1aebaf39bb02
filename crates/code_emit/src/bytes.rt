//! Pieces as bytes.

ghost use Rattle.std.specs.Prelude.{◌≡◌, ◌+◌, ◌*◌, ◌++◌, pos, length, IfOk, OnOk};
ghost use Rattle.mx_base.specs.Numbers as n;
ghost use Rattle.step_code.specs.Pieces as spec;
ghost use Rattle.step_code.specs.Bytes.{size_of_piece, size_of_pieces};
ghost use Rattle.code_emit.specs.Unlinked as u;
ghost use Rattle.x86_forms.specs.Examples as x;

use crate::homes::{RSP, in_reg};
use crate::numbers::behind;
use mx_base::{IntKind, OutOfMemory};
use step_code::Piece;
use x86_encode::encode;
use x86_forms::{Base, Instr, Mem, Reg, Rm, valid};

/// The cell of the data stack pointer.
const DATA_SP_CELL: i32 = 0x7000_0010;

/// A word of the frame.
fn of_frame(k: u16) -> Mem
    ensures { result ≡ spec.of_frame k }
{
    behind(RSP, 8 * i32::from(k))
}

/// How many bits a number of a type has in memory.
fn bits(kind: IntKind) -> u8
    ensures { result ≡ 8 * n.size_of kind }
{
    match kind {
        IntKind::I8 | IntKind::U8 => 8,
        IntKind::I16 | IntKind::U16 => 16,
        IntKind::I32 | IntKind::U32 => 32,
        IntKind::I64 | IntKind::U64 => 64,
    }
}

/// A number of a type is read at the address in a register, as the word of it.
fn read(kind: IntKind, r: u8, p: u8) -> Instr
    ensures { result ≡ spec.read_instr kind r p }
{
    let r = Reg(r);
    let m = behind(p, 0);
    let rm = Rm::Mem(m);
    match kind {
        IntKind::I8 => Instr::Movsx {
            w: 64,
            from: 8,
            r,
            rm,
        },
        IntKind::U8 => Instr::Movzx { from: 8, r, rm },
        IntKind::I16 => Instr::Movsx {
            w: 64,
            from: 16,
            r,
            rm,
        },
        IntKind::U16 => Instr::Movzx { from: 16, r, rm },
        IntKind::I32 => Instr::Movsxd { r, rm },
        IntKind::U32 => Instr::MovFrom { w: 32, r, m },
        IntKind::I64 | IntKind::U64 => Instr::MovFrom { w: 64, r, m },
    }
}

/// The place whose base and index are two registers.
fn pair_at(p: u8, v: u8) -> Mem
    ensures { result ≡ x.indexed p v 1 (pos 0) }
{
    Mem {
        base: Base::Reg(Reg(p)),
        index: Some((Reg(v), 1)),
        disp: 0,
    }
}

/// The distance from the end of an instruction to a label.
fn relative(labels: &[u32], label: u32, next: u32) -> Result<i32, OutOfMemory>
    ensures { IfOk result (λ d. d ≡ spec.relative (u.label_at labels.now label) next) }
{
    let target = match labels.get(label as usize) {
        Some(at) => *at,
        None => 0,
    };
    match i32::try_from(i64::from(target) - i64::from(next)) {
        Ok(d) => Ok(d),
        Err(_) => Err(OutOfMemory),
    }
}

/// The instruction of a piece, whose end is at `next`. A call goes on behind itself until it is linked.
fn instr(piece: Piece, labels: &[u32], next: u32) -> Result<Instr, OutOfMemory>
    ensures { IfOk result (λ i. i ≡ spec.instr_of (u.label_at labels.now) (λ symbol. 0) next (u.blank piece)) }
{
    match piece {
        Piece::Plain(i) => Ok(i),
        Piece::LoadSlot { r, k } => Ok(Instr::MovFrom {
            w: 64,
            r: Reg(r),
            m: of_frame(k),
        }),
        Piece::KeepSlot { k, r } => Ok(Instr::MovTo {
            w: 64,
            r: Reg(r),
            rm: Rm::Mem(of_frame(k)),
        }),
        Piece::LoadBounds { b, k } => Ok(Instr::BndmovFrom {
            b,
            rm: Rm::Mem(of_frame(k)),
        }),
        Piece::KeepBounds { k, b } => Ok(Instr::BndmovTo { b, m: of_frame(k) }),
        Piece::LoadCell { r } => Ok(Instr::MovFrom {
            w: 64,
            r: Reg(r),
            m: Mem {
                base: Base::None,
                index: None,
                disp: DATA_SP_CELL,
            },
        }),
        Piece::Read { kind, r, p } => Ok(read(kind, r, p)),
        Piece::Write { kind, p, r } => Ok(Instr::MovTo {
            w: bits(kind),
            r: Reg(r),
            rm: Rm::Mem(behind(p, 0)),
        }),
        Piece::LoadPair { b, p, v } => Ok(Instr::Bndldx {
            b,
            m: pair_at(p, v),
        }),
        Piece::KeepPair { p, v, b } => Ok(Instr::Bndstx {
            b,
            m: pair_at(p, v),
        }),
        Piece::Go { label } => {
            let rel = relative(labels, label, next)?;
            Ok(Instr::JmpRel {
                prefixed: true,
                rel,
            })
        }
        Piece::GoIf { code, label } => {
            let rel = relative(labels, label, next)?;
            Ok(Instr::Jcc {
                prefixed: true,
                op: code,
                rel,
            })
        }
        Piece::Hop { code, skip } => Ok(Instr::Jcc {
            prefixed: true,
            op: code,
            rel: i32::from(skip),
        }),
        Piece::Serve => Ok(Instr::Syscall),
        Piece::CallTo { .. } => Ok(Instr::CallRel {
            prefixed: true,
            rel: 0,
        }),
    }
}

/// How many bytes a piece has, wherever it stands.
#[tactic(auto, using(crate::proofs::Sized::blank_size))]
pub fn size_of(piece: Piece) -> Result<u32, OutOfMemory>
    ensures { IfOk result (λ n. n ≡ size_of_piece piece) }
{
    let i = instr(piece, &[], 0)?;
    if valid(&i) {
        Ok(encode(&i).len() as u32)
    } else {
        Err(OutOfMemory)
    }
}

/// How many bytes pieces have.
pub fn size_of_all(pieces: &[Piece]) -> Result<u32, OutOfMemory>
    ensures { IfOk result (λ n. n ≡ size_of_pieces pieces.now) }
{
    let mut size: u32 = 0;
    'all: for piece in pieces {
        size = add(size, size_of(*piece)?)?;
    }
    Ok(size)
}

/// A sum of sizes.
pub fn add(a: u32, b: u32) -> Result<u32, OutOfMemory>
    ensures { IfOk result (λ n. n ≡ a + b) }
{
    match a.checked_add(b) {
        Some(n) => Ok(n),
        None => Err(OutOfMemory),
    }
}

/// How many bytes there are.
fn length_of(code: &Vec<u8>) -> Result<u32, OutOfMemory>
    ensures { IfOk result (λ n. n ≡ length code.now.items) }
{
    match u32::try_from(code.len()) {
        Ok(n) => Ok(n),
        Err(_) => Err(OutOfMemory),
    }
}

/// A piece's bytes come behind those that are there.
fn put_piece(code: &mut Vec<u8>, labels: &[u32], piece: Piece) -> Result<(), OutOfMemory>
    ensures { OnOk result (code.new.items ≡ code.old.items ++ u.unlinked_piece labels.now (length code.old.items) piece) }
{
    let at = length_of(code)?;
    let next = add(at, size_of(piece)?)?;
    let i = instr(piece, labels, next)?;
    if !valid(&i) {
        return Err(OutOfMemory);
    }
    code.extend_from_slice(encode(&i).as_slice())?;
    Ok(())
}

/// The bytes of pieces come behind those that are there. `labels` has the offset of each label.
///
/// # Errors
///
/// `OutOfMemory`: no memory for the bytes, or a piece that is no instruction.
pub fn put_pieces(code: &mut Vec<u8>, labels: &[u32], pieces: &[Piece]) -> Result<(), OutOfMemory>
    ensures { OnOk result (code.new.items ≡ code.old.items ++ u.unlinked_pieces labels.now (length code.old.items) pieces.now) }
{
    'all: for piece in pieces {
        put_piece(code, labels, *piece)?;
    }
    Ok(())
}
