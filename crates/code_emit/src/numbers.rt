//! Numbers of C's types in registers.

ghost use Rattle.std.specs.Prelude.{◌≡◌, None, pos, negsuc, ◌-ℤ◌, IfOk};
ghost use Rattle.step_code.specs.Steps as spec;
ghost use Rattle.step_code.specs.declared.pieces.Piece.TheVariants as p;
ghost use Rattle.x86_forms.specs.Examples as x;
ghost use Rattle.x86_forms.specs.declared.instr.Base.TheVariants as base;
ghost use Rattle.x86_forms.specs.declared.instr.Instr.TheVariants as i;

use crate::homes::in_reg;
use mx_base::{IntKind, OutOfMemory};
use step_code::Piece;
use x86_forms::{Base, Instr, Mem, Reg};

/// The register becomes the 64-bit word of the number of a type that its low bits stand for.
pub fn extend(kind: IntKind, r: u8) -> Instr
    ensures { result ≡ spec.extend_instr kind r }
{
    match kind {
        IntKind::I8 => Instr::Movsx {
            w: 64,
            from: 8,
            r: Reg(r),
            rm: in_reg(r),
        },
        IntKind::U8 => Instr::Movzx {
            from: 8,
            r: Reg(r),
            rm: in_reg(r),
        },
        IntKind::I16 => Instr::Movsx {
            w: 64,
            from: 16,
            r: Reg(r),
            rm: in_reg(r),
        },
        IntKind::U16 => Instr::Movzx {
            from: 16,
            r: Reg(r),
            rm: in_reg(r),
        },
        IntKind::I32 => Instr::Movsxd {
            r: Reg(r),
            rm: in_reg(r),
        },
        IntKind::U32 => Instr::MovTo {
            w: 32,
            r: Reg(r),
            rm: in_reg(r),
        },
        IntKind::I64 | IntKind::U64 => Instr::MovTo {
            w: 64,
            r: Reg(r),
            rm: in_reg(r),
        },
    }
}

/// The register becomes a number.
pub fn set(r: u8, n: u32) -> Piece
    ensures { result ≡ p.Plain (i.MovImm 64 (x.reg r) (pos n)) }
{
    Piece::Plain(Instr::MovImm {
        w: 64,
        r: Reg(r),
        imm: i64::from(n),
    })
}

/// The place so many bytes behind the address in a register.
pub fn behind(r: u8, disp: i32) -> Mem
    ensures { result ≡ x.based r disp }
{
    Mem {
        base: Base::Reg(Reg(r)),
        index: None,
        disp,
    }
}

/// Where the last of so many bytes stands behind the first.
pub fn to_last(size: u64) -> Result<i32, OutOfMemory>
    ensures { IfOk result (λ d. d ≡ pos size -ℤ pos 1) }
{
    match i32::try_from(size) {
        Ok(size) => Ok(size - 1),
        Err(_) => Err(OutOfMemory),
    }
}

/// An offset as a displacement.
pub fn offset(n: u32) -> Result<i32, OutOfMemory>
    ensures { IfOk result (λ d. d ≡ pos n) }
{
    match i32::try_from(n) {
        Ok(n) => Ok(n),
        Err(_) => Err(OutOfMemory),
    }
}

/// Bounds that hold every address.
pub fn full(b: u8) -> Instr
    ensures { result ≡ i.Bndmk b (record { base = base.None; index = None; disp = negsuc 0 }) }
{
    Instr::Bndmk {
        b,
        m: Mem {
            base: Base::None,
            index: None,
            disp: -1,
        },
    }
}

/// Bounds from the address in rax on, to the last of its bytes.
pub fn bounds_to(last: i32) -> Piece
    ensures { result ≡ p.Plain (i.Bndmk 0 (x.based 0 last)) }
{
    Piece::Plain(Instr::Bndmk {
        b: 0,
        m: behind(0, last),
    })
}
