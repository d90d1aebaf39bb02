//! Values taken from their homes, and put there.

ghost use Rattle.std.specs.Prelude.{◌≡◌};
ghost use Rattle.step_code.specs.Steps as spec;
ghost use Rattle.x86_forms.specs.Examples as x;

use step_code::{Home, Piece};
use x86_forms::{Instr, Reg, Rm};

pub const RAX: u8 = 0;

pub const RCX: u8 = 1;

pub const RDX: u8 = 2;

pub const RSP: u8 = 4;

pub const RDI: u8 = 7;

pub const BND0: u8 = 0;

pub fn in_reg(r: u8) -> Rm
    ensures { result ≡ x.in_reg r }
{
    Rm::Reg(Reg(r))
}

/// A number comes from its home to a register.
pub fn get(r: u8, home: Home) -> Piece
    ensures { result ≡ spec.get r home }
{
    match home {
        Home::Reg(q) => Piece::Plain(Instr::MovTo {
            w: 64,
            r: Reg(q),
            rm: in_reg(r),
        }),
        Home::Slot(k) => Piece::LoadSlot { r, k },
        Home::Bnd(_) => Piece::Plain(Instr::Nop),
    }
}

/// A number goes from a register to its home.
pub fn put(home: Home, r: u8) -> Piece
    ensures { result ≡ spec.put home r }
{
    match home {
        Home::Reg(q) => Piece::Plain(Instr::MovTo {
            w: 64,
            r: Reg(r),
            rm: in_reg(q),
        }),
        Home::Slot(k) => Piece::KeepSlot { k, r },
        Home::Bnd(_) => Piece::Plain(Instr::Nop),
    }
}

/// Bounds come from their home to a bounds register.
pub fn get_bounds(b: u8, home: Home) -> Piece
    ensures { result ≡ spec.get_bounds b home }
{
    match home {
        Home::Reg(_) => Piece::Plain(Instr::Nop),
        Home::Slot(k) => Piece::LoadBounds { b, k },
        Home::Bnd(c) => Piece::Plain(Instr::BndmovFrom { b, rm: in_reg(c) }),
    }
}

/// Bounds go from a bounds register to their home.
pub fn put_bounds(home: Home, b: u8) -> Piece
    ensures { result ≡ spec.put_bounds home b }
{
    match home {
        Home::Reg(_) => Piece::Plain(Instr::Nop),
        Home::Slot(k) => Piece::KeepBounds { k, b },
        Home::Bnd(c) => Piece::Plain(Instr::BndmovFrom {
            b: c,
            rm: in_reg(b),
        }),
    }
}
