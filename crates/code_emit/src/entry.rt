//! The inner entry of a function, its end and its return.

ghost use Rattle.std.specs.Prelude.{◌≡◌, ◌<◌, ◌*◌, pos};
ghost use Rattle.step_code.specs.Entry as spec;
ghost use Rattle.step_code.specs.Functions.{plain};
ghost use Rattle.step_code.specs.Pieces as pieces;
ghost use Rattle.step_code.specs.Steps.{end_pieces};
ghost use Rattle.step_code.specs.declared.pieces.Piece.TheVariants as piece;
ghost use Rattle.x86_forms.specs.Examples as x;
ghost use Rattle.x86_forms.specs.declared.instr.Instr.TheVariants as i;

use crate::homes::{BND0, RAX, RCX, RSP, in_reg};
use crate::numbers::{full, set};
use step_code::Piece;
use x86_forms::{Base, Instr, Mem, Reg, Rm};

/// The cell of the data stack pointer.
const DATA_SP_CELL: u32 = 0x7000_0010;
/// The cell of the depth: how many C functions are entered.
const DEPTH_CELL: u32 = 0x7000_0018;
/// Where the data stack begins.
const DATA_STACK: u64 = 0x5000_0000;

/// The place of a cell, which has no base register.
fn cell(at: u32) -> Mem
    requires { at < 0x8000_0000 }
    ensures { result ≡ pieces.cell at }
{
    Mem {
        base: Base::None,
        index: None,
        disp: at as i32,
    }
}

fn load_cell(r: u8, at: u32) -> Piece
    requires { at < 0x8000_0000 }
    ensures { result ≡ piece.Plain (spec.load_cell r at) }
{
    Piece::Plain(Instr::MovFrom {
        w: 64,
        r: Reg(r),
        m: cell(at),
    })
}

fn store_cell(at: u32, r: u8) -> Piece
    requires { at < 0x8000_0000 }
    ensures { result ≡ piece.Plain (spec.store_cell at r) }
{
    Piece::Plain(Instr::MovTo {
        w: 64,
        r: Reg(r),
        rm: Rm::Mem(cell(at)),
    })
}

/// A sum (0), a difference (3) or a comparison (5) of a register and a number.
fn by_number(op: u8, r: u8, n: u64) -> Piece
    requires { n < 0x10_0000_0000 }
    ensures { result ≡ piece.Plain (i.AluImm op 64 (x.in_reg r) (pos n)) }
{
    Piece::Plain(Instr::AluImm {
        op,
        w: 64,
        rm: in_reg(r),
        imm: n as i64,
    })
}

/// A jump on a condition over the stop for want of stack.
fn hop(op: u8) -> Piece
    ensures { result ≡ piece.Plain (spec.hops op 7) }
{
    Piece::Plain(Instr::Jcc {
        prefixed: true,
        op,
        rel: 7,
    })
}

/// The number of the stop for want of stack comes to rax.
fn overflow() -> Piece
    ensures { result ≡ piece.Plain (i.MovImm 32 (x.reg 0) (pos 0x1005)) }
{
    Piece::Plain(Instr::MovImm {
        w: 32,
        r: Reg(RAX),
        imm: 0x1005,
    })
}

/// The inner entry of a function with a data frame of so many bytes and a frame of so many words: one function more is entered,
/// and both frames are taken, or the run stops for want of stack.
pub fn inner_entry(frame: u32, units: u32) -> [Piece; 15]
    ensures { result ≡ plain (spec.inner_entry frame units) }
{
    let serve = Piece::Plain(Instr::Syscall);
    [
        load_cell(RAX, DEPTH_CELL),
        by_number(5, RAX, 4_096),
        hop(2),
        overflow(),
        serve,
        by_number(0, RAX, 1),
        store_cell(DEPTH_CELL, RAX),
        load_cell(RAX, DATA_SP_CELL),
        by_number(5, RAX, DATA_STACK + u64::from(frame)),
        hop(3),
        overflow(),
        serve,
        by_number(3, RAX, u64::from(frame)),
        store_cell(DATA_SP_CELL, RAX),
        by_number(3, RSP, 8 * u64::from(units)),
    ]
}

/// A function that ends without a value gives 0, with full bounds.
pub fn end() -> [Piece; 2]
    ensures { result ≡ end_pieces }
{
    [set(RAX, 0), Piece::Plain(full(BND0))]
}

/// The return: both frames are given back, and one function less is entered.
pub fn inner_return(frame: u32, units: u32) -> [Piece; 8]
    ensures { result ≡ plain (spec.inner_return frame units) }
{
    [
        load_cell(RCX, DATA_SP_CELL),
        by_number(0, RCX, u64::from(frame)),
        store_cell(DATA_SP_CELL, RCX),
        load_cell(RCX, DEPTH_CELL),
        by_number(3, RCX, 1),
        store_cell(DEPTH_CELL, RCX),
        by_number(0, RSP, 8 * u64::from(units)),
        Piece::Plain(Instr::Ret { prefixed: true }),
    ]
}
