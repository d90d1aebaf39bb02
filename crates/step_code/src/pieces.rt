//! Of what the code of a function is made.

use mx_base::IntKind;
use x86_forms::Instr;

/// A piece of code: one instruction, by what it does for a function. Registers are numbers from 0 to 15, bounds registers from
/// 0 to 3; a word of the frame is named by its place from the stack pointer on, in words of 8 bytes.
#[derive(Clone, Copy, Debug, PartialEq, Eq)]
pub enum Piece {
    /// An instruction that asks memory for nothing.
    Plain(Instr),
    /// A word of the frame is taken to a register.
    LoadSlot { r: u8, k: u16 },
    /// A register is kept in a word of the frame.
    KeepSlot { k: u16, r: u8 },
    /// Two words of the frame are taken to a bounds register.
    LoadBounds { b: u8, k: u16 },
    /// A bounds register is kept in two words of the frame.
    KeepBounds { k: u16, b: u8 },
    /// The data stack pointer is taken from its cell to a register.
    LoadCell { r: u8 },
    /// A number of a type is read to register `r` at the address in register `p`.
    Read { kind: IntKind, r: u8, p: u8 },
    /// A number of a type is written from register `r` at the address in register `p`.
    Write { kind: IntKind, p: u8, r: u8 },
    /// The bounds that are kept at the address in `p` for the pointer in `v` are loaded.
    LoadPair { b: u8, p: u8, v: u8 },
    /// The bounds of the pointer in `v` are kept at the address in `p`.
    KeepPair { p: u8, v: u8, b: u8 },
    /// A jump to a label.
    Go { label: u32 },
    /// A jump to a label on a condition of flags, 0 to 15.
    GoIf { code: u8, label: u32 },
    /// A jump on a condition over so many bytes.
    Hop { code: u8, skip: u8 },
    /// A service.
    Serve,
    /// A call of the function of a symbol, a place in the unit's list of symbols.
    CallTo { symbol: u32 },
}
