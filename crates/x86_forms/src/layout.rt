//! The parts of which the bytes of an instruction are made.

use crate::instr::Rm;

/// Where the operands of an instruction stand in its bytes.
#[derive(Clone, Copy, Debug, PartialEq, Eq)]
pub enum Operands {
    /// Nowhere: the opcode says all.
    Bare,
    /// A register in the low three bits of the opcode.
    InOpcode(u8),
    /// In ModRM, SIB and displacement. `reg` is a register, a bounds register or a digit of the opcode. Where `low_reg`
    /// (`low_rm`) is true, the codes 4 to 7 there are spl, bpl, sil and dil, which need a REX byte.
    InModrm {
        reg: u8,
        low_reg: bool,
        rm: Rm,
        low_rm: bool,
    },
}

/// The parts of an instruction's bytes, before they are written.
#[derive(Clone, Copy, Debug, PartialEq, Eq)]
pub struct Layout {
    /// The prefix 66, F2 or F3, or 0 where there is none.
    pub prefix: u8,
    /// REX.W.
    pub wide: bool,
    /// The byte 0F stands before the opcode.
    pub escape: bool,
    pub opcode: u8,
    pub operands: Operands,
    pub imm: i64,
    /// The bytes of the immediate.
    pub imm_len: u8,
}
