//! What the bytes read so far say of the instruction.

use crate::rows::Row;
use x86_forms::{Base, Instr, Reg, Rm};

/// The bytes before the operands.
#[derive(Clone, Copy)]
pub struct Head {
    /// The prefix 66, F2 or F3, or 0 for none.
    pub prefix: u8,
    /// The REX byte 40 to 4F, or 0 for none.
    pub rex: u8,
    /// The byte 0F stood before the opcode.
    pub escape: bool,
    pub opcode: u8,
}

/// What has been read, while the instruction isn't complete.
#[derive(Clone, Copy)]
pub enum State {
    Start,
    /// A prefix.
    Prefix(u8),
    /// A prefix or 0, and the REX byte.
    Rex(u8, u8),
    /// A prefix or 0, the REX byte or 0, and 0F.
    Escape(u8, u8),
    /// The opcode of a row that has ModRM.
    ModRm(Head, Row),
    /// ModRM too, and it asks for SIB.
    Sib(Head, Row, u8),
    /// The first `have` bytes of a displacement. Where `free` is true it may be any; else 8 bits are not 0, and 32 bits
    /// do not fit 8.
    Disp {
        head: Head,
        row: Row,
        reg: u8,
        mode: u8,
        base: Base,
        index: Option<(Reg, u8)>,
        free: bool,
        have: u8,
        bytes: [u8; 4],
    },
    /// The first `have` bytes of an immediate.
    Imm {
        head: Head,
        row: Row,
        reg: u8,
        rm: Rm,
        have: u8,
        bytes: [u8; 8],
    },
}

/// What a further byte makes of a state.
#[derive(Clone, Copy)]
pub enum Next {
    /// No instruction begins so.
    Dead,
    Go(State),
    End(Instr),
}
