//! What a line of assembly is, and the operands of instructions.

use x86_forms::{Instr, Mem, Reg, Rm};

/// An operand, without the name that may stand in it. A number is `None` where it is outside -2^63 to 2^64-1.
#[derive(Clone, Copy)]
pub enum Operand {
    /// There is none.
    Nothing,
    /// The low `w` bits of a register.
    Register { w: u8, r: Reg },
    /// A bounds register.
    Bounds(u8),
    /// Memory without a size word. `fits` says that its numbers fit their fields.
    Memory { m: Mem, fits: bool },
    /// Memory behind the size word of `w` bits.
    Sized { w: u8, m: Mem, fits: bool },
    Number(Option<i128>),
    /// A name that may be a symbol's, with a number added.
    Symbol,
    /// A local label, with a number added.
    Local,
    /// `rel n`.
    Relative(Option<i128>),
}

/// A register or memory operand of a width.
#[derive(Clone, Copy)]
pub struct Target {
    pub w: u8,
    pub rm: Rm,
    pub fits: bool,
}

/// An instruction, and whether its numbers fit their fields. Where one doesn't, 0 stands for it.
#[derive(Clone, Copy)]
pub struct Choice {
    pub instr: Instr,
    pub fits: bool,
}

/// What a line is, but for its name, its addend and the text behind its first word.
#[derive(Clone, Copy)]
pub enum Kind {
    /// It is outside the grammar.
    Shape,
    /// It is within the grammar, but a number fits no field.
    Range,
    Empty,
    /// It defines its name as a label.
    Label,
    Text,
    Data,
    /// `.byte`, of as many numbers as it has.
    Bytes(u64),
    /// `.quad`, of a number in two's complement.
    Quad(u64),
    /// `.quad`, of the address of its name and its addend.
    Address,
    /// `.zero`.
    Zero(u64),
    /// `.align`.
    Align(u64),
    /// `.sig`, of its name.
    Sig,
    /// An instruction. If the line has a name, a field takes the address of the name and the addend.
    Code(Instr),
}

/// Where a line stands: in data or in code, with so many bytes of each part before it, and its number from 1.
#[derive(Clone, Copy)]
pub struct Cursor {
    pub in_data: bool,
    pub code: u64,
    pub stored: u64,
    pub line: u32,
}
