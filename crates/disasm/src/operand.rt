//! What stands on the line of an instruction.

use asm_names::Mnemonic;
use x86_forms::{Mem, Reg};

/// An operand as it is written.
#[derive(Clone, Copy)]
pub enum Operand {
    /// There is none.
    Nothing,
    /// The low `w` bits of a register.
    Register { w: u8, r: Reg },
    /// A bounds register.
    Bounds(u8),
    /// Memory without a size word.
    Memory(Mem),
    /// Memory behind the size word of `w` bits.
    Sized { w: u8, m: Mem },
    /// A number.
    Signed(i64),
    /// A target, counted from the end of the instruction.
    Relative(i32),
}

/// The parts of a line, in their order.
#[derive(Clone, Copy)]
pub struct Written {
    /// Whether the BND prefix stands.
    pub prefixed: bool,
    pub mnemonic: Mnemonic,
    pub first: Operand,
    pub second: Operand,
}
