/// An operation of the arithmetic and logic unit.
#[derive(Clone, Copy, Debug, PartialEq, Eq)]
pub enum AluOp {
    Add,
    Or,
    And,
    Sub,
    Xor,
    /// A difference of which only the flags are kept.
    Cmp,
    /// An `and` of which only the flags are kept.
    Test,
    /// The low half of the signed product.
    Imul,
    Not,
    Neg,
    Shl,
    Shr,
    Sar,
}

/// The flags that the machine keeps: carry, zero, sign and overflow.
#[derive(Clone, Copy, Debug, PartialEq, Eq)]
pub struct Four {
    pub cf: bool,
    pub zf: bool,
    pub sf: bool,
    pub of: bool,
}
