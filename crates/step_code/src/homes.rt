//! Where the values of a function live.

/// The home of a value while its code runs.
#[derive(Clone, Copy, Debug, PartialEq, Eq)]
pub enum Home {
    /// A number lives in a register, 0 to 15.
    Reg(u8),
    /// A number lives in a word of the frame, so many words above the stack pointer, and bounds in that word and the next one.
    Slot(u16),
    /// Bounds live in a bounds register, 0 to 3.
    Bnd(u8),
}
