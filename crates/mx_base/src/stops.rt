/// A bounds check that failed: the value, the bounds that it left, and the address of the check.
#[derive(Clone, Copy, Debug, PartialEq, Eq)]
pub struct Breach {
    pub value: u64,
    pub lb: u64,
    pub ub: u64,
    pub rip: u64,
}

/// Why a run of the machine stopped.
#[derive(Clone, Copy, Debug, PartialEq, Eq)]
pub enum Stop {
    /// The guest ended itself with this code.
    Exit(u8),
    /// A bounds check failed.
    Bounds(Breach),
    /// An access or a fetch of this address, where no region allows it; or BNDLDX or BNDSTX asked for the bounds of a pointer at
    /// this address, which is 2^47 or more.
    Unmapped(u64),
    /// A division by zero, or one whose quotient does not fit.
    Divide,
    /// The bytes at this address are no instruction, or are `ud2`.
    Undefined(u64),
    /// Too many C functions were entered, or their data frames are too large; or code asked for this stop.
    StackOver,
    /// An event was to take a turn, and none was left.
    OutOfTurns,
    /// This sealed address was touched by legacy code, by C within its bounds, or by the write of the return address at a call of
    /// legacy code; or legacy code, or the return from C to it, went to this address of instrumented code.
    Strayed(u64),
    /// One bounds table more was needed than there may be.
    NoTable,
    /// The memory's frames do not suffice.
    NoFrames { in_use: u32, capacity: u32 },
    /// The input failed in a read.
    ReadFault,
    /// The output failed in a write.
    WriteFault,
}
