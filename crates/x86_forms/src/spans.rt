//! The data accesses that an instruction makes.

/// A data access: `size` bytes from `at` on, modulo 2^64.
#[derive(Clone, Copy, Debug, PartialEq, Eq)]
pub struct Span {
    pub at: u64,
    pub size: u64,
    /// It is a write; else a read.
    pub write: bool,
    /// It is the access of push, pop, call or ret to the stack.
    pub implicit: bool,
}

/// The data accesses of an instruction, in the order in which they are made.
#[derive(Clone, Copy, Debug, PartialEq, Eq)]
pub struct Reach {
    pub first: Option<Span>,
    pub second: Option<Span>,
}
