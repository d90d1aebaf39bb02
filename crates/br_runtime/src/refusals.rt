//! What the runtime refuses.

/// Why no table was made. The call changed nothing.
#[derive(Clone, Copy, Debug, PartialEq, Eq)]
pub enum Serve {
    /// There are 1,024 tables, and no more may be made.
    NoTable,
    /// Fewer frames are free than the page of the directory entry needs.
    NoFrames { in_use: u32, capacity: u32 },
}
