/// Why a memory refused a call. The call changed nothing.
#[derive(Clone, Copy, Debug, PartialEq, Eq)]
pub enum MemStop {
    /// The first of the bytes that no region lets the call access.
    Unmapped(u64),
    /// All the bytes may be accessed, but fewer frames are free than the untouched ones of their pages need.
    NoFrames { in_use: u32, capacity: u32 },
}
