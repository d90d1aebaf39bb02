//! What a plan says.

use c_tree::Bytes;
use sqlite_items::Items;

/// Where a parameter or local stands.
#[derive(Clone, Copy, Debug, PartialEq, Eq)]
pub enum Spot {
    /// In a private variable, by its first value among the values of the function: a pointer has its number and then its bounds.
    Private(u32),
    /// In the data frame, so many bytes from its lowest address.
    Frame(u32),
}

/// The data frame of a function: its size in bytes, a multiple of 16, and where each parameter and local stands.
#[derive(Drop)]
pub struct FramePlan {
    pub size: u32,
    pub spots: Items<Spot>,
}

/// Where the data of a source stands, from the front of its data: each global by its number, the bytes, and the frame of each
/// function with a body, in order.
#[derive(Drop)]
pub struct Plan {
    pub globals: Items<u32>,
    pub image: Bytes,
    pub frames: Items<FramePlan>,
}
