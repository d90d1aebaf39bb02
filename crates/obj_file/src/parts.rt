//! What the later fields of an object or image are read by.

use crate::lists::{Bytes, Text};

/// The versions of the forms of objects and images.
#[derive(Clone, Copy, Drop)]
pub enum Version {
    /// Places tell no access. It is still read.
    First,
    /// The form that is written.
    Second,
}

/// The access that the instruction at a place checks: 0 unknown, 1 read, 2 write, and its size in bytes.
#[derive(Clone, Copy, Drop)]
pub struct Access {
    pub kind: u8,
    pub size: u32,
}

/// What stands before an object's symbols.
#[derive(Drop)]
pub struct Head {
    pub version: Version,
    pub legacy: bool,
    pub file: Text,
    pub code: Bytes,
    pub stored: Bytes,
}

/// The lengths of an object's parts, and whether it is legacy.
#[derive(Clone, Copy, Drop)]
pub struct Parts {
    pub legacy: bool,
    pub code: u32,
    pub stored: u32,
}

/// Where a fix-up's field ends: its part, and the offset after it.
#[derive(Clone, Copy, Drop)]
pub struct End {
    pub part: u8,
    pub at: u32,
}
