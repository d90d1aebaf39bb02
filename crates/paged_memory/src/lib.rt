//! The machine's memory: 4,096-byte pages over the regions, each with a frame from its first write on.
#![tactic(auto)]

mod ends;
mod frames;
mod known;
mod memory;
mod slots;
mod stops;

pub use ends::first_unmapped;
pub use memory::Memory;
pub use stops::MemStop;
