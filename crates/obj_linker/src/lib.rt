//! The image of objects: where each part stands, which code goes between C and legacy code, and what each fix-up's field holds.
#![tactic(auto)]

mod definitions;
mod fault;
mod fixing;
mod gating;
mod image;
mod laws;
mod linking;
mod names;
mod parts;
mod placement;
mod plan;
mod segments;
mod sizes;
mod stubs;
mod symbols;

pub use fault::LinkFault;
pub use laws::small_images;
pub use linking::link;
pub use parts::{Ends, Spot, SymbolId};
