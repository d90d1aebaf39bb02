//! The walk: from the address of a pointer to the table entry with its bounds, through the bound directory (Intel SDM,
//! volume 1, bound directory and bound tables; volume 2, BNDLDX and BNDSTX).
#![tactic(auto)]

mod entries;
mod laws;
mod parts;
mod walks;

pub use entries::{Entry, load_entry, store_entry};
pub use laws::{stored_entries_are_read_back, stores_leave_other_bytes};
pub use walks::Walk;
