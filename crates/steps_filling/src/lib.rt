//! The steps by which a part of a variable is filled, and those by which a struct is copied, put down by small functions that walk no tree.
#![tactic(auto)]

mod copies;
mod parts;
mod zeros;

pub use copies::put_copied;
pub use parts::{put_number, put_part, put_stored, put_struct_address, spot_at};
pub use zeros::{further, put_zeros};
