//! The types of C: a table that gives each type a number, and the sizes, alignments and member offsets.
#![tactic(auto)]

mod laws;
mod layout;
mod shape;
mod table;

pub use laws::{members_stand_in_order, multiples_are_the_next, sizes_are_multiples};
pub use layout::Layout;
pub use shape::{Shape, TypeId};
pub use table::TypeTable;
