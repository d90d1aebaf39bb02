//! The code of a C function, as definitions: each step as pieces of machine code over the homes of its values, the entry, the homing of
//! arguments and the return, their bytes, and where labels, places of checks and fix-ups stand.
#![tactic(auto)]

mod homes;
mod laws;
mod pieces;

pub use homes::Home;
pub use laws::{homes_by_spans_are_assigned, pieces_have_one_size, sizes_are_lengths};
pub use pieces::Piece;
