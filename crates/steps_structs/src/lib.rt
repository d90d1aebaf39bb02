//! The structs that a source has declared so far: sizes of types by them, their members, and what is asked of types.
#![tactic(auto)]

mod arithmetic;
mod known;
mod members;
mod scalars;
mod sizes;
mod types;

pub use known::{KnownStruct, declare_struct};
pub use members::{member_at, parts_of, tag_among};
pub use scalars::{scalars_at, scalars_of_struct};
pub use sizes::{bytes_of, layout, struct_layout};
pub use types::{facts_at, facts_of_shape, sorted};
