//! Declarations and statements of C, read from tokens: a function for each rule of the grammar that gives one.
#![tactic(auto)]

mod declarations;
mod declared;
mod initialisers;
mod statements;

pub use declarations::{members, more_globals};
pub use declared::{copied, counts, initialised};
pub use initialisers::maybe_init;
pub use statements::block;
