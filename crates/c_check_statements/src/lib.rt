//! The walk through declarations, initialisers, statements, structs, global variables and functions: what is known after each, or the first
//! rule that is broken in it.
#![tactic(auto)]

mod counts;
mod decls;
mod frames;
mod functions;
mod initialisers;
mod items;
mod placing;
mod reading;
mod state;
mod statements;
mod structs;
mod waits;

pub use items::{read_items, start_state};
pub use placing::kind_placed;
pub use state::{Body, BodyVariable, State};
