//! The gates between C and legacy code: the start of an image, the stub of a legacy function, the landing behind it, and the outer
//! entry of a C function. Their instructions are defined in specs/; here are their bytes.
#![tactic(auto)]

mod code;
mod gates;
mod instr;
mod laws;
mod lists;
mod parts;

pub use call_sigs::Sig;
pub use gates::{landing, outer, start, stub};
pub use laws::gates_have_their_room;
