//! The bytes of instructions, and the parts of which they are made.
#![tactic(auto)]

mod bytes;
mod layouts;

pub use bytes::encode;
pub use layouts::lay_out;
