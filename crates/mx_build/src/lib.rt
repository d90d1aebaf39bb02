//! The image of sources, legacy texts and objects. Today the front of it: a text of C, accepted, or the first layer that refuses it.
#![tactic(auto)]

mod fault;
mod source;

pub use fault::BuildFault;
pub use source::{Accepted, accept};
