//! Assembles texts: the object of a text, or its first refused line and why.
#![tactic(auto)]

mod bytes;
mod cursor;
mod draft;
mod faults;
mod labels;
mod laws;
mod lines;
mod object;
mod symbols;

pub use laws::objects_of_texts_are_formed;
pub use object::assemble;
