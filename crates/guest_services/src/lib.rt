//! What guests ask of the host: the services of the machine, and the heap that two of them speak of.
#![tactic(auto)]

mod blocks;
mod heap;
mod input;
mod output;
mod services;

pub use heap::Heap;
pub use services::{Served, call};
