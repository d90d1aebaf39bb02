//! Intel MPX: the bounds registers, and one MPX instruction (Intel SDM, volume 1, Intel MPX; volume 2, the page of each
//! instruction).
#![tactic(auto)]

mod addresses;
mod checks;
mod moves;
mod registers;
mod steps;
mod tables;

pub use registers::{BndRegs, BndStop, branch};
pub use steps::{bounds, step};
