//! The processor: what executes instructions.
#![tactic(auto)]

mod branches;
mod cpu;
mod early;
mod laws;
mod operands;
mod operations;
mod steps;

pub use cpu::{CoreStop, Cpu, Done};
pub use early::{EarlyStop, run_early};
pub use laws::{code_runs_once, rows_need_frames_alone};
pub use steps::{plain, step};
