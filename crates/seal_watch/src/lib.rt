//! The watch over sealed bytes: the verdict on each data access, and on each change of control.
#![tactic(auto)]

mod control;
mod operands;
mod sealed;
mod verdicts;

pub use control::judge_jump;
pub use verdicts::{Verdict, judge};
