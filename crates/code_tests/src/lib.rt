//! Tests of the homes of values (`reg_assign`), of functions that are built step by step, and of the lines of steps (`step_text`). They
//! stand apart, since a crate with tests is proved twice.
#![tactic(auto)]

#[cfg(test)]
mod homes;
#[cfg(test)]
mod lines;
