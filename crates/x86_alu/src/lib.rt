//! Arithmetic of the processor: results, flags, division and conditions, on numbers of 32 or 64 bits.
//!
//! Results and flags are those of the Intel manual (SDM), volume 2, the page of each instruction.
#![tactic(auto)]

mod conditions;
mod division;
mod numbers;
mod op;
mod operations;
mod shifts;
mod sums;

pub use conditions::holds;
pub use division::divide;
pub use op::{AluOp, Four};
pub use operations::arith;
