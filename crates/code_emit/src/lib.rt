//! The code of functions in bytes: each step as pieces, and pieces as bytes.
#![tactic(auto)]

mod arguments;
mod bytes;
mod entry;
mod fields;
mod function;
mod homes;
mod homing;
mod numbers;
mod operators;
mod plan;
mod steps;

pub use entry::{end, inner_entry, inner_return};
pub use fields::{Field, note_fields};
pub use function::{note_labels, place_labels, put_function, put_steps, steps_at};
pub use homing::{Parameter, put_homing};
pub use plan::{CompiledFunction, FunctionPlan};
pub use steps::lower_step;
