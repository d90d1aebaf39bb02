//! The fat steps of functions with a body.
#![tactic(auto)]

mod arrivals;
mod functions;
mod inside;
mod parameters;
mod values;

pub use functions::{EmittedFunction, emit_function};
pub use inside::{FunctionSteps, past_body};
pub use parameters::{ParameterAt, parameters_at};
