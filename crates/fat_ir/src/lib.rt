//! Fat steps: what C functions are compiled to before registers, frames and instructions are chosen, and what they mean.
#![tactic(auto)]

mod laws;
mod program;
mod step;
mod worked;

pub use laws::{
    accesses_are_allowed, accesses_are_traced, frames_are_given_back, judgements_are_exact,
    other_values_stay, output_only_grows, outside_can_keep_to_laws, passes_join,
    quiet_steps_leave_memory, runs_are_passes, spans_are_least_ranges,
    the_legacy_stack_is_given_back, turns_never_grow,
};
pub use program::{FatFun, FatProgram};
pub use step::FatStep;
pub use worked::small_programs_end_so;
