//! Where variables stand: the plan of a source's data and of its functions' frames.
#![tactic(auto)]

mod bytes;
mod data;
mod frames;
mod image;
mod initialisers;
mod laws;
mod plans;
mod source;

pub use frames::place_locals;
pub use laws::{
    data_stands_apart, planned_frames_are_small, planned_globals_stand_apart, small_plans_stand_so,
    variables_stand_apart,
};
pub use plans::{FramePlan, Plan, Spot};
pub use source::plan;
