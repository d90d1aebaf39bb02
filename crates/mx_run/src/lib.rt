//! The machine: an image's memory, its registers and its heap, and its run with a bound on turns. Whatever a guest does, its run
//! ends, touches nothing of the host but the source and the sink that it is given, and ends as the meaning of its image says.
#![tactic(auto)]

mod acting;
mod calls;
mod config;
mod event;
mod executing;
mod finding;
mod laws;
mod lines;
mod machine;
mod parts;
mod placing;
mod quick;
mod serving;
mod watch;

pub use config::{Config, MakeFault};
pub use laws::{
    frames_decide_nothing_else, instructions_are_read, machines_run_on, output_only_grows,
    runs_need_frames_for_their_pages,
};
pub use machine::Machine;
pub use mx_base::{Breach, Stop};
