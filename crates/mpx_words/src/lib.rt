//! The commands of `mpxc` over the outside: what words mean, the work of each command, and the line of how it ended.
#![tactic(auto)]

mod command;
mod dis;
mod early;
pub mod end;
mod exec;
mod generate;
mod laws;
mod line;
mod link;
mod load;
mod making;
mod options;
pub mod report;
pub mod run;
mod sink;
mod source_file;
mod stop;
mod word;

pub use laws::words_mean_one_command;
