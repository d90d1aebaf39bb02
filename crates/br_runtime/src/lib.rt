//! The runtime that makes bounds tables on #BR: an instruction met a directory entry that names no table, and the next table's
//! address is put there (Intel SDM, volume 1, bounds tables are made by system software).
#![tactic(auto)]

mod refusals;
mod serving;

pub use refusals::Serve;
pub use serving::{Tables, serve};
