//! What is known of an expression before its steps are put down: of its type, its value, its place, and how far the tree is gone through
//! after it.
#![tactic(auto)]

mod looks;
mod seen;

pub use looks::{look, look_all};
pub use seen::{
    assigned_seen, call_seen, cast_seen, choice_seen, joint_seen, name_seen, part_seen,
    single_seen, size_seen, stepped_seen, text_seen, word_seen,
};
