//! That the trees of linked programs are within the limits of code by what the link has for their symbols. Only the symbols that a
//! function calls need be linked: a prototype that no expression uses has none. The function here names the law that it rests on, and its
//! contract is the law.
#![tactic(auto)]

mod laws;

pub use laws::linked_functions_are_within_limits;
