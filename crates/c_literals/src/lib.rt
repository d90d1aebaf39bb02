//! Where the text literals of expressions, initialisers and statements stand, one behind another.
#![tactic(auto)]

mod inits;
mod laws;
mod literals;
mod statements;

pub use inits::put_literals_of_init;
pub use laws::literals_stand_one_behind_another;
pub use literals::{Literals, no_literals, put_literals, put_literals_of_all};
pub use statements::{
    put_literals_of_declarations, put_literals_of_statement, put_literals_of_variable,
};
