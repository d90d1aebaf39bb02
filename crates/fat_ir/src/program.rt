//! Functions and programs of steps.

use crate::step::FatStep;
use sqlite_items::Items;

/// The C functions of a unit, in the order of their definitions.
#[derive(Drop)]
pub struct FatProgram {
    pub funs: Items<FatFun>,
}

/// A C function.
///
/// Its values have one numbering. First come those of its private variables, in order of declaration: a number, and for a
/// pointer its bounds after it. Then come the temporaries. The parameters that are not private arrive in the first
/// temporaries in the same way.
#[derive(Drop)]
pub struct FatFun {
    /// The function's symbol.
    pub name: u32,
    /// How many values the private variables have.
    pub private: u32,
    /// How many of the temporaries parameters arrive in: the first ones.
    pub arrived: u32,
    /// How many temporaries there are.
    pub temps: u32,
    /// For each value in this numbering, whether it is bounds.
    pub bounds: Items<bool>,
    /// How many bytes the data frame has.
    pub frame: u32,
    pub steps: Items<FatStep>,
}
