//! What the code of a function goes by.

ghost use Rattle.std.specs.Prelude.{◌≡◌, false, slice_index_or};
ghost use Rattle.code_emit.specs.Plans.{plan_of};

use crate::homing::Parameter;
use fat_ir::FatFun;
use sqlite_items::Items;
use step_code::Home;

/// A function that is compiled to steps, its parameters, and whether it gives a pointer.
#[derive(Drop)]
pub struct CompiledFunction {
    /// Its name is the number of its symbol in the unit's list of symbols.
    pub fun: FatFun,
    pub parameters: Items<Parameter>,
    pub pointer: bool,
}

/// What the code of a function goes by.
#[derive(Clone, Copy)]
pub struct FunctionPlan<'a> {
    /// The home of each value, in the function's numbering.
    pub homes: &'a [Home],
    /// For each value, whether it is bounds.
    pub bounds: &'a [bool],
    /// The first of four spare words of the frame, counted from the stack pointer.
    pub spare: u16,
    /// The label of the end, which no step has.
    pub exit: u32,
    /// Whether the function gives a pointer.
    pub pointer: bool,
    /// For each symbol of the unit, whether it is a function.
    pub functions: &'a [bool],
}

/// The home of a value.
pub fn home(p: &FunctionPlan, v: u32) -> Home
    ensures { result ≡ (plan_of p.now).home v }
{
    match p.homes.get(v as usize) {
        Some(home) => *home,
        None => Home::Reg(7),
    }
}

/// Whether a value is bounds.
pub fn is_bounds(p: &FunctionPlan, v: u32) -> bool
    ensures { result ≡ (plan_of p.now).is_bounds v }
{
    match p.bounds.get(v as usize) {
        Some(bounds) => *bounds,
        None => false,
    }
}

/// Whether a symbol is a function.
pub fn is_function(functions: &[bool], symbol: u32) -> bool
    ensures { result ≡ slice_index_or functions.now symbol false }
{
    match functions.get(symbol as usize) {
        Some(function) => *function,
        None => false,
    }
}
