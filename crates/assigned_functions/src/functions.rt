//! Homes for the values of compiled functions.

ghost use Rattle.std.specs.Prelude.{IfOk};
ghost use Rattle.std.specs.List.{All};
ghost use Rattle.assigned_functions.specs.Assigned.{CanBeAssigned, IsAssigned, AreAssigned};

use crate::wishes::wishes_of_parameters;
use code_emit::CompiledFunction;
use mx_base::OutOfMemory;
use reg_assign::{Homes, assign};
use sqlite_items::Items;
use std::alloc::Global;

/// Homes for the values of a function, by the wishes of its parameters.
pub fn assign_function(alloc: Global, f: &CompiledFunction) -> Result<Homes, OutOfMemory>
    requires { CanBeAssigned f.now }
    ensures { IfOk result (IsAssigned f.now) }
{
    let wishes = wishes_of_parameters(alloc, f.fun.private, f.parameters.as_slice())?;
    let homes = assign(alloc, &f.fun, &wishes)?;
    Ok(homes)
}

/// Homes for each of the functions, in order.
pub fn assign_functions(
    alloc: Global,
    functions: &[CompiledFunction],
) -> Result<Items<Homes>, OutOfMemory>
    requires { All CanBeAssigned functions.now }
    ensures { IfOk result (AreAssigned functions.now) }
{
    let mut all = Items::new(alloc);
    'functions: for f in functions {
        let homes = assign_function(alloc, f)?;
        all.push(homes)?;
    }
    Ok(all)
}
