//! What stands at a place of a list, and past it.

ghost use Rattle.std.specs.Prelude.{◌≡◌, ◌+◌, All, map, IfOk, slice_index_or};
ghost use Rattle.c_types.specs.Types.{Void, type_at, built, IsIn};
ghost use Rattle.c_types.specs.Layouts.{CanBuild};
ghost use Rattle.c_check_rules.specs.declared.predeclared.Bind.TheVariants as bind;

use c_check_rules::Bind;
use c_types::{Shape, TypeId, TypeTable};
use mx_base::OutOfMemory;

/// A number of a list, and 0 beyond its end.
pub fn number_at(numbers: &[u32], at: u32) -> u32
    ensures { result ≡ slice_index_or numbers.now at 0 }
{
    match numbers.get(at as usize) {
        Some(found) => *found,
        None => 0,
    }
}

/// The next place.
pub fn next(at: u32) -> Result<u32, OutOfMemory>
    ensures { IfOk result (λ n. n ≡ at + 1) }
{
    match at.checked_add(1) {
        Some(n) => Ok(n),
        None => Err(OutOfMemory),
    }
}

/// The meaning of a name by its number, and that of the first local beyond the end.
pub fn bind_at(binds: &[Bind], at: u32) -> Bind
    ensures { result ≡ slice_index_or binds.now at (bind.Local 0) }
{
    match binds.get(at as usize) {
        Some(found) => *found,
        None => Bind::Local(0),
    }
}

/// The type of a number in a list of types, and `void` beyond its end.
pub fn shape_at(types: &TypeTable, kinds: &[TypeId], at: u32) -> Shape
    requires { All (IsIn types.now) kinds.now }
    ensures kind { built (type_at types.now) result ≡ slice_index_or (map (type_at types.now) kinds.now) at Void }
    ensures named { CanBuild types.now result }
{
    match kinds.get(at as usize) {
        Some(t) => types.shape(*t),
        None => Shape::Void,
    }
}

/// The number of a type in a list of types.
pub fn type_number(types: &TypeTable, declared: &[TypeId], at: u32) -> Result<TypeId, OutOfMemory>
    requires { All (IsIn types.now) declared.now }
    ensures kind { IfOk result (λ t. type_at types.now t ≡ slice_index_or (map (type_at types.now) declared.now) at Void) }
    ensures known { IfOk result (IsIn types.now) }
{
    match declared.get(at as usize) {
        Some(t) => Ok(*t),
        None => Err(OutOfMemory),
    }
}
