//! The functions that are declared so far.

ghost use Rattle.std.specs.Prelude.{◌≡◌, ◌≤◌, ◌++◌, ◌∷◌, [], nat_lt, if◌then◌else◌, length, map, slice_get, Some, All, IfOk, OnOk};
ghost use Rattle.c_types.specs.Types.{type_at, IsIn};
ghost use Rattle.steps_facts.specs.Around.{sorts_of, parameters_of};
ghost use Rattle.steps_known.specs.Functions.{AreSorted, signatures_known, function_of};

use c_types::{TypeId, TypeTable};
use mx_base::OutOfMemory;
use sqlite_items::Items;
use std::alloc::Global;
use steps_facts::Sorted;
use steps_structs::sorted;

/// A function that is declared: the types of its result and its parameters, and the sorts of these.
#[derive(Drop)]
pub struct KnownFunction {
    pub result: TypeId,
    pub parameters: Items<TypeId>,
    pub sorts: Items<Sorted>,
}

/// The sorts of types.
pub fn sorts_at(
    alloc: Global,
    types: &TypeTable,
    all: &[TypeId],
) -> Result<Items<Sorted>, OutOfMemory>
    requires { All (IsIn types.now) all.now }
    ensures { IfOk result (λ sorts. sorts ≡ sorts_of (map (type_at types.now) all.now)) }
{
    let mut sorts = Items::new(alloc);
    for one in all {
        sorts.push(sorted(types.shape(*one)))?;
    }
    Ok(sorts)
}

/// A function with parameters of these types.
fn known_function(
    alloc: Global,
    types: &TypeTable,
    gives: TypeId,
    parameters: &[TypeId],
) -> Result<KnownFunction, OutOfMemory>
    requires { All (IsIn types.now) parameters.now }
    ensures { IfOk result (λ f. f ≡ function_of types.now gives parameters.now) }
{
    let sorts = sorts_at(alloc, types, parameters)?;
    let parameters = Items::from_slice(alloc, parameters)?;
    Ok(KnownFunction {
        result: gives,
        parameters,
        sorts,
    })
}

/// Declares a function behind those that are declared, if its number says that it is the next one. For want of memory nothing changes.
pub fn declare_function(
    alloc: Global,
    types: &TypeTable,
    functions: &mut Items<KnownFunction>,
    number: u32,
    gives: TypeId,
    parameters: &[TypeId],
) -> Result<(), OutOfMemory>
    requires sorted { AreSorted types.now functions.old }
    requires parameters { All (IsIn types.now) parameters.now }
    ensures sorted { AreSorted types.now functions.new }
    ensures declared { OnOk result (functions.new ≡ (if nat_lt number (length functions.old) then functions.old else functions.old ++ function_of types.now gives parameters.now ∷ [])) }
    ensures signatures { OnOk result (signatures_known types.now functions.new ≡ (if nat_lt number (length (signatures_known types.now functions.old)) then signatures_known types.now functions.old else signatures_known types.now functions.old ++ record { result = type_at types.now gives; parameters = map (type_at types.now) parameters.now } ∷ [])) }
{
    if (number as usize) < functions.len() {
        Ok(())
    } else {
        let known = known_function(alloc, types, gives, parameters)?;
        functions.push(known)?;
        Ok(())
    }
}

/// The sorts of the parameters of a function by its number.
#[tactic(auto, using(crate::proofs::FunctionLemmas::sorted_at))]
pub fn sorts_of_function<'a>(
    types: &TypeTable,
    functions: &'a [KnownFunction],
    number: u32,
) -> Result<&'a [Sorted], OutOfMemory>
    requires { AreSorted types.now functions.now }
    ensures { IfOk result (λ sorts. Some sorts.now ≡ parameters_of (slice_get (signatures_known types.now functions.now) number)) }
{
    match functions.get(number as usize) {
        Some(found) => Ok(found.sorts.as_slice()),
        None => Err(OutOfMemory),
    }
}
