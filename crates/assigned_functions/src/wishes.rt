//! For which registers the values of parameters wish.

ghost use Rattle.std.specs.Prelude.{◌≡◌, ◌+◌, ◌++◌, [], ◌∷◌, IfOk, OnOk};
ghost use Rattle.step_code.specs.Homing.{width_of as width};
ghost use Rattle.code_emit.specs.Plans.{parameters_of};
ghost use Rattle.asked_steps.specs.Wishes as spec;

use code_emit::Parameter;
use mx_base::OutOfMemory;
use reg_assign::Wishes;
use sqlite_items::Items;
use std::alloc::Global;

/// The value behind those of a parameter, of which `first` is the first.
fn past(first: usize, pointer: bool) -> Result<usize, OutOfMemory>
    ensures { IfOk result (λ n. n ≡ first + width pointer) }
{
    let width = if pointer { 2 } else { 1 };
    match first.checked_add(width) {
        Some(n) => Ok(n),
        None => Err(OutOfMemory),
    }
}

/// The values of a parameter that wish: its number, and a pointer's bounds behind it.
fn push_values(
    numbers: &mut Items<usize>,
    bounds: &mut Items<usize>,
    first: usize,
    pointer: bool,
) -> Result<(), OutOfMemory>
    ensures numbers { OnOk result (numbers.new ≡ numbers.old ++ first ∷ []) }
    ensures bounds { OnOk result (bounds.new ≡ bounds.old ++ spec.bounds_behind pointer first []) }
{
    numbers.push(first)?;
    if pointer {
        match first.checked_add(1) {
            Some(behind) => bounds.push(behind)?,
            None => return Err(OutOfMemory),
        }
    }
    Ok(())
}

/// The values in which arguments arrive come behind those that are there: those of private parameters from `home` on, in order, and the
/// others from `temp` on.
fn push_arriving(
    numbers: &mut Items<usize>,
    bounds: &mut Items<usize>,
    home: usize,
    temp: usize,
    parameters: &[Parameter],
) -> Result<(), OutOfMemory>
    ensures numbers { OnOk result (numbers.new ≡ numbers.old ++ spec.numbers_in home temp (parameters_of parameters.now)) }
    ensures bounds { OnOk result (bounds.new ≡ bounds.old ++ spec.bounds_in home temp (parameters_of parameters.now)) }
{
    match parameters.split_first() {
        None => Ok(()),
        Some((q, more)) => {
            if q.private {
                push_values(numbers, bounds, home, q.pointer)?;
                push_arriving(numbers, bounds, past(home, q.pointer)?, temp, more)
            } else {
                push_values(numbers, bounds, temp, q.pointer)?;
                push_arriving(numbers, bounds, home, past(temp, q.pointer)?, more)
            }
        }
    }
}

/// The list without its first two; of a shorter one nothing is left.
fn behind_two(alloc: Global, values: &[usize]) -> Result<Items<usize>, OutOfMemory>
    ensures { IfOk result (λ rest. rest ≡ spec.behind_two values.now) }
{
    match values {
        [_, _, rest @ ..] => Ok(Items::from_slice(alloc, rest)?),
        _ => Ok(Items::new(alloc)),
    }
}

/// For which registers the values wish in which the arguments of a function arrive, whose private variables have so many values: each
/// number for the register at its place among the arguments, and bounds that arrive in BND2 and BND3 for those.
///
/// # Errors
///
/// `OutOfMemory`: no memory for the lists, or more values than have numbers.
pub fn wishes_of_parameters(
    alloc: Global,
    private: u32,
    parameters: &[Parameter],
) -> Result<Wishes, OutOfMemory>
    ensures { IfOk result (λ w. w ≡ spec.wishes_of private (parameters_of parameters.now)) }
{
    let mut numbers = Items::new(alloc);
    let mut all = Items::new(alloc);
    push_arriving(&mut numbers, &mut all, 0, private as usize, parameters)?;
    let bounds = behind_two(alloc, all.as_slice())?;
    Ok(Wishes { numbers, bounds })
}
