//! Examples of the instruction table.

ghost use Rattle.std.specs.List.{AllByRecursion};
ghost use Rattle.x86_forms.specs.Examples.{Does};
ghost use Rattle.x86_forms.specs.ExamplesOfMoves.{examples_of_mov, examples_of_extensions, examples_of_addresses, examples_of_others};
ghost use Rattle.x86_forms.specs.ExamplesOfNumbers.{examples_of_sums, examples_of_logic, examples_of_products, examples_of_shifts};
ghost use Rattle.x86_forms.specs.ExamplesOfBranches.{examples_of_calls, examples_of_jumps};
ghost use Rattle.x86_forms.specs.ExamplesOfBounds.{examples_of_checks, examples_of_bounds_moved};

/// The instruction table does what the Intel manual's pages say, on more than a hundred small examples. Each has what stands
/// before the instruction and what differs after it: the rest of the processor is as before, and memory is looked at where
/// the example names a place. Each form of instruction stands there at least twice.
pub fn rows_do_as_the_manual_says()
    ensures moves { AllByRecursion Does examples_of_mov }
    ensures extensions { AllByRecursion Does examples_of_extensions }
    ensures addresses { AllByRecursion Does examples_of_addresses }
    ensures others { AllByRecursion Does examples_of_others }
    ensures sums { AllByRecursion Does examples_of_sums }
    ensures logic { AllByRecursion Does examples_of_logic }
    ensures products { AllByRecursion Does examples_of_products }
    ensures shifts { AllByRecursion Does examples_of_shifts }
    ensures calls { AllByRecursion Does examples_of_calls }
    ensures jumps { AllByRecursion Does examples_of_jumps }
    ensures checks { AllByRecursion Does examples_of_checks }
    ensures bounds { AllByRecursion Does examples_of_bounds_moved }
{}
