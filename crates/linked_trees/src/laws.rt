//! The law of trees and the symbols that they call. The function names the law that it rests on, and its contract is the law.

ghost use Rattle.std.specs.Prelude.{ℕ};
ghost use Rattle.fat_ir.specs.Functions.{Linked as FatLinked};
ghost use Rattle.fat_ir.specs.Step.{Located};
ghost use Rattle.bounds_plan.specs.meaning.Functions.{Linked};
ghost use Rattle.step_code.specs.Asked.{IsLow};
ghost use Rattle.c_accepted.specs.Linked.{IsLinked, declared_by};
ghost use Rattle.c_accepted.specs.Symbols.{HaveSymbols};
ghost use Rattle.accepted_trees.specs.Limits.{FunctionKeeps, LayoutWithin};
ghost use Rattle.legacy_calls.specs.Legacy.{Linkage};
ghost use Rattle.program_laws.specs.Functions.{returns_in, takes_in};
ghost use Rattle.linked_trees.specs.Called.{FunctionCalls};
ghost use Rattle.linked_trees.specs.Declared.{IsLinkedTo};

use accepted_trees::linked_functions_keep_to_limits;

/// A function of a linked program keeps to the limits by what the link has for its symbols, where it has a function of the declared
/// signature for each symbol that the function calls. Each function of the source has a symbol of its own, and symbols stand low.
pub fn linked_functions_are_within_limits()
    ensures { (located : ℕ → Located) (takes_outside : ℕ → ℕ) (program : ℕ → Linked) (linked : IsLinked takes_outside program) (f : ℕ)
        → let source = (linked f).source in LayoutWithin source.layout → HaveSymbols source.layout (declared_by source)
        → ((symbol : ℕ) → IsLow (located symbol)) → (k : Linkage) (l : FatLinked)
        → FunctionCalls (IsLinkedTo k l source.layout (declared_by source)) (program f).fun
        → FunctionKeeps located (returns_in k l) (takes_in k l) (declared_by source)
        record { number = (linked f).one.d.number; function = (program f).fun } }
{
    linked_functions_keep_to_limits();
}
