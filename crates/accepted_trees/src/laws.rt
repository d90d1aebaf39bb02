//! Laws of the trees of accepted sources. Each function does nothing, or names the law that it rests on, and its contract is the
//! law.

ghost use Rattle.std.specs.Prelude.{◌≡◌, ◌<◌, ◌≤◌, ◌^◌, ℕ, Bool, true, Option, List, [], length, slice_index};
ghost use Rattle.mx_base.specs.declared.settings.Flags.{Flags as FlagsOf};
ghost use Rattle.c_tree.specs.declared.tree.Tree.{Tree as TreeOf};
ghost use Rattle.c_tree.specs.declared.tree.Expr.{Expr as ExprOf};
ghost use Rattle.c_tree.specs.declared.tree.Stmt.{Stmt as StmtOf};
ghost use Rattle.c_tree.specs.Formed.{formed_expr, formed_stmt, IsFormed};
ghost use Rattle.c_check_rules.specs.declared.names.Scope.{Scope as ScopeOf};
ghost use Rattle.c_check_typing.specs.declared.typed.Notes.{Notes as NotesOf};
ghost use Rattle.c_check_typing.specs.Expressions.{seen};
ghost use Rattle.c_check_statements.specs.declared.state.State.{State as StateOf};
ghost use Rattle.c_check_statements.specs.Statements.{statement};
ghost use Rattle.c_check.specs.Standing.{structs_seen};
ghost use Rattle.c_check.specs.Accepted.{IsAccepted, after};
ghost use Rattle.fat_ir.specs.Step.{Located};
ghost use Rattle.bounds_plan.specs.meaning.Functions.{Linked};
ghost use Rattle.bounds_plan.specs.elaboration.Types.{sort_of};
ghost use Rattle.bounds_plan.specs.elaboration.Source.{Reached, SourceLayout, Around};
ghost use Rattle.bounds_plan.specs.elaboration.Expressions.{expression};
ghost use Rattle.bounds_plan.specs.elaboration.Initialisers.{initialiser};
ghost use Rattle.bounds_plan.specs.elaboration.Statements.{statement_by};
ghost use Rattle.bounds_plan.specs.elaboration.Functions.{elaborated, signatures_of};
ghost use Rattle.c_accepted.specs.Alike.{meanings_of, signatures_seen, IsAt, Front};
ghost use Rattle.c_accepted.specs.Linked.{declared_by, IsLinked};
ghost use Rattle.c_accepted.specs.Planned.{layout_of_plan};
ghost use Rattle.asked_steps.specs.Trees.{EffectWithin, StatementWithin};
ghost use Rattle.accepted_trees.specs.Limits.{MeaningsWithin, AroundWithin, LayoutWithin, gives_pointer};
ghost use Rattle.accepted_trees.specs.Limits.{SymbolsServe, FunctionKeeps, AllFunctionsKeep};

use place_plan::planned_frames_are_small;

/// An expression without broken rules keeps to the limits of code, where the types that are noted by then have small sizes, the functions
/// around it are those that the checker knows, and what else is around it keeps to them.
pub fn expressions_keep_to_limits()
    ensures { (located : ℕ → Located) (pointer : Bool) (returns : ℕ → Bool) (takes : ℕ → List (ℕ × Option ℕ) → Bool)
        (x : ExprOf) (functions : Bool) (scope : ScopeOf) → formed_expr x ≡ true → (seen x functions scope).broken ≡ []
        → length scope.functions ≤ 4294967295 → (n : NotesOf) (around : Around) (r : Reached)
        → Front (meanings_of ((seen x functions scope).after n)) around.meanings → IsAt r (meanings_of n)
        → MeaningsWithin around.structs (meanings_of ((seen x functions scope).after n))
        → around.signatures ≡ signatures_seen scope.functions → AroundWithin located returns takes around
        → EffectWithin located pointer returns takes (expression x around r).effect }
{}

/// A statement without broken rules keeps to the limits of code, with the initialisers of its variables, where the same holds of what is
/// around it, and where a function gives a pointer exactly if it is one that its result is.
pub fn statements_keep_to_limits()
    ensures { (located : ℕ → Located) (pointer : Bool) (returns : ℕ → Bool) (takes : ℕ → List (ℕ × Option ℕ) → Bool)
        (x : StmtOf) (state : StateOf) → formed_stmt x ≡ true → (statement x state).broken ≡ []
        → length state.scope.functions ≤ 4294967295 → (around : Around) (r : Reached)
        → Front (meanings_of (statement x state).state.notes) around.meanings → IsAt r (meanings_of state.notes)
        → MeaningsWithin around.structs (meanings_of (statement x state).state.notes)
        → around.structs ≡ structs_seen state.scope.structs → around.signatures ≡ signatures_seen state.scope.functions
        → AroundWithin located returns takes around → pointer ≡ gives_pointer (sort_of around.result)
        → StatementWithin located pointer returns takes (statement_by expression (initialiser expression) x around r).statement }
{}

/// The functions of an accepted source keep to the limits of code, where its layout has small offsets and its symbols stand low and serve
/// calls as their functions are declared.
pub fn accepted_functions_keep_to_limits()
    ensures { (located : ℕ → Located) (returns : ℕ → Bool) (takes : ℕ → List (ℕ × Option ℕ) → Bool)
        (tree : TreeOf) (room : ℕ) → IsFormed tree → room ≤ 32768 → IsAccepted tree room → (layout : SourceLayout) (flags : FlagsOf)
        → LayoutWithin layout → let meanings = meanings_of (after tree).notes in
        SymbolsServe located returns takes layout (signatures_of tree meanings layout flags)
        → AllFunctionsKeep located returns takes (signatures_of tree meanings layout flags) (elaborated tree meanings layout flags) }
{}

/// In the layout of an accepted source by its plan each variable of a data frame stands at a small offset. So its functions keep to the
/// limits of code, laid out by it, where its literals stand at such offsets behind their symbol, and symbols stand low and serve calls.
pub fn planned_functions_keep_to_limits()
    ensures layouts { (tree : TreeOf) (room : ℕ) → IsFormed tree → room ≤ 32768 → IsAccepted tree room → (literals : List ℕ)
        → ((number : ℕ) → slice_index literals number < 2 ^ 31) → LayoutWithin (layout_of_plan tree literals) }
    ensures functions { (located : ℕ → Located) (returns : ℕ → Bool) (takes : ℕ → List (ℕ × Option ℕ) → Bool)
        (tree : TreeOf) (room : ℕ) → IsFormed tree → room ≤ 32768 → IsAccepted tree room → (literals : List ℕ) (flags : FlagsOf)
        → ((number : ℕ) → slice_index literals number < 2 ^ 31) → let meanings = meanings_of (after tree).notes in
        let layout = layout_of_plan tree literals in SymbolsServe located returns takes layout (signatures_of tree meanings layout flags)
        → AllFunctionsKeep located returns takes (signatures_of tree meanings layout flags) (elaborated tree meanings layout flags) }
{
    planned_frames_are_small();
}

/// So does each function of a linked program, in the layout of its source: it is one that the source declares, and it gives a pointer
/// exactly if the source declares it so.
pub fn linked_functions_keep_to_limits()
    ensures { (located : ℕ → Located) (returns : ℕ → Bool) (takes : ℕ → List (ℕ × Option ℕ) → Bool)
        (takes_outside : ℕ → ℕ) (program : ℕ → Linked) (linked : IsLinked takes_outside program) (f : ℕ) → let source = (linked f).source in
        LayoutWithin source.layout → SymbolsServe located returns takes source.layout (declared_by source)
        → FunctionKeeps located returns takes (declared_by source) record { number = (linked f).one.d.number; function = (program f).fun } }
{}
