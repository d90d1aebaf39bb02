//! Laws of accepted sources. Each function does nothing, or names the laws that it rests on, and its contract is the law.

ghost use Rattle.std.specs.Prelude.{◌≡◌, ◌<◌, ◌≤◌, ℕ, Bool, Some, List, [], ◌∷◌, ◌++◌, ◌+◌, length, slice_get, slice_index_or};
ghost use Rattle.mx_base.specs.declared.settings.Flags.{Flags as FlagsOf};
ghost use Rattle.c_tree.specs.declared.tree.Tree.{Tree as TreeOf};
ghost use Rattle.c_tree.specs.declared.tree.Item.{Item as ItemOf};
ghost use Rattle.c_tree.specs.declared.tree.Expr.{Expr as ExprOf};
ghost use Rattle.c_tree.specs.Formed.{IsFormed};
ghost use Rattle.c_check_rules.specs.declared.names.Scope.{Scope as ScopeOf};
ghost use Rattle.mx_base.specs.declared.places.Place.{Place as PlaceOf};
ghost use Rattle.c_check_rules.specs.declared.predeclared.Found.{Found as FoundOf};
ghost use Rattle.c_check_typing.specs.declared.typed.Notes.{Notes as NotesOf};
ghost use Rattle.c_check_typing.specs.Notes.{leaf};
ghost use Rattle.c_check_typing.specs.Rules.{name_own};
ghost use Rattle.c_check_typing.specs.Expressions.{Arguments, seen, call_seen};
ghost use Rattle.c_check.specs.Accepted.{IsAccepted, after};
ghost use Rattle.c_check.specs.declared.symbols.Subject.{Subject as SubjectOf};
ghost use Rattle.c_check.specs.declared.symbols.Subject.TheVariants as subject;
ghost use Rattle.c_check.specs.Symbols.{named, number_of, symbol_of, symbols, HasNumber};
ghost use Rattle.c_check_statements.specs.Sources.{items, at_start};
ghost use Rattle.bounds_plan.specs.elaboration.Source.{Meanings, Reached, SourceLayout, Signature, Around, bind_at, kind_at};
ghost use Rattle.mx_base.specs.World.{World, Log, world_at_start, empty_log};
ghost use Rattle.mx_base.specs.Memory.{Bytes};
ghost use Rattle.mx_base.specs.declared.limits.Bounds.{Bounds as BoundsOf};
ghost use Rattle.fat_ir.specs.Calls.{Callee};
ghost use Rattle.fat_ir.specs.Functions.{calls as calls_by_steps, program_run as program_run_by_steps};
ghost use Rattle.bounds_plan.specs.steps.Compiled.{FitsProgram, OutsideSame, parameters_of, all_compiled};
ghost use Rattle.bounds_plan.specs.meaning.Expressions.{CalleeOfC};
ghost use Rattle.bounds_plan.specs.steps.Follows.{DoesSame, outcome_of};
ghost use Rattle.bounds_plan.specs.meaning.Functions.{Linked, calls, program_run};
ghost use Rattle.bounds_plan.specs.laws.Roots.{AllMade, RootedCalls, RootedOutside, RunsWithin};
ghost use Rattle.bounds_plan.specs.laws.Laws.{Leaves, CopiesWhole, LeftByCalls, LeftOutside, NoMoreTurns, Judged};
ghost use Rattle.bounds_plan.specs.elaboration.Expressions.{expression};
ghost use Rattle.bounds_plan.specs.elaboration.Functions.{gone_through, elaborated, signatures_of};
ghost use Rattle.bounds_plan.specs.elaboration.Waits.{items_waits};
ghost use Rattle.bounds_plan.specs.elaboration.Laws.{TakesParameters, AllTakeFew, HaveFewPrivates, AllAssignable};
ghost use Rattle.c_accepted.specs.Alike.{meanings_of, IsAt, Front, MeansIt, FoundAlike, GoneAlike, AllTakeWhatTheyHave};
ghost use Rattle.c_accepted.specs.Frames.{AllPlanned, AllFramed, AreOfBodies};
ghost use Rattle.c_accepted.specs.Linked.{Source, defined_by, declared_by, IsLinked, CanBeLinked};
ghost use Rattle.c_accepted.specs.Literals.{text_sizes, NamesTexts};
ghost use Rattle.c_accepted.specs.Made.{TextsApart, IsMade};
ghost use Rattle.c_accepted.specs.Meeting.{AllMeet};
ghost use Rattle.c_accepted.specs.Planned.{planned_frames, layout_of_plan, planned_source};
ghost use Rattle.c_accepted.specs.SourceLiterals.{literal_sizes, AllNameWholeLiterals};
ghost use Rattle.c_accepted.specs.Wholes.{HasItsType, StayGlobals, NamesWholes, AllNameWholeGlobals};
ghost use Rattle.c_accepted.specs.Symbols.{arguments_of, HaveSymbols, AllTakeBySymbol};

use bounds_plan::{
    bounds_have_roots, elaborated_functions_name_their_own, runs_stay_within_rooted_bounds,
};

/// In an accepted source no function is declared with more than six parameters, and at most 80 values wait at one place.
pub fn accepted_functions_are_small()
    ensures parameters { (tree : TreeOf) (room : ℕ) → IsAccepted tree room → AllTakeFew tree.items }
    ensures waiting { (tree : TreeOf) (room : ℕ) → IsAccepted tree room → items_waits tree.items ≤ 80 }
{}

/// A layout that is planned by what is known of an accepted source has at most 64 private variables in each function.
pub fn planned_frames_have_few_privates()
    ensures { (tree : TreeOf) (room : ℕ) → IsAccepted tree room → (layout : SourceLayout) → AllPlanned (after tree).bodies layout.frames → HaveFewPrivates layout }
{}

/// Symbols can take as many arguments as their functions have parameters, where each function has a symbol of its own.
pub fn symbols_can_take_parameters()
    ensures { (layout : SourceLayout) (signatures : List Signature) → HaveSymbols layout signatures → TakesParameters (arguments_of layout.functions signatures) layout signatures }
{}

/// Homes can be given to the values of the steps of each function of an accepted source, whatever its names mean, in a layout that is
/// planned by what is known of it and has a symbol for each function: no step lies in the spans of more than 152 numbers or of more than
/// 152 bounds.
pub fn accepted_values_are_assignable()
    ensures { (tree : TreeOf) (room : ℕ) → IsAccepted tree room → (meanings : Meanings) (layout : SourceLayout) (flags : FlagsOf) → AllPlanned (after tree).bodies layout.frames → HaveSymbols layout (signatures_of tree meanings layout flags) → AllAssignable (elaborated tree meanings layout flags) }
{}

/// The elaboration and the checker go through a tree alike. An expression without broken rules has a type in the notes, which the elaboration
/// finds, and both go on by as many types and names. A formed source that is accepted is elaborated by what is noted of it to its end, with the
/// structs, tags, members and functions that the checker knows.
pub fn accepted_sources_are_elaborated_alike()
    ensures expressions { (x : ExprOf) (functions : Bool) (scope : ScopeOf) → (seen x functions scope).broken ≡ [] → FoundAlike (seen x functions scope) (expression x) }
    ensures sources { (tree : TreeOf) (room : ℕ) → IsFormed tree → room ≤ 32768 → IsAccepted tree room → (layout : SourceLayout) (flags : FlagsOf) → GoneAlike (after tree) (gone_through tree (meanings_of (after tree).notes) layout flags) }
{}

/// A function of an accepted source takes as many arguments where it is called as it has parameters where it is defined, and so does its symbol, where
/// each function has one of its own.
pub fn accepted_functions_take_what_they_have()
    ensures signatures { (tree : TreeOf) (room : ℕ) → IsFormed tree → room ≤ 32768 → IsAccepted tree room → (layout : SourceLayout) (flags : FlagsOf) → let meanings = meanings_of (after tree).notes in AllTakeWhatTheyHave (signatures_of tree meanings layout flags) (elaborated tree meanings layout flags) }
    ensures symbols { (tree : TreeOf) (room : ℕ) → IsFormed tree → room ≤ 32768 → IsAccepted tree room → (layout : SourceLayout) (flags : FlagsOf) → let meanings = meanings_of (after tree).notes in let signatures = signatures_of tree meanings layout flags in HaveSymbols layout signatures → AllTakeBySymbol (arguments_of layout.functions signatures) layout (elaborated tree meanings layout flags) }
{}

/// The functions of a program are as their steps have it, where each is one that an accepted source defines, and each symbol of a function is linked
/// to what that source defines, or to a function of another source or outside that takes as many arguments as the source declares.
pub fn linked_programs_fit()
    ensures { (takes_outside : ℕ → ℕ) (program : ℕ → Linked) → IsLinked takes_outside program → FitsProgram takes_outside program }
{}

/// In such a program the scalars of each struct that is copied lie inside it, and none is larger than 16,777,216 bytes.
pub fn linked_programs_copy_whole()
    ensures { (takes_outside : ℕ → ℕ) (program : ℕ → Linked) → IsLinked takes_outside program → CopiesWhole program }
{}

/// In a layout that is planned by what is known of an accepted source, each parameter of a function that isn't private is a variable of its data frame,
/// with the size of its type.
pub fn planned_parameters_are_framed()
    ensures { (tree : TreeOf) (room : ℕ) → IsFormed tree → room ≤ 32768 → IsAccepted tree room → (layout : SourceLayout) (flags : FlagsOf) → AllPlanned (after tree).bodies layout.frames → AllFramed (elaborated tree (meanings_of (after tree).notes) layout flags) }
{}

/// The steps of a linked program's functions do what the functions mean, and so the steps of the whole program end as it does; and every access of its
/// runs lies within the bounds of its pointer, and none was refused. What is outside does the same with both meanings of its functions, takes no turns
/// back, and keeps to bounds where this is asked.
pub fn linked_programs_do_what_they_mean()
    ensures calls { (takes_outside : ℕ → ℕ) (program : ℕ → Linked) → IsLinked takes_outside program → (outside : CalleeOfC → CalleeOfC) (by_steps : Callee → Callee) → OutsideSame (parameters_of program) takes_outside outside by_steps → LeftOutside NoMoreTurns outside → (name : ℕ → ℕ) (depth : ℕ) → DoesSame (parameters_of program) (calls program outside depth) (calls_by_steps (all_compiled name program) by_steps depth) }
    ensures ends { (takes_outside : ℕ → ℕ) (program : ℕ → Linked) → IsLinked takes_outside program → (outside : CalleeOfC → CalleeOfC) (by_steps : Callee → Callee) → OutsideSame (parameters_of program) takes_outside outside by_steps → LeftOutside NoMoreTurns outside → (name : ℕ → ℕ) (main : ℕ) → parameters_of program main ≡ 0 → (w : World) (log : Log) → program_run_by_steps (all_compiled name program) by_steps main w ≡ outcome_of (program_run program outside main w log) }
    ensures within { (takes_outside : ℕ → ℕ) (program : ℕ → Linked) → IsLinked takes_outside program → (outside : CalleeOfC → CalleeOfC) → LeftOutside Judged outside → (depth : ℕ) → LeftByCalls Judged (calls program outside depth) }
{}

/// The functions of a source can be so linked to one another, where it defines one at least and each has a symbol of its own.
pub fn programs_can_be_linked()
    ensures { (source : Source) → 1 ≤ length (defined_by source) → HaveSymbols source.layout (declared_by source) → CanBeLinked source }
{}

/// The functions that an accepted source is elaborated to are those whose bodies the checker knows, in order and with their numbers. Each has as its
/// parameters and locals those of its body, by their types, each where the frame of its place in the layout has it, and the size of that frame.
pub fn accepted_functions_are_of_their_bodies()
    ensures { (tree : TreeOf) (room : ℕ) → IsFormed tree → room ≤ 32768 → IsAccepted tree room → (layout : SourceLayout) (flags : FlagsOf) → AreOfBodies (after tree).scope.structs layout 0 (elaborated tree (meanings_of (after tree).notes) layout flags) (after tree).bodies }
{}

/// A name that stands in an expression without broken rules means to the elaboration what the checker finds by it, and so does the name of a call, which
/// comes after its arguments.
pub fn names_mean_what_is_found()
    ensures names { (place : PlaceOf) (functions : Bool) (found : FoundOf) → (leaf place (name_own functions found)).broken ≡ [] → (n : NotesOf) (around : Around) (r : Reached) → Front (meanings_of ((leaf place (name_own functions found)).after n)) around.meanings → IsAt r (meanings_of n) → MeansIt found (bind_at around r) }
    ensures calls { (place : PlaceOf) (found : FoundOf) (args : Arguments) (fits : Bool) → args.fit ≡ Some fits → (call_seen place found args).broken ≡ [] → (n : NotesOf) (around : Around) (r : Reached) → Front (meanings_of ((call_seen place found args).after n)) around.meanings → IsAt r (meanings_of (args.after n)) → MeansIt found (bind_at around r) }
{}

/// In an expression without broken rules a name of a variable has to the elaboration the type that the checker finds, and each global that the
/// expression names is named whole: from its beginning, with the size of its type.
pub fn expressions_name_whole_globals()
    ensures types { (place : PlaceOf) (functions : Bool) (found : FoundOf) → (leaf place (name_own functions found)).broken ≡ [] → (n : NotesOf) (around : Around) (r : Reached) → Front (meanings_of ((leaf place (name_own functions found)).after n)) around.meanings → IsAt r (meanings_of n) → HasItsType found (kind_at around r) }
    ensures objects { (x : ExprOf) (functions : Bool) (scope : ScopeOf) → length scope.variables ≤ 4294967295 → (seen x functions scope).broken ≡ [] → (n : NotesOf) (around : Around) (r : Reached) → Front (meanings_of ((seen x functions scope).after n)) around.meanings → IsAt r (meanings_of n) → NamesWholes scope.variables around (expression x around r).effect }
{}

/// Whatever the types and meanings of its nodes are, each literal that an expression names is named whole: by the number that it has in tree order,
/// at its offset, and with the size of its text, which is its bytes and one of 0. As many literals are counted as there are such texts; those under
/// `sizeof` are none.
pub fn expressions_name_whole_literals()
    ensures literals { (x : ExprOf) (around : Around) (r : Reached) → NamesTexts r.literal (text_sizes x) around.layout (expression x around r).effect }
    ensures counted { (x : ExprOf) (around : Around) (r : Reached) → (expression x around r).after.literal ≡ r.literal + length (text_sizes x) }
{}

/// Each literal that an elaborated function names, in any expression, initialiser or statement of its body, is named whole: by the number that it has
/// in the whole source, at its offset, and with the size of its text. So it is for every tree, whatever the types and meanings of its nodes are.
pub fn functions_name_whole_literals()
    ensures { (tree : TreeOf) (meanings : Meanings) (layout : SourceLayout) (flags : FlagsOf) → AllNameWholeLiterals (literal_sizes tree meanings layout flags) layout (elaborated tree meanings layout flags) }
{}

/// A global that is known behind some items of an accepted source is known in the end too, by its number and with its type, also where it is declared
/// again.
pub fn globals_keep_their_types()
    ensures { (tree : TreeOf) (room : ℕ) → IsAccepted tree room → (front more : List ItemOf) → tree.items ≡ front ++ more → StayGlobals (items front at_start).state.scope.variables (after tree).scope.variables }
{}

/// In an accepted source each global that a function names is named whole: by its symbol, from its beginning, and with the size of the type that the
/// checker knows it by behind the items before the function, which is its type in the end too.
pub fn accepted_functions_name_whole_globals()
    ensures { (tree : TreeOf) (room : ℕ) → IsFormed tree → room ≤ 32768 → IsAccepted tree room → (layout : SourceLayout) (flags : FlagsOf) → AllNameWholeGlobals tree layout (elaborated tree (meanings_of (after tree).notes) layout flags) }
{}

/// Every function of an accepted source is as is asked of it, in a layout that is planned by what is known of the source and has a symbol for each
/// function: for its steps to do what it means, for homes to be given to their values, and for the laws of its accesses, but for the sizes of the
/// globals and literals that it names.
pub fn planned_functions_are_as_is_asked()
    ensures { (tree : TreeOf) (room : ℕ) → IsFormed tree → room ≤ 32768 → IsAccepted tree room → (layout : SourceLayout) (flags : FlagsOf) → AllPlanned (after tree).bodies layout.frames → let meanings = meanings_of (after tree).notes in let signatures = signatures_of tree meanings layout flags in HaveSymbols layout signatures → AllMeet (arguments_of layout.functions signatures) layout (elaborated tree meanings layout flags) }
{}

/// The frames of the plan of a source are planned by what is known of it.
pub fn plans_are_layouts()
    ensures { (tree : TreeOf) → AllPlanned (after tree).bodies (planned_frames tree) }
{}

/// In the layout by the plan of an accepted source each function has a symbol of its own, wherever the literals stand.
pub fn plans_have_symbols()
    ensures { (tree : TreeOf) (room : ℕ) → IsFormed tree → room ≤ 32768 → IsAccepted tree room → (literals : List ℕ) (flags : FlagsOf) → let layout = layout_of_plan tree literals in HaveSymbols layout (signatures_of tree (meanings_of (after tree).notes) layout flags) }
{}

/// In the layout by the plan of a source of which a global or function has a symbol, no global has the number of the literals.
pub fn plans_keep_literals_apart()
    ensures { (tree : TreeOf) (literals : List ℕ) (one : SubjectOf) → HasNumber tree one → TextsApart (layout_of_plan tree literals) }
{}

/// In the layout by the plan of a source each global and function that has a symbol has its number, which is its place in the list of the source's
/// symbols, and the number of the literals is that of the symbol behind all of these.
pub fn plans_have_the_numbers_of_symbols()
    ensures globals { (tree : TreeOf) (literals : List ℕ) (n number : ℕ) → n < length (after tree).scope.variables → number_of tree (subject.Global n) ≡ Some number → slice_index_or (layout_of_plan tree literals).globals n 0 ≡ number }
    ensures functions { (tree : TreeOf) (literals : List ℕ) (n number : ℕ) → n < length (after tree).scope.functions → number_of tree (subject.Function n) ≡ Some number → slice_index_or (layout_of_plan tree literals).functions n 0 ≡ number }
    ensures literals { (tree : TreeOf) (literals : List ℕ) → (layout_of_plan tree literals).texts ≡ length (named tree) }
    ensures symbols { (tree : TreeOf) (named_one : SubjectOf) (number : ℕ) → number_of tree named_one ≡ Some number → slice_get (symbols tree) number ≡ Some (symbol_of (after tree) named_one) }
    ensures last { (tree : TreeOf) (byte : ℕ) (more : List ℕ) → (after tree).notes.literals ≡ byte ∷ more → slice_get (symbols tree) (length (named tree)) ≡ Some (symbol_of (after tree) subject.Literals) }
{}

/// Every function of an accepted source, laid out by its plan, is as is asked of it: for its steps to do what it means, for homes to be given to their
/// values, and for the laws of its accesses, but for the sizes of the globals and literals that it names. The literals may stand anywhere.
pub fn accepted_functions_are_as_is_asked()
    ensures { (tree : TreeOf) (room : ℕ) → IsFormed tree → room ≤ 32768 → IsAccepted tree room → (literals : List ℕ) (flags : FlagsOf) → let meanings = meanings_of (after tree).notes in let layout = layout_of_plan tree literals in AllMeet (arguments_of layout.functions (signatures_of tree meanings layout flags)) layout (elaborated tree meanings layout flags) }
{}

/// The functions of an accepted source, laid out by its plan, can be so linked to one another that they are a program, where it defines one at least.
pub fn planned_sources_can_be_linked()
    ensures { (tree : TreeOf) (room : ℕ) (formed : IsFormed tree) (few : room ≤ 32768) (accepted : IsAccepted tree room) (literals : List ℕ) (flags : FlagsOf) → let source = planned_source tree room formed few accepted literals flags in 1 ≤ length (defined_by source) → CanBeLinked source }
{}

/// What the functions of a linked program name was made before it started, where each global of the sources was made with the size of its type and each
/// literal with the size of its text, in layouts that are planned by what is known of them; of the functions that a function names it is asked that
/// they were made as it names them. So the bounds of all pointers have their roots, and in a whole run no access leaves the bounds of its pointer, and
/// none is refused.
pub fn linked_programs_name_what_is_made()
    ensures made { (start : List BoundsOf) (takes_outside : ℕ → ℕ) (program : ℕ → Linked) (linked : IsLinked takes_outside program) → IsMade start takes_outside program linked → AllMade start program }
    ensures roots { (start : List BoundsOf) (takes_outside : ℕ → ℕ) (program : ℕ → Linked) (linked : IsLinked takes_outside program) → IsMade start takes_outside program linked → (outside : CalleeOfC → CalleeOfC) → RootedOutside start outside → (depth : ℕ) → RootedCalls start (calls program outside depth) }
    ensures runs { (start : List BoundsOf) (takes_outside : ℕ → ℕ) (program : ℕ → Linked) (linked : IsLinked takes_outside program) → IsMade start takes_outside program linked → (outside : CalleeOfC → CalleeOfC) → LeftOutside Judged outside → RootedOutside start outside → (main : ℕ) (bytes : Bytes) (input : List ℕ) (turns : ℕ) → Leaves (RunsWithin start) (program_run program outside main (world_at_start bytes input turns) record empty_log { made = start }) }
{
    elaborated_functions_name_their_own();
    bounds_have_roots();
    runs_stay_within_rooted_bounds();
}
