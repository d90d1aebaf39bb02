//! Laws of the meaning of C. Each function does nothing, and its contract is the law.

ghost use Rattle.std.specs.Prelude.{◌≡◌, ◌≢◌, ◌≤◌, ℕ, ◌+◌, Bool, List, length, true, false};
ghost use Rattle.mx_base.specs.declared.limits.Bounds.{Bounds};
ghost use Rattle.mx_base.specs.Memory.{Bytes};
ghost use Rattle.mx_base.specs.World.{World, Log, world_at_start, empty_log};
ghost use Rattle.fat_ir.specs.Calls.{Callee, Stuck};
ghost use Rattle.fat_ir.specs.Functions.{calls as calls_by_steps, program_run as program_run_by_steps};
ghost use Rattle.fat_ir.specs.Values.{Values};
ghost use Rattle.fat_ir.specs.Step.{Symbols};
ghost use Rattle.bounds_plan.specs.meaning.State.{State, Passed};
ghost use Rattle.bounds_plan.specs.meaning.Expressions.{CalleeOfC, Names};
ghost use Rattle.bounds_plan.specs.steps.Follows.{FitsStatement, values_of, outcome_of, DoesSame, StandsSame, Holds, body_run_by_steps, body_run_in_c};
ghost use Rattle.bounds_plan.specs.meaning.Functions.{FunctionOfC, Linked, body_run, calls, program_run};
ghost use Rattle.bounds_plan.specs.steps.Compiled.{FitsFunction, function_run_by_steps, all_compiled, parameters_of, FitsProgram, OutsideSame};
ghost use Rattle.fat_ir.specs.Spans.{IsAssignable};
ghost use Rattle.bounds_plan.specs.steps.Sorts.{pairs_of, AllNameRight, NumberIn, BoundsIn, how_many};
ghost use Rattle.bounds_plan.specs.meaning.Outside.{lends, lends_by_steps, lending};
ghost use Rattle.bounds_plan.specs.laws.Roots.{AllRooted, RootedCalls, RootedOutside, AllMade, RunsWithin};
ghost use Rattle.fat_ir.specs.Laws.{LacksLabel, passes_on as passes_on_by_steps};
ghost use Rattle.bounds_plan.specs.meaning.Core.{NumberExpr, PointerExpr, Statement};
ghost use Rattle.bounds_plan.specs.steps.Code.{labels, labels_ptr, labels_of, code, code_ptr, code_of, fat_parameters, fat_function, most_pairs};
ghost use Rattle.bounds_plan.specs.laws.Laws.{Leaves, IsOutside, times, JumpsTo, LeftByCalls, LeftOutside, NoMoreTurns, OutputGrows, Judged, OnlyWrites, Events, InPieces, CopiesWhole, passes_on};

/// No run of a program leaves more turns than there were, if nothing outside of it does.
pub fn turns_never_grow()
    ensures { (program : ℕ → Linked) (outside : CalleeOfC → CalleeOfC) → LeftOutside NoMoreTurns outside → (depth : ℕ) → LeftByCalls NoMoreTurns (calls program outside depth) }
{}

/// The output of a run begins with the output before it, if what is outside of the program keeps to that.
pub fn output_only_grows()
    ensures { (program : ℕ → Linked) (outside : CalleeOfC → CalleeOfC) → LeftOutside OutputGrows outside → (depth : ℕ) → LeftByCalls OutputGrows (calls program outside depth) }
{}

/// Every access of a run lies within the bounds of its pointer, if what is outside of the program keeps to that: the log has
/// each access of the world with its bounds, which it doesn't leave, and none was refused. The scalars of a struct that is
/// copied lie inside it.
pub fn accesses_stay_within_bounds()
    ensures { (program : ℕ → Linked) → CopiesWhole program → (outside : CalleeOfC → CalleeOfC) → LeftOutside Judged outside → (depth : ℕ) → LeftByCalls Judged (calls program outside depth) }
{}

/// Memory and the bounds that are kept for it change by the writes of C alone. Where code outside of the program changes them
/// too, a run goes in pieces, each of which is an event of that code or a piece of C between such events, in which every byte
/// that no access wrote is as before, and so is what is kept for every 8 bytes in which no write of 8 bytes begins. What is
/// outside goes in such pieces too, as long as the C functions that it calls do.
pub fn memory_changes_by_writes()
    ensures alone { (program : ℕ → Linked) → CopiesWhole program → (outside : CalleeOfC → CalleeOfC) → LeftOutside OnlyWrites outside → (depth : ℕ) → LeftByCalls OnlyWrites (calls program outside depth) }
    ensures between { (event : Events) (program : ℕ → Linked) → CopiesWhole program → (outside : CalleeOfC → CalleeOfC) → LeftOutside (InPieces event) outside → (depth : ℕ) → LeftByCalls (InPieces event) (calls program outside depth) }
{}

/// All bounds have a root, within which they lie: bounds that were made by then, or a cause of full bounds that had happened
/// by then. Those are the bounds of each access when it was done, of each pointer that is kept in memory, and of each pointer
/// that is passed to a function or comes back from one. It holds from the start of a program on, if what is outside of it
/// keeps to that, whatever bounds it hands over or stores. The bounds of the objects that a program names were made before it
/// started, and it names no variables of its frames but those that it has.
pub fn bounds_have_roots()
    ensures calls { (start : List Bounds) (program : ℕ → Linked) → AllMade start program → (outside : CalleeOfC → CalleeOfC) → RootedOutside start outside → (depth : ℕ) → RootedCalls start (calls program outside depth) }
    ensures starts { (start : List Bounds) (bytes : Bytes) (input : List ℕ) (turns : ℕ) → AllRooted start (world_at_start bytes input turns) record empty_log { made = start } }
{}

/// A whole run, from the start of a program to its stop: the log has each access that was done, with the bounds of its pointer;
/// none was refused, none left its bounds, and all bounds have their roots.
pub fn runs_stay_within_rooted_bounds()
    ensures { (start : List Bounds) (program : ℕ → Linked) → CopiesWhole program → AllMade start program → (outside : CalleeOfC → CalleeOfC) → LeftOutside Judged outside → RootedOutside start outside → (main : ℕ) (bytes : Bytes) (input : List ℕ) (turns : ℕ) → Leaves (RunsWithin start) (program_run program outside main (world_at_start bytes input turns) record empty_log { made = start }) }
{}

/// What is outside of a program can keep to all of these: for one, a function that calls the C function of its own number
/// with its own arguments.
pub fn outside_can_keep_to_laws()
    ensures turns { LeftOutside NoMoreTurns passes_on }
    ensures output { LeftOutside OutputGrows passes_on }
    ensures judged { LeftOutside Judged passes_on }
    ensures writes { LeftOutside OnlyWrites passes_on }
    ensures pieces { (event : Events) → LeftOutside (InPieces event) passes_on }
    ensures roots { (start : List Bounds) → RootedOutside start passes_on }
{}

/// The code of a tree has no labels but as many as it needs, from the first one on.
pub fn code_has_its_own_labels()
    ensures numbers { (e : NumberExpr) (d l k : ℕ) → IsOutside k l (labels e) → LacksLabel k (code e d l) }
    ensures pointers { (e : PointerExpr) (d l k : ℕ) → IsOutside k l (labels_ptr e) → LacksLabel k (code_ptr e d l) }
    ensures statements { (s : Statement) (d l lb lc k : ℕ) → IsOutside k l (labels_of s) → LacksLabel k (code_of s d l lb lc) }
{}

/// Each label to which a step of a function jumps stands once among its steps.
pub fn jumps_find_their_labels()
    ensures { (f : FunctionOfC) (name : ℕ) → JumpsTo (λ k. times k (fat_function name f).steps ≡ 1) (fat_function name f).steps }
{}

/// The steps of a function's body do what the body does, for every meaning of the functions that it calls, in every world
/// and at every bound on turns: they come back with the same value and bounds, or stop for the same reason at the same
/// place, and leave the same world, with its memory and bounds, its turns, and its accesses in order. The private variables
/// stand among the first values, of which the body names only those of the right sort, and temporaries come after them.
pub fn compiled_bodies_do_what_they_mean()
    ensures { (names : Names) (symbols : Symbols) (takes : ℕ → ℕ) → StandsSame names symbols → DoesSame takes names.call symbols.call → LeftByCalls NoMoreTurns names.call → (private : ℕ) (is_bounds : ℕ → Bool) (body : Statement) → FitsStatement private is_bounds takes body → (temp : ℕ) → private ≤ temp → (state : State) (values : Values) → Holds private is_bounds state values → body_run_by_steps symbols private body temp values state.world ≡ outcome_of (body_run_in_c names body state) }
{}

/// The steps of a function do what the function does, from the arrival of its arguments to its end, for every meaning of the
/// functions that it calls, in every world and at every bound on turns: they come back with the same value and bounds, or
/// stop for the same reason at the same place, and leave the same world. So they never read a value that was not written. The
/// function gets as many arguments as it has parameters.
pub fn compiled_functions_do_what_they_mean()
    ensures same { (names : Names) (symbols : Symbols) (takes : ℕ → ℕ) → StandsSame names symbols → DoesSame takes names.call symbols.call → LeftByCalls NoMoreTurns names.call → (f : FunctionOfC) → FitsFunction takes f → (name : ℕ) (args : List Passed) → length args ≡ length f.parameters → (w : World) (log : Log) → function_run_by_steps symbols (fat_function name f) (fat_parameters f.parameters) (values_of args) w ≡ outcome_of (body_run names f args w log) }
    ensures never_stuck { (names : Names) (symbols : Symbols) (takes : ℕ → ℕ) → StandsSame names symbols → DoesSame takes names.call symbols.call → LeftByCalls NoMoreTurns names.call → (f : FunctionOfC) → FitsFunction takes f → (name : ℕ) (args : List Passed) → length args ≡ length f.parameters → (w : World) → function_run_by_steps symbols (fat_function name f) (fat_parameters f.parameters) (values_of args) w ≢ Stuck }
{}

/// The steps of a program's functions do what the functions do, called with as many arguments as they take, wherever so many
/// calls may still be entered: with their turns, their depth and their data frames; and so the steps of a whole program end
/// as the program does. Functions outside of the program may be called and may call back: they are given by what they do with
/// either meaning of the C functions, and do the same with both, as long as these do.
pub fn compiled_programs_do_what_they_mean()
    ensures calls { (takes_outside : ℕ → ℕ) (program : ℕ → Linked) → FitsProgram takes_outside program → (outside : CalleeOfC → CalleeOfC) (by_steps : Callee → Callee) → OutsideSame (parameters_of program) takes_outside outside by_steps → LeftOutside NoMoreTurns outside → (name : ℕ → ℕ) (depth : ℕ) → DoesSame (parameters_of program) (calls program outside depth) (calls_by_steps (all_compiled name program) by_steps depth) }
    ensures ends { (takes_outside : ℕ → ℕ) (program : ℕ → Linked) → FitsProgram takes_outside program → (outside : CalleeOfC → CalleeOfC) (by_steps : Callee → Callee) → OutsideSame (parameters_of program) takes_outside outside by_steps → LeftOutside NoMoreTurns outside → (name : ℕ → ℕ) (main : ℕ) → parameters_of program main ≡ 0 → (w : World) (log : Log) → program_run_by_steps (all_compiled name program) by_steps main w ≡ outcome_of (program_run program outside main w log) }
{}

/// The log decides nothing: neither what was made, nor the causes of full bounds, nor the roots, nor the counters. A call that
/// gets the same values in the same world ends in the same way and leaves the same world.
pub fn logs_decide_nothing()
    ensures { (takes_outside : ℕ → ℕ) (program : ℕ → Linked) → FitsProgram takes_outside program → (outside : CalleeOfC → CalleeOfC) (by_steps : Callee → Callee) → OutsideSame (parameters_of program) takes_outside outside by_steps → LeftOutside NoMoreTurns outside → (depth f : ℕ) (args others : List Passed) → length args ≡ parameters_of program f → values_of args ≡ values_of others → (w : World) (l m : Log) → outcome_of (calls program outside depth f args w l) ≡ outcome_of (calls program outside depth f others w m) }
{}

/// The steps of a function name no values but those that it has, and each as what the function's numbering says that it is: a
/// number or bounds. Its tree needs no more pairs of temporaries than functions have beside those in which parameters arrive.
pub fn steps_name_values_of_their_sort()
    ensures sorts { (takes : ℕ → ℕ) (f : FunctionOfC) → FitsFunction takes f → pairs_of f.body ≤ most_pairs → (name : ℕ) → AllNameRight (NumberIn (fat_function name f)) (BoundsIn (fat_function name f)) (fat_function name f).steps }
    ensures numbered { (f : FunctionOfC) (name : ℕ) → length (fat_function name f).bounds ≡ (fat_function name f).private + (fat_function name f).temps }
    ensures arrived { (f : FunctionOfC) (name : ℕ) → (fat_function name f).arrived ≤ (fat_function name f).temps }
{}

/// What is outside of a program can do the same with both meanings of its functions: for one, a function that calls the C
/// function of its own number with its own arguments.
pub fn outside_can_do_the_same()
    ensures { (takes : ℕ → ℕ) → OutsideSame takes takes passes_on passes_on_by_steps }
{}

/// Code outside of a program can keep to what is asked of it, and hand over pointers with bounds of its own, store them and
/// widen those that it gives back: for one, a function that takes a turn, keeps bounds at an address, calls the C function of
/// its own number with that pointer, and gives back what comes from there with full bounds.
pub fn outside_can_hand_over_pointers()
    ensures same { (takes takes_outside : ℕ → ℕ) → ((f : ℕ) → takes f ≡ 1) → (at value : ℕ) (b : Bounds) → OutsideSame takes takes_outside (lends at value b) (lends_by_steps at value b) }
    ensures turns { (at value : ℕ) (b : Bounds) → LeftOutside NoMoreTurns (lends at value b) }
    ensures output { (at value : ℕ) (b : Bounds) → LeftOutside OutputGrows (lends at value b) }
    ensures judged { (at value : ℕ) (b : Bounds) → LeftOutside Judged (lends at value b) }
    ensures pieces { (at value : ℕ) (b : Bounds) → LeftOutside (InPieces (lending at value b)) (lends at value b) }
    ensures roots { (start : List Bounds) (at value : ℕ) (b : Bounds) → RootedOutside start (lends at value b) }
{}

/// Values of a function can be given homes: no step lies in the spans of more than 152 numbers, or of more than 152 bounds, where
/// the function has at most 64 private variables and six parameters, and its tree needs no more pairs of temporaries than
/// functions have. The temporaries in which parameters arrive are named in the first steps alone.
pub fn few_spans_share_a_step()
    ensures { (takes : ℕ → ℕ) (f : FunctionOfC) → FitsFunction takes f → (name : ℕ) → pairs_of f.body ≤ most_pairs → how_many false f.privates ≤ 64 → how_many true f.privates ≤ 64 → length f.parameters ≤ 6 → IsAssignable (fat_function name f) }
{}
