//! Laws of the meaning of a legacy call beside C's log. Each function does nothing, or names the law that it rests on, and its contract is the law.

ghost use Rattle.std.specs.Prelude.{◌≡◌, ◌≢◌, ◌++◌, ℕ, true, false, List, length};
ghost use Rattle.mx_base.specs.declared.limits.Bounds.{Bounds};
ghost use Rattle.mx_base.specs.Memory.{Bytes};
ghost use Rattle.mx_base.specs.World.{World, Log, world_at_start, empty_log};
ghost use Rattle.obj_file.specs.Machine.{State, event};
ghost use Rattle.obj_file.specs.Stored.{Stored};
ghost use Rattle.fat_ir.specs.Values.{Value};
ghost use Rattle.fat_ir.specs.Calls.{Callee, Stuck};
ghost use Rattle.fat_ir.specs.Functions.{Linked as LinkedSteps, calls as calls_by_steps, program_run as program_run_by_steps};
ghost use Rattle.fat_ir.specs.Laws.{LeftOutside as LeftBySteps, LeftByCalls as LeftByStepCalls, NoMoreTurns as NoMoreTurnsBySteps, OutputGrows as OutputGrowsBySteps, AccessesAllowed};
ghost use Rattle.bounds_plan.specs.steps.Compiled.{FitsProgram, OutsideSame, all_compiled, parameters_of};
ghost use Rattle.bounds_plan.specs.meaning.Expressions.{CalleeOfC};
ghost use Rattle.bounds_plan.specs.steps.Follows.{DoesSame, outcome_of};
ghost use Rattle.bounds_plan.specs.meaning.Functions.{Linked, calls, program_run};
ghost use Rattle.bounds_plan.specs.laws.Laws.{Leaves, LeftOutside, NoMoreTurns, OutputGrows, Judged, InPieces, CopiesWhole};
ghost use Rattle.bounds_plan.specs.laws.Roots.{RootedOutside, AllMade, RunsWithin};
ghost use Rattle.legacy_calls.specs.Legacy.{Linkage, ground, outside};
ghost use Rattle.obj_file.specs.Beside.{Beside, alone, event_alone};
ghost use Rattle.legacy_calls.specs.Laws.{Counted, KeepsStacks};
ghost use Rattle.legacy_calls.specs.OfC.{ground_of_c, outside_of_c};
ghost use Rattle.legacy_calls.specs.Pieces.{event_by_numbers};
ghost use Rattle.legacy_calls.specs.Examples.{seen, call_of, keeps_code, loads_code, gives_back, calls_back, kept_and_given, widened, called_back, loaded};

use bounds_plan::runs_stay_within_rooted_bounds;

/// The log decides no event of legacy code.
pub fn legacy_events_do_the_same()
    ensures { (k : Linkage) (s : State (Beside Stored Log)) → event_alone (event (ground_of_c k) s) ≡ event (ground k) (alone s) }
{}

/// A legacy call does the same beside the log as over the world alone, and so it is never stuck.
pub fn legacy_calls_do_the_same()
    ensures same { (k : Linkage) (takes takes_outside : ℕ → ℕ) → ((f : ℕ) → takes f ≡ length (k.own f).parameters) → OutsideSame takes takes_outside (outside_of_c k) (outside k) }
    ensures never_stuck { (k : Linkage) (takes : ℕ → ℕ) → ((f : ℕ) → takes f ≡ length (k.own f).parameters) → (own : CalleeOfC) (fat : Callee) → DoesSame takes own fat → (g : ℕ) (args : List Value) (w : World) → outside k fat g args w ≢ Stuck }
{}

/// A legacy call keeps to all that C asks of what is outside of it; and it changes no byte but in pages that the log lists, and keeps no bounds but
/// for granules that it lists.
pub fn legacy_calls_keep_to_laws()
    ensures turns { (k : Linkage) → LeftOutside NoMoreTurns (outside_of_c k) }
    ensures output { (k : Linkage) → LeftOutside OutputGrows (outside_of_c k) }
    ensures judged { (k : Linkage) → LeftOutside Judged (outside_of_c k) }
    ensures roots { (start : List Bounds) (k : Linkage) → RootedOutside start (outside_of_c k) }
    ensures pieces { (k : Linkage) → LeftOutside (InPieces (event_by_numbers k)) (outside_of_c k) }
    ensures counted { (k : Linkage) → LeftOutside Counted (outside_of_c k) }
{}

/// And to all that the steps ask.
pub fn legacy_calls_keep_to_laws_of_steps()
    ensures output { (k : Linkage) → LeftBySteps OutputGrowsBySteps (outside k) }
    ensures accesses { (k : Linkage) → LeftBySteps AccessesAllowed (outside k) }
    ensures stacks { (k : Linkage) (own : Callee) → KeepsStacks own → KeepsStacks (outside k own) }
    ensures programs { (k : Linkage) (program : ℕ → LinkedSteps) (depth : ℕ) → KeepsStacks (calls_by_steps program (outside k) depth) }
    ensures turns { (k : Linkage) (program : ℕ → LinkedSteps) (depth : ℕ) → LeftByStepCalls NoMoreTurnsBySteps (calls_by_steps program (outside k) depth) }
{}

/// The steps of a program that calls legacy code end as the program does in C.
pub fn programs_with_legacy_code_end_alike()
    ensures { (k : Linkage) (takes_outside : ℕ → ℕ) (program : ℕ → Linked) → FitsProgram takes_outside program → ((f : ℕ) → parameters_of program f ≡ length (k.own f).parameters) → (name : ℕ → ℕ) (main : ℕ) → parameters_of program main ≡ 0 → (w : World) (log : Log) → program_run_by_steps (all_compiled name program) (outside k) main w ≡ outcome_of (program_run program (outside_of_c k) main w log) }
{}

/// In a whole run with legacy code no access of C leaves the bounds of its pointer, none is refused, and all bounds have their roots.
pub fn programs_with_legacy_code_stay_within_rooted_bounds()
    ensures { (start : List Bounds) (program : ℕ → Linked) → CopiesWhole program → AllMade start program → (k : Linkage) (main : ℕ) (bytes : Bytes) (input : List ℕ) (turns : ℕ) → Leaves (RunsWithin start) (program_run program (outside_of_c k) main (world_at_start bytes input turns) record empty_log { made = start }) }
{
    runs_stay_within_rooted_bounds();
}

/// Four calls of small legacy functions, evaluated: the value that comes back with its root, the turns left, and what the log has.
pub fn small_legacy_calls_do_so()
    ensures keeps { seen (call_of (keeps_code ++ gives_back true)) ≡ kept_and_given }
    ensures widens { seen (call_of (keeps_code ++ gives_back false)) ≡ widened }
    ensures calls { seen (call_of calls_back) ≡ called_back }
    ensures loads { seen (call_of (loads_code ++ gives_back true)) ≡ loaded }
{}
