//! Laws of the code of functions in an image with gates. Each function does nothing, and its contract is the law.

ghost use Rattle.std.specs.Prelude.{◌≡◌, ◌<◌, ◌≤◌, ℕ, suc, ◌+◌, ◌*◌, Bool, Some, Option, List, length};
ghost use Rattle.mx_base.specs.BoundsStore.{empty_store};
ghost use Rattle.mx_base.specs.Guests.{InputFits};
ghost use Rattle.mx_base.specs.Memory.{Bytes};
ghost use Rattle.mx_base.specs.Regions.{control_stack};
ghost use Rattle.mx_base.specs.StopOfC.{AccessOfC, Exit};
ghost use Rattle.mx_base.specs.World.{World, Log, world_at_start};
ghost use Rattle.obj_file.specs.Machine.{Reading, IsReader};
ghost use Rattle.obj_file.specs.Stored.{Stored};
ghost use Rattle.fat_ir.specs.Calls.{Callee};
ghost use Rattle.fat_ir.specs.Functions.{Linked, program_run, symbols_of};
ghost use Rattle.fat_ir.specs.Values.{Value};
ghost use Rattle.bounds_plan.specs.steps.Code.{fat_function};
ghost use Rattle.bounds_plan.specs.steps.Compiled.{FitsFunction, FitsProgram, all_compiled, parameters_of};
ghost use Rattle.bounds_plan.specs.steps.Follows.{outcome_of};
ghost use Rattle.bounds_plan.specs.meaning.Functions.{FunctionOfC, Linked as LinkedInC, program_run as program_run_in_c};
ghost use Rattle.step_code.specs.Steps.{Plan};
ghost use Rattle.reg_assign.specs.declared.homes.Homes.{Homes};
ghost use Rattle.reg_assign.specs.Granted.{AreGranted};
ghost use Rattle.reg_assign.specs.Homes.{AreHomes};
ghost use Rattle.reg_assign.specs.Laws.{HasHomes};
ghost use Rattle.asked_steps.specs.Wishes.{parameters_wish};
ghost use Rattle.code_laws.specs.Runs.{Calls as CallsInCode};
ghost use Rattle.code_laws.specs.Seen.{IsSetting};
ghost use Rattle.legacy_calls.specs.Legacy.{Linkage, outside};
ghost use Rattle.legacy_calls.specs.OfC.{outside_of_c};
ghost use Rattle.gate_laws.specs.Crossings.{ProgramEnds};
ghost use Rattle.gate_laws.specs.Moments.{Moment, moment_at_start};
ghost use Rattle.gate_laws.specs.Owed.{IsLinked, IsLoaded, Layers};
ghost use Rattle.gate_laws.specs.Placed.{HasCode};
ghost use Rattle.gate_laws.specs.Standing.{AtCall};
ghost use Rattle.program_laws.specs.Borders.{setting_of};
ghost use Rattle.program_laws.specs.Compiled.{AreClear, HasCompiled};
ghost use Rattle.program_laws.specs.CompiledExample.{linkage_of_c, image_of_c, no_places, inner_of_c, stubs_of_c, program_of_c, names};
ghost use Rattle.program_laws.specs.Entering.{EntersFunction};
ghost use Rattle.program_laws.specs.Examples.{linkage, image, places, program, inner_at, stubs_at, why_of};
ghost use Rattle.program_laws.specs.Functions.{HasFunctions, entries_of, returns_in, takes_in};
ghost use Rattle.program_laws.specs.Levels.{Do, DoDeeper, StopDeepest};

use asked_steps::compiled_functions_are_what_code_asks;

/// Calls at the border are what the code of a function asks of its calls: if all calls of C functions and of legacy functions do what they
/// mean, where so many functions may still be entered, then so do the calls in the code, by the targets of its symbols, as long as the
/// control stack has the room.
pub fn calls_at_the_border_are_calls_of_code()
    ensures { (k : Linkage) (image : Bytes) (places : ℕ → Option AccessOfC) (inner stub : ℕ → ℕ) (l : Linked) → IsReader k.reads
        → (frozen : Bytes) (sp units depth : ℕ) (label_at : ℕ → ℕ)
        (ok : IsSetting (setting_of k image frozen sp units depth label_at (entries_of inner stub l)))
        (d : ℕ) → depth + d ≡ 4096 → control_stack.from + 4088 * d + 112 ≤ sp
        → (p : Plan) (own other : Callee) → Do k image places inner stub d own other
        → CallsInCode (setting_of k image frozen sp units depth label_at (entries_of inner stub l)) ok p places
        (symbols_of l own other) (returns_in k l) (takes_in k l) }
{}

/// The call of a C function takes a turn, and then its entry leads to its first step, with the arguments and the private variables in
/// their homes and the frame taken from the data stack; or the machine stops, since the data stack has no room for the frame.
pub fn entries_lead_to_the_first_step()
    ensures { (k : Linkage) (image : Bytes) (places : ℕ → Option AccessOfC) (program : ℕ → Linked) (inner stub : ℕ → ℕ)
        (has : HasFunctions k image places inner stub program)
        (d f : ℕ) (few : f < k.outers) (args : List Value) (w : World) (m : Moment) → AtCall k image (suc d) 64 (inner f) (k.own f) args w m
        → EntersFunction k image places inner stub (program f) f (has.each f few) m args w }
{}

/// The code of C functions does their steps, from call to return: if what they call does what it means, so do they, one level deeper. And
/// where as many functions are entered as may be, a call stops for want of stack.
pub fn functions_do_their_steps()
    ensures deeper { (k : Linkage) (image : Bytes) (places : ℕ → Option AccessOfC) (program : ℕ → Linked) (inner stub : ℕ → ℕ)
        → HasFunctions k image places inner stub program → DoDeeper k image places inner stub program }
    ensures deepest { (k : Linkage) (image : Bytes) (places : ℕ → Option AccessOfC) (program : ℕ → Linked) (inner stub : ℕ → ℕ)
        → HasFunctions k image places inner stub program → StopDeepest k image places inner stub program }
{}

/// So the code of functions is what the gates ask of it.
pub fn functions_meet_what_gates_ask()
    ensures { (k : Linkage) (image : Bytes) (places : ℕ → Option AccessOfC) (program : ℕ → Linked) (inner stub : ℕ → ℕ)
        → HasFunctions k image places inner stub program → Layers k image places program inner stub }
{}

/// The run of an image from its start ends as its program of steps does, for every input of bytes, number of turns and value of
/// BNDPRESERVE: with the same stop, output, input left, bounds kept and accesses for C, and with nothing but walks and servings in the
/// directory and the tables. The gates and the code of the functions stand in the image, homes fit, and the steps are what code asks.
pub fn images_end_as_their_steps_do()
    ensures { (k : Linkage) (image : Bytes) (places : ℕ → Option AccessOfC) (program : ℕ → Linked) (inner stub : ℕ → ℕ)
        → HasFunctions k image places inner stub program → IsLinked k image inner stub
        → (main : ℕ) (bytes : Bytes) (y : Stored) → IsLoaded k image inner main bytes y
        → (input : List ℕ) → InputFits input → (turns : ℕ)
        → ProgramEnds k image places (moment_at_start k y input turns)
        (program_run program (outside k) main (world_at_start bytes input turns)) }
{}

/// And so it ends as the program means in C, where the steps are those that it is compiled to.
pub fn images_end_as_their_sources_mean()
    ensures { (k : Linkage) (image : Bytes) (places : ℕ → Option AccessOfC) (takes_outside : ℕ → ℕ) (program : ℕ → LinkedInC)
        (name inner stub : ℕ → ℕ) → FitsProgram takes_outside program
        → ((f : ℕ) → parameters_of program f ≡ length (k.own f).parameters)
        → HasFunctions k image places inner stub (all_compiled name program) → IsLinked k image inner stub
        → (main : ℕ) (bytes : Bytes) (y : Stored) → IsLoaded k image inner main bytes y
        → (input : List ℕ) → InputFits input → (turns : ℕ) (log : Log)
        → ProgramEnds k image places (moment_at_start k y input turns)
        (outcome_of (program_run_in_c program (outside_of_c k) main (world_at_start bytes input turns) log)) }
{}

/// No home of a parameter holds an argument that is still to come, in a plan that has the homes that are assigned to a function's values
/// where those of its parameters wish for registers.
pub fn assigned_homes_hold_no_argument_to_come()
    ensures { (count : ℕ → ℕ) (f : FunctionOfC) → FitsFunction count f → (name : ℕ) (h : Homes) (units : ℕ) (p : Plan)
        → HasHomes (fat_function name f) h units p → AreHomes (fat_function name f) h → length (parameters_wish f).numbers ≤ 6
        → AreGranted (parameters_wish f) h → (first : ℕ → ℕ) → AreClear p first 0 (length f.privates) 0 0 f.parameters }
{}

/// The functions of a compiled program are as is owed, where the image has the code of each, its signature tells its parameters, its homes
/// serve, and its tree keeps to the limits of code. So the run of the image ends as the program means in C.
pub fn images_of_compiled_programs_end_as_they_mean()
    ensures functions { (k : Linkage) (image : Bytes) (places : ℕ → Option AccessOfC) (inner stub : ℕ → ℕ) (takes_outside : ℕ → ℕ)
        (program : ℕ → LinkedInC) (name : ℕ → ℕ) → HasCompiled k image places inner stub takes_outside program name
        → HasFunctions k image places inner stub (all_compiled name program) }
    ensures run { (k : Linkage) (image : Bytes) (places : ℕ → Option AccessOfC) (inner stub : ℕ → ℕ) (takes_outside : ℕ → ℕ)
        (program : ℕ → LinkedInC) (name : ℕ → ℕ) → HasCompiled k image places inner stub takes_outside program name
        → IsLinked k image inner stub
        → (main : ℕ) (bytes : Bytes) (y : Stored) → IsLoaded k image inner main bytes y
        → (input : List ℕ) → InputFits input → (turns : ℕ) (log : Log)
        → ProgramEnds k image places (moment_at_start k y input turns)
        (outcome_of (program_run_in_c program (outside_of_c k) main (world_at_start bytes input turns) log)) }
{
    compiled_functions_are_what_code_asks();
}

/// A whole image of two C functions meets all that is asked, over any exact reader: `main` keeps 7 in an object and gives what
/// `int f(int a, int *p) { return *p; }` gives for it. So its run ends as its steps do, over any memory that it is loaded in; and these
/// exit with 7 where four turns are left, for two calls and two returns.
pub fn a_small_image_meets_what_is_asked()
    ensures functions { (reads : List ℕ → Reading) → IsReader reads → (preserve : Bool)
        → HasFunctions (linkage reads preserve) image places inner_at stubs_at program }
    ensures linked { (reads : List ℕ → Reading) → IsReader reads → (preserve : Bool)
        → IsLinked (linkage reads preserve) image inner_at stubs_at }
    ensures run { (reads : List ℕ → Reading) → IsReader reads → (preserve : Bool) (y : Stored) → HasCode image y → y.bounds ≡ empty_store
        → (input : List ℕ) → InputFits input → (turns : ℕ)
        → ProgramEnds (linkage reads preserve) image places (moment_at_start (linkage reads preserve) y input turns)
        (program_run program (outside (linkage reads preserve)) 0 (world_at_start y.bytes input turns)) }
    ensures meaning { (reads : List ℕ → Reading) (preserve : Bool) (bytes : Bytes) (input : List ℕ)
        → why_of (program_run program (outside (linkage reads preserve)) 0 (world_at_start bytes input 4)) ≡ Some (Exit 7) }
{}

/// A whole image of the compiled function `int main(void) { int x = 7; return x; }` meets what is asked of compiled programs, over any
/// exact reader, and in C the program exits with 7 where two turns are left, for a call and a return.
pub fn a_compiled_image_meets_what_is_asked()
    ensures compiled { (reads : List ℕ → Reading) → IsReader reads → (preserve : Bool)
        → HasCompiled (linkage_of_c reads preserve) image_of_c no_places inner_of_c stubs_of_c (λ g. 0) program_of_c names }
    ensures linked { (reads : List ℕ → Reading) → IsReader reads → (preserve : Bool)
        → IsLinked (linkage_of_c reads preserve) image_of_c inner_of_c stubs_of_c }
    ensures meaning { (reads : List ℕ → Reading) → IsReader reads → (preserve : Bool) (bytes : Bytes) (input : List ℕ) (log : Log)
        → why_of (outcome_of (program_run_in_c program_of_c (outside_of_c (linkage_of_c reads preserve)) 0
        (world_at_start bytes input 2) log)) ≡ Some (Exit 7) }
{}
