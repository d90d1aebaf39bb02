//! Laws of the gates over the machine with the store of bounds. Each function does nothing, and its contract is the law.

ghost use Rattle.std.specs.Prelude.{◌≡◌, ◌≤◌, ℕ, ◌+◌, true, None, Option, List, [], length};
ghost use Rattle.mx_base.specs.Guests.{InputFits};
ghost use Rattle.mx_base.specs.Memory.{Bytes, list_at};
ghost use Rattle.mx_base.specs.StopOfC.{AccessOfC};
ghost use Rattle.mx_base.specs.World.{Log, world_at_start};
ghost use Rattle.x86_forms.specs.Watch.{is_legacy};
ghost use Rattle.obj_file.specs.Machine.{IsReader};
ghost use Rattle.obj_file.specs.Stored.{Stored};
ghost use Rattle.obj_file.specs.StoreLaw.{ReadsValid};
ghost use Rattle.fat_ir.specs.Calls.{Callee};
ghost use Rattle.fat_ir.specs.Functions.{Linked, program_run};
ghost use Rattle.fat_ir.specs.Laws.{LeftByCalls, NoMoreTurns};
ghost use Rattle.bounds_plan.specs.steps.Compiled.{FitsProgram, all_compiled, parameters_of};
ghost use Rattle.bounds_plan.specs.steps.Follows.{outcome_of};
ghost use Rattle.bounds_plan.specs.meaning.Functions.{Linked as LinkedInC, program_run as program_run_in_c};
ghost use Rattle.call_gates.specs.Gates.{Code, size_of_code, bytes_of_code, is_sound};
ghost use Rattle.legacy_calls.specs.Legacy.{Linkage, outside};
ghost use Rattle.legacy_calls.specs.Laws.{KeepsStacks};
ghost use Rattle.legacy_calls.specs.OfC.{outside_of_c};
ghost use Rattle.gate_laws.specs.Crossings.{EachEvent, EachDoor, EachStub, Starts, ProgramEnds};
ghost use Rattle.gate_laws.specs.Examples.{seen, run_with, at_the_legacy_function, behind_the_callback, at_the_exit, before_the_exit};
ghost use Rattle.gate_laws.specs.Moments.{moment_at_start};
ghost use Rattle.gate_laws.specs.Owed.{HasRoomAndCode, IsLinked, IsLoaded, Layers};
ghost use Rattle.gate_laws.specs.Placed.{IsPlaced};
ghost use Rattle.gate_laws.specs.Standing.{Calls};

/// By an exact reader of instructions, code stands where an image has its bytes.
pub fn code_stands_where_its_bytes_are()
    ensures { (k : Linkage) → IsReader k.reads → (image : Bytes) (code : Code) (at : ℕ) → is_sound code ≡ true → 0x0100_0000 ≤ at → at + size_of_code code ≤ 0x1100_0000
        → list_at (size_of_code code) image at ≡ bytes_of_code code → IsPlaced k image at code }
{}

/// From the state before the first event the start leads to the call of `main`: it sets the four cells, and all other registers are as
/// they were; and where `main` comes back, it exits with the low byte of what it gives.
pub fn the_start_leads_to_main_and_exits()
    ensures { (k : Linkage) (image : Bytes) (places : ℕ → Option AccessOfC) (inner : ℕ → ℕ) (main : ℕ) (bytes : Bytes) (y : Stored) → IsLoaded k image inner main bytes y
        → (input : List ℕ) → InputFits input → (turns : ℕ) → Starts k image places inner main (world_at_start bytes input turns) (moment_at_start k y input turns) }
{}

/// A call of a legacy function takes a turn, and then leads by its stub to the first instruction of the function, or stops since the
/// return address can't be written. There the processor is the one with which the meaning of the call begins: the arguments as words of 64
/// bits in their registers, the bounds of pointers in theirs, the registers that C never touches as they were, the stack pointer below the
/// legacy stack pointer, all other registers 0, all other bounds registers INIT, the flags those of 0; and both cells and what is sealed
/// are kept. From the landing, with one turn more, the machine goes on behind the call with the result, and with both cells and the
/// control stack as they were.
pub fn stubs_lead_to_legacy_code_and_back()
    ensures { (k : Linkage) (image : Bytes) (places : ℕ → Option AccessOfC) (inner stub : ℕ → ℕ) → IsLinked k image inner stub
        → (depth : ℕ) → EachStub k image places (HasRoomAndCode image depth) depth stub }
{}

/// A call of an outer entry by legacy code leads to the call of its C function, with the parameters as words of 64 bits; and where the
/// function comes back, the entry's return takes a turn and goes on in legacy code with the result, all other registers that C may
/// touch 0, all other bounds registers INIT, the flags those of 0, and both cells as they were, or it strays as control of legacy code
/// does.
pub fn outer_entries_lead_to_functions_and_back()
    ensures { (k : Linkage) (image : Bytes) (places : ℕ → Option AccessOfC) (inner stub : ℕ → ℕ) → IsLinked k image inner stub
        → (depth : ℕ) (own : Callee) → Calls k image places depth 64 k.outers inner k.own own → KeepsStacks own → EachDoor k image places (HasRoomAndCode image depth) own }
{}

/// Each event of legacy code does on the machine what it means over the world.
pub fn legacy_code_goes_alongside_its_meaning()
    ensures { (k : Linkage) (image : Bytes) (places : ℕ → Option AccessOfC) → ReadsValid k.reads → ((a : ℕ) → is_legacy a ≡ true → places a ≡ None) → EachEvent k image places }
{}

/// On the machine each call of a legacy function does what it means, as long as the C functions do so that its code calls back.
pub fn legacy_calls_do_what_they_mean()
    ensures { (k : Linkage) (image : Bytes) (places : ℕ → Option AccessOfC) (inner stub : ℕ → ℕ) → IsLinked k image inner stub
        → ReadsValid k.reads → ((a : ℕ) → is_legacy a ≡ true → places a ≡ None)
        → (depth : ℕ) (own : Callee) → Calls k image places depth 64 k.outers inner k.own own → KeepsStacks own → LeftByCalls NoMoreTurns own
        → Calls k image places depth 112 k.stubs stub k.legacy (outside k own) }
{}

/// The run of an image from its start ends as its program of steps does, for every input, number of turns and value of BNDPRESERVE: with
/// the same stop, output, input left, bounds kept and accesses for C, and with nothing but walks and servings in the directory and the
/// tables. It stands on what the code of the functions owes (`Layers`).
pub fn images_end_as_their_programs_do()
    ensures { (k : Linkage) (image : Bytes) (places : ℕ → Option AccessOfC) (program : ℕ → Linked) (inner stub : ℕ → ℕ) → Layers k image places program inner stub → IsLinked k image inner stub
        → (main : ℕ) (bytes : Bytes) (y : Stored) → IsLoaded k image inner main bytes y → (input : List ℕ) → InputFits input → (turns : ℕ)
        → ProgramEnds k image places (moment_at_start k y input turns) (program_run program (outside k) main (world_at_start bytes input turns)) }
{}

/// And so it ends as the program does in C, where the steps are those that a program is compiled to.
pub fn images_end_as_their_programs_mean()
    ensures { (k : Linkage) (image : Bytes) (places : ℕ → Option AccessOfC) (takes_outside : ℕ → ℕ) (program : ℕ → LinkedInC) (name inner stub : ℕ → ℕ)
        → FitsProgram takes_outside program → ((f : ℕ) → parameters_of program f ≡ length (k.own f).parameters) → Layers k image places (all_compiled name program) inner stub → IsLinked k image inner stub
        → (main : ℕ) (bytes : Bytes) (y : Stored) → IsLoaded k image inner main bytes y → (input : List ℕ) → InputFits input → (turns : ℕ) (log : Log)
        → ProgramEnds k image places (moment_at_start k y input turns) (outcome_of (program_run_in_c program (outside_of_c k) main (world_at_start bytes input turns) log)) }
{}

/// An image of all gates, two C functions and a legacy function that calls one of them back, evaluated: registers, flags, bounds
/// registers, cells and the word at the stack pointer where the legacy function begins and behind its callback, the stop after 14 turns,
/// and none after 13.
pub fn a_small_image_crosses_the_border_so()
    ensures entry { seen (run_with 2) ≡ at_the_legacy_function }
    ensures callback { seen (run_with 10) ≡ behind_the_callback }
    ensures exit { (seen (run_with 14)).exit ≡ at_the_exit }
    ensures before { (seen (run_with 13)).exit ≡ before_the_exit }
{}
