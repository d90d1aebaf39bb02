//! Laws of the code of functions over the machine with the store of bounds. Each function does nothing, and its contract is the law.

ghost use Rattle.std.specs.Prelude.{◌≡◌, ◌≤◌, ℕ, ◌+◌, Bool, List, length, Option};
ghost use Rattle.mx_base.specs.Memory.{Bytes, list_at};
ghost use Rattle.mx_base.specs.StopOfC.{AccessOfC};
ghost use Rattle.fat_ir.specs.declared.step.FatStep.{FatStep};
ghost use Rattle.fat_ir.specs.Run.{steps_run};
ghost use Rattle.fat_ir.specs.Step.{Symbols, Next};
ghost use Rattle.fat_ir.specs.Values.{Values};
ghost use Rattle.obj_file.specs.Stored.{Stored};
ghost use Rattle.step_code.specs.Asked.{FineSteps};
ghost use Rattle.step_code.specs.Homes.{Assigned};
ghost use Rattle.step_code.specs.Steps.{Plan, end_pieces};
ghost use Rattle.step_code.specs.Bytes.{size_of_steps, bytes_of_steps, AllStepsValid, AllHere};
ghost use Rattle.code_laws.specs.Laid.{StandAll, Laid};
ghost use Rattle.code_laws.specs.Runs.{whole_of, In, Calls, Ends};
ghost use Rattle.code_laws.specs.Seen.{Setting, IsSetting, Seen};
ghost use Rattle.code_laws.specs.Views.{View};

/// Steps stand in memory where their bytes are, if each instruction is valid, each label is where it stands, and the two checks of each
/// judgement have its access.
pub fn steps_stand_where_their_bytes_are()
    ensures { (code : Bytes) (label_at entry_at : ℕ → ℕ) (p : Plan) (access_of : ℕ → Option AccessOfC) (at : ℕ) (steps : List FatStep) → 0x0100_0000 ≤ at → at + size_of_steps p steps ≤ 0x1100_0000
        → AllStepsValid p label_at entry_at at steps → AllHere p label_at access_of at steps → list_at (length (bytes_of_steps p label_at entry_at at steps)) code at ≡ bytes_of_steps p label_at entry_at at steps
        → Laid code label_at entry_at p access_of at steps (at + size_of_steps p steps) }
{}

/// The code of a function does its steps, over any meaning of the calls below. Where the code of the steps stands in memory with the
/// function's end behind it, the homes are such that values whose spans share a step share nothing, the steps are what the code asks of
/// them, and each call does what its symbol means: then the run of the machine, from the first step with the private values in their homes,
/// ends as the steps end. It comes to the end of the function with the value in rax and a pointer's bounds in BND0, or stops for the same
/// reason at the access that has the place; with the same world, accesses for C and turns, with the control stack above the frame as it
/// was, and with nothing but walks and servings in the directory and the tables.
pub fn code_does_the_steps()
    ensures { (S : Setting) (ok : IsSetting S) (p : Plan) (access_of : ℕ → Option AccessOfC) (symbols : Symbols) (private : ℕ) (steps : List FatStep) (first last : ℕ → ℕ) (assigned : Assigned S.units private steps p first last)
        (base end : ℕ) → Laid S.code S.label_at S.entry_at p access_of base steps end → StandAll S.code S.label_at S.entry_at end end_pieces (S.label_at p.exit)
        → (returns : ℕ → Bool) (takes : ℕ → List (ℕ × Option ℕ) → Bool) → Calls S ok p access_of symbols returns takes
        → FineSteps S.units p symbols.located steps first last returns takes 0 steps
        → (values : Values) (v : View) (y : Stored) (k : ℕ) → Seen S v y → In S.units private steps p first last assigned 0 values v → v.processor.rip ≡ base
        → Ends S p access_of (whole_of S v y k) (steps_run symbols private steps Next record { values = values; world = v.world }) }
{}
