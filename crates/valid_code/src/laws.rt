//! The law of valid code.

ghost use Rattle.std.specs.Prelude.{◌+◌, ◌^◌, ◌<◌, ◌≤◌, ℕ, Bool, Option, List};
ghost use Rattle.fat_ir.specs.declared.step.FatStep.{FatStep};
ghost use Rattle.fat_ir.specs.Functions.{Parameter};
ghost use Rattle.step_code.specs.Bytes.{AllStepsValid, AllValid, size_of_pieces, size_of_steps};
ghost use Rattle.step_code.specs.Homing.{homing};
ghost use Rattle.step_code.specs.Steps.{Plan};
ghost use Rattle.reg_assign.specs.declared.homes.Homes.{Homes};
ghost use Rattle.reg_assign.specs.Homes.{AreHomes};
ghost use Rattle.asked_steps.specs.Alone.{AllLimited};
ghost use Rattle.asked_steps.specs.Assigned.{HasSpare};
ghost use Rattle.fat_ir.specs.declared.program.FatFun.{FatFun};
ghost use Rattle.valid_code.specs.Named.{CallsAreNear, HomesAreNamed, pointers_of};

/// Instructions can name the homes that are assigned, in a plan that has them and four words to spare behind them.
pub fn assigned_homes_are_named()
    ensures { (f : FatFun) (h : Homes) (p : Plan) → HasSpare f h p → AreHomes f h → HomesAreNamed p }
{}

/// Each piece of a function's code is an instruction where its values have homes that instructions can name: those of steps within the
/// limits, where labels, the entries of what is called and the code itself stand below 2^31, and those that home at most four pointers.
pub fn code_of_named_homes_is_valid()
    ensures steps { (p : Plan) → HomesAreNamed p → (label_at entry_at : ℕ → ℕ) → ((k : ℕ) → label_at k < 2 ^ 31)
        → (returns : ℕ → Bool) (takes : ℕ → List (ℕ × Option ℕ) → Bool) (at : ℕ) (steps : List FatStep)
        → AllLimited p.located p.pointer returns takes steps → CallsAreNear entry_at steps → at + size_of_steps p steps < 2 ^ 31
        → AllStepsValid p label_at entry_at at steps }
    ensures homing { (p : Plan) → HomesAreNamed p → (label_at entry_at : ℕ → ℕ) (at private : ℕ) (parameters : List Parameter)
        → pointers_of parameters ≤ 4 → at + size_of_pieces (homing p private parameters) < 2 ^ 31
        → AllValid label_at entry_at at (homing p private parameters) }
{}
