//! Laws of what code asks of steps. Each function does nothing, or names the laws that it rests on, and its contract is the law.

ghost use Rattle.std.specs.Prelude.{◌≡◌, ◌+◌, ◌*◌, ◌<◌, ◌≤◌, ℕ, Bool, Option, List, length};
ghost use Rattle.fat_ir.specs.declared.program.FatFun.{FatFun};
ghost use Rattle.fat_ir.specs.declared.step.FatStep.{FatStep};
ghost use Rattle.fat_ir.specs.Spans.{Range};
ghost use Rattle.fat_ir.specs.Step.{Located};
ghost use Rattle.bounds_plan.specs.steps.Code.{fat_function, most_pairs};
ghost use Rattle.bounds_plan.specs.steps.Compiled.{FitsFunction};
ghost use Rattle.bounds_plan.specs.meaning.Functions.{FunctionOfC};
ghost use Rattle.bounds_plan.specs.laws.Laws.{JumpsTo, times};
ghost use Rattle.bounds_plan.specs.steps.Sorts.{AllNameRight, BoundsIn, NumberIn, pairs_of};
ghost use Rattle.step_code.specs.Asked.{FineSteps};
ghost use Rattle.step_code.specs.Bytes.{AllStepsValid, places_of_steps, size_of_steps};
ghost use Rattle.step_code.specs.Homes.{first_in, last_in};
ghost use Rattle.step_code.specs.Steps.{Plan};
ghost use Rattle.reg_assign.specs.declared.homes.Homes.{Homes};
ghost use Rattle.reg_assign.specs.Homes.{AreHomes};
ghost use Rattle.reg_assign.specs.Wishing.{AreWishes};
ghost use Rattle.asked_steps.specs.Alone.{AllLimited};
ghost use Rattle.asked_steps.specs.Assigned.{HasSpare};
ghost use Rattle.asked_steps.specs.Homes.{HomesServe};
ghost use Rattle.asked_steps.specs.Nodes.{nodes_in};
ghost use Rattle.asked_steps.specs.Trees.{FunctionWithin};
ghost use Rattle.asked_steps.specs.Wishes.{parameters_wish};

use bounds_plan::{jumps_find_their_labels, steps_name_values_of_their_sort};
use reg_assign::assigned_homes_are_had;

/// The steps of a function whose tree is within the limits of code are within them: numbers are words of 64 bits, what is judged has a
/// size, what is placed has a size and an offset below 2^31 and stands low, calls have at most six arguments, which their symbols take,
/// a call that asks for bounds calls what gives a pointer, and a function that gives a pointer gives no number.
pub fn compiled_functions_keep_to_limits()
    ensures { (located : ℕ → Located) (pointer : Bool) (returns : ℕ → Bool) (takes : ℕ → List (ℕ × Option ℕ) → Bool) (f : FunctionOfC)
        → FunctionWithin located pointer returns takes f → (name : ℕ) → AllLimited located pointer returns takes (fat_function name f).steps }
{}

/// The code of a step within the limits has at most 270 bytes, 18 instructions of 15, and two places of checks: so fifteen steps have at
/// most 4,050 bytes and 30 places.
pub fn steps_within_limits_have_few_bytes()
    ensures bytes { (p : Plan) (label_at entry_at : ℕ → ℕ) (at : ℕ) (steps : List FatStep) → AllStepsValid p label_at entry_at at steps
        → (located : ℕ → Located) (pointer : Bool) (returns : ℕ → Bool) (takes : ℕ → List (ℕ × Option ℕ) → Bool)
        → AllLimited located pointer returns takes steps → size_of_steps p steps ≤ 270 * length steps }
    ensures places { (p : Plan) (at : ℕ) (steps : List FatStep) → length (places_of_steps p at steps) ≤ 2 * length steps }
{}

/// A compiled function has at most nine steps for each node of its tree. So it has at most 18 places of checks for each, and where the
/// tree keeps to the limits 2,430 bytes of code.
pub fn compiled_functions_are_small()
    ensures steps { (f : FunctionOfC) (name : ℕ) → length (fat_function name f).steps ≤ 9 * nodes_in f }
    ensures bytes { (f : FunctionOfC) (p : Plan) (returns : ℕ → Bool) (takes : ℕ → List (ℕ × Option ℕ) → Bool)
        → FunctionWithin p.located p.pointer returns takes f → (name : ℕ) (label_at entry_at : ℕ → ℕ) (at : ℕ)
        → AllStepsValid p label_at entry_at at (fat_function name f).steps
        → size_of_steps p (fat_function name f).steps ≤ 2430 * nodes_in f }
    ensures places { (f : FunctionOfC) (name : ℕ) (p : Plan) (at : ℕ)
        → length (places_of_steps p at (fat_function name f).steps) ≤ 18 * nodes_in f }
{}

/// Steps are what code asks of them, where they name values of their sorts, keep to the limits, and jump to labels that stand once
/// among them, and where the homes of their values serve: homes by spans, words of the frame for values that are there at calls and
/// services, and four words to spare.
pub fn steps_within_limits_are_what_code_asks()
    ensures { (f : FatFun) (units : ℕ) (p : Plan) (range : ℕ → Range) → HomesServe f units p range
        → (returns : ℕ → Bool) (takes : ℕ → List (ℕ × Option ℕ) → Bool) → AllNameRight (NumberIn f) (BoundsIn f) f.steps
        → AllLimited p.located p.pointer returns takes f.steps → JumpsTo (λ k. times k f.steps ≡ 1) f.steps
        → FineSteps units p p.located f.steps (λ x. first_in (range x)) (λ x. last_in (range x)) returns takes 0 f.steps }
{}

/// So the steps of each function that fits are what code asks, where its tree is within the limits and its homes serve.
pub fn compiled_functions_are_what_code_asks()
    ensures { (count : ℕ → ℕ) (f : FunctionOfC) → FitsFunction count f → pairs_of f.body ≤ most_pairs
        → (name units : ℕ) (p : Plan) (range : ℕ → Range) → HomesServe (fat_function name f) units p range
        → (returns : ℕ → Bool) (takes : ℕ → List (ℕ × Option ℕ) → Bool) → FunctionWithin p.located p.pointer returns takes f
        → FineSteps units p p.located (fat_function name f).steps (λ x. first_in (range x)) (λ x. last_in (range x)) returns takes
        0 (fat_function name f).steps }
{
    steps_name_values_of_their_sort();
    jumps_find_their_labels();
}

/// The values in which a function's parameters arrive may wish, where they are not more than there are registers: six numbers, and
/// bounds of four pointers, of which two arrive in registers that are homes.
pub fn parameters_may_wish()
    ensures { (count : ℕ → ℕ) (f : FunctionOfC) → FitsFunction count f → length (parameters_wish f).numbers ≤ 6
        → length (parameters_wish f).bounds ≤ 2 → (name : ℕ) → AreWishes (fat_function name f) (parameters_wish f) }
{}

/// Homes that are assigned serve, in a plan that has them and a frame with four words more, which are to spare.
pub fn assigned_homes_serve()
    ensures { (f : FatFun) (h : Homes) (p : Plan) → HasSpare f h p → (are : AreHomes f h) → 1 ≤ length f.steps
        → length f.steps < 0xffff_ffff_ffff_ffff → HomesServe f (h.words + 4) p are.span }
{
    assigned_homes_are_had();
}
