//! Laws of the meaning of steps. Each function does nothing, and its contract is the law.

ghost use Rattle.std.specs.Prelude.{◌≡◌, ◌≤◌, ℕ, Bool, true, false, Some, List, ◌∷◌, ◌++◌};
ghost use Rattle.mx_base.specs.declared.limits.Bounds.{Bounds as BoundsPair};
ghost use Rattle.mx_base.specs.declared.places.Place.{Place as PlaceOf};
ghost use Rattle.mx_base.specs.Bounds.{is_outside, leaving_value, last_byte};
ghost use Rattle.mx_base.specs.StopOfC.{Bounds, AtAccess};
ghost use Rattle.mx_base.specs.World.{World};
ghost use Rattle.fat_ir.specs.declared.program.FatFun.{FatFun};
ghost use Rattle.fat_ir.specs.declared.step.FatStep.{FatStep};
ghost use Rattle.fat_ir.specs.Values.{Held, Number, Pair};
ghost use Rattle.fat_ir.specs.Calls.{Callee, Stops};
ghost use Rattle.fat_ir.specs.Step.{Symbols, State, Going, Next, To, On, Over, does};
ghost use Rattle.fat_ir.specs.Run.{pass, and_then, followed, steps_run};
ghost use Rattle.fat_ir.specs.Functions.{Linked, calls};
ghost use Rattle.fat_ir.specs.Named.{writes};
ghost use Rattle.fat_ir.specs.Spans.{Range, Spans, shared};
ghost use Rattle.fat_ir.specs.Laws.{LeftByCalls, LeftOutside, Leaves, FramesGivenBack, LegacyStackGivenBack, NoMoreTurns, OutputGrows, AccessesGrow, Traced, AccessesAllowed, Events, InPieces, passes_on, WorldAfter, ValuesAfter, IsNone, is_quiet, LeavesMemory, LacksLabel};

/// Whatever is called leaves no more turns than there were: then no run of steps does, and no run of a program.
pub fn turns_never_grow()
    ensures steps { (symbols : Symbols) → LeftByCalls NoMoreTurns symbols.call → (private : ℕ) (steps : List FatStep) (going : Going) (s : State) → Leaves (NoMoreTurns s.world) (steps_run symbols private steps going s) }
    ensures programs { (program : ℕ → Linked) (outside : Callee → Callee) → LeftOutside NoMoreTurns outside → (depth : ℕ) → LeftByCalls NoMoreTurns (calls program outside depth) }
{}

/// What was put and what was accessed stays: the output of a run of steps begins with the output before it, and so do the
/// accesses, if whatever is called keeps to that.
pub fn output_only_grows()
    ensures output { (symbols : Symbols) → LeftByCalls OutputGrows symbols.call → (private : ℕ) (steps : List FatStep) (going : Going) (s : State) → Leaves (OutputGrows s.world) (steps_run symbols private steps going s) }
    ensures output_of_programs { (program : ℕ → Linked) (outside : Callee → Callee) → LeftOutside OutputGrows outside → (depth : ℕ) → LeftByCalls OutputGrows (calls program outside depth) }
    ensures accesses { (symbols : Symbols) → LeftByCalls AccessesGrow symbols.call → (private : ℕ) (steps : List FatStep) (going : Going) (s : State) → Leaves (AccessesGrow s.world) (steps_run symbols private steps going s) }
    ensures accesses_of_programs { (program : ℕ → Linked) (outside : Callee → Callee) → LeftOutside AccessesGrow outside → (depth : ℕ) → LeftByCalls AccessesGrow (calls program outside depth) }
{}

/// No access that a run of steps notes was refused, if whatever is called keeps to that.
pub fn accesses_are_allowed()
    ensures steps { (symbols : Symbols) → LeftByCalls AccessesAllowed symbols.call → (private : ℕ) (steps : List FatStep) (going : Going) (s : State) → Leaves (AccessesAllowed s.world) (steps_run symbols private steps going s) }
    ensures programs { (program : ℕ → Linked) (outside : Callee → Callee) → LeftOutside AccessesAllowed outside → (depth : ℕ) → LeftByCalls AccessesAllowed (calls program outside depth) }
{}

/// Memory changes only by the accesses that are noted: between the world before a run of steps and the world after it, none
/// of them was refused, and every byte that none of them wrote is as before, if whatever is called keeps to that. Where code
/// outside changes memory too, a run goes in pieces, each of which is an event of that code or a piece of steps between such
/// events.
pub fn accesses_are_traced()
    ensures steps { (symbols : Symbols) → LeftByCalls Traced symbols.call → (private : ℕ) (steps : List FatStep) (going : Going) (s : State) → Leaves (Traced s.world) (steps_run symbols private steps going s) }
    ensures programs { (program : ℕ → Linked) (outside : Callee → Callee) → LeftOutside Traced outside → (depth : ℕ) → LeftByCalls Traced (calls program outside depth) }
    ensures between { (event : Events) (program : ℕ → Linked) (outside : Callee → Callee) → LeftOutside (InPieces event) outside → (depth : ℕ) → LeftByCalls (InPieces event) (calls program outside depth) }
{}

/// What is outside of a program can keep to all of these: for one, a function that calls the C function of its own number
/// with its own arguments.
pub fn outside_can_keep_to_laws()
    ensures turns { LeftOutside NoMoreTurns passes_on }
    ensures output { LeftOutside OutputGrows passes_on }
    ensures accesses { LeftOutside AccessesGrow passes_on }
    ensures allowed { LeftOutside AccessesAllowed passes_on }
    ensures traced { LeftOutside Traced passes_on }
    ensures pieces { (event : Events) → LeftOutside (InPieces event) passes_on }
{}

/// While steps run, the data frame of their function stays where it is, if whatever is called gives its own back; and a
/// function of a program does.
pub fn frames_are_given_back()
    ensures steps { (symbols : Symbols) → FramesGivenBack symbols.call → (steps : List FatStep) (going onward : Going) (s t : State) → pass symbols steps going s ≡ On onward t → t.world.data_sp ≡ s.world.data_sp }
    ensures programs { (program : ℕ → Linked) (outside : Callee → Callee) (depth : ℕ) → FramesGivenBack (calls program outside depth) }
{}

/// While steps run, the stack of legacy code stays where it is, if whatever is called leaves it there; and a function of a
/// program leaves it there, if what is outside does so wherever the program does.
pub fn the_legacy_stack_is_given_back()
    ensures steps { (symbols : Symbols) → LegacyStackGivenBack symbols.call → (steps : List FatStep) (going onward : Going) (s t : State) → pass symbols steps going s ≡ On onward t → t.world.legacy_sp ≡ s.world.legacy_sp }
    ensures programs { (program : ℕ → Linked) (outside : Callee → Callee) → ((own : Callee) → LegacyStackGivenBack own → LegacyStackGivenBack (outside own)) → (depth : ℕ) → LegacyStackGivenBack (calls program outside depth) }
{}

/// A run of steps is a pass over them; and where that ends on the way to a label that stands before, a turn is taken and the
/// run from that label follows, as long as turns are left.
pub fn runs_are_passes()
    ensures { (symbols : Symbols) → LeftByCalls NoMoreTurns symbols.call → (private : ℕ) (steps : List FatStep) (going : Going) (s : State) → steps_run symbols private steps going s ≡ followed private (λ label t. steps_run symbols private steps (To label) t) (pass symbols steps going s) }
{}

/// Steps one after another are passed one after another; on the way to a label, steps without that label do nothing, and at
/// the label the work goes on.
pub fn passes_join()
    ensures join { (symbols : Symbols) (a b : List FatStep) (going : Going) (s : State) → pass symbols (a ++ b) going s ≡ and_then (pass symbols a going s) (pass symbols b) }
    ensures over { (symbols : Symbols) (a : List FatStep) (label : ℕ) (s : State) → LacksLabel label a → pass symbols a (To label) s ≡ On (To label) s }
    ensures here { (symbols : Symbols) (a : List FatStep) (label : ℕ) (s : State) → pass symbols (FatStep.Label label ∷ a) (To label) s ≡ pass symbols a Next s }
{}

/// A judgement is passed exactly where the access lies within its bounds, and then nothing has changed; else the program
/// stops there with the value by which the access leaves them, and with the access's place, kind and size.
pub fn judgements_are_exact()
    ensures within { (symbols : Symbols) (value size bounds : ℕ) (write : Bool) (place : PlaceOf) (s : State) (p : ℕ) (b : BoundsPair) → s.values value ≡ Number p → s.values bounds ≡ Pair b → is_outside p size b ≡ false → does symbols (FatStep.Judge value size bounds write place) s ≡ On Next s }
    ensures outside { (symbols : Symbols) (value size bounds : ℕ) (write : Bool) (place : PlaceOf) (s : State) (p leaving : ℕ) (b : BoundsPair) → s.values value ≡ Number p → s.values bounds ≡ Pair b → leaving_value p size b ≡ Some leaving → does symbols (FatStep.Judge value size bounds write place) s ≡ Over (Stops (Bounds leaving b (AtAccess record { place = place; write = write; size = size })) s.world) }
    ensures passed { (symbols : Symbols) (value size bounds : ℕ) (write : Bool) (place : PlaceOf) (s t : State) (going : Going) → does symbols (FatStep.Judge value size bounds write place) s ≡ On going t → (p : ℕ) × ((b : BoundsPair) × (s.values value ≡ Number p) × (s.values bounds ≡ Pair b) × (b.lb ≤ p) × (last_byte p size ≤ b.ub)) }
{}

/// A step that is no call, no service and no write to memory leaves memory, the bounds kept, input, output, heap and turns.
pub fn quiet_steps_leave_memory()
    ensures { (symbols : Symbols) (step : FatStep) (s : State) → is_quiet step ≡ true → WorldAfter (LeavesMemory s.world) (does symbols step s) }
{}

/// A step leaves each value that it doesn't name as one to write.
pub fn other_values_stay()
    ensures { (symbols : Symbols) (step : FatStep) (s : State) (v : ℕ) → IsNone v (writes step) → ValuesAfter (λ values. values v ≡ s.values v) (does symbols step s) }
{}

/// Two ranges with the properties of a value's span share a range with these properties. So there is a least one, and it holds
/// the steps that all of them hold.
pub fn spans_are_least_ranges()
    ensures { (f : FatFun) (v : ℕ) (r s : Range) → Spans f v r → Spans f v s → Spans f v (shared r s) }
{}
