//! Laws of units in linked images. Each function does nothing, and its contract is the law.

ghost use Rattle.std.specs.Prelude.{◌≡◌, ◌≤◌, ◌+◌, ℕ, Bool, true, false, None, Option, Some, List, slice_get};
ghost use Rattle.x86_forms.specs.Watch.{is_legacy};
ghost use Rattle.obj_file.specs.declared.image.Image.{Image};
ghost use Rattle.obj_file.specs.declared.object.Object.{Object};
ghost use Rattle.step_code.specs.Functions.{IsWritten};
ghost use Rattle.asked_steps.specs.Alone.{AllLimited};
ghost use Rattle.valid_code.specs.Named.{CallsAreNear, HomesAreNamed, pointers_of};
ghost use Rattle.obj_linker.specs.Placement.{plan_of, spot_of};
ghost use Rattle.linked_code.specs.Filled.{located_at, seen_in};
ghost use Rattle.linked_laws.specs.Linked.{AreLinked, bytes_in};
ghost use Rattle.unit_object.specs.Units.{Coded};
ghost use Rattle.linked_units.specs.Accesses.{AllStandIn, accesses_of, file_in};
ghost use Rattle.linked_units.specs.Objects.{CallsLead, IsUnit, LabelsAreNoted, StandsAt, layout_at};

/// The image of linked objects has the code of each function of a unit among them, as is owed of it (`IsWritten` of `step_code`): its bytes
/// stand at its address, each piece is an instruction, its labels are where they stand, and at each of its checks the image tells the
/// access. Instructions can name its homes, its steps are within the limits, its calls lead to these entries, which are near, and what it
/// judges stands in the file of its object.
pub fn functions_of_units_are_written()
    ensures { (os : List Object) (v : Image) → AreLinked os v → (k : ℕ) (o : Object) → slice_get os k ≡ Some o
        → (is_function : ℕ → Bool) (unit : List Coded) → IsUnit is_function unit o
        → (at : ℕ) (c : Coded) → StandsAt is_function unit at c → LabelsAreNoted c → HomesAreNamed c.plan → pointers_of c.parameters ≤ 4
        → (number : ℕ → ℕ) → AllStandIn (number (file_in os k)) c.fun.steps
        → (entry_at : ℕ → ℕ) → CallsLead is_function at c (seen_in os (plan_of os) k true) entry_at → CallsAreNear entry_at c.fun.steps
        → (returns : ℕ → Bool) (takes : ℕ → List (ℕ × Option ℕ) → Bool)
        → AllLimited (λ symbol. located_at (is_function symbol) (seen_in os (plan_of os) k false symbol)) c.plan.pointer returns takes
        c.fun.steps
        → (first last : ℕ → ℕ) → let code = (spot_of (plan_of os) k).code in
        IsWritten c.fun c.parameters (layout_at is_function code (seen_in os (plan_of os) k false) first last at c) (bytes_in v)
        (accesses_of number v) entry_at (code + at) }
{}

/// The image of linked objects tells no access in legacy code.
pub fn accesses_stand_in_code()
    ensures { (os : List Object) (v : Image) → AreLinked os v → (number : ℕ → ℕ) (at : ℕ) → is_legacy at ≡ true
        → accesses_of number v at ≡ None }
{}
