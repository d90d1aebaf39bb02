//! The law of flags and conditions.

ghost use Rattle.std.specs.Prelude.{ℕ, ◌<◌, ◌^◌};
ghost use Rattle.x86_forms.specs.Arithmetic.{Flags, Cmp, flags_after};
ghost use Rattle.x86_forms.specs.ConditionLaws.{ConditionsCompare};

/// The law that after `cmp a, b` of 32 or of 64 bits the conditions say how a and b compare, unsigned and signed.
pub fn conditions_compare()
    ensures word { (a b : ℕ) (before : Flags) → a < 2 ^ 32 → b < 2 ^ 32 → ConditionsCompare 32 a b (flags_after Cmp 32 a b before) }
    ensures quad { (a b : ℕ) (before : Flags) → a < 2 ^ 64 → b < 2 ^ 64 → ConditionsCompare 64 a b (flags_after Cmp 64 a b before) }
{}
