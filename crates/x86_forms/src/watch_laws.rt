//! Laws of the watch over sealed bytes.

ghost use Rattle.std.specs.Prelude.{◌≡◌, ℕ, ◌<◌, ◌^◌, ◌↔◌, Bool, true, None, Some};
ghost use Rattle.std.specs.List.{AllByRecursion};
ghost use Rattle.x86_forms.specs.declared.instr.Instr.{Instr};
ghost use Rattle.x86_forms.specs.declared.spans.Span.{Span};
ghost use Rattle.x86_forms.specs.Accesses.{accesses};
ghost use Rattle.x86_forms.specs.Watch.{access_strays, control_strays, is_watched, operand_of};
ghost use Rattle.x86_forms.specs.ExamplesOfWatch.{IsJudged, IsControlJudged, examples_of_judged_accesses, examples_of_judged_control};
ghost use Rattle.x86_forms.specs.WatchLaws.{HasNoSealedByte, IsAtOperand, StraysAt, StraysInto};

/// The law that the watch looks at the operand of which an access is made: each data access of an instruction is at the
/// address of its memory operand, or is implicit.
pub fn accesses_are_at_the_operand()
    ensures { (i : Instr) (next : ℕ) (regs : ℕ → ℕ) → AllByRecursion (IsAtOperand regs next (operand_of i)) (accesses i next regs) }
{}

/// The law of the watch over data accesses. An access strays at an address exactly where it is one of legacy code or one for
/// C, and this is its first sealed byte in order, going on from the last address to address 0. So a watched access that is
/// found fine has no sealed byte.
pub fn watched_accesses_reach_no_sealed_byte()
    ensures strays { (i : Instr) (from : ℕ) (s : Span) (x : ℕ) → s.at < 2 ^ 64 → s.size < 2 ^ 64
        → (access_strays i from s ≡ Some x) ↔ StraysAt i from s x }
    ensures fine { (i : Instr) (from : ℕ) (s : Span) → s.at < 2 ^ 64 → s.size < 2 ^ 64 → is_watched i from s ≡ true
        → access_strays i from s ≡ None → HasNoSealedByte s }
{}

/// The law of the watch over control. It strays exactly where it goes from legacy code, or by the return of an outer entry,
/// into instrumented code at an address that is neither the landing nor an outer entry that is called; and it strays there.
pub fn legacy_control_enters_by_its_doors()
    ensures { (from to : ℕ) (call ret : Bool) (outers x : ℕ)
        → (control_strays from to call ret outers ≡ Some x) ↔ StraysInto from to call ret outers x }
{}

/// The watch on examples at its edges: accesses of legacy and of instrumented code that end before sealed bytes, reach into
/// them, or are none of C's, and control to and beside the landing, outer entries and the ends of instrumented code.
pub fn watch_judges_the_edges()
    ensures accesses { AllByRecursion IsJudged examples_of_judged_accesses }
    ensures control { AllByRecursion IsControlJudged examples_of_judged_control }
{}
