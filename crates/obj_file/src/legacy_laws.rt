//! Laws of the events of legacy code with the watch on. Each function does nothing, and its contract is the law.

ghost use Rattle.std.specs.Prelude.{◌≡◌, ℕ, Bool, true, false, List};
ghost use Rattle.x86_forms.specs.Watch.{is_legacy};
ghost use Rattle.obj_file.specs.Machine.{Reading, State, event};
ghost use Rattle.obj_file.specs.Stored.{Stored, stored_ground};
ghost use Rattle.obj_file.specs.StoreLaw.{ReadsValid};
ghost use Rattle.obj_file.specs.LegacyEvents.{StatesLike, EventsLike};

/// With the watch on, an event of legacy code depends on no sealed byte and leaves each sealed byte as it was: from states
/// that differ at most in sealed bytes, in BNDSTATUS and in registers that there are not it takes a turn or none alike, goes
/// on or stops for the same reason, and leaves such states, with the sealed bytes of the second as before.
pub fn legacy_events_see_no_sealed_byte()
    ensures { (reads : List ℕ → Reading) (outers : ℕ) (preserve : Bool) (s t : State Stored) → ReadsValid reads → is_legacy t.processor.rip ≡ true → StatesLike t.memory s t
        → EventsLike t.memory (event (stored_ground reads outers record { preserve = preserve; bare = false }) s) (event (stored_ground reads outers record { preserve = preserve; bare = false }) t) }
{}
