//! Laws of events over any memory. Each function does nothing, and its contract is the law.

ghost use Rattle.std.specs.Prelude.{◌≡◌, ℕ, Bool, true, List};
ghost use Rattle.mx_base.specs.Services.{Guest};
ghost use Rattle.obj_file.specs.Machine.{Reading, Ground, State, event};
ghost use Rattle.obj_file.specs.Runs.{run_of};
ghost use Rattle.obj_file.specs.Loaded.{Tabled, Mode, ground_of};
ghost use Rattle.obj_file.specs.Stored.{Stored, stored_ground};
ghost use Rattle.obj_file.specs.Beside.{Beside, Noting, noted_ground, alone, event_alone};
ghost use Rattle.obj_file.specs.Keeping.{KeepsByRequests, KeepsByServices, EventLeaves, EndLeaves};
ghost use Rattle.obj_file.specs.CodeStays.{SameCode};

/// An event over a memory with something beside it, which each request that is done may change, is the event alone.
pub fn events_beside_notes_are_events_alone<X, L>()
    ensures { (g : Ground X) (n : Noting L) (s : State (Beside X L)) → event_alone (event (noted_ground g n) s) ≡ event g (alone s) }
{}

/// What each request and each serving keeps between two memories, and each service between two guests, every event keeps.
pub fn events_keep_what_requests_keep<X>()
    ensures { (g : Ground X) (r : X → X → Bool) (q : Guest → Guest → Bool) → KeepsByRequests g (λ x y. r x y ≡ true) → KeepsByServices g (λ a b. q a b ≡ true) → (s : State X) → EventLeaves (λ t. (r s.memory t.memory ≡ true) × (q s.guest t.guest ≡ true)) (event g s) }
{}

/// Code stays as it was placed: no event and no run changes a byte that can be executed, with the watch on or off, over the
/// directory and the tables and over the store of bounds.
pub fn code_stays()
    ensures event { (reads : List ℕ → Reading) (outers : ℕ) (mode : Mode) (s : State Tabled) → EventLeaves (λ t. SameCode s.memory.bytes t.memory.bytes) (event (ground_of reads outers mode) s) }
    ensures run { (reads : List ℕ → Reading) (outers : ℕ) (mode : Mode) (turns : ℕ) (s : State Tabled) → EndLeaves (λ t. SameCode s.memory.bytes t.memory.bytes) (run_of (ground_of reads outers mode) turns s) }
    ensures stored_event { (reads : List ℕ → Reading) (outers : ℕ) (mode : Mode) (s : State Stored) → EventLeaves (λ t. SameCode s.memory.bytes t.memory.bytes) (event (stored_ground reads outers mode) s) }
    ensures stored_run { (reads : List ℕ → Reading) (outers : ℕ) (mode : Mode) (turns : ℕ) (s : State Stored) → EndLeaves (λ t. SameCode s.memory.bytes t.memory.bytes) (run_of (stored_ground reads outers mode) turns s) }
{}
