//! Laws of a run whose bounds stand in the directory and the tables, beside the same run over the store of bounds.

ghost use Rattle.std.specs.Prelude.{◌≡◌, ◌≢◌, ◌↔◌, ℕ, ◌<◌, ◌≤◌, Bool, false, true, None, Some, List, [], Err};
ghost use Rattle.std.specs.Option.{option_map};
ghost use Rattle.mx_base.specs.declared.limits.Bounds.{Bounds as BoundsPair};
ghost use Rattle.mx_base.specs.Bounds.{full_bounds};
ghost use Rattle.mx_base.specs.BoundsStore.{Kept, granule, load_bounds, keep_bounds};
ghost use Rattle.mx_base.specs.Walk.{Stands, walk, walk_end, entry_in, entry_for};
ghost use Rattle.x86_forms.specs.declared.instr.Instr.{Instr};
ghost use Rattle.x86_forms.specs.declared.instr.Instr.TheVariants.{Bndldx};
ghost use Rattle.x86_forms.specs.declared.instr.Mem.{Mem};
ghost use Rattle.x86_forms.specs.Processor.{pointer_address, index_register};
ghost use Rattle.x86_forms.specs.declared.spans.Span.{Span};
ghost use Rattle.x86_forms.specs.Watch.{is_legacy, is_watched};
ghost use Rattle.obj_file.specs.declared.image.Image.{Image};
ghost use Rattle.obj_file.specs.Image.{IsImage};
ghost use Rattle.obj_file.specs.Machine.{Reading, IsReader, Misses, Ground, State, Does, executed, event};
ghost use Rattle.obj_file.specs.Runs.{run_within, run_of, accesses_of};
ghost use Rattle.obj_file.specs.Loaded.{Tabled, Mode, configuration, ground_of, state_at_start, image_run, image_accesses};
ghost use Rattle.obj_file.specs.Stored.{Stored, with_store, stored_load, stored_keep, with_serving, stored_ground, stored_at_start, stored_run, stored_accesses};
ghost use Rattle.obj_file.specs.StoreOfC.{ground_in_c, event_but_status};
ghost use Rattle.obj_file.specs.ExamplesOfStore.{example_code, example_image, example_mode, reader_of, rewriting_code, rewriting_bytes, image_with, loaded_at_stop, walk_seen, store_seen, seen_over_walk, seen_over_store};
ghost use Rattle.obj_file.specs.StoreLaw.{StandsIn, StatesAlike, EventsAlike, EndsAlike, ReadsValid, HaveBytes, StaysOut, EventStaysOut, StaysOutWithin, RunStaysOut};

/// The law that the machine over the store of bounds has this store for its bounds. An address below 2^47 is served where
/// its megabyte is not touched; with that, each load and keep is the store's, and there is none exactly where the store
/// has none for want of a table. Addresses from 2^47 on have no bounds.
pub fn loads_and_keeps_are_the_store()
    ensures loads { (preserve : Bool) (y : Stored) (la value : ℕ) → la < walk_end
        → with_serving (λ z. stored_load (configuration preserve) z la value) y (stored_load (configuration preserve) y la value)
        ≡ option_map (λ p. (p.0, with_store y p.1)) (load_bounds y.bounds la value) }
    ensures keeps { (preserve : Bool) (y : Stored) (la value : ℕ) (b : BoundsPair) → la < walk_end
        → with_serving (λ z. stored_keep (configuration preserve) z la value b) y (stored_keep (configuration preserve) y la value b)
        ≡ option_map (with_store y) (keep_bounds y.bounds la value b) }
    ensures no_loads { (cfg : ℕ) (y : Stored) (la value : ℕ) → walk_end ≤ la → stored_load cfg y la value ≡ Err (Misses la) }
    ensures no_keeps { (cfg : ℕ) (y : Stored) (la value : ℕ) (b : BoundsPair) → walk_end ≤ la → stored_keep cfg y la value b ≡ Err (Misses la) }
{}

/// The law that an event over the store of bounds, with the serving that it makes, is the event in C's words, in which a load
/// is `load_bounds` and a keep is `keep_bounds`: BNDSTATUS aside, which the serving sets.
pub fn events_load_and_keep_in_words_of_c()
    ensures { (reads : List ℕ → Reading) (outers : ℕ) (mode : Mode) (s : State Stored) → event_but_status (event (stored_ground reads outers mode) s) ≡ event_but_status (event (ground_in_c reads outers mode) s) }
{}

/// The law that a BNDLDX which is done gives the bounds that are kept for its address exactly where they are kept for the
/// value of its index register, and else INIT.
pub fn bndldx_gives_kept_bounds_where_values_match()
    ensures matches { (reads : List ℕ → Reading) (outers : ℕ) (mode : Mode) (s t : State Stored) (b : ℕ) (m : Mem) (next : ℕ) (k : Kept) → executed (stored_ground reads outers mode) (Bndldx b m) next s ≡ Does t
        → s.memory.bounds.kept (granule (pointer_address s.processor.regs next m)) ≡ Some k → k.value ≡ index_register s.processor.regs m.index → t.processor.bounds b ≡ k.bounds }
    ensures differs { (reads : List ℕ → Reading) (outers : ℕ) (mode : Mode) (s t : State Stored) (b : ℕ) (m : Mem) (next : ℕ) (k : Kept) → executed (stored_ground reads outers mode) (Bndldx b m) next s ≡ Does t
        → s.memory.bounds.kept (granule (pointer_address s.processor.regs next m)) ≡ Some k → k.value ≢ index_register s.processor.regs m.index → t.processor.bounds b ≡ full_bounds }
    ensures none { (reads : List ℕ → Reading) (outers : ℕ) (mode : Mode) (s t : State Stored) (b : ℕ) (m : Mem) (next : ℕ) → executed (stored_ground reads outers mode) (Bndldx b m) next s ≡ Does t
        → s.memory.bounds.kept (granule (pointer_address s.processor.regs next m)) ≡ None → t.processor.bounds b ≡ full_bounds }
{}

/// The law that what the store keeps for an address stands in the table entry to which the walk leads, wherever a memory
/// with the directory and the tables stands for one with the store.
pub fn kept_bounds_stand_in_their_entries()
    ensures { (x : Tabled) (y : Stored) (preserve : Bool) (la : ℕ) (k : Kept) → StandsIn x y → la < walk_end → y.bounds.kept (granule la) ≡ Some k
        → (at : ℕ) × (walk x.bytes (configuration preserve) la ≡ Stands at) × (entry_in x.bytes at ≡ entry_for k.value k.bounds) }
{}

/// The law of one event. If its accesses and its service leave the directory and the tables to walks, it goes alike over
/// the walk and over the store of bounds: it takes a turn on both sides or on none, stops on both for the same reason or on
/// none, and leaves the same processor, BNDSTATUS too, guest and steps, and memories of which one stands for the other.
pub fn events_go_alike()
    ensures { (reads : List ℕ → Reading) (outers : ℕ) (mode : Mode) (s : State Tabled) (t : State Stored) → ReadsValid reads → StatesAlike s t
        → EventStaysOut (ground_of reads outers mode) s → EventsAlike (event (ground_of reads outers mode) s) (event (stored_ground reads outers mode) t) }
{}

/// The law of runs. As long as only walks and servings touch the directory and the tables, the run over the walk ends as the
/// run over the store of bounds does, after any number of events and with any number of turns.
pub fn runs_end_alike()
    ensures within { (reads : List ℕ → Reading) (outers : ℕ) (mode : Mode) (n turns : ℕ) (s : State Tabled) (t : State Stored) → ReadsValid reads → StatesAlike s t
        → StaysOutWithin (ground_of reads outers mode) n turns s
        → EndsAlike (run_within (ground_of reads outers mode) n turns s) (run_within (stored_ground reads outers mode) n turns t) }
    ensures whole { (reads : List ℕ → Reading) (outers : ℕ) (mode : Mode) (turns : ℕ) (s : State Tabled) (t : State Stored) → ReadsValid reads → StatesAlike s t
        → RunStaysOut (ground_of reads outers mode) turns s
        → EndsAlike (run_of (ground_of reads outers mode) turns s) (run_of (stored_ground reads outers mode) turns t) }
{}

/// The law that such runs make the same accesses for C, in the same order.
pub fn runs_make_the_same_accesses()
    ensures { (reads : List ℕ → Reading) (outers : ℕ) (mode : Mode) (turns : ℕ) (s : State Tabled) (t : State Stored) → ReadsValid reads → StatesAlike s t
        → RunStaysOut (ground_of reads outers mode) turns s
        → accesses_of (ground_of reads outers mode) turns s ≡ accesses_of (stored_ground reads outers mode) turns t }
{}

/// The law that a run leaves the directory and the tables to walks exactly where the run over the store of bounds does, so
/// that it can be seen from either.
pub fn either_run_stays_out()
    ensures { (reads : List ℕ → Reading) (outers : ℕ) (mode : Mode) (turns : ℕ) (s : State Tabled) (t : State Stored) → ReadsValid reads → StatesAlike s t
        → RunStaysOut (ground_of reads outers mode) turns s ↔ RunStaysOut (stored_ground reads outers mode) turns t }
{}

/// The law that with the watch on nothing is asked of the accesses that it judges, so nothing of legacy code: what they
/// would touch of the directory and the tables is sealed, and they stop there.
pub fn watched_accesses_stay_out<X>()
    ensures accesses { (i : Instr) (from : ℕ) (s : Span) → is_watched i from s ≡ true → StaysOut false i from s }
    ensures legacy { (g : Ground X) (s : State X) → g.bare ≡ false → is_legacy s.processor.rip ≡ true → EventStaysOut g s }
{}

/// The law that the two machines begin alike at an image: no table is made, and nothing is kept.
pub fn images_begin_alike()
    ensures { (v : Image) (preserve : Bool) (input : List ℕ) → IsImage v → HaveBytes v.segments
        → StatesAlike (state_at_start v.segments preserve input) (stored_at_start v.segments preserve input) }
{}

/// The law of images. As long as only walks and servings touch the directory and the tables, the run of an image ends as
/// its run over the store of bounds does, with the same accesses for C.
pub fn images_run_alike()
    ensures ends { (reads : List ℕ → Reading) (v : Image) (mode : Mode) (turns : ℕ) (input : List ℕ) → ReadsValid reads → IsImage v → HaveBytes v.segments
        → RunStaysOut (ground_of reads v.outers mode) turns (state_at_start v.segments mode.preserve input)
        → EndsAlike (image_run reads v mode turns input) (stored_run reads v mode turns input) }
    ensures accesses { (reads : List ℕ → Reading) (v : Image) (mode : Mode) (turns : ℕ) (input : List ℕ) → ReadsValid reads → IsImage v → HaveBytes v.segments
        → RunStaysOut (ground_of reads v.outers mode) turns (state_at_start v.segments mode.preserve input)
        → image_accesses reads v mode turns input ≡ stored_accesses reads v mode turns input }
{}

/// The law that an exact reader of instructions reads valid ones.
pub fn exact_readers_read_valid_instructions()
    ensures { (reads : List ℕ → Reading) → IsReader reads → ReadsValid reads }
{}

/// An example of all of this: an image that makes bounds, stores them for the top of the stack and loads them again, with
/// the watch on and off. It is an image, it leaves the directory and the tables to walks and servings, and its two runs
/// leave what is written there after the manual: the stored bounds in the entry of the one table that was made, and in the
/// store.
pub fn a_small_image_runs_alike()
    ensures readable { ReadsValid (reader_of example_code) }
    ensures image { IsImage example_image × HaveBytes example_image.segments }
    ensures stays_out { (bare : Bool) → RunStaysOut (ground_of (reader_of example_code) 0 (example_mode bare)) 0 (state_at_start example_image.segments false []) }
    ensures walk { (bare : Bool) → walk_seen (image_run (reader_of example_code) example_image (example_mode bare) 0 []) ≡ seen_over_walk }
    ensures store { (bare : Bool) → store_seen (stored_run (reader_of example_code) example_image (example_mode bare) 0 []) ≡ seen_over_store }
{}

/// An example of code that does not leave the directory to walks: with the watch off it writes 0 over half of the directory
/// entry that names its table, and what it stored is found no more. So the law cannot do without its premise.
pub fn runs_differ_where_code_writes_the_directory()
    ensures walk { loaded_at_stop (image_run (reader_of rewriting_code) (image_with rewriting_bytes) (example_mode true) 0 []) ≡ Some full_bounds }
    ensures store { loaded_at_stop (stored_run (reader_of rewriting_code) (image_with rewriting_bytes) (example_mode true) 0 []) ≡ Some record { lb = 0; ub = 7 } }
{}
