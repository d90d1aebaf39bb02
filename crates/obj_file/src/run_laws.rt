//! Laws of the runs of the machine.

ghost use Rattle.std.specs.Prelude.{◌≡◌, ◌↔◌, ℕ, suc, ◌+◌, ◌++◌, true, false, List};
ghost use Rattle.mx_base.specs.declared.stops.Stop.{Stop as MachineStop};
ghost use Rattle.mx_base.specs.World.{Access};
ghost use Rattle.obj_file.specs.Machine.{Ground, State, Goes, event};
ghost use Rattle.obj_file.specs.Runs.{Out, Stopped, after, run_of, accesses_of};
ghost use Rattle.obj_file.specs.StoreLaw.{RunStaysOut};
ghost use Rattle.obj_file.specs.Finals.{clean_now, clean_of, accesses_now, Moment, final, behind, final_after};

/// A run is its first event and the run from there.
pub fn a_run_is_its_first_event_and_the_rest<X>()
    ensures { (g : Ground X) (turns : ℕ) (s : State X) → run_of g turns s ≡ after (run_of g) turns s (event g s) }
{}

/// An event that takes no turn leads to a state from which the run is the same.
pub fn quiet_events_may_be_left_out<X>()
    ensures { (g : Ground X) (turns : ℕ) (s t : State X) → event g s ≡ Goes false t → run_of g turns s ≡ run_of g turns t }
{}

/// An event that takes a turn leads to a state from which the run with one turn less is the same.
pub fn events_take_one_turn<X>()
    ensures { (g : Ground X) (turns : ℕ) (s t : State X) → event g s ≡ Goes true t → run_of g (suc turns) s ≡ run_of g turns t }
{}

/// A run that is out of turns and goes on with more is the run with all of them.
pub fn runs_go_on<X>()
    ensures { (g : Ground X) (turns extra : ℕ) (s last : State X) → run_of g turns s ≡ Out last → run_of g (turns + extra) s ≡ run_of g extra last }
{}

/// A run that stopped stops in the same way with more turns.
pub fn stopped_runs_stay_so<X>()
    ensures { (g : Ground X) (turns extra : ℕ) (s last : State X) (why : MachineStop) → run_of g turns s ≡ Stopped why last → run_of g (turns + extra) s ≡ Stopped why last }
{}

/// A run is clean exactly where it leaves the directory and the tables to walks and servings.
pub fn clean_runs_stay_out<X>()
    ensures { (g : Ground X) (turns : ℕ) (s : State X) → clean_of g turns s ≡ true ↔ RunStaysOut g turns s }
{}

/// A run, with its accesses for C and with whether it is clean, is its first event and the run from there.
pub fn finals_are_their_first_event_and_the_rest<X>()
    ensures { (g : Ground X) (m : Moment X) → final g m ≡ final_after g m (event g m.state) }
{}

/// A clean event that takes no turn leads to a moment from which they are the same: the accesses of the event stand before.
pub fn quiet_events_may_be_left_out_of_finals<X>()
    ensures { (g : Ground X) (m : Moment X) (t : State X) → event g m.state ≡ Goes false t → clean_now g m.state ≡ true → final g m ≡ final g record { state = t; turns = m.turns; accesses = m.accesses ++ accesses_now g m.state } }
{}

/// A clean event that takes a turn leads to a moment with one turn less, from which they are the same.
pub fn events_take_one_turn_of_finals<X>()
    ensures { (g : Ground X) (m : Moment X) (turns : ℕ) (t : State X) → m.turns ≡ suc turns → event g m.state ≡ Goes true t → clean_now g m.state ≡ true → final g m ≡ final g record { state = t; turns = turns; accesses = m.accesses ++ accesses_now g m.state } }
{}

/// A run that is out of turns and goes on with more makes its accesses and then those of the rest, and is clean where both are.
pub fn finals_go_on<X>()
    ensures { (g : Ground X) (turns extra : ℕ) (s last : State X) (made : List Access) → run_of g turns s ≡ Out last → final g record { state = s; turns = turns + extra; accesses = made } ≡ behind (clean_of g turns s) (final g record { state = last; turns = extra; accesses = made ++ accesses_of g turns s }) }
{}

/// A run that stopped makes the same accesses with more turns, and is clean as before.
pub fn stopped_finals_stay_so<X>()
    ensures { (g : Ground X) (turns extra : ℕ) (s last : State X) (why : MachineStop) (made : List Access) → run_of g turns s ≡ Stopped why last → final g record { state = s; turns = turns + extra; accesses = made } ≡ final g record { state = s; turns = turns; accesses = made } }
{}
