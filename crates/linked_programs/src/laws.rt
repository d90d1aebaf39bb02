//! Laws of linked programs. Each function names the laws that it rests on, and its contract is the law.

ghost use Rattle.std.specs.Prelude.{◌<◌, ℕ, Bool, List, length};
ghost use Rattle.std.specs.List.{All};
ghost use Rattle.mx_base.specs.Guests.{InputFits};
ghost use Rattle.mx_base.specs.World.{Log, world_at_start};
ghost use Rattle.obj_file.specs.declared.image.Image.{Image};
ghost use Rattle.obj_file.specs.declared.object.Object.{Object};
ghost use Rattle.obj_file.specs.Machine.{IsReader, Reading};
ghost use Rattle.obj_file.specs.Stored.{stored_at_start};
ghost use Rattle.bounds_plan.specs.steps.Compiled.{FitsFunction};
ghost use Rattle.bounds_plan.specs.steps.Follows.{outcome_of};
ghost use Rattle.bounds_plan.specs.meaning.Functions.{Linked, program_run};
ghost use Rattle.legacy_calls.specs.OfC.{outside_of_c};
ghost use Rattle.gate_laws.specs.Crossings.{ProgramEnds};
ghost use Rattle.gate_laws.specs.Moments.{moment_at_start};
ghost use Rattle.program_laws.specs.Compiled.{IsCompiled};
ghost use Rattle.obj_linker.specs.Placement.{plan_of};
ghost use Rattle.linked_laws.specs.Linkage.{inner_of, linkage_of, main_of, stub_of};
ghost use Rattle.linked_laws.specs.Linked.{AreLinked, HoldsBytes, bytes_in};
ghost use Rattle.linked_units.specs.Accesses.{accesses_of};
ghost use Rattle.linked_programs.specs.Programs.{IsOfUnit, IsProgram};

use asked_steps::assigned_homes_serve;
use linked_laws::{gates_stand_where_they_are_wanted, linked_images_are_loaded};
use program_laws::{
    assigned_homes_hold_no_argument_to_come, images_of_compiled_programs_end_as_they_mean,
};

/// Each function of a unit is compiled, as programs want it (`IsCompiled` of `program_laws`), in the image of linked objects: the image has
/// its code, its homes serve, and its symbols stand and are called where the linker has them.
pub fn linked_functions_are_compiled()
    ensures { (reads : List ℕ → Reading) → IsReader reads → (preserve : Bool) (os : List Object) (v : Image) → AreLinked os v
        → (number count : ℕ → ℕ) (name : ℕ) (l : Linked) → FitsFunction count l.fun → (f : ℕ) → f < length (plan_of os).functions
        → IsOfUnit (linkage_of reads preserve os) os number name l f
        → IsCompiled (linkage_of reads preserve os) (bytes_in v) (accesses_of number v) (inner_of os) (stub_of os) name l f }
{
    assigned_homes_serve();
    assigned_homes_hold_no_argument_to_come();
}

/// So the run of the image of linked objects ends as the program of their units means in C, for every input of bytes, number of turns and
/// value of BNDPRESERVE: with the same stop, output, input left, bounds kept and accesses. The parts of objects hold bytes.
pub fn images_of_linked_units_end_as_they_mean()
    ensures { (reads : List ℕ → Reading) → IsReader reads → (preserve : Bool) (os : List Object) (v : Image) → AreLinked os v
        → All HoldsBytes os → (number takes_outside : ℕ → ℕ) (program : ℕ → Linked) (name : ℕ → ℕ)
        → let k = linkage_of reads preserve os in IsProgram k os number takes_outside program name
        → (input : List ℕ) → InputFits input → (turns : ℕ) (log : Log)
        → ProgramEnds k (bytes_in v) (accesses_of number v)
        (moment_at_start k (stored_at_start v.segments preserve input).memory input turns)
        (outcome_of (program_run program (outside_of_c k) (main_of os) (world_at_start (bytes_in v) input turns) log)) }
{
    linked_functions_are_compiled();
    images_of_compiled_programs_end_as_they_mean();
    gates_stand_where_they_are_wanted();
    linked_images_are_loaded();
}
