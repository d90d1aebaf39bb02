//! Laws of places. Each function does nothing of its own, and its contract is the law.

ghost use Rattle.std.specs.Prelude.{◌≡◌, ℕ, ◌+◌, ◌%◌, ◌<◌, ◌≤◌, List, [], ◌∷◌, length, All, true, false, Some, slice_get};
ghost use Rattle.mx_base.specs.declared.numbers.IntKind.TheVariants as IntKind;
ghost use Rattle.c_tree.specs.declared.tree.Tree.{Tree as TreeOf};
ghost use Rattle.c_tree.specs.Formed.{IsFormed};
ghost use Rattle.c_types.specs.Types.{Void, Int, Pointer, Array, StructType};
ghost use Rattle.c_types.specs.Layouts.{layout_of};
ghost use Rattle.c_check_rules.specs.declared.names.Variable.{Variable as Known};
ghost use Rattle.c_check.specs.Accepted.{IsAccepted, after};
ghost use Rattle.c_check.specs.Standing.{structs_seen};
ghost use Rattle.place_plan.specs.declared.plans.FramePlan.{FramePlan as FramePlanOf};
ghost use Rattle.place_plan.specs.declared.plans.Spot.{Spot as SpotOf};
ghost use Rattle.place_plan.specs.Frames.{Variable, variable, values_of, frame_plan};
ghost use Rattle.place_plan.specs.Data.{Global, global, offsets_from, globals_end};
ghost use Rattle.place_plan.specs.Source.{plan_of, globals_size, image_size};

use c_check::{
    accepted_frames_have_room, accepted_sources_can_be_numbered, checked_sizes_are_those_of_types,
};
use c_types::{multiples_are_the_next, sizes_are_multiples};

/// The variables in a data frame stand in order, none over another, each at a multiple of its alignment and within the frame,
/// whose size is a multiple of 16. The private variables have values of their own, in order.
pub fn variables_stand_apart()
    ensures aligned { (structs : List StructType) (vs : List Variable) (i o : ℕ) (v : Variable) → slice_get vs i ≡ Some v → slice_get (frame_plan structs vs).spots i ≡ Some (SpotOf.Frame o) → o % (layout_of structs v.type).align ≡ 0 }
    ensures within { (structs : List StructType) (vs : List Variable) (i o : ℕ) (v : Variable) → slice_get vs i ≡ Some v → slice_get (frame_plan structs vs).spots i ≡ Some (SpotOf.Frame o) → o + (layout_of structs v.type).size ≤ (frame_plan structs vs).size }
    ensures whole { (structs : List StructType) (vs : List Variable) → (frame_plan structs vs).size % 16 ≡ 0 }
    ensures apart { (structs : List StructType) (vs : List Variable) (i j o p : ℕ) (v w : Variable) → i < j → slice_get vs i ≡ Some v → slice_get vs j ≡ Some w → slice_get (frame_plan structs vs).spots i ≡ Some (SpotOf.Frame o) → slice_get (frame_plan structs vs).spots j ≡ Some (SpotOf.Frame p) → o + (layout_of structs v.type).size ≤ p }
    ensures values { (structs : List StructType) (vs : List Variable) (i j x y : ℕ) (v : Variable) → i < j → slice_get vs i ≡ Some v → slice_get (frame_plan structs vs).spots i ≡ Some (SpotOf.Private x) → slice_get (frame_plan structs vs).spots j ≡ Some (SpotOf.Private y) → x + values_of v.taken v.type ≤ y }
{
    sizes_are_multiples();
}

/// The globals that a source defines stand in order, none over another, each at a multiple of its alignment and within the bytes of all.
pub fn data_stands_apart()
    ensures aligned { (structs : List StructType) (gs : List Global) (i o : ℕ) (g : Global) → slice_get gs i ≡ Some g → g.defined ≡ true → slice_get (offsets_from structs 0 gs) i ≡ Some o → o % (layout_of structs g.type).align ≡ 0 }
    ensures within { (structs : List StructType) (gs : List Global) (i o : ℕ) (g : Global) → slice_get gs i ≡ Some g → g.defined ≡ true → slice_get (offsets_from structs 0 gs) i ≡ Some o → o + (layout_of structs g.type).size ≤ globals_end structs 0 gs }
    ensures apart { (structs : List StructType) (gs : List Global) (i j o p : ℕ) (g h : Global) → i < j → slice_get gs i ≡ Some g → slice_get gs j ≡ Some h → g.defined ≡ true → h.defined ≡ true → slice_get (offsets_from structs 0 gs) i ≡ Some o → slice_get (offsets_from structs 0 gs) j ≡ Some p → o + (layout_of structs g.type).size ≤ p }
{
    sizes_are_multiples();
}

/// The globals that a source defines stand in its plan as their types have it, each at a multiple of its alignment, none over another, and in front of
/// the text literals; and all the data of an accepted source has at most 16,777,216 bytes.
pub fn planned_globals_stand_apart()
    ensures each { (tree : TreeOf) → length (plan_of tree).globals ≡ length (after tree).scope.variables }
    ensures aligned { (tree : TreeOf) (i o : ℕ) (v : Known) → slice_get (after tree).scope.variables i ≡ Some v → v.defined ≡ true → slice_get (plan_of tree).globals i ≡ Some o → o % (layout_of (structs_seen (after tree).scope.structs) v.kind).align ≡ 0 }
    ensures within { (tree : TreeOf) (i o : ℕ) (v : Known) → slice_get (after tree).scope.variables i ≡ Some v → v.defined ≡ true → slice_get (plan_of tree).globals i ≡ Some o → o + (layout_of (structs_seen (after tree).scope.structs) v.kind).size ≤ globals_size (after tree) }
    ensures apart { (tree : TreeOf) (i j o p : ℕ) (v w : Known) → i < j → slice_get (after tree).scope.variables i ≡ Some v → slice_get (after tree).scope.variables j ≡ Some w → v.defined ≡ true → w.defined ≡ true → slice_get (plan_of tree).globals i ≡ Some o → slice_get (plan_of tree).globals j ≡ Some p → o + (layout_of (structs_seen (after tree).scope.structs) v.kind).size ≤ p }
    ensures small { (tree : TreeOf) (room : ℕ) → room ≤ 32768 → IsFormed tree → IsAccepted tree room → image_size tree ≤ 16777216 }
{
    sizes_are_multiples();
    accepted_sources_can_be_numbered();
    checked_sizes_are_those_of_types();
}

/// The data frame of each function of an accepted source has at most 1,048,576 bytes in its plan.
pub fn planned_frames_are_small()
    ensures { (tree : TreeOf) (room : ℕ) → room ≤ 32768 → IsFormed tree → IsAccepted tree room → All (λ (f : FramePlanOf). f.size ≤ 1048576) (plan_of tree).frames }
{
    multiples_are_the_next();
    accepted_sources_can_be_numbered();
    checked_sizes_are_those_of_types();
    accepted_frames_have_room();
}

/// Where the variables of a small function stand, of which each is given by its type and by whether `&` is applied to it, and
/// the globals of a small source.
pub fn small_plans_stand_so()
    ensures frame { frame_plan [] (variable (Int IntKind.I8) true ∷ variable (Int IntKind.I32) false ∷ variable (Pointer (Int IntKind.I8)) false ∷ variable (Int IntKind.I64) true ∷ variable (Array (Int IntKind.I16) 3) false ∷ variable (Int IntKind.U8) false ∷ [])
        ≡ record { size = 32; spots = SpotOf.Frame 0 ∷ SpotOf.Private 0 ∷ SpotOf.Private 1 ∷ SpotOf.Frame 8 ∷ SpotOf.Frame 16 ∷ SpotOf.Private 3 ∷ [] } }
    ensures data { offsets_from [] 0 (global (Array (Int IntKind.I8) 5) true ∷ global (Int IntKind.I32) false ∷ global (Pointer Void) true ∷ global (Int IntKind.I16) true ∷ []) ≡ 0 ∷ 0 ∷ 8 ∷ 16 ∷ [] }
{}
