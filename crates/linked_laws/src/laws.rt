//! Laws of linked images. Each function does nothing, and its contract is the law.

ghost use Rattle.std.specs.Prelude.{◌≡◌, ◌<◌, ℕ, Bool, true, false, Some, List, [], ◌∷◌, length, slice_get};
ghost use Rattle.std.specs.List.{All};
ghost use Rattle.obj_file.specs.declared.object.Object.{Object};
ghost use Rattle.obj_file.specs.declared.object.Fix.{Fix};
ghost use Rattle.obj_file.specs.declared.image.Image.{Image};
ghost use Rattle.obj_file.specs.Image.{IsImage};
ghost use Rattle.obj_file.specs.Machine.{IsReader, Reading};
ghost use Rattle.obj_file.specs.Names.{is_function_sig};
ghost use Rattle.obj_file.specs.Stored.{stored_at_start};
ghost use Rattle.obj_file.specs.StoreLaw.{HaveBytes};
ghost use Rattle.gate_laws.specs.Owed.{IsLinked, IsLoaded};
ghost use Rattle.obj_linker.specs.declared.parts.SymbolId.{SymbolId};
ghost use Rattle.obj_linker.specs.Symbols.{definitions, find, is_c_function, is_legacy_function, place_of, sig_at};
ghost use Rattle.obj_linker.specs.Placement.{is_call, plan_of, spot_of};
ghost use Rattle.linked_laws.specs.Alike.{AreAlike};
ghost use Rattle.linked_laws.specs.Calls.{LeadsToFunction, LeadsToOuter, LeadsToStub, name_of};
ghost use Rattle.linked_laws.specs.Fields.{AreFilled};
ghost use Rattle.linked_laws.specs.Linkage.{called_at, function_at, inner_of, linkage_of, main_of, stub_of};
ghost use Rattle.obj_linker.specs.Examples.{caller, legacy};
ghost use Rattle.obj_linker.specs.Fixing.{fixed_part};
ghost use Rattle.obj_linker.specs.Gating.{mpx_gates};
ghost use Rattle.obj_linker.specs.Image.{image_of};
ghost use Rattle.linked_laws.specs.Outside.{AreSameOutside};
ghost use Rattle.linked_laws.specs.Linked.{AreLinked, HaveParts, HoldsBytes, bytes_in};

/// The objects of `small_images` of `obj_linker`, which call both ways, keep the rules of objects and are linked.
pub fn a_pair_of_objects_is_linked()
    ensures { AreLinked (caller ∷ legacy ∷ []) (image_of mpx_gates (caller ∷ legacy ∷ [])) }
{}

/// The image of linked objects keeps all rules of images: segments are in order and apart, each within one region of code or data, files
/// have names, and places stand in order in instrumented code.
pub fn linked_objects_make_an_image()
    ensures { (os : List Object) (v : Image) → AreLinked os v → IsImage v }
{}

/// In the image of linked objects each gate stands at its place, with the addresses that it knows, and each part of each object at its,
/// with its fields filled.
pub fn parts_stand_at_their_addresses()
    ensures { (os : List Object) (v : Image) → AreLinked os v → HaveParts os (plan_of os) (bytes_in v) }
{}

/// In the image of linked objects the field of each fix-up holds its value, in 8 bytes modulo 2^64, and in 4 bytes as a signed number; and
/// each other byte of a part is the object's.
pub fn fields_hold_their_values()
    ensures { (os : List Object) (v : Image) → AreLinked os v → AreFilled os (plan_of os) (bytes_in v) }
{}

/// A call of an instrumented object leads to the inner entry of the C function that its symbol's name has, or to a stub that leads to the
/// legacy function of that name; any other fix-up sees the outer entry of a C function. The numbers are those of the linkage.
pub fn fix_ups_lead_to_entries()
    ensures function { (os : List Object) (k : ℕ) (o : Object) (f : Fix) (d : SymbolId) → find (name_of os k f) (definitions os) ≡ Some d
        → is_call o f ≡ true → is_c_function os d ≡ true → LeadsToFunction os k o f d (place_of (name_of os k f) (plan_of os).functions) }
    ensures outer { (os : List Object) (k : ℕ) (o : Object) (f : Fix) (d : SymbolId) → find (name_of os k f) (definitions os) ≡ Some d
        → is_call o f ≡ false → is_c_function os d ≡ true → LeadsToOuter os k o f d (place_of (name_of os k f) (plan_of os).functions) }
    ensures stub { (os : List Object) (k : ℕ) (o : Object) (f : Fix) (d : SymbolId) → find (name_of os k f) (definitions os) ≡ Some d
        → slice_get os k ≡ Some o → (i : ℕ) → slice_get o.fixes i ≡ Some f → is_call o f ≡ true → is_legacy_function os d ≡ true
        → LeadsToStub os k o f d (place_of (name_of os k f) (plan_of os).stubs) }
{}

/// Each C function of linked objects has the signature of a function, and so has each symbol by which C calls a legacy function. So the
/// signatures of the linkage are those that the objects tell.
pub fn functions_at_the_border_have_signatures()
    ensures own { (os : List Object) (v : Image) → AreLinked os v → (f : ℕ) → f < length (plan_of os).functions
        → is_function_sig (sig_at os (function_at os f)) ≡ true }
    ensures called { (os : List Object) (v : Image) → AreLinked os v → (g : ℕ) → g < length (plan_of os).stubs
        → is_function_sig (sig_at os (called_at os g)) ≡ true }
{}

/// The gates of the image of linked objects stand where the laws of gates want them (`IsLinked` of `gate_laws`), by an exact reader of
/// instructions: the landing, a stub for each legacy function that C calls, behind the start of instrumented parts, and an outer entry for
/// each C function; and their signatures are within the limits.
pub fn gates_stand_where_they_are_wanted()
    ensures { (reads : List ℕ → Reading) → IsReader reads → (preserve : Bool) (os : List Object) (v : Image) → AreLinked os v
        → IsLinked (linkage_of reads preserve os) (bytes_in v) (inner_of os) (stub_of os) }
{}

/// Where the parts of objects hold bytes, so do the segments of their image.
pub fn linked_segments_hold_bytes()
    ensures { (os : List Object) (v : Image) → AreLinked os v → All HoldsBytes os → HaveBytes v.segments }
{}

/// The image of linked objects is loaded as a start wants it (`IsLoaded` of `gate_laws`), by an exact reader of instructions: before the
/// first event its start leads to `main`, which takes nothing and gives an int, memory has the code of the image and its data, and no
/// bounds are kept.
pub fn linked_images_are_loaded()
    ensures { (reads : List ℕ → Reading) → IsReader reads → (preserve : Bool) (os : List Object) (v : Image) → AreLinked os v
        → All HoldsBytes os → (input : List ℕ)
        → IsLoaded (linkage_of reads preserve os) (bytes_in v) (inner_of os) (main_of os) (bytes_in v)
        (stored_at_start v.segments preserve input).memory }
{}

/// Where data and legacy code stand doesn't depend on how large instrumented code is.
pub fn places_stay_where_instrumented_code_grows()
    ensures stored { (os ps : List Object) → AreAlike os ps → (k : ℕ)
        → (spot_of (plan_of ps) k).stored ≡ (spot_of (plan_of os) k).stored }
    ensures legacy { (os ps : List Object) → AreAlike os ps → (k : ℕ) (o : Object) → slice_get os k ≡ Some o → o.legacy ≡ true
        → (spot_of (plan_of ps) k).code ≡ (spot_of (plan_of os) k).code }
{}

/// What legacy code and data hold, fields included, and which number and so which outer entry a C function has doesn't depend on
/// instrumented code: it is the same for objects that differ in that alone, where no field in the data of an instrumented object is
/// relative.
pub fn legacy_code_and_data_stay_where_instrumented_code_changes()
    ensures stored { (os ps : List Object) → AreSameOutside os ps → (k : ℕ) (o p : Object) → slice_get os k ≡ Some o
        → slice_get ps k ≡ Some p → fixed_part ps (plan_of ps) k p 2 ≡ fixed_part os (plan_of os) k o 2 }
    ensures legacy { (os ps : List Object) → AreSameOutside os ps → (k : ℕ) (o p : Object) → slice_get os k ≡ Some o
        → slice_get ps k ≡ Some p → o.legacy ≡ true → fixed_part ps (plan_of ps) k p 1 ≡ fixed_part os (plan_of os) k o 1 }
    ensures outers { (os ps : List Object) → AreSameOutside os ps → (plan_of ps).functions ≡ (plan_of os).functions }
{}
