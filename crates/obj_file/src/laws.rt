//! Laws of the definitions of objects and images.

ghost use Rattle.std.specs.Prelude.{◌≡◌, ◌↔◌, ℕ, ◌<◌, Bool, List, Ok, slice_index};
ghost use Rattle.std.specs.List.{AllByRecursion};
ghost use Rattle.obj_file.specs.declared.image.Image.{Image};
ghost use Rattle.obj_file.specs.Image.{IsImage, SpellsImage};
ghost use Rattle.obj_file.specs.ImageReading.{image_of};
ghost use Rattle.obj_file.specs.Loaded.{state_at_start, Holds, IsOutside};
ghost use Rattle.obj_file.specs.declared.object.Object.{Object};
ghost use Rattle.obj_file.specs.Object.{IsObject, SpellsObject};
ghost use Rattle.obj_file.specs.ObjectReading.{object_of};

/// Reading gives an image exactly where the bytes spell it, for all bytes: they are its spelling, or that of the first version, and every
/// place is of unknown kind.
pub fn images_are_spelled()
    ensures { (bytes : List ℕ) (v : Image) → ((i : ℕ) → slice_index bytes i < 256) → (image_of bytes ≡ Ok v) ↔ (IsImage v × SpellsImage bytes v) }
{}

/// The same bytes spell one image alone.
pub fn images_have_one_spelling()
    ensures { (bytes : List ℕ) (v w : Image) → IsImage v → IsImage w → SpellsImage bytes v → SpellsImage bytes w → v ≡ w }
{}

/// Reading gives an object exactly where the bytes spell it, for all bytes: they are its spelling, or that of the first version, and every
/// place is of unknown kind.
pub fn objects_are_spelled()
    ensures { (bytes : List ℕ) (o : Object) → ((i : ℕ) → slice_index bytes i < 256) → (object_of bytes ≡ Ok o) ↔ (IsObject o × SpellsObject bytes o) }
{}

/// The same bytes spell one object alone.
pub fn objects_have_one_spelling()
    ensures { (bytes : List ℕ) (o p : Object) → IsObject o → IsObject p → SpellsObject bytes o → SpellsObject bytes p → o ≡ p }
{}

/// Before the first event the bytes of each segment stand at its addresses, and each other byte of memory is 0.
pub fn segments_stand_in_memory()
    ensures segments { (v : Image) (preserve : Bool) (input : List ℕ) → IsImage v → AllByRecursion (Holds (state_at_start v.segments preserve input).memory.bytes) v.segments }
    ensures zeros { (v : Image) (preserve : Bool) (input : List ℕ) (a : ℕ) → AllByRecursion (IsOutside a) v.segments → (state_at_start v.segments preserve input).memory.bytes a ≡ 0 }
{}
