//! Laws of sizes, alignments and offsets. Each function does nothing, and its contract is the law.

ghost use Rattle.std.specs.Prelude.{◌≡◌, ℕ, ◌+◌, ◌%◌, ◌<◌, ◌≤◌, List, length};
ghost use Rattle.c_types.specs.declared.shape.TypeId.{TypeId as TypeNumber};
ghost use Rattle.c_types.specs.Types.{CType, StructType, Types, members_at};
ghost use Rattle.c_types.specs.Layouts.{next_multiple, layout_of, offset_of, member_layout};

/// A number is rounded up to the first multiple of an alignment that is not below it.
pub fn multiples_are_the_next()
    ensures multiple { (n align : ℕ) → 1 ≤ align → next_multiple n align % align ≡ 0 }
    ensures enough { (n align : ℕ) → 1 ≤ align → n ≤ next_multiple n align }
    ensures first { (n align m : ℕ) → 1 ≤ align → n ≤ m → m % align ≡ 0 → next_multiple n align ≤ m }
{}

/// Every size is a multiple of the type's alignment, which is 1 to 8.
pub fn sizes_are_multiples()
    ensures multiple { (structs : List StructType) (type : CType) → (layout_of structs type).size % (layout_of structs type).align ≡ 0 }
    ensures some { (structs : List StructType) (type : CType) → 1 ≤ (layout_of structs type).align }
    ensures few { (structs : List StructType) (type : CType) → (layout_of structs type).align ≤ 8 }
{}

/// The members of a struct stand in order, none over another, each at a multiple of its alignment.
pub fn members_stand_in_order()
    ensures apart { (table : Types) (t : TypeNumber) (i j : ℕ) → i < j → j < length (members_at table t) → offset_of table t i + (member_layout table t i).size ≤ offset_of table t j }
    ensures aligned { (table : Types) (t : TypeNumber) (i : ℕ) → i < length (members_at table t) → offset_of table t i % (member_layout table t i).align ≡ 0 }
{}
