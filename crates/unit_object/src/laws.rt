//! Laws of the objects of units. Each function does nothing, and its contract is the law.

ghost use Rattle.std.specs.Prelude.{◌≡◌, ℕ, ◌++◌, Bool, true, false, List, map};
ghost use Rattle.std.specs.List.{All};
ghost use Rattle.obj_file.specs.declared.object.Fix.{Fix};
ghost use Rattle.obj_file.specs.declared.object.Object.{Object};
ghost use Rattle.linked_code.specs.Filled.{fix_of, seen_in};
ghost use Rattle.obj_linker.specs.declared.plan.Plan.{Plan as Link};
ghost use Rattle.obj_linker.specs.Fitting.{FixesFit};
ghost use Rattle.obj_linker.specs.Fixing.{fixed_part};
ghost use Rattle.obj_linker.specs.Placement.{spot_of};
ghost use Rattle.unit_object.specs.Units.{Coded, unit_bytes, unit_fields, linked_unit};

/// An object whose code is that of a unit's functions before the link, one behind the other, with a fix-up for each of their fields, and
/// fix-ups of data behind them: where all of these fit, its part of code in the image is the code of the functions, for the addresses that
/// the linker gives to the part and to the names of symbols.
pub fn linked_objects_have_the_code_of_their_functions()
    ensures { (os : List Object) (link : Link) (object : ℕ) (o : Object) (is_function : ℕ → Bool) (unit : List Coded) (stored : List Fix)
        → o.legacy ≡ false → o.code ≡ unit_bytes is_function 0 unit → o.fixes ≡ map fix_of (unit_fields is_function 0 unit) ++ stored
        → All (λ (f : Fix). f.part ≡ 2) stored → FixesFit os link object o
        → fixed_part os link object o 1
        ≡ linked_unit is_function (spot_of link object).code (seen_in os link object true) (seen_in os link object false) 0 unit }
{}
