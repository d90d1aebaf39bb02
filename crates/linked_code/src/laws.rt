//! Laws of linked code. Each function does nothing, and its contract is the law.

ghost use Rattle.std.specs.Prelude.{◌≡◌, ◌≤◌, ◌+◌, ◌++◌, ℕ, Bool, true, false, Option, List, length, map};
ghost use Rattle.std.specs.List.{All, fold};
ghost use Rattle.mx_base.specs.StopOfC.{AccessOfC};
ghost use Rattle.fat_ir.specs.declared.program.FatFun.{FatFun};
ghost use Rattle.fat_ir.specs.declared.step.FatStep.{FatStep};
ghost use Rattle.fat_ir.specs.Functions.{Parameter};
ghost use Rattle.obj_file.specs.declared.object.Object.{Object};
ghost use Rattle.step_code.specs.Steps.{Plan};
ghost use Rattle.step_code.specs.Functions.{bytes_of_function, steps_at, return_at};
ghost use Rattle.step_code.specs.Bytes.{places_of_steps, AllHere};
ghost use Rattle.code_emit.specs.declared.fields.Field.{Field};
ghost use Rattle.code_emit.specs.Unlinked.{unlinked_function, function_labels, fields_of_steps};
ghost use Rattle.linked_code.specs.Filled.{fix_of, fixes_of_function, with_symbols, unlinked_plan, linked_layout};
ghost use Rattle.linked_code.specs.Filled.{Fits, all_filled, seen_in};
ghost use Rattle.linked_code.specs.Labelled.{LabelsFit, Tells};
ghost use Rattle.obj_linker.specs.declared.plan.Plan.{Plan as Link};
ghost use Rattle.obj_linker.specs.Placement.{spot_of};
ghost use Rattle.obj_linker.specs.Fixing.{fixed};

/// The bytes of a function before the link stand in a part of code between others. With the values of its fix-ups in their fields they are
/// the code of the function, where the part stands at an address and its symbols where the linker has them; what stands before and behind
/// stays. Each value is one that its field takes.
pub fn linked_code_is_the_code_of_its_function()
    ensures { (p : Plan) (is_function : ℕ → Bool) (f : FatFun) (parameters : List Parameter) (units : ℕ) (first last : ℕ → ℕ)
        (labels : List ℕ) (code : ℕ) (entry_at address : ℕ → ℕ) (before behind : List ℕ)
        → All (Fits code entry_at address) (fixes_of_function p is_function f parameters units (length before))
        → all_filled code entry_at address
        (before ++ (unlinked_function (unlinked_plan p is_function) f parameters units labels (length before) ++ behind))
        (fixes_of_function p is_function f parameters units (length before))
        ≡ before ++ (bytes_of_function f parameters (linked_layout (with_symbols p is_function address) units first last code labels)
        entry_at (code + length before) ++ behind) }
{}

/// Each label of a linked function is where it stands, that of the end with them, and each check has its access. The labels are noted in a
/// list with room for each; no two are the same. An image tells the accesses of the function's places of checks.
pub fn linked_labels_are_where_they_stand()
    ensures steps { (p : Plan) (is_function : ℕ → Bool) (f : FatFun) (parameters : List Parameter) (units : ℕ) (first last : ℕ → ℕ)
        (labels : List ℕ) (code : ℕ) (entry_at address : ℕ → ℕ) (access_of : ℕ → Option AccessOfC) (at : ℕ)
        → LabelsFit p.exit (length labels) f.steps
        → All (Fits code entry_at address) (fixes_of_function p is_function f parameters units at)
        → let noted = function_labels (unlinked_plan p is_function) f parameters units at labels in
        let l = linked_layout (with_symbols p is_function address) units first last code noted in
        All (Tells access_of) (places_of_steps l.plan (steps_at f parameters l (code + at)) f.steps)
        → AllHere l.plan l.label_at access_of (steps_at f parameters l (code + at)) f.steps }
    ensures end { (p : Plan) (is_function : ℕ → Bool) (f : FatFun) (parameters : List Parameter) (units : ℕ) (first last : ℕ → ℕ)
        (labels : List ℕ) (code : ℕ) (entry_at address : ℕ → ℕ) (at : ℕ)
        → LabelsFit p.exit (length labels) f.steps
        → All (Fits code entry_at address) (fixes_of_function p is_function f parameters units at)
        → let noted = function_labels (unlinked_plan p is_function) f parameters units at labels in
        let l = linked_layout (with_symbols p is_function address) units first last code noted in
        l.label_at l.plan.exit ≡ return_at f parameters l (code + at) }
{}

/// So does the linker fill the fields of instrumented code: a call goes to the inner entry of a C function or to the stub of a legacy
/// function, and a symbol's address is that of its outer entry or of the symbol itself.
pub fn the_linker_fills_fields_so()
    ensures { (os : List Object) (link : Link) (object : ℕ) (o : Object) (bytes : List ℕ) (fields : List Field) → o.legacy ≡ false
        → fold (fixed os link object o 1) bytes (map fix_of fields)
        ≡ all_filled (spot_of link object).code (seen_in os link object true) (seen_in os link object false) bytes (map fix_of fields) }
{}

/// Steps have at most as many fields that the linker fills as they are: one for a call, and one where a symbol's address is placed.
pub fn steps_have_few_fix_ups()
    ensures { (p : Plan) (at : ℕ) (steps : List FatStep) → length (fields_of_steps p at steps) ≤ length steps }
{}
