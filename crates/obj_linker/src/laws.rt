//! Laws of links. Each function does nothing, and its contract is the law.

ghost use Rattle.std.specs.Prelude.{◌≡◌, [], ◌∷◌, Ok, Err};
ghost use Rattle.obj_linker.specs.declared.fault.LinkFault.TheVariants.{Twice, Missing, Clash, NoMain, FarFix};
ghost use Rattle.obj_linker.specs.Faults.{linked, main_sig};
ghost use Rattle.obj_linker.specs.Image.{main_name};
ghost use Rattle.obj_linker.specs.Examples.{told_gates, alone, caller, legacy, with_symbols, symbol, g_name, g_sig, v_name, v_sig, image_alone, image_of_two};

/// Small images, and faults of names.
pub fn small_images()
    ensures one { linked told_gates (alone ∷ []) ≡ Ok image_alone }
    ensures two { linked told_gates (caller ∷ legacy ∷ []) ≡ Ok image_of_two }
    ensures none { linked told_gates [] ≡ Err NoMain }
    ensures no_main { linked told_gates (legacy ∷ []) ≡ Err (Missing main_name) }
    ensures twice { linked told_gates (alone ∷ alone ∷ []) ≡ Err (Twice main_name) }
    ensures missing { linked told_gates (caller ∷ []) ≡ Err (Missing g_name) }
    // `v` is data.
    ensures clash_of_kind { linked told_gates (alone ∷ legacy ∷ with_symbols legacy (symbol 0 0 v_name g_sig ∷ []) ∷ []) ≡ Err (Clash v_name) }
    // `g` has no signature of its own, so the first import that has one tells it.
    ensures clash { linked told_gates (caller ∷ legacy ∷ with_symbols legacy (symbol 0 0 g_name main_sig ∷ []) ∷ []) ≡ Err (Clash g_name) }
{}
