//! Laws of the elaboration of a source. Each function does nothing, and its contract is the law.

ghost use Rattle.std.specs.Prelude.{◌≡◌, ◌≤◌, ℕ, ◌+◌, ℤ, true};
ghost use Rattle.mx_base.specs.declared.numbers.IntKind.{IntKind};
ghost use Rattle.mx_base.specs.Numbers.{IsNumberOf, value_of, word_of};
ghost use Rattle.mx_base.specs.declared.settings.Flags.{Flags as FlagsOf};
ghost use Rattle.c_tree.specs.declared.tree.Tree.{Tree as TreeOf};
ghost use Rattle.bounds_plan.specs.elaboration.Types.{keeps};
ghost use Rattle.bounds_plan.specs.elaboration.Source.{Meanings, SourceLayout};
ghost use Rattle.bounds_plan.specs.elaboration.Functions.{elaborated, signatures_of};
ghost use Rattle.bounds_plan.specs.elaboration.Waits.{items_waits};
ghost use Rattle.bounds_plan.specs.elaboration.Laws.{TakesParameters, AllFit, HaveFewParameters, AllTakeFew, HaveFewPrivates, HaveFewVariables, AllNeed, AllCopyInside, AllAssignable, AllNameTheirOwn};

/// Every function that a tree is elaborated to is as its steps have it, whatever its tree and layout are: its private parameters
/// have the first of its private values, its body names only private values of the right sort, and each call gives as many
/// arguments as its symbol takes, if that is as many as the called function has parameters. So the steps of the function do
/// what it means.
pub fn elaborated_functions_fit()
    ensures { (tree : TreeOf) (meanings : Meanings) (layout : SourceLayout) (flags : FlagsOf) (takes : ℕ → ℕ) → TakesParameters takes layout (signatures_of tree meanings layout flags) → AllFit takes (elaborated tree meanings layout flags) }
{}

/// The steps of each function of a source need at most eight pairs of temporaries more than values wait at one place of its tree,
/// if no function has more than six parameters: where at most 80 values wait, the 88 pairs that functions have are enough.
pub fn elaborated_functions_need_few_temporaries()
    ensures { (tree : TreeOf) (meanings : Meanings) (layout : SourceLayout) (flags : FlagsOf) → HaveFewParameters (signatures_of tree meanings layout flags) → AllNeed (items_waits tree.items + 8) (elaborated tree meanings layout flags) }
{}

/// Functions that are declared with at most six parameters, and have at most 64 private variables each by the layout, have so many
/// where they are elaborated, and so have those that they call.
pub fn elaborated_functions_have_few_variables()
    ensures called { (tree : TreeOf) (meanings : Meanings) (layout : SourceLayout) (flags : FlagsOf) → AllTakeFew tree.items → HaveFewPrivates layout → HaveFewParameters (signatures_of tree meanings layout flags) }
    ensures defined { (tree : TreeOf) (meanings : Meanings) (layout : SourceLayout) (flags : FlagsOf) → AllTakeFew tree.items → HaveFewPrivates layout → HaveFewVariables (elaborated tree meanings layout flags) }
{}

/// Homes can be given to the values of each function that a tree is elaborated to, where no function has more than six parameters or
/// 64 private variables, and at most 80 values wait at one place: its steps name as many numbers and bounds as it has, and no step
/// lies in the spans of more than 152 of either.
pub fn elaborated_functions_are_assignable()
    ensures { (tree : TreeOf) (meanings : Meanings) (layout : SourceLayout) (flags : FlagsOf) (takes : ℕ → ℕ) → TakesParameters takes layout (signatures_of tree meanings layout flags) → AllTakeFew tree.items → HaveFewPrivates layout → items_waits tree.items ≤ 80 → AllAssignable (elaborated tree meanings layout flags) }
{}

/// In the body of each function that a tree is elaborated to, the scalars of each struct that is copied lie inside it.
pub fn elaborated_functions_copy_inside()
    ensures { (tree : TreeOf) (meanings : Meanings) (layout : SourceLayout) (flags : FlagsOf) → AllCopyInside (elaborated tree meanings layout flags) }
{}

/// Each function that a tree is elaborated to names in its body no variables of the data frame but those that it has, with their
/// offsets and sizes, no private pointers but those that have bounds, and no symbols but those of the layout: the beginning of a global or
/// of a function, or a literal. Of the sizes of globals and literals nothing is said.
pub fn elaborated_functions_name_their_own()
    ensures { (layout : SourceLayout) (tree : TreeOf) (meanings : Meanings) (flags : FlagsOf) → AllNameTheirOwn layout (elaborated tree meanings layout flags) }
{}

/// A number goes from one integer type to another by its word exactly where every number of the first type is one of the second.
/// There its word stands for the same number, so nothing is lost.
pub fn kept_words_lose_nothing()
    ensures kept { (from to : IntKind) → keeps from to ≡ true → (n : ℤ) → IsNumberOf from n → IsNumberOf to n }
    ensures only { (from to : IntKind) → ((n : ℤ) → IsNumberOf from n → IsNumberOf to n) → keeps from to ≡ true }
    ensures word { (from to : IntKind) → keeps from to ≡ true → (n : ℤ) → IsNumberOf from n → value_of to (word_of n) ≡ n }
{}
