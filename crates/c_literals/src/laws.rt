//! Where literals stand.

ghost use Rattle.std.specs.Prelude.{◌≡◌, ◌+◌, ◌++◌, ◌∷◌, [], ℕ, List, Some, take, slice_get};
ghost use Rattle.c_literals.specs.Laid.{none, with_literals};

/// Each literal begins where those in front of it end, and one of so many bytes ends as many bytes further on.
pub fn literals_stand_one_behind_another()
    ensures begins { (sizes : List ℕ) (n size : ℕ) → slice_get sizes n ≡ Some size → slice_get (with_literals none sizes).offsets n ≡ Some (with_literals none (take n sizes)).end }
    ensures ends { (sizes : List ℕ) (size : ℕ) → (with_literals none (sizes ++ size ∷ [])).end ≡ (with_literals none sizes).end + size }
{}
