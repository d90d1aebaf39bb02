//! The rule by which an element's address gets its bounds.

ghost use Rattle.std.specs.Prelude.{◌≡◌, ℕ, ◌↔◌, ◌&&◌, IsTrue};
ghost use Rattle.mx_base.specs.declared.limits.Bounds.{Bounds};
ghost use Rattle.narrowing.specs.Member.{bounds_by};
ghost use Rattle.narrowing.specs.Element.{element_bounds, element_rule};

use crate::member::Rule;
use mx_base::Flags;

/// The rule for an element of `size` bytes at `offset` bytes in its array, where `nested` says that the element is an array
/// itself. An element keeps the array's bounds, unless it is an array and narrowing goes to the innermost array.
#[tactic(auto, unfolding(crate::specs::Element::element_bounds))]
pub fn of_element(nested: bool, offset: u64, size: u64, flags: Flags) -> Rule
    ensures rule { result ≡ element_rule flags nested offset size }
    ensures bounds { (p : ℕ) (b : Bounds) → bounds_by result p b ≡ element_bounds flags nested offset size p b }
    ensures meets { (result ≡ Rule.Meet offset size) ↔ IsTrue (nested && flags.narrow && flags.innermost) }
{
    if nested && flags.narrow && flags.innermost {
        Rule::Meet { offset, size }
    } else {
        Rule::Keep
    }
}
