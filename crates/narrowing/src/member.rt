//! The rule by which a member's address gets its bounds.

ghost use Rattle.std.specs.Prelude.{◌≡◌, ℕ, ◌↔◌, ◌||◌, ◌&&◌, not, IsTrue};
ghost use Rattle.mx_base.specs.declared.limits.Bounds.{Bounds};
ghost use Rattle.narrowing.specs.Member.{bounds_by, member_bounds, member_rule};

use mx_base::Flags;

/// What the bounds of an address become for the address of a part there, which is a member or an element: they stay, or they
/// are met with the bytes of the part, which are `size` bytes from the address plus `offset` on.
#[derive(Clone, Copy, Debug, PartialEq, Eq)]
pub enum Rule {
    Keep,
    Meet { offset: u64, size: u64 },
}

/// The rule for a member of `size` bytes at `offset` bytes in its struct. `first` says that it is the struct's first member:
/// it keeps the struct's bounds, so that a pointer to it can be made a pointer to the whole struct again, unless first members
/// have bounds of their own. `trailing` says that it is the last member and an array: it keeps them where such arrays are
/// flexible. And every member does where narrowing is off.
#[tactic(auto, unfolding(crate::specs::Member::member_bounds))]
pub fn of_member(first: bool, trailing: bool, offset: u64, size: u64, flags: Flags) -> Rule
    ensures rule { result ≡ member_rule flags first trailing offset size }
    ensures bounds { (p : ℕ) (b : Bounds) → bounds_by result p b ≡ member_bounds flags first trailing offset size p b }
    ensures keeps { (result ≡ Rule.Keep) ↔ IsTrue (not flags.narrow || (first && not flags.first_own) || (trailing && flags.flexible)) }
{
    if !flags.narrow || first && !flags.first_own || trailing && flags.flexible {
        Rule::Keep
    } else {
        Rule::Meet { offset, size }
    }
}
