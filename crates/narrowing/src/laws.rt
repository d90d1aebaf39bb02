//! Laws of the bounds of members and elements. Each function does nothing, and its contract is the law.

ghost use Rattle.std.specs.Prelude.{◌≡◌, ℕ, ◌≤◌, Bool, false, true};
ghost use Rattle.mx_base.specs.declared.limits.Bounds.{Bounds};
ghost use Rattle.mx_base.specs.declared.settings.Flags.{Flags as FlagsOf};
ghost use Rattle.mx_base.specs.Bounds.{moved, is_outside, last_byte};
ghost use Rattle.narrowing.specs.Member.{member_bounds, member_keeps};
ghost use Rattle.narrowing.specs.Element.{element_bounds, element_meets};

/// The law that narrowing only takes addresses away: an access that the bounds of a member allow, the bounds of its struct
/// allow too; and narrowed bounds allow no access that begins before the member's bytes or ends behind them.
pub fn members_stay_within()
    ensures within { (flags : FlagsOf) (first trailing : Bool) (offset size p q s : ℕ) (b : Bounds) → is_outside q s (member_bounds flags first trailing offset size p b) ≡ false → is_outside q s b ≡ false }
    ensures narrowed { (flags : FlagsOf) (first trailing : Bool) (offset size p q s : ℕ) (b : Bounds) → member_keeps flags first trailing ≡ false → 1 ≤ size → is_outside q s (member_bounds flags first trailing offset size p b) ≡ false → (moved p offset ≤ q) × (last_byte q s ≤ last_byte (moved p offset) size) }
{}

/// The same of an element and its array.
pub fn elements_stay_within()
    ensures within { (flags : FlagsOf) (nested : Bool) (offset size p q s : ℕ) (b : Bounds) → is_outside q s (element_bounds flags nested offset size p b) ≡ false → is_outside q s b ≡ false }
    ensures narrowed { (flags : FlagsOf) (nested : Bool) (offset size p q s : ℕ) (b : Bounds) → element_meets flags nested ≡ true → 1 ≤ size → is_outside q s (element_bounds flags nested offset size p b) ≡ false → (moved p offset ≤ q) × (last_byte q s ≤ last_byte (moved p offset) size) }
{}

/// Where narrowing is off no other flag has an effect: members and elements have the bounds of their structs and arrays.
pub fn bounds_stay_without_narrowing()
    ensures members { (flags : FlagsOf) (first trailing : Bool) (offset size p : ℕ) (b : Bounds) → flags.narrow ≡ false → member_bounds flags first trailing offset size p b ≡ b }
    ensures elements { (flags : FlagsOf) (nested : Bool) (offset size p : ℕ) (b : Bounds) → flags.narrow ≡ false → element_bounds flags nested offset size p b ≡ b }
{}
