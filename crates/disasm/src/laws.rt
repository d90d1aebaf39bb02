//! Laws over listings.

ghost use Rattle.std.specs.Prelude.{◌≡◌, ℕ, List};
ghost use Rattle.disasm.specs.Listing.{Lists};

/// The law that code has no two listings.
pub fn code_has_one_listing()
    ensures { (code a b : List ℕ) → Lists code a → Lists code b → a ≡ b }
{}
