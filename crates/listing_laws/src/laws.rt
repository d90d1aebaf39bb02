//! Laws of listings.

ghost use Rattle.listing_laws.specs.Read.{LinesAreRead, ListingsAreRead};

/// The line of every valid instruction is read as that instruction.
pub fn valid_instructions_are_lines()
    ensures { LinesAreRead }
{}

/// The text of code is assembled to the object of this code alone.
pub fn listings_are_read_back()
    ensures { ListingsAreRead }
{}
