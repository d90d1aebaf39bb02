//! Laws over spellings.

ghost use Rattle.x86_decode.specs.Reading.{OneForm};

/// The law that no spelling is a prefix of another, and that no bytes spell two instructions.
pub fn one_form()
    ensures { OneForm }
{}
