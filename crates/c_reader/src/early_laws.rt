//! Laws of the early form, which hold of its definitions alone.
ghost use Rattle.c_reader.specs.Spelling.{TokensAreSpelled, PartsAreUnique};

/// A text has just the tokens that it spells, with blanks between them, needed only between two that are letters and
/// digits.
#[tactic(auto, using(crate::proofs::Spellings::tokens_are_spelled))]
pub fn tokens_are_spelled()
    ensures { TokensAreSpelled }
{}

/// Bytes of the early form are so in one way.
pub fn parts_are_unique()
    ensures { PartsAreUnique }
{}
