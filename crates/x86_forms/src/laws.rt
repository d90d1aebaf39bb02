//! Laws over instructions and their spellings.

ghost use Rattle.x86_forms.specs.Room.{SpellingsAreShort};

/// The law that the spelling of every valid instruction has one to fifteen bytes.
pub fn short_spellings()
    ensures { SpellingsAreShort }
{}
