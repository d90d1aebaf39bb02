//! Laws over words and their texts.

ghost use Rattle.asm_names.specs.Found.{WordsAreFound};

/// The law that every mnemonic, register, bounds register and size is found by its text, so that no two have one text.
pub fn words_are_found()
    ensures { WordsAreFound }
{}
