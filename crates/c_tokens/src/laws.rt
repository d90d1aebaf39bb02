//! Laws of tokens, for whoever holds tokens by their definition alone. The functions do nothing: their contracts are
//! the laws.

ghost use Rattle.std.specs.Prelude.{◌≡◌, ◌↔◌, ℕ, List, [], ◌∷◌, length, Ok, Err, All};
ghost use Rattle.c_tokens.specs.declared.token.Token.{Token};
ghost use Rattle.mx_base.specs.declared.places.Place.{Place};
ghost use Rattle.c_tokens.specs.Cuts.{Cut, FirstBad, IsBadByte, IsBadNumber, IsLongName, IsOpenText};
ghost use Rattle.c_tokens.specs.declared.fault.TokenFault.TheVariants as fault;
ghost use Rattle.c_tokens.specs.Lexical.{IsLongestOf, IsQuoted};
ghost use Rattle.c_tokens.specs.Quotes.{text_of, character_of};
ghost use Rattle.c_tokens.specs.Tokens.{tokens_of};

/// Each token of a text is a token by its bytes, and no longer front of the text that begins there is one.
pub fn tokens_are_longest()
    ensures { (file : ℕ) (bytes : List ℕ) (found : List Token) → tokens_of file bytes ≡ Ok found → All (IsLongestOf bytes) found }
{}

/// The tokens of a text cut the whole of it: each stands in its place, in order and apart, and all that stands between them is
/// white space and comments.
pub fn tokens_stand()
    ensures { (file : ℕ) (bytes : List ℕ) (found : List Token) → (tokens_of file bytes ≡ Ok found) ↔ Cut file bytes (length bytes) 0 found }
{}

/// A text is refused as `BadByte` exactly where its first bad piece is a byte that begins no token; the place is that of this byte.
pub fn bad_bytes_begin_no_token()
    ensures { (file : ℕ) (bytes : List ℕ) (place : Place) → (tokens_of file bytes ≡ Err (fault.BadByte place)) ↔ FirstBad IsBadByte file bytes place }
{}

/// A text is refused as `BadNumber` exactly where its first bad piece is a run of letters, digits and `_` that begins with a digit and is
/// no number, or one that no type holds; the place is that of its first byte.
pub fn bad_numbers_are_runs()
    ensures { (file : ℕ) (bytes : List ℕ) (place : Place) → (tokens_of file bytes ≡ Err (fault.BadNumber place)) ↔ FirstBad IsBadNumber file bytes place }
{}

/// A text is refused as `LongName` exactly where its first bad piece is a name of more than 63 bytes; the place is that of its first byte.
pub fn long_names_are_runs()
    ensures { (file : ℕ) (bytes : List ℕ) (place : Place) → (tokens_of file bytes ≡ Err (fault.LongName place)) ↔ FirstBad IsLongName file bytes place }
{}

/// A text is refused as `OpenText` exactly where its first bad piece is a quote that begins no text and no character, or a comment that is
/// never closed; the place is that of its first byte.
pub fn open_texts_are_unended()
    ensures { (file : ℕ) (bytes : List ℕ) (place : Place) → (tokens_of file bytes ≡ Err (fault.OpenText place)) ↔ FirstBad IsOpenText file bytes place }
{}

/// A text stands for these bytes exactly where they are spelled between its quotes.
pub fn texts_are_quoted()
    ensures { (text bytes : List ℕ) → (text_of text ≡ Some bytes) ↔ IsQuoted 34 text bytes }
{}

/// A character stands for this byte exactly where it alone is spelled between its quotes.
pub fn characters_are_quoted()
    ensures { (text : List ℕ) (b : ℕ) → (character_of text ≡ Some b) ↔ IsQuoted 39 text (b ∷ []) }
{}
