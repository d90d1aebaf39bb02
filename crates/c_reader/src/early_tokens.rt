//! The tokens of a text of the early form, one after another.
ghost use Rattle.std.specs.Prelude.{◌≡◌, ◌≤◌, [], ◌∷◌, length, MatchOption, false};
ghost use Rattle.std.specs.List.{prefix_len};
ghost use Rattle.c_reader.specs.EarlyForm as form;
ghost use Rattle.c_reader.specs.EarlyForm.{tokens_of};
ghost use Rattle.c_reader.specs.EarlyReading as reading;
ghost use Rattle.c_reader.specs.EarlyReading.{begins_blank, Gives, left};

use crate::early::EarlyFault;

fn is_blank(b: u8) -> bool
    ensures { result ≡ form.is_blank b }
{
    b == b' ' || b == b'\n'
}

fn is_word(b: u8) -> bool
    ensures { result ≡ form.is_word b }
{
    b.is_ascii_alphanumeric()
}

/// How many blanks stand in front.
fn blank_len(text: &[u8]) -> usize
    ensures value { result ≡ prefix_len form.is_blank text.now }
    ensures within { result ≤ length text.now }
{
    text.iter().take_while(|b| is_blank(**b)).count()
}

/// How many letters and digits stand in front.
fn word_len(text: &[u8]) -> usize
    ensures value { result ≡ prefix_len form.is_word text.now }
    ensures within { result ≤ length text.now }
{
    text.iter().take_while(|b| is_word(**b)).count()
}

/// The text from its first byte on that is no blank.
#[tactic(auto, using(crate::proofs::Tokens::blanks_in_front, crate::proofs::Tokens::solid_in_front))]
fn after_blanks(text: &[u8]) -> &[u8]
    ensures tokens { tokens_of result.now ≡ tokens_of text.now }
    ensures begins { begins_blank result.now ≡ false }
{
    text.split_at(blank_len(text)).1
}

/// A text, from the place on that its reader has come to.
#[derive(Clone, Copy)]
pub(crate) struct Cursor<'a> {
    rest: &'a [u8],
}

impl<'a> Cursor<'a> {
    pub(crate) fn new(text: &'a [u8]) -> Self
        ensures { left result ≡ tokens_of text.now }
    {
        Cursor { rest: text }
    }

    /// Moves past the next token, if there is one, and gives its bytes.
    #[tactic(auto, using(crate::proofs::Tokens::token_in_front))]
    pub(crate) fn token(&mut self) -> Option<&'a [u8]>
        ensures { MatchOption result ((left self.old ≡ []) × (left self.new ≡ []))
            (λ token. left self.old ≡ token.now ∷ left self.new) }
    {
        let text = after_blanks(self.rest);
        if text.is_empty() {
            return None;
        }
        let (token, rest) = text.split_at(word_len(text).max(1));
        self.rest = rest;
        Some(token)
    }

    /// Whether this is the next token.
    pub(crate) fn sees(&self, word: &[u8]) -> bool
        ensures { result ≡ reading.sees word.now (left self.now) }
    {
        let mut ahead = *self;
        match ahead.token() {
            Some(token) => token == word,
            None => false,
        }
    }

    /// Moves past this token.
    pub(crate) fn expect(&mut self, word: &[u8]) -> Result<(), EarlyFault>
        ensures { Gives (reading.exactly (word.now ∷ []) (left self.old)) result (left self.new) }
    {
        match self.token() {
            Some(token) if token == word => Ok(()),
            _ => Err(EarlyFault::Unbuilt),
        }
    }

    /// Moves past the tokens of this text.
    pub(crate) fn expect_all(&mut self, text: &[u8]) -> Result<(), EarlyFault>
        ensures { Gives (reading.exactly (tokens_of text.now) (left self.old)) result (left self.new) }
    {
        let mut wanted = Cursor::new(text);
        while let Some(word) = wanted.token() {
            self.expect(word)?;
        }
        Ok(())
    }
}
