//! The tokens that are left to be read, and what is read of a single one.

ghost use Rattle.std.specs.Prelude.{◌≡◌, ◌-◌, ◌+◌, ◌<◌, true, false, [], ◌∷◌, length, take, drop, ◌↔◌, IsTrue, MatchOption, MatchResult};
ghost use Rattle.c_grammar.specs.Lexemes.{lexemes, same, look};
ghost use Rattle.c_grammar.specs.Program.{place_at};
ghost use Rattle.c_grammar.specs.Reading.{limit};
ghost use Rattle.parse_expressions.specs.declared.fault.Fault.TheVariants as fault;

use crate::classes::same_class;
use crate::fault::Fault;
use c_tokens::{Class, Token};
use mx_base::Place;
use std::alloc::Global;
use std::marker::Model;

/// A token and its bytes.
#[derive(Clone, Copy)]
pub struct Spelled<'a> {
    pub place: Place,
    pub class: Class,
    pub text: &'a [u8],
}

/// The tokens of a text that are left to be read, and how many nestings are open.
#[derive(Drop)]
pub struct Parser<'a> {
    alloc: Global,
    bytes: &'a [u8],
    rest: &'a [Token],
    depth: u32,
}

impl<'a> Model for Parser<'a> {
    ghost use Rattle.parse_expressions.specs.At.{At};

    ghost Value = { At };

    ghost use Rattle.c_grammar.specs.Lexemes.{lexemes};

    ghost view = { λ p. record { left = lexemes p.bytes.now p.rest.now; depth = p.depth } };
}

/// The bytes of a token.
#[tactic(auto, using(std::proofs::lemmas::List::drop_min, std::proofs::lemmas::List::take_min))]
fn spelling(bytes: &[u8], token: Token) -> &[u8]
    ensures { result.now ≡ take (token.to - token.from) (drop token.from bytes.now) }
{
    let (_, rest) = bytes.split_at(bytes.len().min(token.from as usize));
    let size = token.to.saturating_sub(token.from) as usize;
    let (text, _) = rest.split_at(rest.len().min(size));
    text
}

impl<'a> Parser<'a> {
    /// Stands before the first of these tokens of a text, where no nesting is open.
    pub fn new(alloc: Global, tokens: &'a [Token], bytes: &'a [u8]) -> Parser<'a>
        ensures { result ≡ record { left = lexemes bytes.now tokens.now; depth = 0 } }
    {
        Parser {
            alloc,
            bytes,
            rest: tokens,
            depth: 0,
        }
    }

    /// The allocator of what is read.
    pub fn alloc(&self) -> Global {
        self.alloc
    }

    /// The class of the next token, `End` where there is none.
    pub fn peek(&self) -> Class
        ensures { result ≡ look self.now.left }
    {
        match self.rest.first() {
            Some(token) => token.class,
            None => Class::End,
        }
    }

    /// Whether the next token is of this class.
    pub fn sees(&self, class: Class) -> bool
        ensures { result ≡ same (look self.now.left) class }
    {
        same_class(self.peek(), class)
    }

    /// Whether no token is left.
    pub fn is_done(&self) -> bool
        ensures { IsTrue result ↔ (self.now.left ≡ []) }
    {
        self.rest.is_empty()
    }

    /// The place of the next token, or this one where there is none.
    pub fn place(&self, end: Place) -> Place
        ensures { result ≡ place_at self.now.left end }
    {
        match self.rest.first() {
            Some(token) => token.place,
            None => end,
        }
    }

    /// How many nestings are open.
    pub fn depth(&self) -> u32
        ensures { result ≡ self.now.depth }
    {
        self.depth
    }

    /// Ends nestings, or opens some, so that so many are open.
    pub fn set_depth(&mut self, depth: u32)
        ensures { self.new ≡ record { left = self.old.left; depth = depth } }
    {
        self.depth = depth;
    }

    /// Opens one nesting more, if at most 200 are open then.
    pub fn enter(&mut self) -> Result<(), Fault>
        ensures ok { MatchResult result (λ _. (limit self.old.depth ≡ true) × (self.new ≡ record { left = self.old.left; depth = self.old.depth + 1 })) (λ e. (limit self.old.depth ≡ false) × (e ≡ fault.Deep) × (self.new ≡ self.old)) }
    {
        if self.depth < 200 {
            self.depth += 1;
            Ok(())
        } else {
            Err(Fault::Deep)
        }
    }

    /// The next token, and goes past it.
    pub(crate) fn next(&mut self) -> Option<Spelled<'a>>
        ensures { MatchOption result ((self.old.left ≡ []) × (self.new ≡ self.old)) (λ t. (self.old.left ≡ record { place = t.place; class = t.class; text = t.text.now } ∷ self.new.left) × (self.new.depth ≡ self.old.depth)) }
    {
        let (token, rest) = self.rest.split_first()?;
        self.rest = rest;
        Some(Spelled {
            place: token.place,
            class: token.class,
            text: spelling(self.bytes, *token),
        })
    }
}
