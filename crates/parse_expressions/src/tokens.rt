//! What is read of a single token.

ghost use Rattle.std.specs.Prelude.{◌≡◌, ◌≢◌, ◌<◌, ◌+◌, [], ◌∷◌, length, IfOk, MatchResult};
ghost use Rattle.c_tokens.specs.declared.class.Class.TheVariants as k;
ghost use Rattle.c_grammar.specs.Grammar.{first_of, others_of, other_prefixes, other_assigners};
ghost use Rattle.c_grammar.specs.Nodes as made;
ghost use Rattle.c_grammar.specs.Reading.{take_tok};
ghost use Rattle.parse_expressions.specs.Gives.{Gives, Opens, Closes};
ghost use Rattle.parse_expressions.specs.Levels.{level_at};

use crate::classes::{is_assigner, is_prefix};
use crate::fault::Fault;
use crate::levels::is_operator;
use crate::nodes::{character_at, number_at, text_at};
use crate::parser::{Parser, Spelled};
use c_grammar::{Mark, Named, Operand};
use c_tokens::Class;
use c_tree::Name;
use mx_base::Place;

fn mark_of(token: Spelled<'_>) -> Mark
    ensures { result ≡ record { place = token.entry.place; class = token.entry.class } }
{
    Mark {
        place: token.place,
        class: token.class,
    }
}

impl<'a> Parser<'a> {
    /// A word or mark of this class.
    #[tactic(auto, unfolding(c_grammar::specs::Reading::take_tok))]
    pub fn mark(&mut self, class: Class) -> Result<Place, Fault>
        ensures gives { Gives (take_tok made.place_of class [] self.old.depth self.old.left) result self.new }
        ensures same { IfOk result (λ _. self.new.depth ≡ self.old.depth) }
        ensures fewer { IfOk result (λ _. length self.new.left < length self.old.left) }
    {
        if self.sees(class) {
            if let Some(token) = self.next() {
                return Ok(token.place);
            }
        }
        Err(Fault::Unexpected)
    }

    /// A word or mark of this class, which opens a nesting.
    #[tactic(auto, unfolding(c_grammar::specs::Reading::take_tok), using(crate::proofs::NoToken::no_end))]
    pub fn open(&mut self, class: Class) -> Result<Place, Fault>
        requires { class ≢ k.End }
        ensures opens { Opens made.place_of class [] self.old result self.new }
        ensures fewer { IfOk result (λ _. length self.new.left < length self.old.left) }
    {
        if !self.sees(class) {
            return Err(Fault::Unexpected);
        }
        self.enter()?;
        match self.next() {
            Some(token) => Ok(token.place),
            None => Err(Fault::Unexpected),
        }
    }

    /// A word or mark of this class; then so many nestings are open.
    pub fn close(&mut self, class: Class, depth: u32) -> Result<Place, Fault>
        ensures closes { Closes (take_tok made.place_of class [] self.old.depth self.old.left) self.old.depth depth result self.new }
        ensures fewer { IfOk result (λ _. length self.new.left < length self.old.left) }
    {
        let place = self.mark(class)?;
        self.set_depth(depth);
        Ok(place)
    }

    /// An operator before its operand.
    #[tactic(auto, unfolding(c_grammar::specs::Reading::take_tok), using(crate::proofs::NoToken::no_prefix))]
    pub(crate) fn prefix(&mut self) -> Result<Mark, Fault>
        ensures opens { Opens made.mark_of k.Minus other_prefixes self.old result self.new }
        ensures fewer { IfOk result (λ _. length self.new.left < length self.old.left) }
    {
        if !is_prefix(self.peek()) {
            return Err(Fault::Unexpected);
        }
        self.enter()?;
        match self.next() {
            Some(token) => Ok(mark_of(token)),
            None => Err(Fault::Unexpected),
        }
    }

    /// An operator of an assignment.
    #[tactic(auto, unfolding(c_grammar::specs::Reading::take_tok), using(crate::proofs::NoToken::no_assigner))]
    pub(crate) fn assigner(&mut self) -> Result<Mark, Fault>
        ensures opens { Opens made.mark_of k.Assign other_assigners self.old result self.new }
        ensures fewer { IfOk result (λ _. length self.new.left < length self.old.left) }
    {
        if !is_assigner(self.peek()) {
            return Err(Fault::Unexpected);
        }
        self.enter()?;
        match self.next() {
            Some(token) => Ok(mark_of(token)),
            None => Err(Fault::Unexpected),
        }
    }

    /// An operator of a level.
    #[tactic(auto, unfolding(c_grammar::specs::Reading::take_tok), using(crate::proofs::NoToken::no_operator))]
    pub(crate) fn operator(&mut self, level: u8) -> Result<Mark, Fault>
        requires { level < 10 }
        ensures opens { Opens made.mark_of (first_of (level_at level)) (others_of (level_at level)) self.old result self.new }
        ensures fewer { IfOk result (λ _. length self.new.left < length self.old.left) }
    {
        if !is_operator(level, self.peek()) {
            return Err(Fault::Unexpected);
        }
        self.enter()?;
        match self.next() {
            Some(token) => Ok(mark_of(token)),
            None => Err(Fault::Unexpected),
        }
    }

    /// A name.
    #[tactic(auto, unfolding(c_grammar::specs::Reading::take_tok))]
    pub fn name(&mut self) -> Result<Named, Fault>
        ensures gives { Gives (take_tok made.named_of k.Name [] self.old.depth self.old.left) result self.new }
        ensures fewer { IfOk result (λ _. length self.new.left < length self.old.left) }
    {
        if self.sees(Class::Name) {
            if let Some(token) = self.next() {
                let bytes = Vec::from_slice(self.alloc(), token.text)?;
                return Ok(Named {
                    place: token.place,
                    name: Name::from_vec(bytes),
                });
            }
        }
        Err(Fault::Unexpected)
    }

    /// A number.
    #[tactic(auto, unfolding(c_grammar::specs::Reading::take_tok))]
    pub(crate) fn number(&mut self) -> Result<Operand, Fault>
        ensures gives { Gives (take_tok made.number_at k.Number [] self.old.depth self.old.left) result self.new }
        ensures fewer { IfOk result (λ _. length self.new.left < length self.old.left) }
    {
        if self.sees(Class::Number) {
            if let Some(token) = self.next() {
                return number_at(self.alloc(), token);
            }
        }
        Err(Fault::Unexpected)
    }

    /// A character.
    #[tactic(auto, unfolding(c_grammar::specs::Reading::take_tok))]
    pub(crate) fn character(&mut self) -> Result<Operand, Fault>
        ensures gives { Gives (take_tok made.character_at k.Character [] self.old.depth self.old.left) result self.new }
        ensures fewer { IfOk result (λ _. length self.new.left < length self.old.left) }
    {
        if self.sees(Class::Character) {
            if let Some(token) = self.next() {
                return character_at(self.alloc(), token);
            }
        }
        Err(Fault::Unexpected)
    }

    /// A text.
    #[tactic(auto, unfolding(c_grammar::specs::Reading::take_tok))]
    pub(crate) fn text(&mut self) -> Result<Operand, Fault>
        ensures gives { Gives (take_tok made.text_at k.Text [] self.old.depth self.old.left) result self.new }
        ensures fewer { IfOk result (λ _. length self.new.left < length self.old.left) }
    {
        if self.sees(Class::Text) {
            if let Some(token) = self.next() {
                return text_at(self.alloc(), token);
            }
        }
        Err(Fault::Unexpected)
    }
}
