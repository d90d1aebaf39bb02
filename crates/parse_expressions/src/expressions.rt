//! Expressions. Each function reads what a rule of the grammar reads, or stops at the token where that does.

ghost use Rattle.std.specs.Prelude.{◌≡◌, ◌<◌, ◌≤◌, false, [], length, IfOk};
ghost use Rattle.c_tokens.specs.declared.class.Class.TheVariants as k;
ghost use Rattle.c_grammar.specs.Lexemes.{look};
ghost use Rattle.c_grammar.specs.Nodes as made;
ghost use Rattle.c_grammar.specs.Reading.{parse, steps_of, limit};
ghost use Rattle.c_grammar.specs.Rules as n;
ghost use Rattle.parse_expressions.specs.Fragments as parts;
ghost use Rattle.parse_expressions.specs.Gives.{Gives, through};
ghost use Rattle.parse_expressions.specs.Levels.{sides, is_within};

use crate::classes::{begins_expression, begins_part, begins_type, is_assigner, is_prefix};
use crate::fault::Fault;
use crate::levels::{LEVELS, level_within};
use crate::nodes::{
    assigned, called, cast_at, chosen, enclosed, indexed, joined, member, pointed, prefixed,
    size_of_kind, size_of_value, stepped, variable,
};
use crate::parser::Parser;
use c_grammar::{KindName, Operand};
use c_tokens::Class;
use c_tree::Expr;
use mx_base::Place;
use sqlite_items::Items;

impl<'a> Parser<'a> {
    /// An expression.
    #[cycle(expressions)]
    #[tactic(auto, using(crate::proofs::Steps::step_assignment, crate::proofs::Steps::step_assignment_tail))]
    pub fn assignment(&mut self) -> Result<Operand, Fault>
        ensures gives { Gives (parse limit n.Assignment self.old.depth self.old.left) result self.new }
        ensures fewer { IfOk result (λ _. length self.new.left < length self.old.left) }
    {
        let left = self.conditional()?;
        if !is_assigner(self.peek()) {
            return Ok(left);
        }
        let op = self.assigner()?;
        let right = self.assignment()?;
        assigned(self.alloc(), op, left, right)
    }

    /// An expression without assignment.
    #[cycle(expressions)]
    #[tactic(auto, using(crate::proofs::Steps::step_conditional, crate::proofs::Steps::step_conditional_tail))]
    pub fn conditional(&mut self) -> Result<Operand, Fault>
        ensures gives { Gives (parse limit n.Conditional self.old.depth self.old.left) result self.new }
        ensures fewer { IfOk result (λ _. length self.new.left < length self.old.left) }
    {
        let test = self.binary(LEVELS)?;
        if !self.sees(Class::Question) {
            return Ok(test);
        }
        self.open(Class::Question)?;
        let then = self.assignment()?;
        self.mark(Class::Colon)?;
        let other = self.conditional()?;
        chosen(self.alloc(), test, then, other)
    }

    /// Operands, and the operators of the first so many levels between them.
    #[cycle(expressions)]
    #[tactic(auto, using(crate::proofs::Climbs::climb_begins, crate::proofs::Climbs::climb_stops, crate::proofs::Climbs::climb_none, crate::proofs::Climbs::climb_turn, crate::proofs::Climbs::climb_right_stops, crate::proofs::Climbs::climb_deep))]
    fn binary(&mut self, levels: u8) -> Result<Operand, Fault>
        requires { levels ≤ 10 }
        ensures gives { Gives (sides levels self.old.depth self.old.left) result self.new }
        ensures after { IfOk result (λ _. is_within levels (look self.new.left) ≡ false) }
        ensures fewer { IfOk result (λ _. length self.new.left < length self.old.left) }
    {
        let mut left = self.unary()?;
        while let Some(level) = level_within(levels, self.peek()) {
            let op = self.operator(level)?;
            let right = self.binary(level)?;
            left = joined(self.alloc(), op, left, right)?;
        }
        Ok(left)
    }

    /// An operand with the operators before it and the parts after it.
    #[cycle(expressions)]
    #[tactic(auto, using(crate::proofs::Steps::step_unary))]
    fn unary(&mut self) -> Result<Operand, Fault>
        ensures gives { Gives (parse limit n.Unary self.old.depth self.old.left) result self.new }
        ensures fewer { IfOk result (λ _. length self.new.left < length self.old.left) }
    {
        if !self.sees(Class::OpenParen) {
            return self.plain();
        }
        let start = self.open(Class::OpenParen)?;
        self.opened(start)
    }

    /// What stands after a parenthesis that begins at a place: a cast, or an expression with the parts after it.
    #[cycle(expressions)]
    #[tactic(auto, using(crate::proofs::Steps::step_opened))]
    fn opened(&mut self, start: Place) -> Result<Operand, Fault>
        ensures gives { Gives (through (λ f. f start) (parse limit n.Opened self.old.depth self.old.left)) result self.new }
        ensures fewer { IfOk result (λ _. length self.new.left < length self.old.left) }
    {
        if !begins_type(self.peek()) {
            let inner = self.inside()?;
            return self.parts(enclosed(start, inner));
        }
        let kind = self.type_name()?;
        self.mark(Class::CloseParen)?;
        let operand = self.unary()?;
        cast_at(self.alloc(), start, kind, operand)
    }

    /// An expression and the parenthesis that ends it, and with it the nesting of the first one.
    #[cycle(expressions)]
    fn inside(&mut self) -> Result<Operand, Fault>
        ensures gives { Gives (steps_of parts.inside self.old.depth self.old.left) result self.new }
        ensures fewer { IfOk result (λ _. length self.new.left < length self.old.left) }
    {
        let outer = self.depth().saturating_sub(1);
        let inner = self.assignment()?;
        self.close(Class::CloseParen, outer)?;
        Ok(inner)
    }

    /// A type and the parenthesis that ends it, and with it the nesting of the first one.
    fn type_inside(&mut self) -> Result<KindName, Fault>
        ensures gives { Gives (steps_of parts.type_inside self.old.depth self.old.left) result self.new }
        ensures fewer { IfOk result (λ _. length self.new.left < length self.old.left) }
    {
        let outer = self.depth().saturating_sub(1);
        let kind = self.type_name()?;
        self.close(Class::CloseParen, outer)?;
        Ok(kind)
    }

    /// An operand that begins with no parenthesis.
    #[cycle(expressions)]
    #[tactic(auto, using(crate::proofs::Steps::step_plain))]
    fn plain(&mut self) -> Result<Operand, Fault>
        ensures gives { Gives (parse limit n.Plain self.old.depth self.old.left) result self.new }
        ensures fewer { IfOk result (λ _. length self.new.left < length self.old.left) }
    {
        if is_prefix(self.peek()) {
            let op = self.prefix()?;
            let operand = self.unary()?;
            return prefixed(self.alloc(), op, operand);
        }
        if self.sees(Class::SizeOf) {
            let start = self.open(Class::SizeOf)?;
            return self.sized(start);
        }
        let base = self.atom()?;
        self.parts(base)
    }

    /// What stands after a `sizeof` that begins at a place.
    #[cycle(expressions)]
    #[tactic(auto, using(crate::proofs::Steps::step_sized))]
    fn sized(&mut self, start: Place) -> Result<Operand, Fault>
        ensures gives { Gives (through (λ f. f start) (parse limit n.Sized self.old.depth self.old.left)) result self.new }
        ensures fewer { IfOk result (λ _. length self.new.left < length self.old.left) }
    {
        if self.sees(Class::OpenParen) {
            let inner = self.open(Class::OpenParen)?;
            return self.sized_opened(start, inner);
        }
        let operand = self.plain()?;
        size_of_value(self.alloc(), start, operand)
    }

    /// What stands after a `sizeof` and its parenthesis: a type, or an expression with the parts after it.
    #[cycle(expressions)]
    #[tactic(auto, using(crate::proofs::Steps::step_sized_opened))]
    fn sized_opened(&mut self, start: Place, inner: Place) -> Result<Operand, Fault>
        ensures gives { Gives (through (λ f. f start inner) (parse limit n.SizedOpened self.old.depth self.old.left)) result self.new }
        ensures fewer { IfOk result (λ _. length self.new.left < length self.old.left) }
    {
        if begins_type(self.peek()) {
            let kind = self.type_inside()?;
            return size_of_kind(self.alloc(), start, kind);
        }
        let within = self.inside()?;
        let operand = self.parts(enclosed(inner, within))?;
        size_of_value(self.alloc(), start, operand)
    }

    /// A number, a character, a text, a variable or a call.
    #[cycle(expressions)]
    #[tactic(auto, using(crate::proofs::Steps::step_atom))]
    fn atom(&mut self) -> Result<Operand, Fault>
        ensures gives { Gives (parse limit n.Atom self.old.depth self.old.left) result self.new }
        ensures fewer { IfOk result (λ _. length self.new.left < length self.old.left) }
    {
        if self.sees(Class::Number) {
            return self.number();
        }
        if self.sees(Class::Character) {
            return self.character();
        }
        if self.sees(Class::Text) {
            return self.text();
        }
        self.named()
    }

    /// A variable or a call.
    #[cycle(expressions)]
    #[tactic(auto, using(crate::proofs::Steps::step_maybe_call))]
    fn named(&mut self) -> Result<Operand, Fault>
        ensures gives { Gives (steps_of parts.named self.old.depth self.old.left) result self.new }
        ensures fewer { IfOk result (λ _. length self.new.left < length self.old.left) }
    {
        let name = self.name()?;
        if !self.sees(Class::OpenParen) {
            return variable(self.alloc(), name);
        }
        let depth = self.depth();
        self.open(Class::OpenParen)?;
        let args = self.arguments()?;
        self.close(Class::CloseParen, depth)?;
        called(self.alloc(), name, args)
    }

    /// The arguments of a call.
    #[cycle(expressions)]
    #[tactic(auto, using(crate::proofs::Steps::args_begin, crate::proofs::Steps::args_begin_stop, crate::proofs::Steps::args_empty, crate::proofs::Steps::args_more, crate::proofs::Steps::args_more_stop, crate::proofs::Steps::args_comma_stop, crate::proofs::Steps::args_none))]
    fn arguments(&mut self) -> Result<Items<Expr>, Fault>
        ensures gives { Gives (parse limit n.Arguments self.old.depth self.old.left) result self.new }
        ensures no_more { IfOk result (λ _. length self.new.left ≤ length self.old.left) }
    {
        let mut args = Items::new(self.alloc());
        if !begins_expression(self.peek()) {
            return Ok(args);
        }
        args.push(self.whole()?.tree.into_inner())?;
        while self.sees(Class::Comma) {
            self.mark(Class::Comma)?;
            args.push(self.whole()?.tree.into_inner())?;
        }
        Ok(args)
    }

    /// An expression with which the nestings end that open in it.
    #[cycle(expressions)]
    pub fn whole(&mut self) -> Result<Operand, Fault>
        ensures gives { Gives (steps_of parts.whole self.old.depth self.old.left) result self.new }
        ensures fewer { IfOk result (λ _. length self.new.left < length self.old.left) }
    {
        let depth = self.depth();
        let operand = self.assignment()?;
        self.set_depth(depth);
        Ok(operand)
    }

    /// What is applied to an operand after it.
    #[cycle(expressions)]
    #[tactic(auto, using(crate::proofs::Steps::parts_begin, crate::proofs::Steps::parts_more, crate::proofs::Steps::parts_stop, crate::proofs::Steps::parts_none))]
    fn parts(&mut self, base: Operand) -> Result<Operand, Fault>
        ensures gives { Gives (through (λ f. f base) (parse limit n.Parts self.old.depth self.old.left)) result self.new }
        ensures no_more { IfOk result (λ _. length self.new.left ≤ length self.old.left) }
    {
        let mut left = base;
        while begins_part(self.peek()) {
            left = self.part(left)?;
        }
        Ok(left)
    }

    /// One part that is applied to an operand after it.
    #[cycle(expressions)]
    #[tactic(auto, using(crate::proofs::Steps::step_part))]
    fn part(&mut self, left: Operand) -> Result<Operand, Fault>
        ensures gives { Gives (through (λ f. f left) (parse limit n.Part self.old.depth self.old.left)) result self.new }
        ensures fewer { IfOk result (λ _. length self.new.left < length self.old.left) }
    {
        if self.sees(Class::OpenBracket) {
            self.open(Class::OpenBracket)?;
            let at = self.whole()?;
            self.mark(Class::CloseBracket)?;
            return indexed(self.alloc(), left, at);
        }
        if self.sees(Class::Dot) {
            self.open(Class::Dot)?;
            let name = self.name()?;
            return member(self.alloc(), left, name);
        }
        if self.sees(Class::Arrow) {
            self.open(Class::Arrow)?;
            let name = self.name()?;
            return pointed(self.alloc(), left, name);
        }
        if self.sees(Class::PlusPlus) {
            self.open(Class::PlusPlus)?;
            return stepped(self.alloc(), true, left);
        }
        self.open(Class::MinusMinus)?;
        stepped(self.alloc(), false, left)
    }
}
