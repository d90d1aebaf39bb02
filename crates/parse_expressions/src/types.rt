//! Types, as far as they stand before a name or in parentheses.

ghost use Rattle.std.specs.Prelude.{◌≡◌, ◌<◌, ◌≤◌, [], length, IfOk};
ghost use Rattle.c_tokens.specs.declared.class.Class.TheVariants as k;
ghost use Rattle.c_tree.specs.declared.tree.Base.TheVariants as b;
ghost use Rattle.c_grammar.specs.Nodes as made;
ghost use Rattle.c_grammar.specs.Reading.{parse, take_tok, limit};
ghost use Rattle.c_grammar.specs.Rules as n;
ghost use Rattle.parse_expressions.specs.Gives.{Gives, through};

use crate::classes::{begins_width, same_class};
use crate::fault::Fault;
use crate::parser::Parser;
use c_grammar::{KindName, Typed};
use c_tokens::Class;
use c_tree::Base;
use mx_base::{IntKind, Place};

/// The type of a word for a width, signed where nothing else is said.
fn width_of(class: Class) -> IntKind
    ensures { result ≡ made.width_of class }
{
    match class {
        Class::Char => IntKind::I8,
        Class::Short => IntKind::I16,
        Class::Long => IntKind::I64,
        _ => IntKind::I32,
    }
}

/// The unsigned type of the same width.
fn unsigned_of(kind: IntKind) -> IntKind
    ensures { result ≡ made.unsigned_of kind }
{
    match kind {
        IntKind::I8 => IntKind::U8,
        IntKind::I16 => IntKind::U16,
        IntKind::I32 => IntKind::U32,
        IntKind::I64 => IntKind::U64,
        _ => kind,
    }
}

impl<'a> Parser<'a> {
    /// `char`, `short`, `int` or `long`.
    #[tactic(auto, using(crate::proofs::Steps::step_width, crate::proofs::Steps::misfit), unfolding(c_grammar::specs::Reading::take_tok))]
    fn width(&mut self) -> Result<(Place, IntKind), Fault>
        ensures gives { Gives (parse limit n.Width self.old.depth self.old.left) result self.new }
        ensures fewer { IfOk result (λ _. length self.new.left < length self.old.left) }
    {
        if begins_width(self.peek()) {
            if let Some(token) = self.next() {
                return Ok((token.place, width_of(token.class)));
            }
        }
        Err(Fault::Unexpected)
    }

    /// What stands after `unsigned`.
    #[tactic(auto, using(crate::proofs::Steps::step_maybe_width))]
    fn maybe_width(&mut self) -> Result<IntKind, Fault>
        ensures gives { Gives (parse limit n.MaybeWidth self.old.depth self.old.left) result self.new }
        ensures no_more { IfOk result (λ _. length self.new.left ≤ length self.old.left) }
    {
        if !begins_width(self.peek()) {
            return Ok(IntKind::U32);
        }
        let (_, kind) = self.width()?;
        Ok(unsigned_of(kind))
    }

    /// An integer type.
    #[tactic(auto, using(crate::proofs::Steps::step_integer))]
    fn integer(&mut self) -> Result<(Place, IntKind), Fault>
        ensures gives { Gives (parse limit n.Integer self.old.depth self.old.left) result self.new }
        ensures fewer { IfOk result (λ _. length self.new.left < length self.old.left) }
    {
        if self.sees(Class::Signed) {
            let start = self.mark(Class::Signed)?;
            let (_, kind) = self.width()?;
            return Ok((start, kind));
        }
        if self.sees(Class::Unsigned) {
            let start = self.mark(Class::Unsigned)?;
            let kind = self.maybe_width()?;
            return Ok((start, kind));
        }
        self.width()
    }

    /// An integer type as the first part of a type.
    fn integer_base(&mut self) -> Result<Typed, Fault>
        ensures gives { Gives (through (λ p. made.typed_at p.0 (b.Int p.1)) (parse limit n.Integer self.old.depth self.old.left)) result self.new }
        ensures fewer { IfOk result (λ _. length self.new.left < length self.old.left) }
    {
        let (start, kind) = self.integer()?;
        Ok(Typed {
            start,
            base: Base::Int(kind),
        })
    }

    /// `void`.
    fn void_base(&mut self) -> Result<Typed, Fault>
        ensures gives { Gives (through (λ place. made.typed_at place b.Void) (take_tok made.place_of k.Void [] self.old.depth self.old.left)) result self.new }
        ensures fewer { IfOk result (λ _. length self.new.left < length self.old.left) }
    {
        let start = self.mark(Class::Void)?;
        Ok(Typed {
            start,
            base: Base::Void,
        })
    }

    /// `void` or an integer type.
    #[tactic(auto, using(crate::proofs::Steps::step_plain_base))]
    pub fn plain_base(&mut self) -> Result<Typed, Fault>
        ensures gives { Gives (parse limit n.PlainBase self.old.depth self.old.left) result self.new }
        ensures fewer { IfOk result (λ _. length self.new.left < length self.old.left) }
    {
        if self.sees(Class::Void) {
            return self.void_base();
        }
        self.integer_base()
    }

    /// A struct or an integer type.
    #[tactic(auto, using(crate::proofs::Steps::step_object_base))]
    pub fn object_base(&mut self) -> Result<Typed, Fault>
        ensures gives { Gives (parse limit n.ObjectBase self.old.depth self.old.left) result self.new }
        ensures fewer { IfOk result (λ _. length self.new.left < length self.old.left) }
    {
        if !self.sees(Class::Struct) {
            return self.integer_base();
        }
        let start = self.mark(Class::Struct)?;
        let tag = self.name()?;
        Ok(Typed {
            start,
            base: Base::Struct(tag.name),
        })
    }

    /// The first part of a type.
    #[tactic(auto, using(crate::proofs::Steps::step_any_base))]
    pub fn any_base(&mut self) -> Result<Typed, Fault>
        ensures gives { Gives (parse limit n.AnyBase self.old.depth self.old.left) result self.new }
        ensures fewer { IfOk result (λ _. length self.new.left < length self.old.left) }
    {
        if self.sees(Class::Void) {
            return self.void_base();
        }
        self.object_base()
    }

    /// Stars, at most so many.
    #[tactic(auto, using(crate::proofs::Steps::star_begin, crate::proofs::Steps::star_more, crate::proofs::Steps::star_stops, crate::proofs::Steps::star_none, crate::proofs::Steps::star_last))]
    pub fn stars(&mut self, most: u8) -> Result<u8, Fault>
        ensures gives { Gives (parse limit (n.Stars most) self.old.depth self.old.left) result self.new }
        ensures no_more { IfOk result (λ _. length self.new.left ≤ length self.old.left) }
        ensures within { IfOk result (λ stars. stars ≤ most) }
    {
        let mut stars = 0;
        while stars < most && self.sees(Class::Star) {
            self.mark(Class::Star)?;
            stars += 1;
        }
        Ok(stars)
    }

    /// A type as it stands in parentheses.
    #[tactic(auto, using(crate::proofs::Steps::step_type_name))]
    pub fn type_name(&mut self) -> Result<KindName, Fault>
        ensures gives { Gives (parse limit n.TypeName self.old.depth self.old.left) result self.new }
        ensures fewer { IfOk result (λ _. length self.new.left < length self.old.left) }
    {
        let typed = self.any_base()?;
        let stars = self.stars(255)?;
        Ok(KindName {
            base: typed.base,
            stars,
        })
    }
}
