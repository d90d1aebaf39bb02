//! Declarators.

ghost use Rattle.std.specs.Prelude.{◌≡◌, ◌<◌, ◌≤◌, length, IfOk};
ghost use Rattle.c_grammar.specs.Nodes as made;
ghost use Rattle.c_grammar.specs.Reading.{parse, steps_of, limit};
ghost use Rattle.c_grammar.specs.Rules as n;
ghost use Rattle.parse_expressions.specs.Gives.{Gives, Makes, through};
ghost use Rattle.parse_statements.specs.Pieces as pieces;

use crate::initialisers::maybe_init;
use c_grammar::{Declarator, InitDeclarator, Named};
use c_tokens::Class;
use c_tree::{Base, Expr, Name};
use mx_base::Place;
use parse_expressions::{Fault, Parser};
use sqlite_items::{Boxed, Items};
use std::alloc::Global;

/// A copy of the first part of a type.
pub fn copied(alloc: Global, base: &Base) -> Result<Base, Fault>
    ensures { Makes base.now result }
{
    match base {
        Base::Void => Ok(Base::Void),
        Base::Int(kind) => Ok(Base::Int(*kind)),
        Base::Struct(tag) => {
            let bytes = Vec::from_slice(alloc, tag.as_slice())?;
            Ok(Base::Struct(Name::from_vec(bytes)))
        }
    }
}

/// A count of an array, in brackets.
fn count(at: &mut Parser<'_>) -> Result<Boxed<Expr>, Fault>
    ensures gives { Gives (steps_of pieces.count at.old.depth at.old.left) result at.new }
    ensures fewer { IfOk result (λ _. length at.new.left < length at.old.left) }
{
    let depth = at.depth();
    at.open(Class::OpenBracket)?;
    let count = at.conditional()?;
    at.close(Class::CloseBracket, depth)?;
    Ok(count.tree)
}

/// The counts after a name.
#[tactic(auto, using(crate::proofs::Lists::counts_begin, crate::proofs::Lists::counts_more, crate::proofs::Lists::counts_stop, crate::proofs::Lists::counts_none))]
pub fn counts(at: &mut Parser<'_>) -> Result<Items<Expr>, Fault>
    ensures gives { Gives (parse limit n.Counts at.old.depth at.old.left) result at.new }
    ensures no_more { IfOk result (λ _. length at.new.left ≤ length at.old.left) }
{
    let mut all = Items::new(at.alloc());
    while at.sees(Class::OpenBracket) {
        let count = count(at)?;
        all.push(count.into_inner())?;
    }
    Ok(all)
}

/// A name that is read, with the counts after it.
fn counted(at: &mut Parser<'_>, start: Place, stars: u8, name: Named) -> Result<Declarator, Fault>
    ensures gives { Gives (through (λ counts. made.declarator start stars name counts) (parse limit n.Counts at.old.depth at.old.left)) result at.new }
    ensures no_more { IfOk result (λ _. length at.new.left ≤ length at.old.left) }
{
    let counts = counts(at)?;
    Ok(Declarator {
        start,
        stars,
        name: name.name,
        counts,
    })
}

/// A name with the stars before it and the counts after it.
#[tactic(auto, using(crate::proofs::Rules::step_declared))]
pub fn declared(at: &mut Parser<'_>) -> Result<Declarator, Fault>
    ensures gives { Gives (parse limit n.Declared at.old.depth at.old.left) result at.new }
    ensures fewer { IfOk result (λ _. length at.new.left < length at.old.left) }
{
    if !at.sees(Class::Star) {
        let name = at.name()?;
        return counted(at, name.place, 0, name);
    }
    let start = at.mark(Class::Star)?;
    let stars = at.stars(254)?;
    let name = at.name()?;
    counted(at, start, stars + 1, name)
}

/// A declarator and its initialiser.
#[tactic(auto, using(crate::proofs::Rules::step_initialised))]
pub fn initialised(at: &mut Parser<'_>) -> Result<InitDeclarator, Fault>
    ensures gives { Gives (parse limit n.Initialised at.old.depth at.old.left) result at.new }
    ensures fewer { IfOk result (λ _. length at.new.left < length at.old.left) }
{
    let declarator = declared(at)?;
    let init = maybe_init(at)?;
    Ok(InitDeclarator { declarator, init })
}
