//! The parameters of a function.

ghost use Rattle.std.specs.Prelude.{◌≡◌, ◌<◌, ◌≤◌, length, IfOk};
ghost use Rattle.c_grammar.specs.Nodes as made;
ghost use Rattle.c_grammar.specs.Reading.{parse, steps_of, limit};
ghost use Rattle.c_grammar.specs.Rules as n;
ghost use Rattle.parse_expressions.specs.Gives.{Gives, through};
ghost use Rattle.c_reader.specs.Pieces as pieces;

use c_grammar::Typed;
use c_tokens::Class;
use c_tree::{Base, Decl};
use mx_base::Place;
use parse_expressions::{Fault, Parser};
use sqlite_items::Items;

/// A parameter whose first part was read.
fn named_parameter(at: &mut Parser<'_>, typed: Typed) -> Result<Decl, Fault>
    ensures gives { Gives (steps_of (pieces.named_parameter typed) at.old.depth at.old.left) result at.new }
    ensures fewer { IfOk result (λ _. length at.new.left < length at.old.left) }
{
    let stars = at.stars(255)?;
    let name = at.name()?;
    Ok(Decl {
        place: typed.start,
        base: typed.base,
        stars,
        name: name.name,
        counts: Items::new(at.alloc()),
    })
}

/// A parameter.
#[tactic(auto, using(crate::proofs::Sources::step_parameter))]
fn parameter(at: &mut Parser<'_>) -> Result<Decl, Fault>
    ensures gives { Gives (parse limit n.Parameter at.old.depth at.old.left) result at.new }
    ensures fewer { IfOk result (λ _. length at.new.left < length at.old.left) }
{
    let typed = at.any_base()?;
    named_parameter(at, typed)
}

/// Parameters, of the first of which the first part was read.
#[tactic(auto, using(crate::proofs::Sources::params_begin, crate::proofs::Sources::params_begin_stop, crate::proofs::Sources::params_more, crate::proofs::Sources::params_stop, crate::proofs::Sources::params_comma_stop, crate::proofs::Sources::params_none))]
fn named_parameters(at: &mut Parser<'_>, typed: Typed) -> Result<Items<Decl>, Fault>
    ensures gives { Gives (steps_of (pieces.named_parameters typed) at.old.depth at.old.left) result at.new }
    ensures fewer { IfOk result (λ _. length at.new.left < length at.old.left) }
{
    let mut all = Items::new(at.alloc());
    all.push(named_parameter(at, typed)?)?;
    while at.sees(Class::Comma) {
        at.mark(Class::Comma)?;
        all.push(parameter(at)?)?;
    }
    Ok(all)
}

/// What stands after a `void` that begins at a place: parameters, of which it is the first part of the first, or nothing.
#[tactic(auto, using(crate::proofs::Sources::step_after_void))]
fn after_void(at: &mut Parser<'_>, start: Place) -> Result<Items<Decl>, Fault>
    ensures gives { Gives (through (λ f. f start) (parse limit n.AfterVoid at.old.depth at.old.left)) result at.new }
    ensures no_more { IfOk result (λ _. length at.new.left ≤ length at.old.left) }
{
    if at.sees(Class::Star) || at.sees(Class::Name) {
        return named_parameters(
            at,
            Typed {
                start,
                base: Base::Void,
            },
        );
    }
    Ok(Items::new(at.alloc()))
}

/// `void`, or the parameters of a function.
#[tactic(auto, using(crate::proofs::Sources::step_parameters))]
fn parameters(at: &mut Parser<'_>) -> Result<Items<Decl>, Fault>
    ensures gives { Gives (parse limit n.Parameters at.old.depth at.old.left) result at.new }
    ensures fewer { IfOk result (λ _. length at.new.left < length at.old.left) }
{
    if at.sees(Class::Void) {
        let start = at.mark(Class::Void)?;
        return after_void(at, start);
    }
    let typed = at.object_base()?;
    named_parameters(at, typed)
}

/// The parameters of a function, in parentheses.
pub fn enclosed_parameters(at: &mut Parser<'_>) -> Result<Items<Decl>, Fault>
    ensures gives { Gives (steps_of pieces.enclosed_parameters at.old.depth at.old.left) result at.new }
    ensures fewer { IfOk result (λ _. length at.new.left < length at.old.left) }
{
    let depth = at.depth();
    at.open(Class::OpenParen)?;
    let all = parameters(at)?;
    at.close(Class::CloseParen, depth)?;
    Ok(all)
}
