//! Initialisers.

ghost use Rattle.std.specs.Prelude.{◌≡◌, ◌<◌, ◌≤◌, length, IfOk};
ghost use Rattle.c_grammar.specs.Nodes as made;
ghost use Rattle.c_grammar.specs.Reading.{parse, steps_of, limit};
ghost use Rattle.c_grammar.specs.Rules as n;
ghost use Rattle.parse_expressions.specs.Gives.{Gives};
ghost use Rattle.parse_statements.specs.Pieces as pieces;

use c_grammar::Operand;
use c_tokens::Class;
use c_tree::{Init, InitKind};
use parse_expressions::{Fault, Parser};
use sqlite_items::Items;

/// An expression as an initialiser.
fn one_init(a: Operand) -> Init
    ensures { result ≡ made.one_init a }
{
    Init {
        place: a.start,
        kind: InitKind::One(a.tree.into_inner()),
    }
}

/// An expression, or initialisers in braces.
#[cycle(initialisers)]
#[tactic(auto, using(crate::proofs::Blocks::step_initialiser))]
fn initialiser(at: &mut Parser<'_>) -> Result<Init, Fault>
    ensures gives { Gives (parse limit n.Initialiser at.old.depth at.old.left) result at.new }
    ensures fewer { IfOk result (λ _. length at.new.left < length at.old.left) }
{
    if !at.sees(Class::OpenBrace) {
        let value = at.whole()?;
        return Ok(one_init(value));
    }
    let depth = at.depth();
    let start = at.open(Class::OpenBrace)?;
    let all = initialisers(at)?;
    at.close(Class::CloseBrace, depth)?;
    Ok(Init {
        place: start,
        kind: InitKind::Many(all),
    })
}

/// What stands in the braces of an initialiser.
#[cycle(initialisers)]
#[tactic(auto, using(crate::proofs::Lists::inits_begin, crate::proofs::Lists::inits_begin_stop, crate::proofs::Lists::inits_more, crate::proofs::Lists::inits_stop, crate::proofs::Lists::inits_comma_stop, crate::proofs::Lists::inits_none))]
fn initialisers(at: &mut Parser<'_>) -> Result<Items<Init>, Fault>
    ensures gives { Gives (steps_of pieces.initialisers at.old.depth at.old.left) result at.new }
    ensures fewer { IfOk result (λ _. length at.new.left < length at.old.left) }
{
    let mut all = Items::new(at.alloc());
    all.push(initialiser(at)?)?;
    while at.sees(Class::Comma) {
        at.mark(Class::Comma)?;
        all.push(initialiser(at)?)?;
    }
    Ok(all)
}

/// `=` and an initialiser, or nothing.
#[tactic(auto, using(crate::proofs::Rules::step_maybe_init))]
pub fn maybe_init(at: &mut Parser<'_>) -> Result<Option<Init>, Fault>
    ensures gives { Gives (parse limit n.MaybeInit at.old.depth at.old.left) result at.new }
    ensures no_more { IfOk result (λ _. length at.new.left ≤ length at.old.left) }
{
    if !at.sees(Class::Assign) {
        return Ok(None);
    }
    at.mark(Class::Assign)?;
    let init = initialiser(at)?;
    Ok(Some(init))
}
