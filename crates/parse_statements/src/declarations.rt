//! Declarations of several names: members of structs, globals and locals.

ghost use Rattle.std.specs.Prelude.{◌≡◌, ◌<◌, ◌≤◌, [], ◌∷◌, length, IfOk};
ghost use Rattle.c_tree.specs.declared.tree.ItemKind.TheVariants as it;
ghost use Rattle.c_tree.specs.declared.tree.StmtKind.TheVariants as s;
ghost use Rattle.c_grammar.specs.Nodes as made;
ghost use Rattle.c_grammar.specs.Reading.{parse, steps_of, limit};
ghost use Rattle.c_grammar.specs.Rules as n;
ghost use Rattle.parse_expressions.specs.Gives.{Gives, Makes};
ghost use Rattle.parse_statements.specs.Names as names;
ghost use Rattle.parse_statements.specs.Names.{decls_after, globals_after, locals_after};
ghost use Rattle.parse_statements.specs.Pieces as pieces;

use crate::declared::{copied, declared, initialised};
use c_grammar::{Declarator, InitDeclarator, Typed};
use c_tokens::Class;
use c_tree::{Base, Decl, Init, Item, ItemKind, Stmt, StmtKind};
use mx_base::Place;
use parse_expressions::{Fault, Parser, begins_type};
use sqlite_items::Items;
use std::alloc::Global;

/// One name of a declaration, which begins at a place.
fn decl_from(alloc: Global, start: Place, base: &Base, d: Declarator) -> Result<Decl, Fault>
    ensures { Makes (made.decl_from start base.now d) result }
{
    let base = copied(alloc, base)?;
    Ok(Decl {
        place: start,
        base,
        stars: d.stars,
        name: d.name,
        counts: d.counts,
    })
}

/// A later name of a declaration begins where its own part begins.
#[tactic(auto, unfolding(crate::specs::Names::later_decl))]
fn later_decl(alloc: Global, base: &Base, d: Declarator) -> Result<Decl, Fault>
    ensures { Makes (names.later_decl base.now d) result }
{
    decl_from(alloc, d.start, base, d)
}

/// A member whose first name was read, and its further names.
#[tactic(auto, using(crate::proofs::Lists::decls_more, crate::proofs::Lists::decls_stop, crate::proofs::Lists::decls_comma_stop, crate::proofs::Lists::decls_none))]
fn more_decls(at: &mut Parser<'_>, typed: &Typed, first: Declarator) -> Result<Items<Decl>, Fault>
    ensures gives { Gives (decls_after typed.now.base (made.decl_from typed.now.start typed.now.base first ∷ []) at.old.depth at.old.left) result at.new }
    ensures no_more { IfOk result (λ _. length at.new.left ≤ length at.old.left) }
{
    let mut all = Items::new(at.alloc());
    all.push(decl_from(at.alloc(), typed.start, &typed.base, first)?)?;
    while at.sees(Class::Comma) {
        at.mark(Class::Comma)?;
        let next = declared(at)?;
        all.push(later_decl(at.alloc(), &typed.base, next)?)?;
    }
    Ok(all)
}

/// One declaration of members.
#[tactic(auto, using(crate::proofs::Blocks::step_member))]
pub fn member(at: &mut Parser<'_>) -> Result<Items<Decl>, Fault>
    ensures gives { Gives (parse limit n.Member at.old.depth at.old.left) result at.new }
    ensures fewer { IfOk result (λ _. length at.new.left < length at.old.left) }
{
    let typed = at.any_base()?;
    let first = declared(at)?;
    let all = more_decls(at, &typed, first)?;
    at.mark(Class::Semicolon)?;
    Ok(all)
}

/// The members of a struct, of which there is one declaration at least.
#[tactic(auto, using(crate::proofs::Lists::members_begin, crate::proofs::Lists::members_begin_stop, crate::proofs::Lists::members_more, crate::proofs::Lists::members_stop, crate::proofs::Lists::members_none))]
pub fn members(at: &mut Parser<'_>) -> Result<Items<Decl>, Fault>
    ensures gives { Gives (steps_of pieces.members at.old.depth at.old.left) result at.new }
    ensures fewer { IfOk result (λ _. length at.new.left < length at.old.left) }
{
    let mut all = member(at)?;
    while begins_type(at.peek()) {
        let more = member(at)?;
        all.append(more)?;
    }
    Ok(all)
}

/// One name of a global declaration, which begins at a place.
fn global(
    alloc: Global,
    start: Place,
    place: Place,
    external: bool,
    base: &Base,
    d: InitDeclarator,
) -> Result<Item, Fault>
    ensures { Makes (made.item start (it.Var external (made.decl_from place base.now d.declarator) d.init)) result }
{
    let decl = decl_from(alloc, place, base, d.declarator)?;
    Ok(Item {
        place: start,
        kind: ItemKind::Var(external, decl, d.init),
    })
}

/// A later name of a global declaration.
#[tactic(auto, unfolding(crate::specs::Names::later_global))]
fn later_global(
    alloc: Global,
    external: bool,
    base: &Base,
    d: InitDeclarator,
) -> Result<Item, Fault>
    ensures { Makes (names.later_global external base.now d) result }
{
    let start = d.declarator.start;
    global(alloc, start, start, external, base, d)
}

/// A global declaration that begins at a place, and whose first name was read; and its further names.
#[tactic(auto, using(crate::proofs::Lists::globals_more, crate::proofs::Lists::globals_stop, crate::proofs::Lists::globals_comma_stop, crate::proofs::Lists::globals_none))]
pub fn more_globals(
    at: &mut Parser<'_>,
    start: Place,
    external: bool,
    typed: &Typed,
    first: InitDeclarator,
) -> Result<Items<Item>, Fault>
    ensures gives { Gives (globals_after external typed.now.base (made.item start (it.Var external (made.decl_from typed.now.start typed.now.base first.declarator) first.init) ∷ []) at.old.depth at.old.left) result at.new }
    ensures no_more { IfOk result (λ _. length at.new.left ≤ length at.old.left) }
{
    let mut all = Items::new(at.alloc());
    all.push(global(at.alloc(), start, typed.start, external, &typed.base, first)?)?;
    while at.sees(Class::Comma) {
        at.mark(Class::Comma)?;
        let next = initialised(at)?;
        all.push(later_global(at.alloc(), external, &typed.base, next)?)?;
    }
    Ok(all)
}

/// One name of a local declaration, which begins at a place.
fn local_from(alloc: Global, start: Place, base: &Base, d: InitDeclarator) -> Result<Stmt, Fault>
    ensures { Makes (made.stmt start (s.Local (made.decl_from start base.now d.declarator) d.init)) result }
{
    let decl = decl_from(alloc, start, base, d.declarator)?;
    Ok(Stmt {
        place: start,
        kind: StmtKind::Local(decl, d.init),
    })
}

/// A later name of a local declaration.
#[tactic(auto, unfolding(crate::specs::Names::later_local))]
fn later_local(alloc: Global, base: &Base, d: InitDeclarator) -> Result<Stmt, Fault>
    ensures { Makes (names.later_local base.now d) result }
{
    let start = d.declarator.start;
    local_from(alloc, start, base, d)
}

/// A local declaration whose first name was read, and its further names.
#[tactic(auto, using(crate::proofs::Lists::locals_more, crate::proofs::Lists::locals_stop, crate::proofs::Lists::locals_comma_stop, crate::proofs::Lists::locals_none))]
fn more_locals(
    at: &mut Parser<'_>,
    typed: &Typed,
    first: InitDeclarator,
) -> Result<Items<Stmt>, Fault>
    ensures gives { Gives (locals_after typed.now.base (made.stmt typed.now.start (s.Local (made.decl_from typed.now.start typed.now.base first.declarator) first.init) ∷ []) at.old.depth at.old.left) result at.new }
    ensures no_more { IfOk result (λ _. length at.new.left ≤ length at.old.left) }
{
    let mut all = Items::new(at.alloc());
    all.push(local_from(at.alloc(), typed.start, &typed.base, first)?)?;
    while at.sees(Class::Comma) {
        at.mark(Class::Comma)?;
        let next = initialised(at)?;
        all.push(later_local(at.alloc(), &typed.base, next)?)?;
    }
    Ok(all)
}

/// A local declaration, with the place where it begins.
#[tactic(auto, using(crate::proofs::Blocks::step_local))]
pub fn local(at: &mut Parser<'_>) -> Result<(Place, Items<Stmt>), Fault>
    ensures gives { Gives (parse limit n.Local at.old.depth at.old.left) result at.new }
    ensures fewer { IfOk result (λ _. length at.new.left < length at.old.left) }
{
    let typed = at.any_base()?;
    let first = initialised(at)?;
    let all = more_locals(at, &typed, first)?;
    at.mark(Class::Semicolon)?;
    Ok((typed.start, all))
}
