//! What stands at the outermost level of a source.

ghost use Rattle.std.specs.Prelude.{◌≡◌, ◌<◌, ◌≤◌, true, [], ◌∷◌, length, IfOk};
ghost use Rattle.c_grammar.specs.Lexemes.{among};
ghost use Rattle.c_grammar.specs.Nodes as made;
ghost use Rattle.c_grammar.specs.Reading.{parse, steps_of, begins, limit};
ghost use Rattle.c_grammar.specs.Rules as n;
ghost use Rattle.parse_expressions.specs.Gives.{Gives, Makes, through};
ghost use Rattle.c_reader.specs.Pieces as pieces;

use crate::parameters::enclosed_parameters;
use c_grammar::{Declarator, InitDeclarator, Named, Typed};
use c_tokens::Class;
use c_tree::{Base, Decl, Item, ItemKind, Stmt};
use mx_base::Place;
use parse_expressions::{Fault, Parser, begins_type, same_class};
use parse_statements::{block, counts, initialised, maybe_init, members, more_globals};
use sqlite_items::Items;
use std::alloc::Global;

/// One item.
fn only(alloc: Global, item: Item) -> Result<Items<Item>, Fault>
    ensures { Makes (item ∷ []) result }
{
    let mut all = Items::new(alloc);
    all.push(item)?;
    Ok(all)
}

/// `;`, or the body of a function.
#[tactic(auto, using(crate::proofs::Sources::step_ending))]
fn ending(at: &mut Parser<'_>) -> Result<Option<Stmt>, Fault>
    ensures gives { Gives (parse limit n.Ending at.old.depth at.old.left) result at.new }
    ensures fewer { IfOk result (λ _. length at.new.left < length at.old.left) }
{
    if at.sees(Class::Semicolon) {
        at.mark(Class::Semicolon)?;
        return Ok(None);
    }
    let body = block(at)?;
    Ok(Some(body))
}

/// A function whose name was read, with what stands before it.
#[tactic(auto, using(crate::proofs::Sources::step_function))]
fn function(at: &mut Parser<'_>, typed: Typed, stars: u8, name: Named) -> Result<Items<Item>, Fault>
    ensures gives { Gives (through (λ p. made.function_item typed.start typed.base stars name p.0 p.1) (steps_of pieces.function at.old.depth at.old.left)) result at.new }
    ensures fewer { IfOk result (λ _. length at.new.left < length at.old.left) }
{
    let params = enclosed_parameters(at)?;
    let body = ending(at)?;
    let decl = Decl {
        place: typed.start,
        base: typed.base,
        stars,
        name: name.name,
        counts: Items::new(at.alloc()),
    };
    only(
        at.alloc(),
        Item {
            place: typed.start,
            kind: ItemKind::Fun(decl, params, body),
        },
    )
}

/// A declaration whose first name was read, with what stands before it.
fn globals(at: &mut Parser<'_>, typed: Typed, stars: u8, name: Named) -> Result<Items<Item>, Fault>
    ensures gives { Gives (pieces.globals typed stars name at.old.depth at.old.left) result at.new }
    ensures fewer { IfOk result (λ _. length at.new.left < length at.old.left) }
{
    let counts = counts(at)?;
    let init = maybe_init(at)?;
    let declarator = Declarator {
        start: typed.start,
        stars,
        name: name.name,
        counts,
    };
    let all = more_globals(
        at,
        typed.start,
        false,
        &typed,
        InitDeclarator { declarator, init },
    )?;
    at.mark(Class::Semicolon)?;
    Ok(all)
}

/// What stands after the first name of a function or a global declaration.
#[tactic(auto, using(crate::proofs::Sources::step_after_name))]
fn after_name(
    at: &mut Parser<'_>,
    typed: Typed,
    stars: u8,
    name: Named,
) -> Result<Items<Item>, Fault>
    ensures gives { Gives (through (λ f. f typed.start typed.base stars name) (parse limit n.AfterName at.old.depth at.old.left)) result at.new }
    ensures fewer { IfOk result (λ _. length at.new.left < length at.old.left) }
{
    if at.sees(Class::OpenParen) {
        function(at, typed, stars, name)
    } else {
        globals(at, typed, stars, name)
    }
}

/// A function or a global declaration, of which the first part was read.
fn named_item(at: &mut Parser<'_>, typed: Typed) -> Result<Items<Item>, Fault>
    ensures gives { Gives (steps_of (pieces.named_item typed) at.old.depth at.old.left) result at.new }
    ensures fewer { IfOk result (λ _. length at.new.left < length at.old.left) }
{
    let stars = at.stars(255)?;
    let name = at.name()?;
    after_name(at, typed, stars, name)
}

/// The members of a struct, in braces.
fn braced_members(at: &mut Parser<'_>) -> Result<Items<Decl>, Fault>
    ensures gives { Gives (steps_of pieces.braced_members at.old.depth at.old.left) result at.new }
    ensures fewer { IfOk result (λ _. length at.new.left < length at.old.left) }
{
    let depth = at.depth();
    at.open(Class::OpenBrace)?;
    let all = members(at)?;
    at.close(Class::CloseBrace, depth)?;
    Ok(all)
}

/// A struct whose tag was read.
#[tactic(auto, using(crate::proofs::Sources::step_ended))]
fn struct_item(at: &mut Parser<'_>, start: Place, tag: Named) -> Result<Items<Item>, Fault>
    ensures gives { Gives (through (λ all. made.struct_item start tag.name all) (steps_of pieces.ended_members at.old.depth at.old.left)) result at.new }
    ensures fewer { IfOk result (λ _. length at.new.left < length at.old.left) }
{
    let all = braced_members(at)?;
    at.mark(Class::Semicolon)?;
    only(
        at.alloc(),
        Item {
            place: start,
            kind: ItemKind::Struct(tag.name, all),
        },
    )
}

/// What stands after the tag of a struct: its members, or a name of a declaration or function of its type.
#[tactic(auto, using(crate::proofs::Sources::step_after_tag))]
fn after_tag(at: &mut Parser<'_>, start: Place, tag: Named) -> Result<Items<Item>, Fault>
    ensures gives { Gives (through (λ f. f start tag.name) (parse limit n.AfterTag at.old.depth at.old.left)) result at.new }
    ensures fewer { IfOk result (λ _. length at.new.left < length at.old.left) }
{
    if at.sees(Class::OpenBrace) {
        return struct_item(at, start, tag);
    }
    named_item(
        at,
        Typed {
            start,
            base: Base::Struct(tag.name),
        },
    )
}

/// A declaration with `extern`.
fn external(at: &mut Parser<'_>) -> Result<Items<Item>, Fault>
    ensures gives { Gives (pieces.external at.old.depth at.old.left) result at.new }
    ensures fewer { IfOk result (λ _. length at.new.left < length at.old.left) }
{
    let start = at.mark(Class::Extern)?;
    let typed = at.any_base()?;
    let first = initialised(at)?;
    let all = more_globals(at, start, true, &typed, first)?;
    at.mark(Class::Semicolon)?;
    Ok(all)
}

/// The items of a declaration, a struct or a function.
#[tactic(auto, using(crate::proofs::Sources::step_external))]
fn item(at: &mut Parser<'_>) -> Result<Items<Item>, Fault>
    ensures gives { Gives (parse limit n.External at.old.depth at.old.left) result at.new }
    ensures fewer { IfOk result (λ _. length at.new.left < length at.old.left) }
{
    if at.sees(Class::Extern) {
        return external(at);
    }
    if at.sees(Class::Struct) {
        let start = at.mark(Class::Struct)?;
        let tag = at.name()?;
        return after_tag(at, start, tag);
    }
    let typed = at.plain_base()?;
    named_item(at, typed)
}

/// Whether a token of this class begins an item.
fn begins_item(class: Class) -> bool
    ensures { result ≡ among class (begins n.External) }
{
    same_class(class, Class::Extern) || begins_type(class)
}

/// The items of a source, as far as there are any.
#[tactic(auto, using(crate::proofs::Sources::items_begin, crate::proofs::Sources::items_more, crate::proofs::Sources::items_stop, crate::proofs::Sources::items_none))]
pub fn items(at: &mut Parser<'_>) -> Result<Items<Item>, Fault>
    ensures gives { Gives (parse limit n.Source at.old.depth at.old.left) result at.new }
{
    let mut all = Items::new(at.alloc());
    while begins_item(at.peek()) {
        let more = item(at)?;
        all.append(more)?;
    }
    Ok(all)
}
