//! Statements.

ghost use Rattle.std.specs.Prelude.{◌≡◌, ◌<◌, ◌≤◌, ◌||◌, length, IfOk};
ghost use Rattle.c_tokens.specs.declared.class.Class.TheVariants as k;
ghost use Rattle.c_tree.specs.declared.tree.StmtKind.TheVariants as s;
ghost use Rattle.c_grammar.specs.Lexemes.{among};
ghost use Rattle.c_grammar.specs.Nodes as made;
ghost use Rattle.c_grammar.specs.Reading.{parse, steps_of, begins, base_begins, statement_begins, limit};
ghost use Rattle.c_grammar.specs.Rules as n;
ghost use Rattle.parse_expressions.specs.Gives.{Gives};
ghost use Rattle.parse_statements.specs.Pieces as pieces;

use crate::declarations::local;
use c_tokens::Class;
use c_tree::{Expr, Stmt, StmtKind};
use mx_base::Place;
use parse_expressions::{Fault, Parser, begins_expression, begins_type, same_class};
use sqlite_items::{Boxed, Items};

/// The three expressions of a `for`.
#[derive(Drop)]
struct Head {
    first: Option<Boxed<Expr>>,
    test: Option<Boxed<Expr>>,
    next: Option<Boxed<Expr>>,
}

/// Whether a token of this class begins a statement that is no declaration.
fn begins_statement(class: Class) -> bool
    ensures { result ≡ among class (begins n.Statement) }
{
    same_class(class, Class::OpenBrace)
        || same_class(class, Class::If)
        || same_class(class, Class::While)
        || same_class(class, Class::Do)
        || same_class(class, Class::For)
        || same_class(class, Class::Break)
        || same_class(class, Class::Continue)
        || same_class(class, Class::Return)
        || same_class(class, Class::Semicolon)
        || begins_expression(class)
}

/// Whether a token of this class begins a declaration or another statement.
fn begins_entry(class: Class) -> bool
    ensures { result ≡ (among class base_begins || among class statement_begins) }
{
    begins_type(class) || begins_statement(class)
}

/// Whether a token of this class begins a statement.
fn begins_branch(class: Class) -> bool
    ensures { result ≡ among class (begins n.Branch) }
{
    same_class(class, Class::Void)
        || same_class(class, Class::Char)
        || same_class(class, Class::Short)
        || same_class(class, Class::Int)
        || same_class(class, Class::Long)
        || same_class(class, Class::Signed)
        || same_class(class, Class::Unsigned)
        || same_class(class, Class::Struct)
        || begins_statement(class)
}

/// An expression where there is one.
fn opened(value: Option<Boxed<Expr>>) -> Option<Expr>
    ensures { result ≡ value }
{
    match value {
        Some(value) => Some(value.into_inner()),
        None => None,
    }
}

/// An expression, or nothing.
#[tactic(auto, using(crate::proofs::Blocks::step_maybe_expression))]
fn maybe_expression(at: &mut Parser<'_>) -> Result<Option<Boxed<Expr>>, Fault>
    ensures gives { Gives (parse limit n.MaybeExpression at.old.depth at.old.left) result at.new }
    ensures no_more { IfOk result (λ _. length at.new.left ≤ length at.old.left) }
{
    if !begins_expression(at.peek()) {
        return Ok(None);
    }
    let value = at.whole()?;
    Ok(Some(value.tree))
}

/// A condition in parentheses.
#[tactic(auto, using(crate::proofs::Rules::step_condition))]
fn condition(at: &mut Parser<'_>) -> Result<Boxed<Expr>, Fault>
    ensures gives { Gives (parse limit n.Condition at.old.depth at.old.left) result at.new }
    ensures fewer { IfOk result (λ _. length at.new.left < length at.old.left) }
{
    let depth = at.depth();
    at.open(Class::OpenParen)?;
    let test = at.assignment()?;
    at.close(Class::CloseParen, depth)?;
    Ok(test.tree)
}

/// The three expressions of a `for`, in parentheses.
fn for_head(at: &mut Parser<'_>) -> Result<Head, Fault>
    ensures gives { Gives (steps_of pieces.head at.old.depth at.old.left) result at.new }
    ensures fewer { IfOk result (λ _. length at.new.left < length at.old.left) }
{
    let depth = at.depth();
    at.open(Class::OpenParen)?;
    let first = maybe_expression(at)?;
    at.mark(Class::Semicolon)?;
    let test = maybe_expression(at)?;
    at.mark(Class::Semicolon)?;
    let next = maybe_expression(at)?;
    at.close(Class::CloseParen, depth)?;
    Ok(Head { first, test, next })
}

/// `return`, with or without a value.
#[tactic(auto, using(crate::proofs::Rules::step_returned))]
fn returned(at: &mut Parser<'_>) -> Result<Stmt, Fault>
    ensures gives { Gives (parse limit n.Returned at.old.depth at.old.left) result at.new }
    ensures fewer { IfOk result (λ _. length at.new.left < length at.old.left) }
{
    let place = at.mark(Class::Return)?;
    let value = maybe_expression(at)?;
    at.mark(Class::Semicolon)?;
    Ok(Stmt {
        place,
        kind: StmtKind::Return(opened(value)),
    })
}

/// An expression as a statement, or nothing, and `;`.
#[tactic(auto, using(crate::proofs::Blocks::step_simple))]
fn simple(at: &mut Parser<'_>) -> Result<Stmt, Fault>
    ensures gives { Gives (parse limit n.Simple at.old.depth at.old.left) result at.new }
    ensures fewer { IfOk result (λ _. length at.new.left < length at.old.left) }
{
    if at.sees(Class::Semicolon) {
        let place = at.mark(Class::Semicolon)?;
        return Ok(Stmt {
            place,
            kind: StmtKind::Value(None),
        });
    }
    let value = at.whole()?;
    at.mark(Class::Semicolon)?;
    Ok(Stmt {
        place: value.start,
        kind: StmtKind::Value(Some(value.tree.into_inner())),
    })
}

/// `break` and `;`.
fn broken(at: &mut Parser<'_>) -> Result<Stmt, Fault>
    ensures gives { Gives (steps_of pieces.broken at.old.depth at.old.left) result at.new }
    ensures fewer { IfOk result (λ _. length at.new.left < length at.old.left) }
{
    let place = at.mark(Class::Break)?;
    at.mark(Class::Semicolon)?;
    Ok(Stmt {
        place,
        kind: StmtKind::Break,
    })
}

/// `continue` and `;`.
fn continued(at: &mut Parser<'_>) -> Result<Stmt, Fault>
    ensures gives { Gives (steps_of pieces.continued at.old.depth at.old.left) result at.new }
    ensures fewer { IfOk result (λ _. length at.new.left < length at.old.left) }
{
    let place = at.mark(Class::Continue)?;
    at.mark(Class::Semicolon)?;
    Ok(Stmt {
        place,
        kind: StmtKind::Continue,
    })
}

/// A declaration as a statement within a block.
fn local_within(at: &mut Parser<'_>) -> Result<Items<Stmt>, Fault>
    ensures gives { Gives (steps_of pieces.local_within at.old.depth at.old.left) result at.new }
    ensures fewer { IfOk result (λ _. length at.new.left < length at.old.left) }
{
    if !begins_type(at.peek()) {
        return Err(Fault::Unexpected);
    }
    let depth = at.depth();
    at.enter()?;
    let (_, all) = local(at)?;
    at.set_depth(depth);
    Ok(all)
}

/// A statement that is no declaration.
#[cycle(statements)]
#[tactic(auto, using(crate::proofs::Rules::step_statement))]
fn statement(at: &mut Parser<'_>) -> Result<Stmt, Fault>
    ensures gives { Gives (parse limit n.Statement at.old.depth at.old.left) result at.new }
    ensures fewer { IfOk result (λ _. length at.new.left < length at.old.left) }
{
    if at.sees(Class::OpenBrace) {
        block(at)
    } else if at.sees(Class::If) {
        if_else(at)
    } else if at.sees(Class::While) {
        while_do(at)
    } else if at.sees(Class::Do) {
        do_while(at)
    } else if at.sees(Class::For) {
        for_do(at)
    } else if at.sees(Class::Break) {
        broken(at)
    } else if at.sees(Class::Continue) {
        continued(at)
    } else if at.sees(Class::Return) {
        returned(at)
    } else {
        simple(at)
    }
}

/// Statements in braces.
#[cycle(statements)]
#[tactic(auto, using(crate::proofs::Rules::step_block))]
pub fn block(at: &mut Parser<'_>) -> Result<Stmt, Fault>
    ensures gives { Gives (parse limit n.Block at.old.depth at.old.left) result at.new }
    ensures fewer { IfOk result (λ _. length at.new.left < length at.old.left) }
{
    let depth = at.depth();
    let place = at.open(Class::OpenBrace)?;
    let all = statements(at)?;
    at.close(Class::CloseBrace, depth)?;
    Ok(Stmt {
        place,
        kind: StmtKind::Block(all),
    })
}

/// The statements of a block.
#[cycle(statements)]
#[tactic(auto, using(crate::proofs::Blocks::stmts_begin, crate::proofs::Blocks::stmts_more, crate::proofs::Blocks::stmts_stop, crate::proofs::Blocks::stmts_none))]
fn statements(at: &mut Parser<'_>) -> Result<Items<Stmt>, Fault>
    ensures gives { Gives (parse limit n.Statements at.old.depth at.old.left) result at.new }
    ensures no_more { IfOk result (λ _. length at.new.left ≤ length at.old.left) }
{
    let mut all = Items::new(at.alloc());
    while begins_entry(at.peek()) {
        let more = entry(at)?;
        all.append(more)?;
    }
    Ok(all)
}

/// One statement of a block, or the names of one declaration.
#[cycle(statements)]
#[tactic(auto, unfolding(crate::specs::Pieces::entry))]
fn entry(at: &mut Parser<'_>) -> Result<Items<Stmt>, Fault>
    ensures gives { Gives (pieces.entry at.old.depth at.old.left) result at.new }
    ensures fewer { IfOk result (λ _. length at.new.left < length at.old.left) }
{
    if begins_type(at.peek()) {
        return local_within(at);
    }
    let statement = statement_within(at)?;
    let mut all = Items::new(at.alloc());
    all.push(statement)?;
    Ok(all)
}

/// A statement that is no declaration, within a block.
#[cycle(statements)]
fn statement_within(at: &mut Parser<'_>) -> Result<Stmt, Fault>
    ensures gives { Gives (steps_of pieces.statement_within at.old.depth at.old.left) result at.new }
    ensures fewer { IfOk result (λ _. length at.new.left < length at.old.left) }
{
    if !begins_statement(at.peek()) {
        return Err(Fault::Unexpected);
    }
    let depth = at.depth();
    at.enter()?;
    let statement = statement(at)?;
    at.set_depth(depth);
    Ok(statement)
}

/// The branch of an `if`, or the body of a loop: a declaration stands there in a block of its own.
#[cycle(statements)]
#[tactic(auto, using(crate::proofs::Rules::step_branch))]
fn branch(at: &mut Parser<'_>) -> Result<Stmt, Fault>
    ensures gives { Gives (parse limit n.Branch at.old.depth at.old.left) result at.new }
    ensures fewer { IfOk result (λ _. length at.new.left < length at.old.left) }
{
    if !begins_type(at.peek()) {
        return statement(at);
    }
    let (place, all) = local(at)?;
    Ok(Stmt {
        place,
        kind: StmtKind::Block(all),
    })
}

/// A branch or a body, in its nesting.
#[cycle(statements)]
#[tactic(auto, using(crate::proofs::Rules::step_nested))]
fn nested(at: &mut Parser<'_>) -> Result<Boxed<Stmt>, Fault>
    ensures gives { Gives (parse limit n.Nested at.old.depth at.old.left) result at.new }
    ensures fewer { IfOk result (λ _. length at.new.left < length at.old.left) }
{
    if !begins_branch(at.peek()) {
        return Err(Fault::Unexpected);
    }
    let depth = at.depth();
    at.enter()?;
    let branch = branch(at)?;
    at.set_depth(depth);
    Ok(Boxed::new(at.alloc(), branch)?)
}

/// `if`, its condition, its branch and that of its `else`.
#[cycle(statements)]
#[tactic(auto, using(crate::proofs::Rules::step_if_else))]
fn if_else(at: &mut Parser<'_>) -> Result<Stmt, Fault>
    ensures gives { Gives (parse limit n.IfElse at.old.depth at.old.left) result at.new }
    ensures fewer { IfOk result (λ _. length at.new.left < length at.old.left) }
{
    let place = at.mark(Class::If)?;
    let test = condition(at)?;
    let then = nested(at)?;
    let other = otherwise(at)?;
    Ok(Stmt {
        place,
        kind: StmtKind::If(test.into_inner(), then, other),
    })
}

/// `else` and its branch, or nothing.
#[cycle(statements)]
#[tactic(auto, using(crate::proofs::Rules::step_otherwise))]
fn otherwise(at: &mut Parser<'_>) -> Result<Option<Boxed<Stmt>>, Fault>
    ensures gives { Gives (parse limit n.Otherwise at.old.depth at.old.left) result at.new }
    ensures no_more { IfOk result (λ _. length at.new.left ≤ length at.old.left) }
{
    if !at.sees(Class::Else) {
        return Ok(None);
    }
    at.mark(Class::Else)?;
    let other = nested(at)?;
    Ok(Some(other))
}

/// `while`, its condition and its body.
#[cycle(statements)]
#[tactic(auto, using(crate::proofs::Rules::step_while_do))]
fn while_do(at: &mut Parser<'_>) -> Result<Stmt, Fault>
    ensures gives { Gives (parse limit n.WhileDo at.old.depth at.old.left) result at.new }
    ensures fewer { IfOk result (λ _. length at.new.left < length at.old.left) }
{
    let place = at.mark(Class::While)?;
    let test = condition(at)?;
    let body = nested(at)?;
    Ok(Stmt {
        place,
        kind: StmtKind::While(test.into_inner(), body),
    })
}

/// `do`, its body and its condition.
#[cycle(statements)]
#[tactic(auto, using(crate::proofs::Rules::step_do_while))]
fn do_while(at: &mut Parser<'_>) -> Result<Stmt, Fault>
    ensures gives { Gives (parse limit n.DoWhile at.old.depth at.old.left) result at.new }
    ensures fewer { IfOk result (λ _. length at.new.left < length at.old.left) }
{
    let place = at.mark(Class::Do)?;
    let body = nested(at)?;
    at.mark(Class::While)?;
    let test = condition(at)?;
    at.mark(Class::Semicolon)?;
    Ok(Stmt {
        place,
        kind: StmtKind::DoWhile(body, test.into_inner()),
    })
}

/// `for`, its three expressions and its body.
#[cycle(statements)]
#[tactic(auto, using(crate::proofs::Blocks::step_for_do))]
fn for_do(at: &mut Parser<'_>) -> Result<Stmt, Fault>
    ensures gives { Gives (parse limit n.ForDo at.old.depth at.old.left) result at.new }
    ensures fewer { IfOk result (λ _. length at.new.left < length at.old.left) }
{
    let place = at.mark(Class::For)?;
    let head = for_head(at)?;
    let body = nested(at)?;
    Ok(Stmt {
        place,
        kind: StmtKind::For(
            opened(head.first),
            opened(head.test),
            opened(head.next),
            body,
        ),
    })
}
