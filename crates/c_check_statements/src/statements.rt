//! Statements.

ghost use Rattle.std.specs.Prelude.{◌≡◌, Some, IfOk, map, take, length};
ghost use Rattle.std.specs.Option.{option_map};
ghost use Rattle.c_check_statements.specs.Statements as spec;
ghost use Rattle.c_check_statements.specs.Walks as walk;
ghost use Rattle.c_check_statements.specs.Walks.{Walks, Judges, ReadsValue};

use crate::decls::declare_local;
use crate::initialisers::{Filled, read_maybe_init};
use crate::reading::{read_effect, read_maybe, read_value, refused, refused_if};
use crate::state::State;
use c_check_rules::{
    Local, NamedItems, StructInfo, Type, converts, is_scalar, is_void, scalars_in,
};
use c_check_typing::{CheckFault, CheckKind, Typed};
use c_tree::{Decl, Expr, Init, Stmt, StmtKind};
use mx_base::Place;
use sqlite_items::Boxed;
use std::alloc::Global;

// ---- conditions, `return` and initialised locals

/// A condition is a scalar.
fn judge_test(alloc: Global, place: Place, t: &Typed) -> Result<(), CheckFault>
    ensures { Judges (spec.test_kinds (Some t.now)) place result }
{
    let kind = t.decayed(alloc)?;
    refused_if(!is_scalar(&kind), place, CheckKind::BadType)
}

/// A value that a function gives converts to its result, where that is known.
fn judge_value(
    alloc: Global,
    place: Place,
    wanted: &Option<Type>,
    t: &Typed,
) -> Result<(), CheckFault>
    ensures { Judges (spec.value_returned wanted.now t.now) place result }
{
    let Some(wanted) = wanted else {
        return Ok(());
    };
    let kind = t.decayed(alloc)?;
    refused_if(
        !converts(wanted, &kind, t.is_zero),
        place,
        CheckKind::BadType,
    )
}

/// A function without a value to give has no result, where that is known.
fn judge_no_value(place: Place, wanted: &Option<Type>) -> Result<(), CheckFault>
    ensures { Judges (spec.none_returned wanted.now) place result }
{
    match wanted {
        Some(wanted) => refused_if(!is_void(wanted), place, CheckKind::BadType),
        None => Ok(()),
    }
}

fn read_return(
    alloc: Global,
    state: &mut State,
    place: Place,
    value: &Option<Expr>,
) -> Result<(), CheckFault>
    ensures { Walks (spec.return_walk value.now place state.old) result state.new }
{
    match value {
        Some(expr) => {
            let t = read_value(alloc, state, expr)?;
            judge_value(alloc, place, &state.scope.result, &t)
        }
        None => judge_no_value(place, &state.scope.result),
    }
}

fn is_large(structs: &[StructInfo], kind: &Type) -> bool
    ensures { result ≡ spec.is_large structs.now kind.now }
{
    !is_scalar(kind) && 64 < scalars_in(structs, kind)
}

fn judge_local(
    structs: &[StructInfo],
    place: Place,
    init: &Option<Init>,
    kind: &Type,
) -> Result<(), CheckFault>
    ensures { Judges (spec.local_kinds structs.now init.now (Some kind.now)) place result }
{
    match init {
        Some(_) => refused_if(is_large(structs, kind), place, CheckKind::LargeCopy),
        None => Ok(()),
    }
}

fn read_local(
    alloc: Global,
    state: &mut State,
    place: Place,
    decl: &Decl,
    init: &Option<Init>,
) -> Result<(), CheckFault>
    ensures { Walks (spec.local decl.now init.now place state.old) result state.new }
{
    let kind = declare_local(alloc, state, decl)?;
    read_maybe_init(alloc, state, Filled::Local, &kind, init)?;
    judge_local(state.scope.structs.as_slice(), place, init, &kind)
}

// ---- blocks and loops

/// Lets the locals behind the first so many go.
fn forget(locals: &mut NamedItems<Local>, count: usize)
    ensures { locals.new ≡ take count locals.old }
{
    'locals: while locals.len() > count {
        let _gone = locals.pop();
    }
}

#[cycle(statements)]
fn read_block(alloc: Global, state: &mut State, all: &[Stmt]) -> Result<(), CheckFault>
    ensures { Walks (spec.block (walk.walk_all (map spec.statement all.now)) state.old) result state.new }
{
    if state.scope.at_body {
        state.scope.at_body = false;
        return read_all(alloc, state, all);
    }
    let from = state.scope.from;
    let count = state.scope.locals.len();
    state.scope.from = count;
    read_all(alloc, state, all)?;
    forget(&mut state.scope.locals, count);
    state.scope.from = from;
    Ok(())
}

#[cycle(statements)]
fn read_all(alloc: Global, state: &mut State, all: &[Stmt]) -> Result<(), CheckFault>
    ensures { Walks (walk.walk_all (map spec.statement all.now) state.old) result state.new }
{
    'all: for stmt in all {
        read_stmt(alloc, state, stmt)?;
    }
    Ok(())
}

#[cycle(statements)]
fn read_body(alloc: Global, state: &mut State, body: &Stmt) -> Result<(), CheckFault>
    ensures { Walks (spec.looped (spec.statement body.now) state.old) result state.new }
{
    let was = state.scope.in_loop;
    state.scope.in_loop = true;
    read_stmt(alloc, state, body)?;
    state.scope.in_loop = was;
    Ok(())
}

// ---- statements

#[cycle(statements)]
fn read_other(
    alloc: Global,
    state: &mut State,
    other: &Option<Boxed<Stmt>>,
) -> Result<(), CheckFault>
    ensures { Walks (walk.maybe (option_map spec.statement other.now) state.old) result state.new }
{
    match other {
        Some(other) => read_stmt(alloc, state, other.get()),
        None => Ok(()),
    }
}

fn read_test(alloc: Global, state: &mut State, place: Place, test: &Expr) -> Result<(), CheckFault>
    ensures { Walks (spec.tested test.now place state.old) result state.new }
{
    let t = read_value(alloc, state, test)?;
    judge_test(alloc, place, &t)
}

/// The rest of a `for` behind its first part.
#[cycle(statements)]
fn read_for(
    alloc: Global,
    state: &mut State,
    place: Place,
    test: &Option<Expr>,
    next: &Option<Expr>,
    body: &Stmt,
) -> Result<(), CheckFault>
    ensures { Walks (spec.for_rest test.now next.now (spec.statement body.now) place state.old) result state.new }
{
    match test {
        Some(test) => {
            let t = read_value(alloc, state, test)?;
            read_maybe(alloc, state, next)?;
            read_body(alloc, state, body)?;
            judge_test(alloc, place, &t)
        }
        None => {
            read_maybe(alloc, state, next)?;
            read_body(alloc, state, body)
        }
    }
}

fn read_jump(state: &State, place: Place) -> Result<(), CheckFault>
    ensures { Judges (spec.jump_kinds state.now) place result }
{
    refused_if(!state.scope.in_loop, place, CheckKind::BadType)
}

/// Reads a statement.
#[cycle(statements)]
pub fn read_stmt(alloc: Global, state: &mut State, stmt: &Stmt) -> Result<(), CheckFault>
    ensures { Walks (spec.statement stmt.now state.old) result state.new }
{
    let place = stmt.place;
    match &stmt.kind {
        StmtKind::Value(value) => read_maybe(alloc, state, value),
        StmtKind::Local(decl, init) => read_local(alloc, state, place, decl, init),
        StmtKind::If(test, then, other) => {
            let t = read_value(alloc, state, test)?;
            read_stmt(alloc, state, then.get())?;
            read_other(alloc, state, other)?;
            judge_test(alloc, place, &t)
        }
        StmtKind::While(test, body) => {
            let t = read_value(alloc, state, test)?;
            read_body(alloc, state, body.get())?;
            judge_test(alloc, place, &t)
        }
        StmtKind::DoWhile(body, test) => {
            read_body(alloc, state, body.get())?;
            read_test(alloc, state, place, test)
        }
        StmtKind::For(first, test, next, body) => {
            read_maybe(alloc, state, first)?;
            read_for(alloc, state, place, test, next, body.get())
        }
        StmtKind::Break => read_jump(state, place),
        StmtKind::Continue => read_jump(state, place),
        StmtKind::Return(value) => read_return(alloc, state, place, value),
        StmtKind::Block(all) => read_block(alloc, state, all.as_slice()),
    }
}

/// Reads the body of a function, if it has one.
pub fn read_maybe_stmt(
    alloc: Global,
    state: &mut State,
    body: &Option<Stmt>,
) -> Result<(), CheckFault>
    ensures { Walks (spec.maybe_statement body.now state.old) result state.new }
{
    match body {
        Some(body) => read_stmt(alloc, state, body),
        None => Ok(()),
    }
}
