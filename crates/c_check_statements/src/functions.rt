//! Functions.

ghost use Rattle.std.specs.Prelude.{◌≡◌, ◌+◌, ◌-◌, ◌^◌, min, IfOk, OnOk, Some, map};
ghost use Rattle.c_check_statements.specs.Functions as spec;
ghost use Rattle.c_check_statements.specs.Walks as walk;
ghost use Rattle.c_check_statements.specs.Walks.{Walks, Judges};

use crate::decls::{declare_function, declare_parameter, function_number, is_main};
use crate::frames::{is_large, variables_of};
use crate::reading::refused;
use crate::state::{Body, BodyVariable, State};
use crate::statements::read_maybe_stmt;
use crate::waits::of_stmt;
use c_check_rules::{NamedItems, Type};
use c_check_typing::{CheckFault, CheckKind};
use c_tree::{Base, Decl, Stmt};
use mx_base::{IntKind, OutOfMemory, Place};
use sqlite_items::Items;
use std::alloc::Global;

// ---- parameters

fn read_parameter(alloc: Global, state: &mut State, decl: &Decl) -> Result<(), CheckFault>
    ensures { Walks (spec.parameter decl.now state.old) result state.new }
{
    let _kind = declare_parameter(alloc, state, decl)?;
    Ok(())
}

fn read_parameters(alloc: Global, state: &mut State, params: &[Decl]) -> Result<(), CheckFault>
    ensures { Walks (walk.walk_all (map spec.parameter params.now) state.old) result state.new }
{
    'params: for param in params {
        read_parameter(alloc, state, param)?;
    }
    Ok(())
}

// ---- the rules of a function

fn is_int(base: &Base) -> bool
    ensures { result ≡ spec.is_int base.now }
{
    match base {
        Base::Int(kind) => *kind == IntKind::I32,
        Base::Void => false,
        Base::Struct(_) => false,
    }
}

fn is_main_form(decl: &Decl, params: &[Decl]) -> bool
    ensures { result ≡ spec.is_main_form decl.now params.now }
{
    is_int(&decl.base) && decl.stars == 0 && params.is_empty()
}

/// How many parameters are pointers, or 2^32 - 1 where there are more.
fn pointers_in(params: &[Decl]) -> u32
    ensures { result ≡ min (spec.pointers_in params.now) (2 ^ 32 - 1) }
{
    let mut count = 0u32;
    'params: for param in params {
        if param.stars != 0 {
            count = count.saturating_add(1);
        }
    }
    count
}

fn variables_in(alloc: Global, state: &State) -> Result<Items<BodyVariable>, OutOfMemory>
    ensures { IfOk result (λ all. all ≡ spec.variables_of state.now) }
{
    variables_of(
        alloc,
        state.notes.taken.as_slice(),
        state.scope.made.as_slice(),
    )
}

fn is_frame_large(alloc: Global, body: &Option<Stmt>, state: &State) -> Result<bool, OutOfMemory>
    ensures { IfOk result (λ large. large ≡ spec.is_frame_large body.now state.now) }
{
    match body {
        Some(body) => {
            let variables = variables_in(alloc, state)?;
            Ok(80 < of_stmt(body) || is_large(state.scope.structs.as_slice(), variables.as_slice()))
        }
        None => Ok(false),
    }
}

fn judge_function(
    alloc: Global,
    state: &State,
    place: Place,
    decl: &Decl,
    params: &[Decl],
    body: &Option<Stmt>,
) -> Result<(), CheckFault>
    ensures { Judges (spec.function_kinds decl.now params.now body.now state.now) place result }
{
    if is_main(decl.name.as_slice()) && !is_main_form(decl, params) {
        return refused(place, CheckKind::BadType);
    }
    if params.len() > 6 {
        return refused(place, CheckKind::ManyParams);
    }
    if pointers_in(params) > 4 {
        return refused(place, CheckKind::ManyPointers);
    }
    if is_frame_large(alloc, body, state)? {
        return refused(place, CheckKind::FrameLarge);
    }
    Ok(())
}

// ---- functions

/// Begins a function that gives a type.
fn enter_function(alloc: Global, state: &mut State, kind: Type)
    ensures { state.new ≡ spec.enter_function (Some kind) state.old }
{
    state.scope.locals = NamedItems::new(alloc);
    state.scope.from = 0;
    state.scope.made = Items::new(alloc);
    state.scope.result = Some(kind);
    state.scope.in_loop = false;
    state.scope.at_body = true;
    state.notes.taken = Items::new(alloc);
}

/// Notes a function with a body, with its variables.
fn note_body(
    alloc: Global,
    state: &mut State,
    number: u32,
    body: &Option<Stmt>,
) -> Result<(), OutOfMemory>
    ensures { OnOk result (state.new ≡ spec.with_body number body.now state.old) }
{
    match body {
        Some(_) => {
            let variables = variables_in(alloc, state)?;
            state.bodies.push(Body { number, variables })?;
            Ok(())
        }
        None => Ok(()),
    }
}

/// Ends a function, whose names are gone.
fn leave_function(alloc: Global, state: &mut State)
    ensures { state.new ≡ spec.without_names state.old }
{
    state.scope.locals = NamedItems::new(alloc);
    state.scope.from = 0;
    state.scope.made = Items::new(alloc);
    state.scope.result = None;
    state.scope.in_loop = false;
    state.scope.at_body = false;
    state.notes.taken = Items::new(alloc);
}

/// Reads a function's parameters and body, and judges the whole.
fn read_inner(
    alloc: Global,
    state: &mut State,
    place: Place,
    decl: &Decl,
    params: &[Decl],
    body: &Option<Stmt>,
) -> Result<(), CheckFault>
    ensures { Walks (spec.function_inner decl.now params.now body.now place state.old) result state.new }
{
    read_parameters(alloc, state, params)?;
    read_maybe_stmt(alloc, state, body)?;
    judge_function(alloc, state, place, decl, params, body)
}

/// Reads a function.
pub fn read_function(
    alloc: Global,
    state: &mut State,
    place: Place,
    decl: &Decl,
    params: &[Decl],
    body: &Option<Stmt>,
) -> Result<(), CheckFault>
    ensures { Walks (spec.function_walk decl.now params.now body.now place state.old) result state.new }
{
    let number = function_number(&state.scope, decl.name.as_slice());
    let kind = declare_function(alloc, state, body.is_some(), params, decl)?;
    enter_function(alloc, state, kind);
    read_inner(alloc, state, place, decl, params, body)?;
    note_body(alloc, state, number, body)?;
    leave_function(alloc, state);
    Ok(())
}
