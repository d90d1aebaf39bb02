//! Declarations of variables, parameters and functions.

ghost use Rattle.std.specs.Prelude.{◌≡◌, IfOk, OnOk, None, Some};
ghost use Rattle.std.specs.Option.{option_copied};
ghost use Rattle.c_check_rules.specs.Names.{last_at, variable_names, function_names, numbered};
ghost use Rattle.c_check_statements.specs.Declarations as spec;
ghost use Rattle.c_check_statements.specs.Declarations.{Declares};

use crate::counts::{Counts, arrayed, read_counts};
use crate::reading::refused;
use crate::state::State;
use c_check_rules::{
    Bind, Function, Local, NamedItems, Scope, StructInfo, Type, Variable, copy_name,
    is_predeclared, is_scalar, is_sized, is_void, same, same_name,
};
use c_check_typing::{CheckFault, CheckKind, Notes, base_kind, starred};
use c_tree::{Decl, Name};
use mx_base::{OutOfMemory, Place};
use sqlite_items::Items;
use std::alloc::Global;

/// What is declared, by what its type must be: a variable or member needs a size, a parameter is a scalar, and a function gives a scalar or
/// nothing.
#[derive(Clone, Copy, Debug)]
pub enum Use {
    Variable,
    Parameter,
    Result,
}

fn fits_use(usage: Use, structs: &[StructInfo], kind: &Type) -> bool
    ensures { result ≡ spec.fits_use usage structs.now kind.now }
{
    match usage {
        Use::Variable => is_sized(structs, kind),
        Use::Parameter => is_scalar(kind),
        Use::Result => is_scalar(kind) || is_void(kind),
    }
}

/// The type of a declaration without its counts, where its tag is known.
fn plain_of(alloc: Global, scope: &Scope, decl: &Decl) -> Result<Option<Type>, OutOfMemory>
    ensures { IfOk result (λ kind. kind ≡ spec.plain_of scope.now decl.now) }
{
    match base_kind(alloc, scope, &decl.base) {
        Some(base) => {
            let kind = starred(alloc, base, decl.stars)?;
            Ok(Some(kind))
        }
        None => Ok(None),
    }
}

fn kind_with(alloc: Global, counts: &Counts, plain: Type) -> Result<Option<Type>, OutOfMemory>
    ensures { IfOk result (λ kind. kind ≡ spec.kind_with counts.now plain) }
{
    if counts.is_plain() {
        let kind = arrayed(alloc, counts.values.as_slice(), plain)?;
        Ok(Some(kind))
    } else {
        Ok(None)
    }
}

/// The type of a declaration with these counts, where it makes one.
fn kind_of(
    alloc: Global,
    scope: &Scope,
    decl: &Decl,
    counts: &Counts,
) -> Result<Option<Type>, OutOfMemory>
    ensures { IfOk result (λ kind. kind ≡ spec.kind_of scope.now decl.now (Some counts.now)) }
{
    match plain_of(alloc, scope, decl)? {
        Some(plain) => kind_with(alloc, counts, plain),
        None => Ok(None),
    }
}

/// The type of a declaration behind its counts, or the first rule that it breaks.
fn judge_decl(
    alloc: Global,
    scope: &Scope,
    usage: Use,
    twice: bool,
    wrong: bool,
    decl: &Decl,
    counts: &Counts,
) -> Result<Type, CheckFault>
    ensures { spec.Judged (spec.decl_kinds scope.now usage twice wrong decl.now (Some counts.now)) (spec.kind_of scope.now decl.now (Some counts.now)) decl.now.place result }
{
    let place = decl.place;
    let Some(plain) = plain_of(alloc, scope, decl)? else {
        return refused(place, CheckKind::Unknown);
    };
    if twice {
        return refused(place, CheckKind::Twice);
    }
    if counts.is_out {
        return refused(place, CheckKind::BadCount);
    }
    if counts.is_open {
        return refused(place, CheckKind::NotConst);
    }
    if counts.is_odd {
        return refused(place, CheckKind::BadType);
    }
    judge_plain(
        alloc,
        scope,
        usage,
        wrong,
        place,
        plain,
        counts.values.as_slice(),
    )
}

/// The same where the counts make a type.
fn judge_plain(
    alloc: Global,
    scope: &Scope,
    usage: Use,
    wrong: bool,
    place: Place,
    plain: Type,
    values: &[u64],
) -> Result<Type, CheckFault>
    ensures { spec.Judged (spec.plain_kinds scope.now usage wrong plain values.now) (Some (spec.arrays values.now plain)) place result }
{
    let structs = scope.structs.as_slice();
    let has_size = is_sized(structs, &plain);
    let fits = fits_use(usage, structs, &plain);
    let kind = arrayed(alloc, values, plain)?;
    if has_size && !is_sized(structs, &kind) {
        return refused(place, CheckKind::BadCount);
    }
    if !fits || wrong {
        return refused(place, CheckKind::BadType);
    }
    Ok(kind)
}

/// Notes what a declared name is bound to, and its type.
fn note_declared(
    alloc: Global,
    notes: &mut Notes,
    bind: Bind,
    kind: &Type,
) -> Result<(), OutOfMemory>
    ensures { OnOk result (notes.new ≡ spec.noted bind kind.now notes.old) }
{
    let kind = kind.copy(alloc)?;
    notes.binds.push(bind)?;
    notes.declared.push(kind)?;
    Ok(())
}

/// Notes a name that is declared for the first time.
fn note_first(order: &mut Items<Bind>, known: Option<usize>, bind: Bind) -> Result<(), OutOfMemory>
    ensures { OnOk result (order.new ≡ spec.with_first known bind order.old) }
{
    if known.is_none() {
        order.push(bind)?;
    }
    Ok(())
}

/// A place as a number of 32 bits.
pub fn number_of(at: usize) -> u32
    ensures { result ≡ numbered at }
{
    at.min(0xffff_ffff) as u32
}

fn number_in(count: usize, found: Option<usize>) -> u32
    ensures { result ≡ spec.number_in count found }
{
    match found {
        Some(at) => number_of(at),
        None => number_of(count),
    }
}

// ---- parameters and locals

/// Whether the innermost block has a name.
fn is_here(scope: &Scope, name: &[u8]) -> bool
    ensures { result ≡ spec.stands_here name.now scope.now }
{
    match scope.local(name) {
        Some(place) => scope.from <= place,
        None => false,
    }
}

fn add_local(alloc: Global, state: &mut State, name: &Name, kind: &Type) -> Result<(), OutOfMemory>
    ensures { OnOk result (state.new ≡ spec.with_local name.now kind.now state.old) }
{
    let number = number_of(state.scope.made.len());
    let name = copy_name(alloc, name)?;
    let once = kind.copy(alloc)?;
    let twice = kind.copy(alloc)?;
    state.scope.locals.push(Local {
        name,
        kind: once,
        number,
    })?;
    state.scope.made.push(twice)?;
    note_declared(alloc, &mut state.notes, Bind::Local(number), kind)
}

/// Declares a local, and answers its type.
pub fn declare_local(alloc: Global, state: &mut State, decl: &Decl) -> Result<Type, CheckFault>
    ensures { Declares (spec.local_declared decl.now state.old) result state.new }
{
    let counts = read_counts(
        alloc,
        &state.scope,
        &mut state.notes,
        decl.counts.as_slice(),
    )?;
    let twice = is_here(&state.scope, decl.name.as_slice());
    let kind = judge_decl(
        alloc,
        &state.scope,
        Use::Variable,
        twice,
        false,
        decl,
        &counts,
    )?;
    add_local(alloc, state, &decl.name, &kind)?;
    Ok(kind)
}

/// Declares a parameter, and answers its type.
pub fn declare_parameter(alloc: Global, state: &mut State, decl: &Decl) -> Result<Type, CheckFault>
    ensures { Declares (spec.parameter_declared decl.now state.old) result state.new }
{
    let counts = read_counts(
        alloc,
        &state.scope,
        &mut state.notes,
        decl.counts.as_slice(),
    )?;
    let twice = is_here(&state.scope, decl.name.as_slice());
    let kind = judge_decl(
        alloc,
        &state.scope,
        Use::Parameter,
        twice,
        false,
        decl,
        &counts,
    )?;
    add_local(alloc, state, &decl.name, &kind)?;
    Ok(kind)
}

// ---- global variables

/// Whether a name is reserved, so that no global or function may have it.
fn is_reserved(name: &[u8]) -> bool
    ensures { result ≡ spec.is_reserved name.now }
{
    let most = name.len().min(7);
    is_predeclared(name) || same_name(&name[..most], b"__text_")
}

/// Whether a name is `main`.
pub fn is_main(name: &[u8]) -> bool
    ensures { result ≡ spec.is_main name.now }
{
    same_name(name, b"main")
}

fn same_known(kind: &Type, other: &Option<Type>) -> bool
    ensures { result ≡ spec.same_known kind.now other.now }
{
    match other {
        Some(other) => same(kind, other),
        None => true,
    }
}

fn blocks_variable(variable: Option<&Variable>, kind: &Option<Type>) -> bool
    ensures { result ≡ spec.blocks_variable (option_copied variable.entry) kind.now }
{
    match variable {
        Some(v) => v.defined || !same_known(&v.kind, kind),
        None => false,
    }
}

fn variable_in(scope: &Scope, found: Option<usize>) -> Option<&Variable>
    ensures { option_copied result ≡ spec.variable_in scope.now found }
{
    match found {
        Some(at) => scope.variables.get(at),
        None => None,
    }
}

fn global_twice(scope: &Scope, name: &[u8], kind: &Option<Type>) -> bool
    ensures { result ≡ spec.global_twice name.now scope.now kind.now }
{
    is_reserved(name)
        || scope.function(name).is_some()
        || blocks_variable(variable_in(scope, scope.variable(name)), kind)
}

fn put_variable(
    all: &mut NamedItems<Variable>,
    found: Option<usize>,
    v: Variable,
) -> Result<(), OutOfMemory>
    requires { found ≡ last_at v.name (variable_names all.old) 0 None }
    ensures { OnOk result (all.new ≡ spec.put_variable all.old found v) }
{
    match found {
        Some(at) => all.set(at, v),
        None => all.push(v)?,
    }
    Ok(())
}

fn add_variable(
    alloc: Global,
    state: &mut State,
    name: &Name,
    defined: bool,
    kind: &Type,
) -> Result<(), OutOfMemory>
    ensures { OnOk result (state.new ≡ spec.with_variable name.now defined kind.now state.old) }
{
    let found = state.scope.variable(name.as_slice());
    let number = number_in(state.scope.variables.len(), found);
    let name = copy_name(alloc, name)?;
    let copy = kind.copy(alloc)?;
    put_variable(
        &mut state.scope.variables,
        found,
        Variable {
            name,
            kind: copy,
            defined,
        },
    )?;
    state.global_items.push(number)?;
    note_first(&mut state.order, found, Bind::Global(number))?;
    note_declared(alloc, &mut state.notes, Bind::Global(number), kind)
}

/// Declares a global variable, and answers its type.
pub fn declare_global(
    alloc: Global,
    state: &mut State,
    defined: bool,
    decl: &Decl,
) -> Result<Type, CheckFault>
    ensures { Declares (spec.global_declared defined decl.now state.old) result state.new }
{
    let counts = read_counts(
        alloc,
        &state.scope,
        &mut state.notes,
        decl.counts.as_slice(),
    )?;
    let known = kind_of(alloc, &state.scope, decl, &counts)?;
    let twice = global_twice(&state.scope, decl.name.as_slice(), &known);
    let wrong = is_main(decl.name.as_slice());
    let kind = judge_decl(
        alloc,
        &state.scope,
        Use::Variable,
        twice,
        wrong,
        decl,
        &counts,
    )?;
    add_variable(alloc, state, &decl.name, defined, &kind)?;
    Ok(kind)
}

// ---- functions

/// The types of parameters, where their tags are known.
fn param_kinds(
    alloc: Global,
    scope: &Scope,
    params: &[Decl],
) -> Result<Option<Items<Type>>, OutOfMemory>
    ensures { IfOk result (λ kinds. kinds ≡ spec.param_kinds scope.now params.now) }
{
    let mut kinds = Items::new(alloc);
    'params: for param in params {
        match plain_of(alloc, scope, param)? {
            Some(kind) => kinds.push(kind)?,
            None => return Ok(None),
        }
    }
    Ok(Some(kinds))
}

fn same_lists(a: &[Type], b: &[Type]) -> bool
    ensures { result ≡ spec.same_lists a.now b.now }
{
    match a {
        [] => b.is_empty(),
        [x, xs @ ..] => match b {
            [] => false,
            [y, ys @ ..] => same(x, y) && same_lists(xs, ys),
        },
    }
}

fn same_params(known: &[Type], params: &Option<Items<Type>>) -> bool
    ensures { result ≡ spec.same_params known.now params.now }
{
    match params {
        Some(params) => same_lists(known, params.as_slice()),
        None => false,
    }
}

fn blocks_function(
    function: Option<&Function>,
    params: &Option<Items<Type>>,
    result_kind: &Option<Type>,
) -> bool
    ensures { result ≡ spec.blocks_function (option_copied function.entry) params.now result_kind.now }
{
    match function {
        Some(f) => {
            f.defined
                || !(same_known(&f.result, result_kind) && same_params(f.params.as_slice(), params))
        }
        None => false,
    }
}

fn function_in(scope: &Scope, found: Option<usize>) -> Option<&Function>
    ensures { option_copied result ≡ spec.function_in scope.now found }
{
    match found {
        Some(at) => scope.functions.get(at),
        None => None,
    }
}

fn function_twice(
    alloc: Global,
    scope: &Scope,
    name: &[u8],
    params: &[Decl],
    result_kind: &Option<Type>,
) -> Result<bool, OutOfMemory>
    ensures { IfOk result (λ twice. twice ≡ spec.function_twice name.now params.now scope.now result_kind.now) }
{
    let kinds = param_kinds(alloc, scope, params)?;
    Ok(
        is_reserved(name)
            || scope.variable(name).is_some()
            || blocks_function(
                function_in(scope, scope.function(name)),
                &kinds,
                result_kind,
            ),
    )
}

fn put_function(
    all: &mut NamedItems<Function>,
    found: Option<usize>,
    f: Function,
) -> Result<(), OutOfMemory>
    requires { found ≡ last_at f.name (function_names all.old) 0 None }
    ensures { OnOk result (all.new ≡ spec.put_function all.old found f) }
{
    match found {
        Some(at) => all.set(at, f),
        None => all.push(f)?,
    }
    Ok(())
}

fn or_none(alloc: Global, kinds: Option<Items<Type>>) -> Items<Type>
    ensures { result ≡ spec.or_none kinds }
{
    match kinds {
        Some(kinds) => kinds,
        None => Items::new(alloc),
    }
}

/// The number that a function has or will have.
pub fn function_number(scope: &Scope, name: &[u8]) -> u32
    ensures { result ≡ spec.function_number name.now scope.now }
{
    number_in(scope.functions.len(), scope.function(name))
}

fn add_function(
    alloc: Global,
    state: &mut State,
    name: &Name,
    params: &[Decl],
    defined: bool,
    kind: &Type,
) -> Result<(), OutOfMemory>
    ensures { OnOk result (state.new ≡ spec.with_function name.now params.now defined kind.now state.old) }
{
    let found = state.scope.function(name.as_slice());
    let number = number_in(state.scope.functions.len(), found);
    let kinds = param_kinds(alloc, &state.scope, params)?;
    let params = or_none(alloc, kinds);
    let name = copy_name(alloc, name)?;
    let copy = kind.copy(alloc)?;
    put_function(
        &mut state.scope.functions,
        found,
        Function {
            name,
            result: copy,
            params,
            defined,
        },
    )?;
    note_first(&mut state.order, found, Bind::Fun(number))?;
    note_declared(alloc, &mut state.notes, Bind::Fun(number), kind)
}

/// Declares a function, and answers the type of its result.
pub fn declare_function(
    alloc: Global,
    state: &mut State,
    defined: bool,
    params: &[Decl],
    decl: &Decl,
) -> Result<Type, CheckFault>
    ensures { Declares (spec.function_declared defined params.now decl.now state.old) result state.new }
{
    let counts = read_counts(
        alloc,
        &state.scope,
        &mut state.notes,
        decl.counts.as_slice(),
    )?;
    let known = kind_of(alloc, &state.scope, decl, &counts)?;
    let twice = function_twice(alloc, &state.scope, decl.name.as_slice(), params, &known)?;
    let kind = judge_decl(
        alloc,
        &state.scope,
        Use::Result,
        twice,
        false,
        decl,
        &counts,
    )?;
    add_function(alloc, state, &decl.name, params, defined, &kind)?;
    Ok(kind)
}

// ---- members

/// Reads a member's declaration, and answers its type.
pub fn declare_member(
    alloc: Global,
    state: &mut State,
    twice: bool,
    decl: &Decl,
) -> Result<Type, CheckFault>
    ensures { Declares (spec.member_known twice decl.now state.old) result state.new }
{
    let counts = read_counts(
        alloc,
        &state.scope,
        &mut state.notes,
        decl.counts.as_slice(),
    )?;
    let kind = judge_decl(
        alloc,
        &state.scope,
        Use::Variable,
        twice,
        false,
        decl,
        &counts,
    )?;
    let copy = kind.copy(alloc)?;
    state.notes.declared.push(copy)?;
    Ok(kind)
}
