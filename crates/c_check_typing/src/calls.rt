//! Names and calls.

ghost use Rattle.std.specs.Prelude.{◌≡◌, IfOk, Some};
ghost use Rattle.c_check_typing.specs.Notes.{Ends};
ghost use Rattle.c_check_typing.specs.Rules as rule;

use crate::fault::{CheckFault, CheckKind};
use crate::typed::{Notes, Typed, end_named, end_wrong, value};
use c_check_rules::{Bind, Constant, Found, Type, converts, is_void_pointer};
use mx_base::{OutOfMemory, Place};
use std::alloc::Global;

fn local_of(bind: Bind) -> Option<u32>
    ensures { result ≡ rule.local_of bind }
{
    match bind {
        Bind::Local(number) => Some(number),
        Bind::Global(_) => None,
        Bind::Fun(_) => None,
        Bind::Service(_) => None,
        Bind::Builtin(_) => None,
    }
}

fn end_function(
    alloc: Global,
    notes: &mut Notes,
    place: Place,
    functions: bool,
    bind: Bind,
) -> Result<Typed, CheckFault>
    ensures { Ends (rule.function_named functions bind) place notes.old result notes.new }
{
    if !functions {
        return end_wrong(place, CheckKind::BadType);
    }
    match bind {
        Bind::Fun(_) => {
            let kind = Type::void_pointer(alloc)?;
            end_named(alloc, notes, place, bind, value(kind, Constant::No))
        }
        Bind::Global(_) => end_wrong(place, CheckKind::BadType),
        Bind::Local(_) => end_wrong(place, CheckKind::BadType),
        Bind::Service(_) => end_wrong(place, CheckKind::BadType),
        Bind::Builtin(_) => end_wrong(place, CheckKind::BadType),
    }
}

/// Ends a name by what it stands for, and whether the name of a function may stand there.
#[tactic(auto, unfolding(crate::specs::Rules::name_own))]
pub fn end_name(
    alloc: Global,
    notes: &mut Notes,
    place: Place,
    functions: bool,
    found: Found,
) -> Result<Typed, CheckFault>
    ensures { Ends (rule.name_own functions found) place notes.old result notes.new }
{
    match found {
        Found::Missing => end_wrong(place, CheckKind::Unknown),
        Found::Variable(bind, kind) => {
            let t = Typed {
                kind,
                is_place: true,
                is_zero: false,
                constant: Constant::No,
                text: None,
                local: local_of(bind),
            };
            end_named(alloc, notes, place, bind, t)
        }
        Found::Callable(bind, _, _) => end_function(alloc, notes, place, functions, bind),
    }
}

/// The types of the parameters of what is called.
pub fn params_of(found: &Found) -> &[Type]
    ensures { result.now ≡ rule.params_of found.now }
{
    match found {
        Found::Missing => &[],
        Found::Variable(_, _) => &[],
        Found::Callable(_, _, params) => params.as_slice(),
    }
}

/// Whether the name of a function may stand as the argument of the first of these parameters.
pub fn takes_function(params: &[Type]) -> bool
    ensures { result ≡ rule.takes_function params.now }
{
    match params {
        [] => false,
        [kind, ..] => is_void_pointer(kind),
    }
}

/// The parameters after the first.
pub fn params_after(params: &[Type]) -> &[Type]
    ensures { result.now ≡ rule.params_after params.now }
{
    match params {
        [] => &[],
        [_, more @ ..] => more,
    }
}

/// Whether an argument fits the first of these parameters.
pub fn argument_fits(alloc: Global, params: &[Type], a: &Typed) -> Result<bool, OutOfMemory>
    ensures { IfOk result (λ fits. fits ≡ rule.argument_fits params.now a.now) }
{
    match params {
        [] => Ok(false),
        [kind, ..] => {
            let source = a.decayed(alloc)?;
            Ok(converts(kind, &source, a.is_zero))
        }
    }
}

/// Ends a call by what its name stands for, and whether its arguments fit.
#[tactic(auto, unfolding(crate::specs::Rules::call_own))]
pub fn end_call(
    alloc: Global,
    notes: &mut Notes,
    place: Place,
    found: Found,
    fit: bool,
) -> Result<Typed, CheckFault>
    ensures { Ends (rule.call_own found (Some fit)) place notes.old result notes.new }
{
    match found {
        Found::Missing => end_wrong(place, CheckKind::Unknown),
        Found::Variable(_, _) => end_wrong(place, CheckKind::BadType),
        Found::Callable(bind, result_kind, _) => {
            if fit {
                end_named(alloc, notes, place, bind, value(result_kind, Constant::No))
            } else {
                end_wrong(place, CheckKind::BadType)
            }
        }
    }
}
