//! The services and builtins, which every source knows.

ghost use Rattle.std.specs.Prelude.{◌≡◌, IfOk, map};
ghost use Rattle.c_check_rules.specs.Predeclared as spec;

use crate::kinds::Type;
use crate::names::same_name;
use mx_base::{CService, IntKind, OutOfMemory};
use sqlite_items::Items;
use std::alloc::Global;

/// A builtin on bounds.
#[derive(Clone, Copy, Debug, PartialEq, Eq)]
pub enum Builtin {
    /// `__builtin___bnd_set_ptr_bounds`
    SetBounds,
    /// `__builtin___bnd_narrow_ptr_bounds`
    NarrowBounds,
    /// `__builtin___bnd_copy_ptr_bounds`
    CopyBounds,
    /// `__builtin___bnd_init_ptr_bounds`
    InitBounds,
    /// `__builtin___bnd_get_ptr_lbound`
    LowerBound,
    /// `__builtin___bnd_get_ptr_ubound`
    UpperBound,
}

/// What a name is bound to: a global variable or a function by its number in the source, each counted by first declarations from 0; a parameter
/// or local by its number in its function; a service or a builtin.
#[derive(Clone, Copy, Debug)]
pub enum Bind {
    Global(u32),
    Local(u32),
    Fun(u32),
    Service(CService),
    Builtin(Builtin),
}

/// What a name stands for: nothing, a variable of a type, or what may be called, with the types of its result and its parameters.
#[derive(Drop)]
pub enum Found {
    Missing,
    Variable(Bind, Type),
    Callable(Bind, Type, Items<Type>),
}

fn service_named(name: &[u8]) -> Option<CService>
    ensures { result ≡ spec.service_named name.now }
{
    if same_name(name, b"print") {
        Some(CService::Print)
    } else if same_name(name, b"put") {
        Some(CService::Put)
    } else if same_name(name, b"get") {
        Some(CService::Get)
    } else if same_name(name, b"alloc") {
        Some(CService::Alloc)
    } else if same_name(name, b"free") {
        Some(CService::Free)
    } else if same_name(name, b"exit") {
        Some(CService::Exit)
    } else {
        None
    }
}

fn builtin_named(name: &[u8]) -> Option<Builtin>
    ensures { result ≡ spec.builtin_named name.now }
{
    if same_name(name, b"__builtin___bnd_set_ptr_bounds") {
        Some(Builtin::SetBounds)
    } else if same_name(name, b"__builtin___bnd_narrow_ptr_bounds") {
        Some(Builtin::NarrowBounds)
    } else if same_name(name, b"__builtin___bnd_copy_ptr_bounds") {
        Some(Builtin::CopyBounds)
    } else if same_name(name, b"__builtin___bnd_init_ptr_bounds") {
        Some(Builtin::InitBounds)
    } else if same_name(name, b"__builtin___bnd_get_ptr_lbound") {
        Some(Builtin::LowerBound)
    } else if same_name(name, b"__builtin___bnd_get_ptr_ubound") {
        Some(Builtin::UpperBound)
    } else {
        None
    }
}

/// Whether a name is that of a service or builtin.
pub fn is_predeclared(name: &[u8]) -> bool
    ensures { result ≡ spec.is_predeclared name.now }
{
    service_named(name).is_some() || builtin_named(name).is_some()
}

/// A parameter or result of something predeclared.
#[derive(Clone, Copy, Debug)]
enum Simple {
    Void,
    Int,
    Long,
    UnsignedLong,
    Pointer,
}

fn simple_type(alloc: Global, simple: Simple) -> Result<Type, OutOfMemory>
    ensures { IfOk result (λ t. t ≡ spec.simple_type simple) }
{
    match simple {
        Simple::Void => Ok(Type::void(alloc)),
        Simple::Int => Ok(Type::int(alloc, IntKind::I32)),
        Simple::Long => Ok(Type::int(alloc, IntKind::I64)),
        Simple::UnsignedLong => Ok(Type::int(alloc, IntKind::U64)),
        Simple::Pointer => Type::void_pointer(alloc),
    }
}

fn simple_types(alloc: Global, all: &[Simple]) -> Result<Items<Type>, OutOfMemory>
    ensures { IfOk result (λ types. types ≡ map spec.simple_type all.now) }
{
    let mut types = Items::new(alloc);
    'all: for simple in all {
        let kind = simple_type(alloc, *simple)?;
        types.push(kind)?;
    }
    Ok(types)
}

fn callable(
    alloc: Global,
    bind: Bind,
    gives: Simple,
    takes: &[Simple],
) -> Result<Found, OutOfMemory>
    ensures { IfOk result (λ found. found ≡ spec.callable bind gives takes.now) }
{
    let result_kind = simple_type(alloc, gives)?;
    let params = simple_types(alloc, takes)?;
    Ok(Found::Callable(bind, result_kind, params))
}

fn found_service(alloc: Global, service: CService) -> Result<Found, OutOfMemory>
    ensures { IfOk result (λ found. found ≡ spec.service service) }
{
    let bind = Bind::Service(service);
    match service {
        CService::Print => callable(alloc, bind, Simple::Void, &[Simple::Long]),
        CService::Put => callable(alloc, bind, Simple::Void, &[Simple::Int]),
        CService::Get => callable(alloc, bind, Simple::Int, &[]),
        CService::Alloc => callable(alloc, bind, Simple::Pointer, &[Simple::UnsignedLong]),
        CService::Free => callable(alloc, bind, Simple::Int, &[Simple::Pointer]),
        CService::Exit => callable(alloc, bind, Simple::Void, &[Simple::Int]),
    }
}

fn found_builtin(alloc: Global, builtin: Builtin) -> Result<Found, OutOfMemory>
    ensures { IfOk result (λ found. found ≡ spec.builtin builtin) }
{
    let bind = Bind::Builtin(builtin);
    let pointer = Simple::Pointer;
    match builtin {
        Builtin::SetBounds => callable(alloc, bind, pointer, &[pointer, Simple::UnsignedLong]),
        Builtin::NarrowBounds => callable(
            alloc,
            bind,
            pointer,
            &[pointer, pointer, Simple::UnsignedLong],
        ),
        Builtin::CopyBounds => callable(alloc, bind, pointer, &[pointer, pointer]),
        Builtin::InitBounds => callable(alloc, bind, pointer, &[pointer]),
        Builtin::LowerBound => callable(alloc, bind, pointer, &[pointer]),
        Builtin::UpperBound => callable(alloc, bind, pointer, &[pointer]),
    }
}

/// What a predeclared name stands for.
pub fn predeclared(alloc: Global, name: &[u8]) -> Result<Found, OutOfMemory>
    ensures { IfOk result (λ found. found ≡ spec.predeclared name.now) }
{
    if let Some(named) = service_named(name) {
        return found_service(alloc, named);
    }
    match builtin_named(name) {
        Some(named) => found_builtin(alloc, named),
        None => Ok(Found::Missing),
    }
}
