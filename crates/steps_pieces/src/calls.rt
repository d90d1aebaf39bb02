//! Calls of functions, services and builtins.

ghost use Rattle.std.specs.Prelude.{◌≡◌, ◌+◌, ◌≤◌, ◌^◌, ◌++◌, ◌∷◌, [], Some, OnOk, IfOk};
ghost use Rattle.steps_pieces.specs.Own.{place_of, bounds_for as bounds_of_sort, takes, service_takes, builtin_takes};
ghost use Rattle.steps_pieces.specs.Own.{service_labels as labels_of_service, call_labels as labels_of_call, service_steps};
ghost use Rattle.steps_pieces.specs.Own.{builtin_steps, call_steps};

use crate::kinds::given_number;
use crate::put::{put, put_addressing, put_const, put_copy, put_make, put_meet};
use c_check_rules::{Bind, Builtin};
use fat_ir::FatStep;
use mx_base::{CService, IntKind, OutOfMemory};
use sqlite_items::Items;
use std::alloc::Global;
use steps_facts::{Knows, Sorted};

/// Where an argument stands: its value, and a pointer's bounds.
pub fn stands_at(to: Sorted, number: bool, d: u32) -> (u32, Option<u32>)
    requires { d + 6 ≤ 2 ^ 32 }
    ensures { result ≡ place_of to number d }
{
    if given_number(to, number) {
        (d, None)
    } else {
        (d, Some(d + 1))
    }
}

/// Where the bounds of what a function gives go.
fn bounds_for(sort: Sorted, d: u32) -> Option<u32>
    requires { d + 6 ≤ 2 ^ 32 }
    ensures { result ≡ bounds_of_sort sort d }
{
    match sort {
        Sorted::Pointer => Some(d + 1),
        Sorted::Number(_) | Sorted::Whole | Sorted::Nothing => None,
    }
}

/// A list of sorts.
fn sorts(alloc: Global, all: &[Sorted]) -> Result<Items<Sorted>, OutOfMemory>
    ensures { IfOk result (λ xs. xs ≡ all.now) }
{
    let mut copied = Items::new(alloc);
    for sort in all {
        copied.push(*sort)?;
    }
    Ok(copied)
}

/// The sorts of a service's arguments.
fn service_parameters(alloc: Global, service: CService) -> Result<Items<Sorted>, OutOfMemory>
    ensures { IfOk result (λ xs. xs ≡ service_takes service) }
{
    match service {
        CService::Print => sorts(alloc, &[Sorted::Number(IntKind::I64)]),
        CService::Put | CService::Exit => sorts(alloc, &[Sorted::Number(IntKind::I32)]),
        CService::Get => sorts(alloc, &[]),
        CService::Alloc => sorts(alloc, &[Sorted::Number(IntKind::U64)]),
        CService::Free => sorts(alloc, &[Sorted::Pointer]),
    }
}

/// The sorts of a builtin's arguments.
fn builtin_parameters(alloc: Global, builtin: Builtin) -> Result<Items<Sorted>, OutOfMemory>
    ensures { IfOk result (λ xs. xs ≡ builtin_takes builtin) }
{
    let pointer = Sorted::Pointer;
    let size = Sorted::Number(IntKind::U64);
    match builtin {
        Builtin::SetBounds => sorts(alloc, &[pointer, size]),
        Builtin::NarrowBounds => sorts(alloc, &[pointer, pointer, size]),
        Builtin::CopyBounds => sorts(alloc, &[pointer, pointer]),
        Builtin::InitBounds | Builtin::LowerBound | Builtin::UpperBound => sorts(alloc, &[pointer]),
    }
}

/// The sorts of the arguments of what a name means, which is no variable.
pub fn parameters_of<K: Knows>(
    known: &K,
    alloc: Global,
    bind: Bind,
) -> Result<Items<Sorted>, OutOfMemory>
    ensures { IfOk result (λ xs. Some xs ≡ takes (K.around known.now) bind) }
{
    match bind {
        Bind::Fun(number) => {
            let all = known.parameters(number)?;
            sorts(alloc, all)
        }
        Bind::Service(service) => service_parameters(alloc, service),
        Bind::Builtin(builtin) => builtin_parameters(alloc, builtin),
        Bind::Global(_) | Bind::Local(_) => Err(OutOfMemory),
    }
}

/// How many labels a service takes before its argument.
fn service_labels(service: CService) -> u32
    ensures labels { result ≡ labels_of_service service }
    ensures few { result ≤ 1 }
{
    match service {
        CService::Alloc => 1,
        CService::Print | CService::Put | CService::Get | CService::Free | CService::Exit => 0,
    }
}

/// How many labels a call takes before its arguments.
pub fn call_labels(bind: Bind) -> u32
    ensures labels { result ≡ labels_of_call bind }
    ensures few { result ≤ 1 }
{
    match bind {
        Bind::Service(service) => service_labels(service),
        Bind::Global(_) | Bind::Local(_) | Bind::Fun(_) | Bind::Builtin(_) => 0,
    }
}

/// A service that takes the word in `d`.
fn put_service(steps: &mut Items<FatStep>, service: CService, d: u32) -> Result<(), OutOfMemory>
    ensures { OnOk result (steps.new ≡ steps.old ++ FatStep.Service service (Some d) (Some d) ∷ []) }
{
    put(
        steps,
        FatStep::Service {
            service,
            arg: Some(d),
            to: Some(d),
        },
    )
}

/// `alloc`: the bounds of no room are those of no bytes.
fn put_alloc(steps: &mut Items<FatStep>, first: u32, d: u32) -> Result<(), OutOfMemory>
    requires { d + 6 ≤ 2 ^ 32 }
    ensures { OnOk result (steps.new ≡ steps.old ++ service_steps CService.Alloc first d) }
{
    put(
        steps,
        FatStep::Service {
            service: CService::Alloc,
            arg: Some(d),
            to: Some(d + 2),
        },
    )?;
    put(
        steps,
        FatStep::JumpIf {
            from: d + 2,
            n: first,
        },
    )?;
    put_const(steps, d, 0)?;
    put(steps, FatStep::Label { n: first })?;
    put_make(steps, d + 1, d + 2, d)?;
    put_copy(steps, d, d + 2)
}

fn put_service_steps(
    steps: &mut Items<FatStep>,
    service: CService,
    first: u32,
    d: u32,
) -> Result<(), OutOfMemory>
    requires { d + 6 ≤ 2 ^ 32 }
    ensures { OnOk result (steps.new ≡ steps.old ++ service_steps service first d) }
{
    match service {
        CService::Print => put_service(steps, CService::Print, d),
        CService::Put => put_service(steps, CService::Put, d),
        CService::Get => put(
            steps,
            FatStep::Service {
                service: CService::Get,
                arg: None,
                to: Some(d),
            },
        ),
        CService::Alloc => put_alloc(steps, first, d),
        CService::Free => put_service(steps, CService::Free, d),
        CService::Exit => put_service(steps, CService::Exit, d),
    }
}

fn put_builtin_steps(
    steps: &mut Items<FatStep>,
    builtin: Builtin,
    d: u32,
) -> Result<(), OutOfMemory>
    requires { d + 6 ≤ 2 ^ 32 }
    ensures { OnOk result (steps.new ≡ steps.old ++ builtin_steps builtin d) }
{
    let second = d + 2;
    match builtin {
        Builtin::SetBounds => put_make(steps, d + 1, d, second),
        Builtin::NarrowBounds => {
            put_make(steps, d + 1, d, d + 4)?;
            put_meet(steps, d + 1, second + 1, d + 1)
        }
        Builtin::CopyBounds => put_copy(steps, d + 1, second + 1),
        Builtin::InitBounds => put_addressing(steps, true, d),
        Builtin::LowerBound => put(
            steps,
            FatStep::Bound {
                to: d,
                from: d + 1,
                upper: false,
            },
        ),
        Builtin::UpperBound => put(
            steps,
            FatStep::Bound {
                to: d,
                from: d + 1,
                upper: true,
            },
        ),
    }
}

/// A call of what a name means, whose arguments stand there.
pub fn put_call_steps<K: Knows>(
    steps: &mut Items<FatStep>,
    known: &K,
    bind: Bind,
    args: Items<(u32, Option<u32>)>,
    sort: Sorted,
    first: u32,
    d: u32,
) -> Result<(), OutOfMemory>
    requires { d + 6 ≤ 2 ^ 32 }
    ensures { OnOk result (steps.new ≡ steps.old ++ call_steps (K.around known.now) bind args sort first d) }
{
    match bind {
        Bind::Fun(number) => put(
            steps,
            FatStep::Call {
                symbol: known.function(number),
                args,
                to: Some(d),
                bounds: bounds_for(sort, d),
            },
        ),
        Bind::Service(service) => put_service_steps(steps, service, first, d),
        Bind::Builtin(builtin) => put_builtin_steps(steps, builtin, d),
        Bind::Global(_) | Bind::Local(_) => Ok(()),
    }
}
