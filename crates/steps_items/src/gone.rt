//! What was declared so far, and past one more item.

ghost use Rattle.std.specs.Prelude.{◌≡◌, [], map, All, IfOk, OnOk, Some};
ghost use Rattle.c_types.specs.Types.{type_at, IsIn};
ghost use Rattle.bounds_plan.specs.elaboration.Source as source_spec;
ghost use Rattle.bounds_plan.specs.elaboration.Functions.{with_struct, with_signature};
ghost use Rattle.steps_facts.specs.Seen.{reached_of};
ghost use Rattle.steps_known.specs.Known.{around_of};
ghost use Rattle.steps_items.specs.Around.{IsSource, IsGone, IsHead, table_of, around_at, signature_at, behind_variable, members_next, parameters_next};

use c_check_rules::Bind;
use c_look_declarations::{
    DeclaredTypes, members_declared, parameters_declared, past_counts, past_init,
};
use c_tree::{Decl, Init, Name};
use c_types::{Shape, TypeId};
use mx_base::OutOfMemory;
use sqlite_items::Items;
use std::alloc::Global;
use steps_facts::{Knows, Reached};
use steps_known::{Known, KnownFunction, declare_function};
use steps_source::{FunctionVariables, PlannedSource, known_at};
use steps_structs::{KnownStruct, declare_struct};

/// A source gone through so far: the structs and functions that it has declared, and how far it was gone through.
#[derive(Drop)]
pub struct Gone {
    pub structs: Items<KnownStruct>,
    pub functions: Items<KnownFunction>,
    pub after: Reached,
}

/// The front of a source.
pub fn start(alloc: Global) -> Gone
    ensures around { (result.structs ≡ []) × (result.functions ≡ []) }
    ensures after { reached_of result.after ≡ source_spec.start }
{
    Gone {
        structs: Items::new(alloc),
        functions: Items::new(alloc),
        after: Reached {
            kind: 0,
            name: 0,
            declaration: 0,
            literal: 0,
            body: 0,
        },
    }
}

/// What is known outside of functions.
pub fn known_outside<'a>(source: &PlannedSource<'a>, gone: &'a Gone) -> Known<'a>
    requires source { IsSource source.now }
    requires gone { IsGone source.now gone.now }
    ensures table { result.table ≡ table_of source.now }
    ensures around { around_of result ≡ around_at source.now gone.now }
{
    let none = FunctionVariables {
        types: &[],
        spots: &[],
        standings: &[],
        result: Shape::Void,
    };
    known_at(
        source,
        gone.structs.as_slice(),
        gone.functions.as_slice(),
        &none,
    )
}

// ---- structs

fn struct_types(
    alloc: Global,
    source: &PlannedSource,
    gone: &Gone,
    members: &[Decl],
) -> Result<DeclaredTypes, OutOfMemory>
    requires source { IsSource source.now }
    requires gone { IsGone source.now gone.now }
    ensures types { IfOk result (λ d. map (type_at (table_of source.now)) d.types ≡ (members_next source.now gone.now members.now).types) }
    ensures known { IfOk result (λ d. All (IsIn (table_of source.now)) d.types) }
    ensures after { IfOk result (λ d. reached_of d.after ≡ (members_next source.now gone.now members.now).after) }
{
    let known = known_outside(source, gone);
    members_declared(alloc, &known, members, gone.after)
}

/// Past the declaration of a struct, which is then declared.
pub fn past_struct(
    alloc: Global,
    source: &PlannedSource,
    gone: &mut Gone,
    tag: &Name,
    members: &[Decl],
) -> Result<(), OutOfMemory>
    requires source { IsSource source.now }
    requires gone { IsGone source.now gone.old }
    ensures gone { IsGone source.now gone.new }
    ensures around { OnOk result (around_at source.now gone.new ≡ with_struct tag.now members.now (members_next source.now gone.old members.now).types (around_at source.now gone.old)) }
    ensures after { OnOk result (reached_of gone.new.after ≡ (members_next source.now gone.old members.now).after) }
{
    let declared = struct_types(alloc, source, gone, members)?;
    let types = &source.checked.types;
    declare_struct(
        alloc,
        types,
        &mut gone.structs,
        tag,
        members,
        declared.types.as_slice(),
    )?;
    gone.after = declared.after;
    Ok(())
}

// ---- globals

fn behind_global(
    alloc: Global,
    source: &PlannedSource,
    gone: &Gone,
    d: &Decl,
    init: &Option<Init>,
) -> Result<Reached, OutOfMemory>
    requires source { IsSource source.now }
    requires gone { IsGone source.now gone.now }
    ensures { IfOk result (λ q. reached_of q ≡ behind_variable d.now init.now (around_at source.now gone.now) (reached_of gone.now.after)) }
{
    let known = known_outside(source, gone);
    let here = past_counts(&known, d, gone.after)?;
    let declared = known.declared_here(here)?;
    match init {
        Some(init) => past_init(alloc, &known, init, declared.kind, declared.after),
        None => Ok(declared.after),
    }
}

/// Past the declaration of a global and its initialiser.
pub fn past_global(
    alloc: Global,
    source: &PlannedSource,
    gone: &mut Gone,
    d: &Decl,
    init: &Option<Init>,
) -> Result<(), OutOfMemory>
    requires source { IsSource source.now }
    requires gone { IsGone source.now gone.old }
    ensures gone { IsGone source.now gone.new }
    ensures around { around_at source.now gone.new ≡ around_at source.now gone.old }
    ensures after { OnOk result (reached_of gone.new.after ≡ behind_variable d.now init.now (around_at source.now gone.old) (reached_of gone.old.after)) }
{
    gone.after = behind_global(alloc, source, gone, d, init)?;
    Ok(())
}

// ---- functions

/// A function that a declarator names: its number, and the types of its result and parameters.
#[derive(Drop)]
pub struct FunctionHead {
    pub number: u32,
    pub result: TypeId,
    pub parameters: Items<TypeId>,
}

/// The number of the function that a name means.
fn function_number(bind: Bind) -> Result<u32, OutOfMemory>
    ensures { IfOk result (λ n. source_spec.function_number bind ≡ Some n) }
{
    match bind {
        Bind::Fun(number) => Ok(number),
        Bind::Global(_) | Bind::Local(_) | Bind::Service(_) | Bind::Builtin(_) => Err(OutOfMemory),
    }
}

/// A function that stands from a place on, and what is reached behind its declarator.
#[derive(Drop)]
struct HeadHere {
    head: FunctionHead,
    after: Reached,
}

fn head_here(
    alloc: Global,
    source: &PlannedSource,
    gone: &Gone,
    parameters: &[Decl],
) -> Result<HeadHere, OutOfMemory>
    requires source { IsSource source.now }
    requires gone { IsGone source.now gone.now }
    ensures head { IfOk result (λ h. IsHead source.now (around_at source.now gone.now) (reached_of gone.now.after) parameters.now h.head) }
    ensures after { IfOk result (λ h. reached_of h.after ≡ (parameters_next source.now gone.now parameters.now).after) }
{
    let known = known_outside(source, gone);
    let meant = known.bind_here(gone.after)?;
    let number = function_number(meant.bind)?;
    let declared = known.declared_here(gone.after)?;
    let all = parameters_declared(alloc, &known, parameters, declared.after)?;
    let head = FunctionHead {
        number,
        result: declared.kind,
        parameters: all.types,
    };
    Ok(HeadHere {
        head,
        after: all.after,
    })
}

/// Past the declarator of a function, which is then known.
pub fn past_declarator(
    alloc: Global,
    source: &PlannedSource,
    gone: &mut Gone,
    parameters: &[Decl],
) -> Result<FunctionHead, OutOfMemory>
    requires source { IsSource source.now }
    requires gone { IsGone source.now gone.old }
    ensures gone { IsGone source.now gone.new }
    ensures head { IfOk result (IsHead source.now (around_at source.now gone.old) (reached_of gone.old.after) parameters.now) }
    ensures around { IfOk result (λ h. around_at source.now gone.new ≡ with_signature h.number (signature_at source.now h) (around_at source.now gone.old)) }
    ensures after { OnOk result (reached_of gone.new.after ≡ (parameters_next source.now gone.old parameters.now).after) }
{
    let here = head_here(alloc, source, gone, parameters)?;
    let head = here.head;
    let types = &source.checked.types;
    declare_function(
        alloc,
        types,
        &mut gone.functions,
        head.number,
        head.result,
        head.parameters.as_slice(),
    )?;
    gone.after = here.after;
    Ok(head)
}
