//! The types of a source by their numbers in a table.

ghost use Rattle.std.specs.Prelude.{◌≡◌, ◌+◌, ◌*◌, ◌<◌, ◌≤◌, [], IfOk, OnOk, All, length, map};
ghost use Rattle.c_types.specs.Types.{no_types, structs_of, Struct};
ghost use Rattle.c_check_statements.specs.Structs.{kinds_in};
ghost use Rattle.c_check.specs.Numbering as spec;
ghost use Rattle.c_check.specs.Numbering.{HasNumber, HoldsNumber, BodyHasNumbers, KnowsMembers, Grows, Numbers, HasStruct, global_types, local_types};
ghost use Rattle.c_types.specs.Layouts.{Extends};
ghost use Rattle.c_check.specs.Checked.{Number, IsLocals, IsGlobals, IsStruct, AreStructs, AreBodies, Says};
ghost use Rattle.c_check.specs.Standing.{structs_seen, members_in_all, variables_in_all, AreLaid, CanBeNumbered};

use crate::checked::{Checked, CheckedBody, CheckedStruct, GlobalVariable, LocalVariable};
use crate::symbols::Symbol;
use c_check_rules::{Core, Layer, Member, StructInfo, Type, Variable};
use c_check_statements::{Body, BodyVariable, State};
use c_tree::Bytes;
use c_types::{Shape, TypeId, TypeTable};
use mx_base::OutOfMemory;
use sqlite_items::Items;
use std::alloc::Global;

fn core_shape(core: Core) -> Shape
    ensures { result ≡ spec.core_shape core }
{
    match core {
        Core::Void => Shape::Void,
        Core::Int(kind) => Shape::Int(kind),
        Core::Struct(number) => Shape::Struct(number),
    }
}

fn layer_shape(layer: Layer, inner: TypeId) -> Shape
    ensures { result ≡ spec.layer_shape layer inner }
{
    match layer {
        Layer::Pointer => Shape::Pointer(inner),
        Layer::Array(count) => Shape::Array(inner, count),
    }
}

/// The number of a type: its core gets one first, and then its pointers and arrays from the innermost to the outermost.
fn number_type(table: &mut TypeTable, kind: &Type) -> Result<TypeId, OutOfMemory>
    requires members { KnowsMembers table.old }
    requires built { HasNumber (structs_of table.old) table.old.begun kind.now }
    requires room { length table.old.shapes + 33024 ≤ 4294967295 }
    ensures number { IfOk result (λ t. Numbers table.new t kind.now) }
    ensures grows { OnOk result (Grows table.old table.new) }
    ensures few { OnOk result (length table.new.shapes ≤ length table.old.shapes + 33024) }
{
    let layers = kind.layers();
    let mut t = table.intern(core_shape(kind.core()))?;
    let mut i = layers.len();
    'layers: while i > 0 {
        i -= 1;
        t = table.intern(layer_shape(layers[i], t))?;
    }
    Ok(t)
}

fn number_types(
    alloc: Global,
    table: &mut TypeTable,
    kinds: &[Type],
) -> Result<Items<TypeId>, OutOfMemory>
    requires members { KnowsMembers table.old }
    requires built { All (HasNumber (structs_of table.old) table.old.begun) kinds.now }
    requires room { length table.old.shapes + 33024 * length kinds.now ≤ 4294967295 }
    ensures numbers { IfOk result (λ ids. Number table.new ids kinds.now) }
    ensures grows { OnOk result (Grows table.old table.new) }
    ensures few { OnOk result (length table.new.shapes ≤ length table.old.shapes + 33024 * length kinds.now) }
{
    let mut ids = Items::new(alloc);
    'kinds: for kind in kinds {
        let id = number_type(table, kind)?;
        ids.push(id)?;
    }
    Ok(ids)
}

fn number_members(
    alloc: Global,
    table: &mut TypeTable,
    members: &[Member],
) -> Result<Items<TypeId>, OutOfMemory>
    requires members { KnowsMembers table.old }
    requires built { All (HasNumber (structs_of table.old) table.old.begun) (kinds_in members.now) }
    requires room { length table.old.shapes + 33024 * length members.now ≤ 4294967295 }
    ensures numbers { IfOk result (λ ids. Number table.new ids (kinds_in members.now)) }
    ensures grows { OnOk result (Grows table.old table.new) }
    ensures few { OnOk result (length table.new.shapes ≤ length table.old.shapes + 33024 * length members.now) }
{
    let mut ids = Items::new(alloc);
    'members: for member in members {
        let id = number_type(table, &member.kind)?;
        ids.push(id)?;
    }
    Ok(ids)
}

/// Begins a struct, numbers the types of its members, and gives it these.
fn number_struct(
    alloc: Global,
    table: &mut TypeTable,
    info: &StructInfo,
) -> Result<Items<TypeId>, OutOfMemory>
    requires members { KnowsMembers table.old }
    requires begun { table.old.begun < 4294967295 }
    requires built { All (HoldsNumber (structs_of table.old) (table.old.begun + 1)) (kinds_in info.now.members) }
    requires some { 1 ≤ length info.now.members }
    requires few { length info.now.members ≤ 32768 }
    requires room { length table.old.shapes + 33024 * length info.now.members ≤ 4294967295 }
    ensures known { IfOk result (λ ids. IsStruct table.new ids (kinds_in info.now.members)) }
    ensures extends { OnOk result (Extends table.old table.new) }
    ensures added { OnOk result (HasStruct table.old table.new info.now) }
    ensures few { OnOk result (length table.new.shapes ≤ length table.old.shapes + 33024 * length info.now.members) }
{
    let number = table.begin_struct()?;
    let members = number_members(alloc, table, info.members.as_slice())?;
    table.end_struct(number, members.as_slice())?;
    Ok(members)
}

/// A table with these structs, the types of whose members are put into a list.
fn number_structs(
    alloc: Global,
    known: &mut Items<CheckedStruct>,
    structs: &[StructInfo],
) -> Result<TypeTable, OutOfMemory>
    requires empty { known.old ≡ [] }
    requires laid { AreLaid [] structs.now }
    requires room { 33024 * members_in_all structs.now ≤ 4294967295 }
    ensures structs { IfOk result (λ table. structs_of table ≡ structs_seen structs.now) }
    ensures begun { IfOk result (λ table. table.begun ≡ length structs.now) }
    ensures members { IfOk result (λ table. KnowsMembers table) }
    ensures few { IfOk result (λ table. length table.shapes ≤ 33024 * members_in_all structs.now) }
    ensures known { IfOk result (λ table. AreStructs table known.new structs.now) }
{
    let mut table = TypeTable::make(alloc)?;
    'structs: for info in structs {
        let members = number_struct(alloc, &mut table, info)?;
        known.push(CheckedStruct { members })?;
    }
    Ok(table)
}

fn number_globals(
    alloc: Global,
    table: &mut TypeTable,
    variables: &[Variable],
) -> Result<Items<GlobalVariable>, OutOfMemory>
    requires members { KnowsMembers table.old }
    requires built { All (HoldsNumber (structs_of table.old) table.old.begun) (global_types variables.now) }
    requires room { length table.old.shapes + 33024 * length variables.now ≤ 4294967295 }
    ensures numbers { IfOk result (λ globals. IsGlobals table.new globals variables.now) }
    ensures grows { OnOk result (Grows table.old table.new) }
    ensures few { OnOk result (length table.new.shapes ≤ length table.old.shapes + 33024 * length variables.now) }
{
    let mut globals = Items::new(alloc);
    'variables: for variable in variables {
        let kind = number_type(table, &variable.kind)?;
        let defined = variable.defined;
        globals.push(GlobalVariable { kind, defined })?;
    }
    Ok(globals)
}

fn number_locals(
    alloc: Global,
    table: &mut TypeTable,
    variables: &[BodyVariable],
) -> Result<Items<LocalVariable>, OutOfMemory>
    requires members { KnowsMembers table.old }
    requires built { All (HoldsNumber (structs_of table.old) table.old.begun) (local_types variables.now) }
    requires room { length table.old.shapes + 33024 * length variables.now ≤ 4294967295 }
    ensures numbers { IfOk result (λ locals. IsLocals table.new locals variables.now) }
    ensures grows { OnOk result (Grows table.old table.new) }
    ensures few { OnOk result (length table.new.shapes ≤ length table.old.shapes + 33024 * length variables.now) }
{
    let mut locals = Items::new(alloc);
    'variables: for variable in variables {
        let kind = number_type(table, &variable.kind)?;
        let taken = variable.taken;
        locals.push(LocalVariable { kind, taken })?;
    }
    Ok(locals)
}

fn number_bodies(
    alloc: Global,
    table: &mut TypeTable,
    bodies: &[Body],
) -> Result<Items<CheckedBody>, OutOfMemory>
    requires members { KnowsMembers table.old }
    requires built { All (BodyHasNumbers (structs_of table.old) table.old.begun) bodies.now }
    requires room { length table.old.shapes + 33024 * variables_in_all bodies.now ≤ 4294967295 }
    ensures numbers { IfOk result (λ all. AreBodies table.new all bodies.now) }
    ensures grows { OnOk result (Grows table.old table.new) }
    ensures few { OnOk result (length table.new.shapes ≤ length table.old.shapes + 33024 * variables_in_all bodies.now) }
{
    let mut all = Items::new(alloc);
    'bodies: for body in bodies {
        let number = body.number;
        let variables = number_locals(alloc, table, body.variables.as_slice())?;
        all.push(CheckedBody { number, variables })?;
    }
    Ok(all)
}

fn copy_bytes(alloc: Global, bytes: &[u8]) -> Result<Bytes, OutOfMemory>
    ensures { IfOk result (λ copied. copied ≡ bytes.now) }
{
    let copied = Vec::from_slice(alloc, bytes)?;
    Ok(Bytes::from_vec(copied))
}

/// What is known of a source, with its types by their numbers and its symbols.
pub fn number_state(
    alloc: Global,
    state: &State,
    symbols: Items<Symbol>,
) -> Result<Checked, OutOfMemory>
    requires { CanBeNumbered state.now }
    ensures says { IfOk result (λ c. Says state.now c) }
    ensures symbols { IfOk result (λ c. c.symbols ≡ symbols) }
{
    let mut structs = Items::new(alloc);
    let mut types = number_structs(alloc, &mut structs, state.scope.structs.as_slice())?;
    let kinds = number_types(alloc, &mut types, state.notes.kinds.as_slice())?;
    let binds = Items::from_slice(alloc, state.notes.binds.as_slice())?;
    let declared = number_types(alloc, &mut types, state.notes.declared.as_slice())?;
    let variables = number_globals(alloc, &mut types, state.scope.variables.as_slice())?;
    let bodies = number_bodies(alloc, &mut types, state.bodies.as_slice())?;
    let global_items = Items::from_slice(alloc, state.global_items.as_slice())?;
    let constants = Items::from_slice(alloc, state.notes.constants.as_slice())?;
    let literals = copy_bytes(alloc, state.notes.literals.as_slice())?;
    Ok(Checked {
        types,
        kinds,
        binds,
        declared,
        variables,
        bodies,
        structs,
        global_items,
        constants,
        literals,
        symbols,
    })
}
