//! Structs.

ghost use Rattle.std.specs.Prelude.{◌≡◌, [], Some, slice_get, OnOk, IfOk};
ghost use Rattle.c_check_rules.specs.Names.{tags};
ghost use Rattle.c_check_statements.specs.Structs as spec;
ghost use Rattle.c_check_statements.specs.Structs.{Gathers};
ghost use Rattle.c_check_statements.specs.Walks.{Walks};

use crate::decls::declare_member;
use crate::placing::{scalars_sum, struct_laid};
use crate::reading::refused;
use crate::state::State;
use c_check_rules::{Member, NamedItems, StructInfo, copy_name};
use c_check_typing::{CheckFault, CheckKind};
use c_tree::{Decl, Name};
use mx_base::{OutOfMemory, Place};
use std::alloc::Global;

fn read_member(
    alloc: Global,
    state: &mut State,
    members: &mut NamedItems<Member>,
    decl: &Decl,
) -> Result<(), CheckFault>
    ensures { spec.AddsMember members.old decl.now state.old result members.new state.new }
{
    let twice = members.find(decl.name.as_slice()).is_some();
    let kind = declare_member(alloc, state, twice, decl)?;
    let name = copy_name(alloc, &decl.name)?;
    members.push(Member { name, kind })?;
    Ok(())
}

fn read_members(
    alloc: Global,
    state: &mut State,
    members: &mut NamedItems<Member>,
    decls: &[Decl],
) -> Result<(), CheckFault>
    ensures { Gathers (spec.gathered members.old decls.now state.old) result members.new state.new }
{
    'decls: for decl in decls {
        read_member(alloc, state, members, decl)?;
    }
    Ok(())
}

fn open_struct(alloc: Global, state: &mut State, tag: &Name) -> Result<(), OutOfMemory>
    ensures { OnOk result (state.new ≡ spec.with_struct tag.now state.old) }
{
    let tag = copy_name(alloc, tag)?;
    state.scope.structs.push(StructInfo {
        tag,
        laid: None,
        scalars: 0,
        members: NamedItems::new(alloc),
    })?;
    Ok(())
}

/// Closes the struct of a number and tag.
fn close_struct(
    alloc: Global,
    state: &mut State,
    number: usize,
    tag: &Name,
    members: NamedItems<Member>,
) -> Result<bool, OutOfMemory>
    requires { slice_get (tags state.old.scope.structs) number ≡ Some tag.now }
    ensures { IfOk result (λ fits. (fits ≡ spec.has_layout state.old members) × (state.new ≡ spec.closed number tag.now members state.old)) }
{
    let structs = state.scope.structs.as_slice();
    let laid = struct_laid(structs, members.as_slice());
    let scalars = scalars_sum(structs, members.as_slice());
    let tag = copy_name(alloc, tag)?;
    state.scope.structs.set(
        number,
        StructInfo {
            tag,
            laid,
            scalars,
            members,
        },
    );
    Ok(laid.is_some())
}

/// Reads a struct.
pub fn read_struct(
    alloc: Global,
    state: &mut State,
    place: Place,
    tag: &Name,
    decls: &[Decl],
) -> Result<(), CheckFault>
    ensures { Walks (spec.struct_walk tag.now decls.now place state.old) result state.new }
{
    let mut members = NamedItems::new(alloc);
    if state.scope.tag(tag.as_slice()).is_some() {
        read_members(alloc, state, &mut members, decls)?;
        return refused(place, CheckKind::Twice);
    }
    let number = state.scope.structs.len();
    open_struct(alloc, state, tag)?;
    read_members(alloc, state, &mut members, decls)?;
    if !close_struct(alloc, state, number, tag, members)? {
        return refused(place, CheckKind::BadCount);
    }
    Ok(())
}
