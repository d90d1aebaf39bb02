//! Whole sources.

ghost use Rattle.std.specs.Prelude.{◌≡◌, ◌≤◌, IfOk, IfErr};
ghost use Rattle.c_tree.specs.Formed.{IsFormed};
ghost use Rattle.c_check_typing.specs.Refusals.{all_at};
ghost use Rattle.c_check_statements.specs.Placing.{from_start};
ghost use Rattle.c_check.specs.Accepted as spec;
ghost use Rattle.c_check.specs.Accepted.{Decides, RefusesFirst};
ghost use Rattle.c_check.specs.Checked.{IsRefusal, SaysOf};

use crate::checked::Checked;
use crate::laws::accepted_sources_can_be_numbered;
use crate::numbers::number_state;
use crate::symbols::source_symbols;
use c_check_rules::{LIMIT, StructInfo, Variable};
use c_check_statements::{State, kind_placed, read_items, start_state};
use c_check_typing::{CheckFault, CheckKind};
use c_tree::{Item, Tree, nodes};
use std::alloc::Global;

/// Refuses a source by a rule of the whole, at its first item.
fn refuse_first(items: &[Item], kind: CheckKind, is_broken: bool) -> Result<(), CheckFault>
    ensures { RefusesFirst items.now kind is_broken result }
{
    match items {
        [] => Ok(()),
        [first, ..] => {
            if is_broken {
                let place = first.place;
                Err(CheckFault::Refused { kind, place })
            } else {
                Ok(())
            }
        }
    }
}

fn is_too_large(tree: &Tree, room: u32) -> bool
    requires { room ≤ 32768 }
    ensures { result ≡ spec.is_too_large tree.now room }
{
    room < nodes(tree)
}

/// The first byte after the variables that the source defines.
fn variables_placed(structs: &[StructInfo], variables: &[Variable]) -> Option<u64>
    ensures { result ≡ spec.variables_placed structs.now from_start variables.now }
{
    let mut free = Some(0);
    'variables: for variable in variables {
        if variable.defined {
            free = kind_placed(LIMIT, structs, free, &variable.kind);
        }
    }
    free
}

/// Whether so many bytes of literals behind this byte are over the limit.
fn is_over(free: Option<u64>, texts: u64) -> bool
    ensures { result ≡ spec.is_over free texts }
{
    match free {
        Some(free) => u128::from(LIMIT) < u128::from(free) + u128::from(texts),
        None => true,
    }
}

fn is_data_large(state: &State) -> bool
    ensures { result ≡ spec.is_data_large state.now }
{
    let free = variables_placed(
        state.scope.structs.as_slice(),
        state.scope.variables.as_slice(),
    );
    is_over(free, state.notes.literals.len() as u64)
}

/// What is known of a source, or the first rule that is broken in it.
///
/// # Errors
/// `Refused` with the first pair of the list of all broken rules and the places of their nodes; `OutOfMemory` where memory of the host is not to
/// be had.
pub fn read_source(alloc: Global, tree: &Tree, room: u32) -> Result<State, CheckFault>
    requires { room ≤ 32768 }
    ensures { Decides tree.now room result }
{
    let items = tree.items.as_slice();
    refuse_first(items, CheckKind::TooLarge, is_too_large(tree, room))?;
    let mut state = start_state(alloc);
    read_items(alloc, &mut state, items)?;
    refuse_first(items, CheckKind::LargeData, is_data_large(&state))?;
    Ok(state)
}

/// What an accepted source says, with its types by their numbers, or the first rule that is broken in it.
///
/// # Errors
/// `Refused` with the first pair of the list of all broken rules and the places of their nodes; `OutOfMemory` where memory of the host is not to
/// be had.
pub fn check(alloc: Global, tree: &Tree, room: u32) -> Result<Checked, CheckFault>
    requires few { room ≤ 32768 }
    requires formed { IsFormed tree.now }
    ensures accepted { IfOk result (SaysOf tree.now room) }
    ensures refused { IfErr result (IsRefusal tree.now room) }
{
    let state = read_source(alloc, tree, room)?;
    accepted_sources_can_be_numbered();
    let symbols = source_symbols(alloc, &state)?;
    let checked = number_state(alloc, &state, symbols)?;
    Ok(checked)
}
