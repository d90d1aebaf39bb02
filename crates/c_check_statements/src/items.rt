//! Whole sources.

ghost use Rattle.std.specs.Prelude.{◌≡◌};
ghost use Rattle.c_check_statements.specs.Sources as spec;
ghost use Rattle.c_check_statements.specs.Walks.{Walks};

use crate::decls::declare_global;
use crate::functions::read_function;
use crate::initialisers::{Filled, read_maybe_init};
use crate::state::State;
use crate::structs::read_struct;
use c_check_rules::{NamedItems, Scope};
use c_check_typing::{CheckFault, Literals, Notes, Uses};
use c_tree::{Decl, Init, Item, ItemKind};
use sqlite_items::Items;
use std::alloc::Global;

/// Whether a declaration of a global defines it.
fn is_definition(external: bool, init: &Option<Init>) -> bool
    ensures { result ≡ spec.is_definition external init.now }
{
    !external || init.is_some()
}

fn read_global(
    alloc: Global,
    state: &mut State,
    external: bool,
    decl: &Decl,
    init: &Option<Init>,
) -> Result<(), CheckFault>
    ensures { Walks (spec.global_walk external decl.now init.now state.old) result state.new }
{
    let defined = is_definition(external, init);
    let kind = declare_global(alloc, state, defined, decl)?;
    read_maybe_init(alloc, state, Filled::Global, &kind, init)
}

fn read_item(alloc: Global, state: &mut State, item: &Item) -> Result<(), CheckFault>
    ensures { Walks (spec.item item.now state.old) result state.new }
{
    let place = item.place;
    match &item.kind {
        ItemKind::Struct(tag, members) => {
            read_struct(alloc, state, place, tag, members.as_slice())
        }
        ItemKind::Var(external, decl, init) => read_global(alloc, state, *external, decl, init),
        ItemKind::Fun(decl, params, body) => {
            read_function(alloc, state, place, decl, params.as_slice(), body)
        }
    }
}

/// Reads what stands at the outermost level of a source, from its front on.
pub fn read_items(alloc: Global, state: &mut State, items: &[Item]) -> Result<(), CheckFault>
    ensures { Walks (spec.items items.now state.old) result state.new }
{
    'items: for item in items {
        read_item(alloc, state, item)?;
    }
    Ok(())
}

/// What is known before a source. It takes no memory.
pub fn start_state(alloc: Global) -> State
    ensures { result ≡ spec.at_start }
{
    State {
        scope: Scope {
            structs: NamedItems::new(alloc),
            variables: NamedItems::new(alloc),
            functions: NamedItems::new(alloc),
            locals: NamedItems::new(alloc),
            from: 0,
            made: Items::new(alloc),
            result: None,
            in_loop: false,
            at_body: false,
        },
        notes: Notes {
            kinds: Items::new(alloc),
            binds: Items::new(alloc),
            used: Uses::new(alloc),
            declared: Items::new(alloc),
            taken: Items::new(alloc),
            constants: Items::new(alloc),
            literals: Literals::new(alloc),
        },
        bodies: Items::new(alloc),
        global_items: Items::new(alloc),
        order: Items::new(alloc),
    }
}
