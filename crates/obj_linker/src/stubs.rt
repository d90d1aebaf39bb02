//! The legacy functions that C calls.

ghost use Rattle.std.specs.Prelude.{◌≡◌, ◌<◌, ◌^◌, ◌&&◌, length, OnOk, IfOk};
ghost use Rattle.std.specs.List.{All, fold};
ghost use Rattle.obj_linker.specs.Limits.{HasSmallParts};
ghost use Rattle.obj_linker.specs.Placement as spec;
ghost use Rattle.obj_linker.specs.Symbols as names;

use crate::names::Names;
use crate::parts::SymbolId;
use crate::symbols::{is_legacy_function, name_at};
use mx_base::OutOfMemory;
use obj_file::{Fix, Object};
use std::alloc::Global;

/// The symbol that a fix-up takes.
pub fn symbol_of(object: usize, fix: Fix) -> SymbolId
    ensures { result ≡ names.symbol_id object fix.symbol }
{
    SymbolId {
        object,
        symbol: fix.symbol as usize,
    }
}

/// Whether a fix-up is a relative one of an instrumented object.
pub fn is_call(o: &Object, fix: Fix) -> bool
    ensures { result ≡ spec.is_call o.now fix }
{
    !o.legacy && fix.form == 2
}

fn leads_to_legacy(objects: &[Object], definition: Option<SymbolId>) -> bool
    ensures { result ≡ spec.leads_to_legacy objects.now definition }
{
    match definition {
        Some(id) => is_legacy_function(objects, id),
        None => false,
    }
}

/// The legacy function that a fix-up calls, if it does, is one that has a stub.
fn add_stub(
    stubs: &mut Names,
    objects: &[Object],
    defined: &Names,
    object: usize,
    o: &Object,
    fix: Fix,
) -> Result<(), OutOfMemory>
    ensures { OnOk result (stubs.new
        ≡ fold (names.with_name objects.now) stubs.old (spec.stub_call objects.now defined.now object o.now fix)) }
{
    let id = symbol_of(object, fix);
    if is_call(o, fix) && leads_to_legacy(objects, defined.find(name_at(objects, id))) {
        stubs.add(name_at(objects, id), id)?;
    }
    Ok(())
}

fn add_stubs(
    stubs: &mut Names,
    objects: &[Object],
    defined: &Names,
    object: usize,
    o: &Object,
) -> Result<(), OutOfMemory>
    ensures { OnOk result (stubs.new
        ≡ fold (names.with_name objects.now) stubs.old (spec.stub_calls_of objects.now defined.now object o.now)) }
{
    let fixes = o.fixes.as_slice();
    'all: for k in 0..fixes.len() {
        add_stub(stubs, objects, defined, object, o, fixes[k])?;
    }
    Ok(())
}

/// The legacy functions that C calls, in order of their first calls.
pub fn stubs(alloc: Global, objects: &[Object], defined: &Names) -> Result<Names, OutOfMemory>
    ensures { IfOk result (λ stubs. stubs ≡ names.named_by objects.now (spec.stub_calls objects.now defined.now)) }
{
    let mut stubs = Names::new(alloc);
    'all: for object in 0..objects.len() {
        add_stubs(&mut stubs, objects, defined, object, &objects[object])?;
    }
    Ok(stubs)
}
