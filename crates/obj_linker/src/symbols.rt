//! The symbols of objects.

ghost use Rattle.std.specs.Prelude.{◌≡◌, ◌++◌, ◌<◌, length, OnOk, IfOk, slice_get};
ghost use Rattle.std.specs.Option.{option_copied, option_map};
ghost use Rattle.obj_linker.specs.Symbols as spec;

use crate::names::Names;
use crate::parts::SymbolId;
use mx_base::OutOfMemory;
use obj_file::{Object, Symbol};
use std::alloc::Global;

/// The symbol, if it is there.
fn symbol_at(objects: &[Object], id: SymbolId) -> Option<&Symbol>
    ensures { option_copied result ≡ slice_get (spec.symbols_of objects.now id.object) id.symbol }
{
    match objects.get(id.object) {
        Some(object) => object.symbols.as_slice().get(id.symbol),
        None => None,
    }
}

/// 0 import, 1 code, 2 data.
pub fn part_at(objects: &[Object], id: SymbolId) -> u8
    ensures { result ≡ (spec.symbol_at objects.now id).part }
{
    match symbol_at(objects, id) {
        Some(symbol) => symbol.part,
        None => 0,
    }
}

pub fn offset_at(objects: &[Object], id: SymbolId) -> u32
    ensures { result ≡ (spec.symbol_at objects.now id).offset }
{
    match symbol_at(objects, id) {
        Some(symbol) => symbol.offset,
        None => 0,
    }
}

pub fn name_at(objects: &[Object], id: SymbolId) -> &[u8]
    ensures { result.now ≡ spec.name_at objects.now id }
{
    match symbol_at(objects, id) {
        Some(symbol) => symbol.name.as_str().as_bytes(),
        None => &[],
    }
}

pub fn name_text(objects: &[Object], id: SymbolId) -> &str
    ensures { result.now ≡ spec.name_at objects.now id }
{
    match symbol_at(objects, id) {
        Some(symbol) => symbol.name.as_str(),
        None => "",
    }
}

pub fn sig_at(objects: &[Object], id: SymbolId) -> &[u8]
    ensures { result.now ≡ spec.sig_at objects.now id }
{
    match symbol_at(objects, id) {
        Some(symbol) => symbol.sig.as_str().as_bytes(),
        None => &[],
    }
}

pub fn is_import(objects: &[Object], id: SymbolId) -> bool
    ensures { result ≡ spec.is_import objects.now id }
{
    part_at(objects, id) == 0
}

fn is_legacy_at(objects: &[Object], id: SymbolId) -> bool
    ensures { result ≡ spec.is_legacy_at objects.now id }
{
    match objects.get(id.object) {
        Some(object) => object.legacy,
        None => false,
    }
}

pub fn is_c_function(objects: &[Object], id: SymbolId) -> bool
    ensures { result ≡ spec.is_c_function objects.now id }
{
    !is_legacy_at(objects, id) && part_at(objects, id) == 1
}

pub fn is_legacy_function(objects: &[Object], id: SymbolId) -> bool
    ensures { result ≡ spec.is_legacy_function objects.now id }
{
    is_legacy_at(objects, id) && part_at(objects, id) == 1
}

/// Appends the symbols of an object.
fn ids_of(out: &mut Vec<SymbolId>, object: usize, o: &Object) -> Result<(), OutOfMemory>
    ensures { OnOk result (out.new.items ≡ out.old.items ++ spec.ids_of object o.now) }
{
    let symbols = o.symbols.as_slice();
    'all: for symbol in 0..symbols.len() {
        out.push(SymbolId { object, symbol })?;
    }
    Ok(())
}

/// All symbols, by object and symbol order.
pub fn symbols(alloc: Global, objects: &[Object]) -> Result<Vec<SymbolId>, OutOfMemory>
    ensures { IfOk result (λ v. v.items ≡ spec.symbols objects.now) }
{
    let mut out = Vec::new(alloc);
    'all: for object in 0..objects.len() {
        ids_of(&mut out, object, &objects[object])?;
    }
    Ok(out)
}

/// The names of C functions, in order of their numbers.
pub fn functions(alloc: Global, objects: &[Object], ids: &[SymbolId]) -> Result<Names, OutOfMemory>
    requires { ids.now ≡ spec.symbols objects.now }
    ensures { IfOk result (λ names. names ≡ spec.functions objects.now) }
{
    let mut names = Names::new(alloc);
    for id in ids {
        if is_c_function(objects, *id) {
            names.add(name_at(objects, *id), *id)?;
        }
    }
    Ok(names)
}

/// The first import of each name that has a signature.
pub fn signed_imports(
    alloc: Global,
    objects: &[Object],
    ids: &[SymbolId],
) -> Result<Names, OutOfMemory>
    requires { ids.now ≡ spec.symbols objects.now }
    ensures { IfOk result (λ names. names ≡ spec.signed_imports objects.now) }
{
    let mut names = Names::new(alloc);
    for id in ids {
        if part_at(objects, *id) == 0 && !sig_at(objects, *id).is_empty() {
            names.add(name_at(objects, *id), *id)?;
        }
    }
    Ok(names)
}
