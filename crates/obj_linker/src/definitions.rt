//! The definitions of names, and the imports that are held to them.

ghost use Rattle.std.specs.Prelude.{◌≡◌, IfOk, OnOk};
ghost use Rattle.obj_linker.specs.Symbols as spec;
ghost use Rattle.obj_linker.specs.Faults.{fault_if_found, twice, is_of_other_part, clashes, held_to, import_faults, faults_of_imports};
ghost use Rattle.obj_linker.specs.Told.{Passes};

use crate::fault::LinkFault;
use crate::names::Names;
use crate::parts::SymbolId;
use crate::symbols::{is_import, name_at, name_text, part_at, sig_at};
use mx_base::OutOfMemory;
use obj_file::{Object, Text};
use std::alloc::Global;

/// Whether a signature is one of data for code, or one of a function for data.
fn is_of_other_part(part: u8, sig: &[u8]) -> bool
    ensures { result ≡ is_of_other_part part sig.now }
{
    if sig.is_empty() {
        return false;
    }
    part == 1 && sig[0] == b'd' || part == 2 && sig[0] == b'f'
}

/// Whether an import's signature is another than the one that it is held to.
fn clashes(sig: &[u8], held: &[u8], part: u8) -> bool
    ensures { result ≡ clashes sig.now held.now part }
{
    !sig.is_empty() && (sig != held || is_of_other_part(part, sig))
}

/// The symbol whose signature imports of a definition's name are held to.
fn held_to(objects: &[Object], imports: &Names, id: SymbolId) -> SymbolId
    ensures { result ≡ held_to objects.now imports.now id }
{
    if !sig_at(objects, id).is_empty() {
        return id;
    }
    imports.find(name_at(objects, id)).unwrap_or(id)
}

/// The name of a symbol, to be told.
fn told_name(alloc: Global, objects: &[Object], id: SymbolId) -> Result<Text, OutOfMemory>
    ensures { IfOk result (λ name. name ≡ spec.name_at objects.now id) }
{
    Ok(Text::from_string(String::from_str(alloc, name_text(objects, id))?))
}

/// Notes the definition of a name that was not defined before.
fn define(
    names: &mut Names,
    alloc: Global,
    objects: &[Object],
    id: SymbolId,
) -> Result<(), LinkFault>
    ensures fault { Passes result (fault_if_found (spec.find (spec.name_at objects.now id) names.old) (spec.name_at objects.now id)) }
    ensures names { OnOk result (names.new ≡ spec.with_name objects.now names.old id) }
{
    if names.find(name_at(objects, id)).is_some() {
        return Err(LinkFault::Twice(told_name(alloc, objects, id)?));
    }
    names.add(name_at(objects, id), id)?;
    Ok(())
}

/// The definition of each name, where none is defined twice.
pub fn definitions(alloc: Global, objects: &[Object], ids: &[SymbolId]) -> Result<Names, LinkFault>
    requires { ids.now ≡ spec.symbols objects.now }
    ensures fault { Passes result (twice objects.now) }
    ensures names { IfOk result (λ names. names ≡ spec.definitions objects.now) }
{
    let mut names = Names::new(alloc);
    'all: for k in 0..ids.len() {
        if !is_import(objects, ids[k]) {
            define(&mut names, alloc, objects, ids[k])?;
        }
    }
    Ok(names)
}

/// An import whose name is defined so.
fn import_passes(
    alloc: Global,
    objects: &[Object],
    imports: &Names,
    id: SymbolId,
    definition: Option<SymbolId>,
) -> Result<(), LinkFault>
    ensures { Passes result (import_faults objects.now imports.now id definition) }
{
    let Some(definition) = definition else {
        return Err(LinkFault::Missing(told_name(alloc, objects, id)?));
    };
    let held = sig_at(objects, held_to(objects, imports, definition));
    if clashes(sig_at(objects, id), held, part_at(objects, definition)) {
        return Err(LinkFault::Clash(told_name(alloc, objects, id)?));
    }
    Ok(())
}

/// All imports are of defined names, with the signatures that these have.
pub fn imports_pass(
    alloc: Global,
    objects: &[Object],
    ids: &[SymbolId],
    defined: &Names,
    imports: &Names,
) -> Result<(), LinkFault>
    requires { ids.now ≡ spec.symbols objects.now }
    ensures { Passes result (faults_of_imports objects.now defined.now imports.now) }
{
    'all: for k in 0..ids.len() {
        if is_import(objects, ids[k]) {
            let definition = defined.find(name_at(objects, ids[k]));
            import_passes(alloc, objects, imports, ids[k], definition)?;
        }
    }
    Ok(())
}
