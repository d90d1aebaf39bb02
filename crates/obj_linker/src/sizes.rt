//! Numbers that are over their limits.

ghost use Rattle.std.specs.Prelude.{◌≡◌, ◌<◌, ◌≤◌, ◌^◌, length, sum_by, count_by, if◌then◌else◌};
ghost use Rattle.std.specs.List.{All};
ghost use Rattle.obj_linker.specs.declared.fault.LinkFault.TheVariants.{ManyFunctions, CodeLarge, LegacyLarge, GlobalsLarge, ImageLarge, NoMain};
ghost use Rattle.obj_linker.specs.Faults.{over, no_main, parts_of, count_of_places, too_large, far_fix, far_fixes};
ghost use Rattle.obj_linker.specs.Image.{has_file};
ghost use Rattle.obj_linker.specs.Limits.{IsLow, HasSmallParts};
ghost use Rattle.obj_linker.specs.Symbols.{numbered};
ghost use Rattle.obj_linker.specs.Told.{Passes};

use crate::fault::LinkFault;
use crate::fixing::fix_fits;
use crate::names::Names;
use crate::parts::Ends;
use crate::placement::code_size;
use crate::plan::Plan;
use crate::symbols::{is_c_function, sig_at};
use obj_file::{Fix, Object};

/// The number of C functions.
pub fn few_functions(n: u64) -> Result<(), LinkFault>
    ensures { Passes result (over 65_536 n ManyFunctions) }
{
    if n > 65_536 {
        return Err(LinkFault::ManyFunctions(n));
    }
    Ok(())
}

/// The size of the instrumented code and the stubs.
pub fn little_code(n: u64) -> Result<(), LinkFault>
    ensures { Passes result (over 251_658_240 n CodeLarge) }
{
    if n > 251_658_240 {
        return Err(LinkFault::CodeLarge(n));
    }
    Ok(())
}

/// The size of the legacy code.
pub fn little_legacy(n: u64) -> Result<(), LinkFault>
    ensures { Passes result (over 16_777_216 n LegacyLarge) }
{
    if n > 16_777_216 {
        return Err(LinkFault::LegacyLarge(n));
    }
    Ok(())
}

/// The size of the data.
pub fn little_data(n: u64) -> Result<(), LinkFault>
    ensures { Passes result (over 16_777_216 n GlobalsLarge) }
{
    if n > 16_777_216 {
        return Err(LinkFault::GlobalsLarge(n));
    }
    Ok(())
}

/// A number of segments, files or places.
pub fn small_image(limit: u64, n: u64) -> Result<(), LinkFault>
    ensures { Passes result (over limit n ImageLarge) }
{
    if n > limit {
        return Err(LinkFault::ImageLarge(n));
    }
    Ok(())
}

/// An instrumented object defines `int main(void)`.
pub fn has_main(objects: &[Object], definitions: &Names) -> Result<(), LinkFault>
    ensures { Passes result (no_main objects.now definitions.now) }
{
    match definitions.find(b"main".as_slice()) {
        Some(id) if is_c_function(objects, id) && sig_at(objects, id) == b"fi()".as_slice() => Ok(
            (),
        ),
        _ => Err(LinkFault::NoMain),
    }
}

/// How many segments an object's parts are.
fn parts_of(o: &Object) -> u64
    ensures parts { result ≡ parts_of o.now }
    ensures few { result ≤ 2 }
{
    let code = if o.code.as_slice().is_empty() { 0 } else { 1 };
    if o.stored.as_slice().is_empty() {
        code
    } else {
        code + 1
    }
}

/// How many segments the parts of all objects are.
fn count_of_parts(objects: &[Object]) -> u64
    requires { length objects.now < 2 ^ 32 }
    ensures parts { result ≡ sum_by parts_of objects.now }
    ensures few { result ≤ 2 ^ 33 }
{
    let mut count = 0;
    'all: for k in 0..objects.len() {
        count += parts_of(&objects[k]);
    }
    count
}

/// Whether an image tells the name of an object's file.
pub fn has_file(o: &Object) -> bool
    ensures { result ≡ has_file o.now }
{
    !o.file.as_str().is_empty() && !o.places.as_slice().is_empty()
}

/// How many files an image tells.
fn count_of_files(objects: &[Object]) -> u64
    ensures { result ≡ count_by has_file objects.now }
{
    let mut count = 0;
    'all: for object in objects {
        if has_file(object) {
            count += 1;
        }
    }
    count
}

fn places_told(o: &Object) -> u64
    requires { length o.now.places ≤ 2 ^ 20 }
    ensures { result ≡ (if has_file o.now then length o.now.places else 0) }
{
    if has_file(o) {
        o.places.as_slice().len() as u64
    } else {
        0
    }
}

/// How many places an image tells.
fn count_of_places(objects: &[Object]) -> u64
    requires few { length objects.now < 2 ^ 32 }
    requires places { All (λ o. length o.places ≤ 2 ^ 20) objects.now }
    ensures { result ≡ count_of_places objects.now }
{
    let mut count = 0;
    'all: for k in 0..objects.len() {
        count += places_told(&objects[k]);
    }
    count
}

/// No number of an image is over its limit.
pub fn sizes_pass(objects: &[Object], plan: &Plan, ends: Ends) -> Result<(), LinkFault>
    requires few { length objects.now < 2 ^ 32 }
    requires places { All (λ o. length o.places ≤ 2 ^ 20) objects.now }
    requires functions { length plan.now.functions < 2 ^ 53 }
    requires stubs { length plan.now.stubs < 2 ^ 53 }
    requires stubs_at { plan.now.stubs_at < 2 ^ 63 }
    ensures { Passes result (too_large objects.now plan.now ends) }
{
    let functions = plan.functions.len() as u64;
    let stubs = plan.stubs.len() as u64;
    few_functions(functions)?;
    little_code(code_size(stubs, ends.code, plan.stubs_at))?;
    little_legacy(ends.legacy.saturating_sub(0x1200_0000))?;
    little_data(ends.stored.saturating_sub(0x2000_0000))?;
    small_image(262_144, 2 + functions + stubs + count_of_parts(objects))?;
    small_image(65_536, count_of_files(objects))?;
    small_image(1_048_576, count_of_places(objects))
}

/// The value of a fix-up fits its field.
fn fix_passes(
    objects: &[Object],
    plan: &Plan,
    object: usize,
    o: &Object,
    fix: usize,
    f: Fix,
) -> Result<(), LinkFault>
    requires low { IsLow plan.now }
    requires object { object < 2 ^ 32 }
    requires fix { fix < 2 ^ 32 }
    ensures { Passes result (far_fix objects.now plan.now object o.now fix f) }
{
    if fix_fits(objects, plan, object, o, f) {
        return Ok(());
    }
    Err(LinkFault::FarFix {
        object: object as u32,
        fix: fix as u32,
    })
}

fn fixes_of_object_pass(
    objects: &[Object],
    plan: &Plan,
    object: usize,
    o: &Object,
) -> Result<(), LinkFault>
    requires low { IsLow plan.now }
    requires object { object < 2 ^ 32 }
    requires few { length o.now.fixes ≤ 2 ^ 20 }
    ensures { Passes result (numbered (far_fix objects.now plan.now object o.now) 0 o.now.fixes) }
{
    let fixes = o.fixes.as_slice();
    'all: for fix in 0..fixes.len() {
        fix_passes(objects, plan, object, o, fix, fixes[fix])?;
    }
    Ok(())
}

/// The values of all fix-ups fit their fields.
pub fn fixes_pass(objects: &[Object], plan: &Plan) -> Result<(), LinkFault>
    requires low { IsLow plan.now }
    requires few { length objects.now < 2 ^ 32 }
    requires small { All HasSmallParts objects.now }
    ensures { Passes result (far_fixes objects.now plan.now) }
{
    'all: for object in 0..objects.len() {
        fixes_of_object_pass(objects, plan, object, &objects[object])?;
    }
    Ok(())
}
