//! The image of objects that have one.

ghost use Rattle.std.specs.Prelude.{◌≡◌, ◌++◌, ◌∷◌, ◌≤◌, ◌<◌, ◌^◌, [], map, take, length, count_by, if◌then◌else◌, OnOk, IfOk};
ghost use Rattle.obj_linker.specs.Faults.{far_fixes};
ghost use Rattle.obj_linker.specs.Gating.{mpx_gates, GatesReach};
ghost use Rattle.obj_linker.specs.Limits.{IsLow};
ghost use Rattle.obj_linker.specs.Image as spec;

use crate::fixing::spot_of;
use crate::plan::Plan;
use crate::segments::segments;
use crate::sizes::has_file;
use mx_base::OutOfMemory;
use obj_file::{Files, Image, Object, Spot3, Spot4, Spots4, Text};
use std::alloc::Global;

/// The name of an object's file, at the end.
fn put_file(out: &mut Vec<Text>, alloc: Global, o: &Object) -> Result<(), OutOfMemory>
    ensures { OnOk result (out.new.items ≡ out.old.items ++ o.now.file ∷ []) }
{
    let name = String::from_str(alloc, o.file.as_str())?;
    out.push(Text::from_string(name))?;
    Ok(())
}

/// The names of files that the image tells.
fn files(alloc: Global, objects: &[Object]) -> Result<Files, OutOfMemory>
    ensures { IfOk result (λ all. all ≡ spec.files objects.now) }
{
    let mut out = Vec::new(alloc);
    'all: for k in 0..objects.len() {
        if has_file(&objects[k]) {
            put_file(&mut out, alloc, &objects[k])?;
        }
    }
    Ok(Files::from_vec(out))
}

/// A place in an object's code, which stands at an address.
fn place_at(code: u64, file: u32, p: Spot3) -> Spot4
    requires { code < 2 ^ 32 }
    ensures { result ≡ spec.place_at code file p }
{
    Spot4 {
        at: code + p.offset as u64,
        file,
        line: p.line,
        col: p.col,
        kind: p.kind,
        size: p.size,
    }
}

fn put_places(
    out: &mut Vec<Spot4>,
    code: u64,
    file: u32,
    places: &[Spot3],
) -> Result<(), OutOfMemory>
    requires { code < 2 ^ 32 }
    ensures { OnOk result (out.new.items ≡ out.old.items ++ map (spec.place_at code file) places.now) }
{
    'all: for k in 0..places.len() {
        out.push(place_at(code, file, places[k]))?;
    }
    Ok(())
}

/// The places of an object, with so many files before its own.
fn put_places_of(
    out: &mut Vec<Spot4>,
    plan: &Plan,
    object: usize,
    o: &Object,
    file: u32,
) -> Result<(), OutOfMemory>
    requires { IsLow plan.now }
    ensures { OnOk result (out.new.items ≡ out.old.items ++ spec.places_in plan.now object o.now file) }
{
    if !has_file(o) {
        return Ok(());
    }
    let code = spot_of(plan, object).code;
    put_places(out, code, file, o.places.as_slice())
}

/// How many files an object adds.
fn files_of(o: &Object) -> u32
    ensures files { result ≡ (if spec.has_file o.now then 1 else 0) }
    ensures few { result ≤ 1 }
{
    if has_file(o) { 1 } else { 0 }
}

/// The places of all objects.
fn places(alloc: Global, objects: &[Object], plan: &Plan) -> Result<Spots4, OutOfMemory>
    requires low { IsLow plan.now }
    requires files { count_by spec.has_file objects.now ≤ 65_536 }
    ensures { IfOk result (λ all. all ≡ spec.places objects.now plan.now) }
{
    let mut out = Vec::new(alloc);
    let mut file = 0;
    'all: for object in 0..objects.len() {
        let o = &objects[object];
        put_places_of(&mut out, plan, object, o, file)?;
        file += files_of(o);
    }
    Ok(Spots4::from_vec(out))
}

/// The image of objects that have one.
pub fn image(alloc: Global, objects: &[Object], plan: &Plan) -> Result<Image, OutOfMemory>
    requires low { IsLow plan.now }
    requires reach { GatesReach objects.now plan.now }
    requires fit { far_fixes objects.now plan.now ≡ [] }
    requires files { count_by spec.has_file objects.now ≤ 65_536 }
    ensures { IfOk result (λ v. v ≡ spec.image_with mpx_gates objects.now plan.now) }
{
    let segments = segments(alloc, objects, plan)?;
    let files = files(alloc, objects)?;
    let places = places(alloc, objects, plan)?;
    Ok(Image {
        outers: plan.functions.len() as u32,
        segments,
        files,
        places,
    })
}
