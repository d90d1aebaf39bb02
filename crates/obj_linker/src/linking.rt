//! The link of objects.

ghost use Rattle.std.specs.Prelude.{◌≡◌, ◌≢◌, ◌<◌, ◌^◌, [], Ok, Err, length, IfOk, IfErr};
ghost use Rattle.std.specs.List.{All};
ghost use Rattle.obj_file.specs.Object.{IsObject};
ghost use Rattle.obj_linker.specs.declared.fault.LinkFault.TheVariants.{OutOfMemory as NoMemory};
ghost use Rattle.obj_linker.specs.Symbols as names;
ghost use Rattle.obj_linker.specs.Placement.{ends_of, plan_of};
ghost use Rattle.obj_linker.specs.Faults.{faults_of_names, faults_of_sizes, no_main, linked};
ghost use Rattle.obj_linker.specs.Image.{image_of};
ghost use Rattle.obj_linker.specs.Limits.{HasSmallParts};
ghost use Rattle.obj_linker.specs.Gating.{mpx_gates};
ghost use Rattle.obj_linker.specs.Told.{Passes};

use crate::definitions::{definitions, imports_pass};
use crate::fault::LinkFault;
use crate::image::image;
use crate::names::Names;
use crate::placement::{aligned, places};
use crate::plan::{Plan, Planned};
use crate::sizes::{fixes_pass, has_main, sizes_pass};
use crate::stubs::stubs;
use crate::symbols::{functions, signed_imports, symbols};
use mx_base::OutOfMemory;
use obj_file::{Image, Object};
use std::alloc::Global;

/// The definitions of all names, where each name is defined once, each import of a defined name, and `main` is there.
fn defined(alloc: Global, objects: &[Object]) -> Result<Names, LinkFault>
    ensures fault { Passes result (faults_of_names objects.now) }
    ensures names { IfOk result (λ found. found ≡ names.definitions objects.now) }
{
    let ids = symbols(alloc, objects)?;
    let found = definitions(alloc, objects, ids.as_slice())?;
    let imports = signed_imports(alloc, objects, ids.as_slice())?;
    imports_pass(alloc, objects, ids.as_slice(), &found, &imports)?;
    has_main(objects, &found)?;
    Ok(found)
}

/// Where everything stands.
fn plan(alloc: Global, objects: &[Object], definitions: Names) -> Result<Planned, OutOfMemory>
    requires few { length objects.now < 2 ^ 32 }
    requires small { All HasSmallParts objects.now }
    requires definitions { definitions ≡ names.definitions objects.now }
    ensures plan { IfOk result (λ p. p.plan ≡ plan_of objects.now) }
    ensures ends { IfOk result (λ p. p.ends ≡ ends_of objects.now) }
    ensures low { IfOk result (λ p. p.plan.stubs_at < 2 ^ 63) }
{
    let ids = symbols(alloc, objects)?;
    let functions = functions(alloc, objects, ids.as_slice())?;
    let stubs = stubs(alloc, objects, &definitions)?;
    let places = places(alloc, objects)?;
    let stubs_at = aligned(128, places.ends.code);
    Ok(Planned {
        plan: Plan {
            definitions,
            functions,
            stubs,
            spots: places.spots,
            stubs_at,
        },
        ends: places.ends,
    })
}

/// The image of objects by their plan, unless a number is over its limit or a fix-up does not fit.
fn finish(alloc: Global, objects: &[Object], planned: &Planned) -> Result<Image, LinkFault>
    requires few { length objects.now < 2 ^ 32 }
    requires objects { All IsObject objects.now }
    requires main { no_main objects.now (names.definitions objects.now) ≡ [] }
    requires plan { planned.now.plan ≡ plan_of objects.now }
    requires ends { planned.now.ends ≡ ends_of objects.now }
    requires low { planned.now.plan.stubs_at < 2 ^ 63 }
    ensures fault { Passes result (faults_of_sizes objects.now) }
    ensures image { IfOk result (λ v. v ≡ image_of mpx_gates objects.now) }
{
    sizes_pass(objects, &planned.plan, planned.ends)?;
    fixes_pass(objects, &planned.plan)?;
    Ok(image(alloc, objects, &planned.plan)?)
}

/// The image of objects: their parts with the values of fix-ups, the start and the landing, an outer entry for each C function and a stub
/// for each legacy function that C calls; or the first fault.
pub fn link(alloc: Global, objects: &[Object]) -> Result<Image, LinkFault>
    requires few { length objects.now < 2 ^ 32 }
    requires objects { All IsObject objects.now }
    ensures image { IfOk result (λ v. linked mpx_gates objects.now ≡ Ok v) }
    ensures fault { IfErr result (λ e. (e ≢ NoMemory) → linked mpx_gates objects.now ≡ Err e) }
{
    let definitions = defined(alloc, objects)?;
    let planned = plan(alloc, objects, definitions)?;
    finish(alloc, objects, &planned)
}
