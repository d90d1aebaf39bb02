//! The segments of an image.

ghost use Rattle.std.specs.Prelude.{◌≡◌, ◌≤◌, ◌<◌, ◌^◌, ◌++◌, ◌∷◌, [], length, OnOk, IfOk};
ghost use Rattle.std.specs.List.{All};
ghost use Rattle.call_gates.specs.Gates.{InCode, InLegacyCode};
ghost use Rattle.obj_linker.specs.Symbols.{numbered, ids};
ghost use Rattle.obj_linker.specs.Placement.{own_address, stub_at};
ghost use Rattle.obj_linker.specs.Fixing.{meant_by};
ghost use Rattle.obj_linker.specs.Fitting.{FixesFit};
ghost use Rattle.obj_linker.specs.Faults.{far_fixes};
ghost use Rattle.obj_linker.specs.Limits.{IsLow};
ghost use Rattle.obj_linker.specs.Gating.{mpx_gates, GatesReach};
ghost use Rattle.obj_linker.specs.Image as spec;

use crate::fixing::{fixed_part, meant_by, outer_at, own_address, spot_of, stub_at};
use crate::gating::{landing_code, outer_code, start_code, stub_code};
use crate::names::Names;
use crate::parts::SymbolId;
use crate::plan::Plan;
use crate::symbols::sig_at;
use mx_base::OutOfMemory;
use obj_file::{Bytes, Object, Segment, Segments};
use std::alloc::Global;

/// One segment more.
fn put_segment(out: &mut Vec<Segment>, at: u64, bytes: Vec<u8>) -> Result<(), OutOfMemory>
    ensures { OnOk result (out.new.items ≡ out.old.items ++ spec.segment at bytes.items ∷ []) }
{
    out.push(Segment {
        at,
        bytes: Bytes::from_vec(bytes),
    })?;
    Ok(())
}

/// A gate, as a segment.
fn put_gate(out: &mut Vec<Segment>, alloc: Global, at: u64, bytes: &[u8]) -> Result<(), OutOfMemory>
    ensures { OnOk result (out.new.items ≡ out.old.items ++ spec.segment at bytes.now ∷ []) }
{
    let bytes = Vec::from_slice(alloc, bytes)?;
    put_segment(out, at, bytes)
}

/// A part, as a segment if it is not empty.
fn put_part(out: &mut Vec<Segment>, at: u64, bytes: Vec<u8>) -> Result<(), OutOfMemory>
    ensures { OnOk result (out.new.items ≡ out.old.items ++ spec.part_segment at bytes.items) }
{
    if bytes.is_empty() {
        return Ok(());
    }
    put_segment(out, at, bytes)
}

fn put_outer(
    out: &mut Vec<Segment>,
    alloc: Global,
    objects: &[Object],
    plan: &Plan,
    number: usize,
    id: SymbolId,
) -> Result<(), OutOfMemory>
    requires low { IsLow plan.now }
    requires few { number < 65_536 }
    requires inner { InCode (own_address objects.now plan.now id) }
    ensures { OnOk result (out.new.items ≡ out.old.items ++ spec.outer_segment mpx_gates objects.now plan.now number id) }
{
    let at = outer_at(number);
    let code = outer_code(sig_at(objects, id), own_address(objects, plan, id), at);
    put_gate(out, alloc, at, code.as_slice())
}

/// The outer entries of all C functions.
fn put_outers(
    out: &mut Vec<Segment>,
    alloc: Global,
    objects: &[Object],
    plan: &Plan,
) -> Result<(), OutOfMemory>
    requires low { IsLow plan.now }
    requires reach { GatesReach objects.now plan.now }
    ensures { OnOk result (out.new.items
        ≡ out.old.items ++ numbered (spec.outer_segment mpx_gates objects.now plan.now) 0 (ids plan.now.functions)) }
{
    'all: for number in 0..plan.functions.len() {
        put_outer(out, alloc, objects, plan, number, plan.functions.id(number))?;
    }
    Ok(())
}

fn put_stub(
    out: &mut Vec<Segment>,
    alloc: Global,
    objects: &[Object],
    plan: &Plan,
    number: usize,
    id: SymbolId,
) -> Result<(), OutOfMemory>
    requires low { IsLow plan.now }
    requires few { number < 2 ^ 22 }
    requires target { InLegacyCode (own_address objects.now plan.now (meant_by objects.now plan.now id)) }
    requires at { InCode (stub_at plan.now number) }
    ensures { OnOk result (out.new.items ≡ out.old.items ++ spec.stub_segment mpx_gates objects.now plan.now number id) }
{
    let at = stub_at(plan, number);
    let target = own_address(objects, plan, meant_by(objects, plan, id));
    let code = stub_code(sig_at(objects, id), target, at);
    put_gate(out, alloc, at, code.as_slice())
}

/// The stubs of all legacy functions that C calls.
fn put_stubs(
    out: &mut Vec<Segment>,
    alloc: Global,
    objects: &[Object],
    plan: &Plan,
) -> Result<(), OutOfMemory>
    requires low { IsLow plan.now }
    requires reach { GatesReach objects.now plan.now }
    ensures { OnOk result (out.new.items
        ≡ out.old.items ++ numbered (spec.stub_segment mpx_gates objects.now plan.now) 0 (ids plan.now.stubs)) }
{
    'all: for number in 0..plan.stubs.len() {
        put_stub(out, alloc, objects, plan, number, plan.stubs.id(number))?;
    }
    Ok(())
}

fn put_code(
    out: &mut Vec<Segment>,
    alloc: Global,
    objects: &[Object],
    plan: &Plan,
    object: usize,
    o: &Object,
) -> Result<(), OutOfMemory>
    requires low { IsLow plan.now }
    requires fit { FixesFit objects.now plan.now object o.now }
    ensures { OnOk result (out.new.items ≡ out.old.items ++ spec.code_part objects.now plan.now object o.now) }
{
    let bytes = fixed_part(alloc, objects, plan, object, o, 1)?;
    put_part(out, spot_of(plan, object).code, bytes)
}

fn put_data(
    out: &mut Vec<Segment>,
    alloc: Global,
    objects: &[Object],
    plan: &Plan,
    object: usize,
    o: &Object,
) -> Result<(), OutOfMemory>
    requires low { IsLow plan.now }
    requires fit { FixesFit objects.now plan.now object o.now }
    ensures { OnOk result (out.new.items ≡ out.old.items ++ spec.data_segment objects.now plan.now object o.now) }
{
    let bytes = fixed_part(alloc, objects, plan, object, o, 2)?;
    put_part(out, spot_of(plan, object).stored, bytes)
}

/// The code of an instrumented object.
fn put_instrumented(
    out: &mut Vec<Segment>,
    alloc: Global,
    objects: &[Object],
    plan: &Plan,
    object: usize,
    o: &Object,
) -> Result<(), OutOfMemory>
    requires low { IsLow plan.now }
    requires fit { FixesFit objects.now plan.now object o.now }
    ensures { OnOk result (out.new.items ≡ out.old.items ++ spec.code_segment objects.now plan.now object o.now) }
{
    if o.legacy {
        return Ok(());
    }
    put_code(out, alloc, objects, plan, object, o)
}

/// The code of a legacy object.
fn put_legacy(
    out: &mut Vec<Segment>,
    alloc: Global,
    objects: &[Object],
    plan: &Plan,
    object: usize,
    o: &Object,
) -> Result<(), OutOfMemory>
    requires low { IsLow plan.now }
    requires fit { FixesFit objects.now plan.now object o.now }
    ensures { OnOk result (out.new.items ≡ out.old.items ++ spec.legacy_segment objects.now plan.now object o.now) }
{
    if !o.legacy {
        return Ok(());
    }
    put_code(out, alloc, objects, plan, object, o)
}

/// The instrumented code.
fn put_codes(
    out: &mut Vec<Segment>,
    alloc: Global,
    objects: &[Object],
    plan: &Plan,
) -> Result<(), OutOfMemory>
    requires low { IsLow plan.now }
    requires fit { far_fixes objects.now plan.now ≡ [] }
    ensures { OnOk result (out.new.items ≡ out.old.items ++ numbered (spec.code_segment objects.now plan.now) 0 objects.now) }
{
    'all: for object in 0..objects.len() {
        put_instrumented(out, alloc, objects, plan, object, &objects[object])?;
    }
    Ok(())
}

/// The legacy code.
fn put_legacy_codes(
    out: &mut Vec<Segment>,
    alloc: Global,
    objects: &[Object],
    plan: &Plan,
) -> Result<(), OutOfMemory>
    requires low { IsLow plan.now }
    requires fit { far_fixes objects.now plan.now ≡ [] }
    ensures { OnOk result (out.new.items ≡ out.old.items ++ numbered (spec.legacy_segment objects.now plan.now) 0 objects.now) }
{
    'all: for object in 0..objects.len() {
        put_legacy(out, alloc, objects, plan, object, &objects[object])?;
    }
    Ok(())
}

/// The data.
fn put_stored(
    out: &mut Vec<Segment>,
    alloc: Global,
    objects: &[Object],
    plan: &Plan,
) -> Result<(), OutOfMemory>
    requires low { IsLow plan.now }
    requires fit { far_fixes objects.now plan.now ≡ [] }
    ensures { OnOk result (out.new.items ≡ out.old.items ++ numbered (spec.data_segment objects.now plan.now) 0 objects.now) }
{
    'all: for object in 0..objects.len() {
        put_data(out, alloc, objects, plan, object, &objects[object])?;
    }
    Ok(())
}

/// The start and the landing.
fn put_ends(out: &mut Vec<Segment>, alloc: Global, main: u64) -> Result<(), OutOfMemory>
    requires { InCode main }
    ensures { OnOk result (out.new.items
        ≡ out.old.items ++ spec.segment spec.start_at (mpx_gates.start main) ∷ spec.segment spec.landing_at mpx_gates.landing ∷ []) }
{
    put_gate(out, alloc, 0x0100_0000, start_code(main).as_slice())?;
    put_gate(out, alloc, 0x0100_0400, landing_code().as_slice())
}

fn main_id(defined: &Names) -> SymbolId
    ensures { result ≡ spec.main_id defined.now }
{
    defined.find(b"main".as_slice()).unwrap_or(SymbolId {
        object: 0,
        symbol: 0,
    })
}

/// All segments, in order of their addresses.
pub fn segments(alloc: Global, objects: &[Object], plan: &Plan) -> Result<Segments, OutOfMemory>
    requires low { IsLow plan.now }
    requires reach { GatesReach objects.now plan.now }
    requires fit { far_fixes objects.now plan.now ≡ [] }
    ensures { IfOk result (λ all. all ≡ spec.segments mpx_gates objects.now plan.now) }
{
    let mut out = Vec::new(alloc);
    let main = main_id(&plan.definitions);
    put_ends(&mut out, alloc, own_address(objects, plan, main))?;
    put_outers(&mut out, alloc, objects, plan)?;
    put_codes(&mut out, alloc, objects, plan)?;
    put_stubs(&mut out, alloc, objects, plan)?;
    put_legacy_codes(&mut out, alloc, objects, plan)?;
    put_stored(&mut out, alloc, objects, plan)?;
    Ok(Segments::from_vec(out))
}
