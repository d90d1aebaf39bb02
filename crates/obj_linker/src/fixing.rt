//! What the fields of fix-ups hold.

ghost use Rattle.std.specs.Prelude.{◌≡◌, ◌-◌, ◌<◌, ◌≤◌, ◌^◌, ◌≤ℤ◌, ◌<ℤ◌, pos, negsuc, length, IfOk, IsTrue};
ghost use Rattle.std.specs.Int.{cast_unsigned, w64};
ghost use Rattle.std.specs.List.{fold};
ghost use Rattle.obj_linker.specs.Fixing as spec;
ghost use Rattle.obj_linker.specs.Placement.{spot_of, own_address, outer_at, stub_at};
ghost use Rattle.obj_linker.specs.Limits.{IsLow};
ghost use Rattle.obj_linker.specs.Fitting.{FixesFit};

use crate::parts::{Spot, SymbolId};
use crate::plan::Plan;
use crate::stubs::{is_call, symbol_of};
use crate::symbols::{is_c_function, is_legacy_function, name_at, offset_at, part_at};
use mx_base::OutOfMemory;
use obj_file::{Fix, Object};
use std::alloc::Global;

/// The addresses of an object's parts.
pub fn spot_of(plan: &Plan, object: usize) -> Spot
    requires { IsLow plan.now }
    ensures spot { result ≡ spot_of plan.now object }
    ensures code { result.code < 2 ^ 32 }
    ensures stored { result.stored < 2 ^ 32 }
{
    match plan.spots.as_slice().get(object) {
        Some(spot) => *spot,
        None => Spot { code: 0, stored: 0 },
    }
}

/// Where a definition stands: of a C function its inner entry.
pub fn own_address(objects: &[Object], plan: &Plan, id: SymbolId) -> u64
    requires { IsLow plan.now }
    ensures address { result ≡ own_address objects.now plan.now id }
    ensures low { result < 2 ^ 33 }
{
    let spot = spot_of(plan, id.object);
    let part = if part_at(objects, id) == 1 {
        spot.code
    } else {
        spot.stored
    };
    part + offset_at(objects, id) as u64
}

/// The address of an outer entry.
pub fn outer_at(number: usize) -> u64
    requires { number ≤ 65_536 }
    ensures address { result ≡ outer_at number }
    ensures low { result < 2 ^ 33 }
{
    0x0101_0000 + 128 * number as u64
}

/// The address of a stub.
pub fn stub_at(plan: &Plan, number: usize) -> u64
    requires low { IsLow plan.now }
    requires few { number < 2 ^ 22 }
    ensures address { result ≡ stub_at plan.now number }
    ensures low { result < 2 ^ 33 }
{
    plan.stubs_at + 128 * number as u64
}

/// The definition of a symbol's name.
pub fn meant_by(objects: &[Object], plan: &Plan, id: SymbolId) -> SymbolId
    ensures { result ≡ spec.meant_by objects.now plan.now id }
{
    plan.definitions.find(name_at(objects, id)).unwrap_or(id)
}

/// The address of a definition by its name, as a fix-up sees it.
fn seen_address(objects: &[Object], plan: &Plan, call: bool, name: &[u8], id: SymbolId) -> u64
    requires { IsLow plan.now }
    ensures address { result ≡ spec.seen_address objects.now plan.now call name.now id }
    ensures low { result < 2 ^ 33 }
{
    if is_c_function(objects, id) {
        if call {
            own_address(objects, plan, id)
        } else {
            outer_at(plan.functions.place(name))
        }
    } else if call && is_legacy_function(objects, id) {
        stub_at(plan, plan.stubs.place(name))
    } else {
        own_address(objects, plan, id)
    }
}

fn target(objects: &[Object], plan: &Plan, object: usize, o: &Object, fix: Fix) -> u64
    requires { IsLow plan.now }
    ensures address { result ≡ spec.target objects.now plan.now object o.now fix }
    ensures low { result < 2 ^ 33 }
{
    let id = symbol_of(object, fix);
    let meant = meant_by(objects, plan, id);
    seen_address(objects, plan, is_call(o, fix), name_at(objects, id), meant)
}

fn field_at(plan: &Plan, object: usize, fix: Fix) -> u64
    requires { IsLow plan.now }
    ensures address { result ≡ spec.field_at plan.now object fix }
    ensures low { result < 2 ^ 33 }
{
    let spot = spot_of(plan, object);
    let part = if fix.part == 1 {
        spot.code
    } else {
        spot.stored
    };
    part + fix.offset as u64
}

/// The value of a field at an address for a target.
fn value_of(to: u64, field: u64, fix: Fix) -> i128
    requires { (to < 2 ^ 33) × (field < 2 ^ 33) }
    ensures value { result ≡ spec.value_of to field fix }
    ensures low { negsuc (2 ^ 64 - 1) ≤ℤ result }
    ensures high { result <ℤ pos (2 ^ 64) }
{
    let sum = to as i128 + fix.addend as i128;
    if fix.form == 2 {
        sum - (field + 4) as i128
    } else {
        sum
    }
}

fn fix_value(objects: &[Object], plan: &Plan, object: usize, o: &Object, fix: Fix) -> i128
    requires { IsLow plan.now }
    ensures value { result ≡ spec.fix_value objects.now plan.now object o.now fix }
    ensures low { negsuc (2 ^ 64 - 1) ≤ℤ result }
    ensures high { result <ℤ pos (2 ^ 64) }
{
    value_of(
        target(objects, plan, object, o, fix),
        field_at(plan, object, fix),
        fix,
    )
}

/// Whether a value fits its field.
fn fits(form: u8, value: i128) -> bool
    ensures { result ≡ spec.fits form value }
{
    form == 0 || -0x8000_0000 <= value && value <= 0x7FFF_FFFF
}

/// Whether the value of a fix-up fits its field.
pub fn fix_fits(objects: &[Object], plan: &Plan, object: usize, o: &Object, fix: Fix) -> bool
    requires { IsLow plan.now }
    ensures { result ≡ spec.fits fix.form (spec.fix_value objects.now plan.now object o.now fix) }
{
    fits(fix.form, fix_value(objects, plan, object, o, fix))
}

/// Writes a field where there is room for it.
fn put_field(bytes: &mut [u8], at: usize, field: &[u8])
    requires { (at < 2 ^ 32) × (length field.now ≤ 8) }
    ensures { bytes.new ≡ spec.with_field bytes.old at field.now }
{
    let end = at + field.len();
    if end <= bytes.len() {
        bytes[at..end].copy_from_slice(field);
    }
}

/// A value as a word of 64 bits.
fn word_of(value: i128) -> u64
    requires { (negsuc (2 ^ 64 - 1) ≤ℤ value) × (value <ℤ pos (2 ^ 64)) }
    ensures { result ≡ cast_unsigned w64 value }
{
    if value >= 0 {
        value as u64
    } else {
        (value + 0x1_0000_0000_0000_0000) as u64
    }
}

/// Writes the value of a fix-up into its field.
#[tactic(auto, unfolding(obj_file::specs::InTurn::le))]
fn put_value(bytes: &mut [u8], fix: Fix, value: i128)
    requires small { (negsuc (2 ^ 64 - 1) ≤ℤ value) × (value <ℤ pos (2 ^ 64)) }
    requires fits { IsTrue (spec.fits fix.form value) }
    ensures { bytes.new ≡ spec.with_field bytes.old fix.offset (spec.field_bytes fix.form value) }
{
    if fix.form == 0 {
        put_field(bytes, fix.offset as usize, &word_of(value).to_le_bytes());
    } else {
        put_field(bytes, fix.offset as usize, &(value as i32).to_le_bytes());
    }
}

/// Writes the value of a fix-up of a part.
fn fix_in(
    bytes: &mut [u8],
    objects: &[Object],
    plan: &Plan,
    object: usize,
    o: &Object,
    part: u8,
    fix: Fix,
)
    requires low { IsLow plan.now }
    requires fits { IsTrue (spec.fits fix.form (spec.fix_value objects.now plan.now object o.now fix)) }
    ensures { bytes.new ≡ spec.fixed objects.now plan.now object o.now part bytes.old fix }
{
    if fix.part == part {
        put_value(bytes, fix, fix_value(objects, plan, object, o, fix));
    }
}

/// Writes the values of all fix-ups of a part.
fn fix_all(bytes: &mut [u8], objects: &[Object], plan: &Plan, object: usize, o: &Object, part: u8)
    requires low { IsLow plan.now }
    requires fit { FixesFit objects.now plan.now object o.now }
    ensures { bytes.new ≡ fold (spec.fixed objects.now plan.now object o.now part) bytes.old o.now.fixes }
{
    let fixes = o.fixes.as_slice();
    'all: for k in 0..fixes.len() {
        fix_in(bytes, objects, plan, object, o, part, fixes[k]);
    }
}

/// The bytes of a part, each field with its value.
pub fn fixed_part(
    alloc: Global,
    objects: &[Object],
    plan: &Plan,
    object: usize,
    o: &Object,
    part: u8,
) -> Result<Vec<u8>, OutOfMemory>
    requires low { IsLow plan.now }
    requires fit { FixesFit objects.now plan.now object o.now }
    ensures { IfOk result (λ v. v.items ≡ spec.fixed_part objects.now plan.now object o.now part) }
{
    let source = if part == 1 { &o.code } else { &o.stored };
    let mut bytes = Vec::from_slice(alloc, source.as_slice())?;
    fix_all(bytes.as_mut_slice(), objects, plan, object, o, part);
    Ok(bytes)
}
