//! The bytes of a source's data.

ghost use Rattle.std.specs.Prelude.{◌≡◌, ◌+◌, ◌≤◌, true, Some, drop, replicate, length, option_map, All, IfOk, IfSome};
ghost use Rattle.c_types.specs.Types.{Types, structs_of};
ghost use Rattle.c_types.specs.Layouts.{size_of};
ghost use Rattle.place_plan.specs.Data.{offsets_from, globals_end};
ghost use Rattle.place_plan.specs.Globals.{global_of, globals_of, CanBeLaid};
ghost use Rattle.place_plan.specs.Image as spec;
ghost use Rattle.place_plan.specs.Image.{laid, items_laid, image_of};
ghost use Rattle.place_plan.specs.Initialisers.{filled};
ghost use Rattle.place_plan.specs.Laying.{reached_laid};
ghost use Rattle.place_plan.specs.Members.{AreKnown, HasValues, part_typed};

use crate::bytes::next_number;
use crate::initialisers::{Piece, fill_part};
use crate::laws::data_stands_apart;
use c_check::{Checked, GlobalVariable};
use c_tree::{Bytes, Init, Item, ItemKind};
use c_types::TypeTable;
use mx_base::OutOfMemory;
use std::alloc::Global;

/// How many constants and declarations of globals were gone through.
#[derive(Clone, Copy, Debug)]
struct Reached {
    constant: usize,
    number: usize,
}

/// A global at an offset, if the source defines it.
fn piece_of(global: GlobalVariable, offset: u32) -> Option<Piece>
    ensures value { (table : Types) → option_map (part_typed table) result ≡ spec.global_at (Some (global_of table global)) offset }
    ensures is { IfSome result (λ p. (p.kind ≡ global.kind) × (p.offset ≡ offset) × (global.defined ≡ true)) }
{
    if global.defined {
        Some(Piece {
            kind: global.kind,
            offset: u64::from(offset),
        })
    } else {
        None
    }
}

/// Where a global stands that the source defines.
fn target_of(
    table: &TypeTable,
    globals: &[GlobalVariable],
    offsets: &[u32],
    number: u32,
) -> Option<Piece>
    requires known { All (CanBeLaid table.now) globals.now }
    requires offsets { offsets.now ≡ offsets_from (structs_of table.now) 0 (globals_of table.now globals.now) }
    ensures value { option_map (part_typed table.now) result ≡ spec.target_of (globals_of table.now globals.now) offsets.now number }
    ensures known { IfSome result (λ p. HasValues table.now p.kind) }
    ensures room { IfSome result (λ p. p.offset + size_of table.now p.kind ≤ globals_end (structs_of table.now) 0 (globals_of table.now globals.now)) }
{
    data_stands_apart();
    let number = number as usize;
    if number < globals.len() {
        piece_of(globals[number], offsets[number])
    } else {
        None
    }
}

/// Writes the initialiser of a global where it stands, if it has one, and answers the place of the next constant.
fn lay_init(
    checked: &Checked,
    bytes: &mut [u8],
    target: Option<Piece>,
    init: &Option<Init>,
    next: usize,
) -> usize
    requires known { IfSome target (λ p. HasValues checked.now.types p.kind) }
    requires members { AreKnown checked.now.types checked.now.structs }
    requires room { IfSome target (λ p. p.offset + size_of checked.now.types p.kind ≤ length bytes.old) }
    ensures value { filled bytes.new (drop result checked.now.constants) ≡ spec.init_laid (structs_of checked.now.types) (option_map (part_typed checked.now.types) target) init.now (filled bytes.old (drop next checked.now.constants)) }
    ensures length { length bytes.new ≡ length bytes.old }
{
    match init {
        Some(init) => fill_part(
            &checked.types,
            checked.structs.as_slice(),
            bytes,
            target,
            0,
            init,
            checked.constants.as_slice(),
            next,
        ),
        None => next,
    }
}

/// Writes the initialiser of an item, if it is a global with one.
fn lay_item(
    checked: &Checked,
    offsets: &[u32],
    bytes: &mut [u8],
    item: &Item,
    reached: Reached,
) -> Reached
    requires known { All (CanBeLaid checked.now.types) checked.now.variables }
    requires members { AreKnown checked.now.types checked.now.structs }
    requires offsets { offsets.now ≡ offsets_from (structs_of checked.now.types) 0 (globals_of checked.now.types checked.now.variables) }
    requires room { globals_end (structs_of checked.now.types) 0 (globals_of checked.now.types checked.now.variables) ≤ length bytes.old }
    ensures value { reached_laid checked.now bytes.new result ≡ spec.kind_laid (structs_of checked.now.types) (globals_of checked.now.types checked.now.variables) offsets.now item.now.kind (reached_laid checked.now bytes.old reached) }
    ensures length { length bytes.new ≡ length bytes.old }
{
    match &item.kind {
        ItemKind::Var(_, _, init) => {
            let (declared, number) = next_number(checked.global_items.as_slice(), reached.number);
            let globals = checked.variables.as_slice();
            let target = target_of(&checked.types, globals, offsets, declared);
            let constant = lay_init(checked, bytes, target, init, reached.constant);
            Reached { constant, number }
        }
        ItemKind::Struct(_, _) => reached,
        ItemKind::Fun(_, _, _) => reached,
    }
}

/// Writes the initialisers of all globals where they stand.
fn lay_items(checked: &Checked, offsets: &[u32], bytes: &mut [u8], items: &[Item])
    requires known { All (CanBeLaid checked.now.types) checked.now.variables }
    requires members { AreKnown checked.now.types checked.now.structs }
    requires offsets { offsets.now ≡ offsets_from (structs_of checked.now.types) 0 (globals_of checked.now.types checked.now.variables) }
    requires room { globals_end (structs_of checked.now.types) 0 (globals_of checked.now.types checked.now.variables) ≤ length bytes.old }
    ensures bytes { bytes.new ≡ (items_laid (structs_of checked.now.types) (globals_of checked.now.types checked.now.variables) offsets.now items.now (laid (filled bytes.old checked.now.constants) checked.now.global_items)).so_far.bytes }
    ensures length { length bytes.new ≡ length bytes.old }
{
    let mut reached = Reached {
        constant: 0,
        number: 0,
    };
    'items: for item in items {
        reached = lay_item(checked, offsets, bytes, item, reached);
    }
}

/// So many zeros.
fn zeros(alloc: Global, count: usize) -> Result<Vec<u8>, OutOfMemory>
    ensures { IfOk result (λ v. v.items ≡ replicate count 0) }
{
    let mut bytes = Vec::new(alloc);
    for _n in 0..count {
        bytes.push(0)?;
    }
    Ok(bytes)
}

/// The bytes of a source's data, whose globals stand at these offsets and end at this byte.
pub fn data_bytes(
    alloc: Global,
    items: &[Item],
    checked: &Checked,
    offsets: &[u32],
    end: u64,
) -> Result<Bytes, OutOfMemory>
    requires known { All (CanBeLaid checked.now.types) checked.now.variables }
    requires members { AreKnown checked.now.types checked.now.structs }
    requires end { end ≡ globals_end (structs_of checked.now.types) 0 (globals_of checked.now.types checked.now.variables) }
    requires offsets { offsets.now ≡ offsets_from (structs_of checked.now.types) 0 (globals_of checked.now.types checked.now.variables) }
    ensures image { IfOk result (λ image. image ≡ image_of (structs_of checked.now.types) (globals_of checked.now.types checked.now.variables) checked.now.global_items checked.now.constants checked.now.literals items.now) }
    ensures length { IfOk result (λ image. length image ≡ end + length checked.now.literals) }
{
    let mut bytes = zeros(alloc, end as usize)?;
    lay_items(checked, offsets, bytes.as_mut_slice(), items);
    bytes.extend_from_slice(checked.literals.as_slice())?;
    Ok(Bytes::from_vec(bytes))
}
