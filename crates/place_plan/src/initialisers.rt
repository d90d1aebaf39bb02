//! The bytes of initialisers.

ghost use Rattle.std.specs.Prelude.{◌≡◌, ◌+◌, ◌*◌, ◌≤◌, Some, map, drop, length, slice_get, option_map, All, IfSome};
ghost use Rattle.c_types.specs.declared.shape.TypeId.{TypeId as TypeNumber};
ghost use Rattle.c_types.specs.Types.{CType, Struct, type_at, structs_of, members_at, built};
ghost use Rattle.c_types.specs.Layouts.{CanStand, size_of, offset_of, width};
ghost use Rattle.place_plan.specs.Initialisers as spec;
ghost use Rattle.place_plan.specs.Initialisers.{filled, fills, text_of};
ghost use Rattle.place_plan.specs.Members.{AreKnown, HasValues, part_typed};

use crate::bytes::{next_word, write_bytes, write_word};
use c_check::CheckedStruct;
use c_tree::{Expr, ExprKind, Init, InitKind};
use c_types::{Shape, TypeId, TypeTable};
use mx_base::IntKind;

/// A part of an array or struct: its type, and how many bytes from the front it begins.
#[derive(Clone, Copy, Debug)]
pub struct Piece {
    pub kind: TypeId,
    pub offset: u64,
}

/// Writes the bytes of a text, as far as they go into an array of so many elements.
fn write_text(bytes: &mut [u8], at: usize, count: u64, text: &[u8])
    requires { at + count ≤ length bytes.old }
    ensures bytes { bytes.new ≡ spec.text_filled at count (Some text.now) bytes.old }
    ensures length { length bytes.new ≡ length bytes.old }
{
    let count = text.len().min(count as usize);
    write_bytes(bytes, at, &text[..count]);
}

/// Fills an array of so many `char`, if the expression is a text.
fn fill_chars(bytes: &mut [u8], at: usize, count: u64, expr: &Expr)
    requires { at + count ≤ length bytes.old }
    ensures bytes { bytes.new ≡ spec.text_filled at count (text_of expr.now) bytes.old }
    ensures length { length bytes.new ≡ length bytes.old }
{
    match &expr.kind {
        ExprKind::Text(text) => write_text(bytes, at, count, text.as_slice()),
        ExprKind::Number(_, _) => (),
        ExprKind::Var(_) => (),
        ExprKind::Unary(_, _) => (),
        ExprKind::Binary(_, _, _) => (),
        ExprKind::Assign(_, _, _) => (),
        ExprKind::StepBy(_, _, _) => (),
        ExprKind::Cond(_, _, _) => (),
        ExprKind::Call(_, _) => (),
        ExprKind::Index(_, _) => (),
        ExprKind::Member(_, _) => (),
        ExprKind::Arrow(_, _) => (),
        ExprKind::Cast(_, _, _) => (),
        ExprKind::SizeOfKind(_, _) => (),
        ExprKind::SizeOfValue(_) => (),
    }
}

/// Whether a type is `char`.
fn is_char(shape: Shape) -> bool
    ensures { (at : TypeNumber → CType) → spec.is_char (built at shape) ≡ result }
{
    match shape {
        Shape::Int(IntKind::I8) => true,
        Shape::Int(_) => false,
        Shape::Void | Shape::Pointer(_) | Shape::Array(_, _) | Shape::Struct(_) => false,
    }
}

/// Fills an integer by the next constant, whose place and the one after it are answered.
fn fill_integer(bytes: &mut [u8], kind: IntKind, at: usize, constants: &[u64], next: usize) -> usize
    requires { at + width kind ≤ length bytes.old }
    ensures value { filled bytes.new (drop result constants.now) ≡ spec.integer_filled kind at (filled bytes.old (drop next constants.now)) }
    ensures length { length bytes.new ≡ length bytes.old }
{
    let (word, after) = next_word(constants, next);
    write_word(bytes, at, kind, word);
    after
}

/// Fills an array, if it is one of `char` and the expression a text.
fn fill_array(
    table: &TypeTable,
    bytes: &mut [u8],
    element: TypeId,
    at: usize,
    count: u64,
    expr: &Expr,
)
    requires known { HasValues table.now element }
    requires room { at + size_of table.now element * count ≤ length bytes.old }
    ensures bytes { bytes.new ≡ spec.array_filled (spec.is_char (type_at table.now element)) at count (text_of expr.now) bytes.old }
    ensures length { length bytes.new ≡ length bytes.old }
{
    if is_char(table.shape(element)) {
        fill_chars(bytes, at, count, expr);
    }
}

/// Fills a type by an expression, and answers the place of the next constant.
fn fill_one(
    table: &TypeTable,
    bytes: &mut [u8],
    kind: TypeId,
    at: usize,
    expr: &Expr,
    constants: &[u64],
    next: usize,
) -> usize
    requires known { HasValues table.now kind }
    requires room { at + size_of table.now kind ≤ length bytes.old }
    ensures value { filled bytes.new (drop result constants.now) ≡ spec.one_filled (type_at table.now kind) at (text_of expr.now) (filled bytes.old (drop next constants.now)) }
    ensures length { length bytes.new ≡ length bytes.old }
{
    match table.shape(kind) {
        Shape::Int(int) => fill_integer(bytes, int, at, constants, next),
        Shape::Array(element, count) => {
            fill_array(table, bytes, element, at, count, expr);
            next
        }
        Shape::Void | Shape::Pointer(_) | Shape::Struct(_) => next,
    }
}

/// The element of an array of so many.
fn element_at(table: &TypeTable, element: TypeId, count: u64, place: u64) -> Option<Piece>
    requires known { HasValues table.now element }
    requires size { size_of table.now element ≤ 16777216 }
    requires few { count ≤ 16777216 }
    ensures value { option_map (part_typed table.now) result ≡ spec.element_at (structs_of table.now) (type_at table.now element) count place }
    ensures known { IfSome result (λ p. HasValues table.now p.kind) }
    ensures room { IfSome result (λ p. p.offset + size_of table.now p.kind ≤ size_of table.now element * count) }
{
    if place < count {
        let offset = table.size(element) * place;
        Some(Piece {
            kind: element,
            offset,
        })
    } else {
        None
    }
}

/// The member of a struct with members of these types.
fn member_of(table: &TypeTable, members: &[TypeId], kind: TypeId, place: usize) -> Option<Piece>
    requires known { HasValues table.now kind }
    requires types { map (type_at table.now) members.now ≡ members_at table.now kind }
    requires stand { All (CanStand table.now) members.now }
    requires few { length members.now ≤ 32768 }
    ensures value { option_map (part_typed table.now) result ≡ spec.member_part (slice_get (members_at table.now kind) place) (offset_of table.now kind place) }
    ensures known { IfSome result (λ p. HasValues table.now p.kind) }
    ensures room { IfSome result (λ p. p.offset + size_of table.now p.kind ≤ size_of table.now kind) }
{
    table.structs_hold_their_members();
    if place < members.len() {
        let member = members[place];
        let offset = table.offset(kind, place as u32);
        Some(Piece {
            kind: member,
            offset,
        })
    } else {
        None
    }
}

/// The member of a struct.
fn member_at(
    table: &TypeTable,
    structs: &[CheckedStruct],
    kind: TypeId,
    number: u32,
    place: usize,
) -> Option<Piece>
    requires known { HasValues table.now kind }
    requires members { AreKnown table.now structs.now }
    requires is { type_at table.now kind ≡ Struct number }
    ensures value { option_map (part_typed table.now) result ≡ spec.member_at (structs_of table.now) number place }
    ensures known { IfSome result (λ p. HasValues table.now p.kind) }
    ensures room { IfSome result (λ p. p.offset + size_of table.now p.kind ≤ size_of table.now kind) }
{
    match structs.get(number as usize) {
        Some(known) => member_of(table, known.members.as_slice(), kind, place),
        None => None,
    }
}

/// The part of this place; none where the type has no such part.
fn part_at(
    table: &TypeTable,
    structs: &[CheckedStruct],
    kind: TypeId,
    place: usize,
) -> Option<Piece>
    requires known { HasValues table.now kind }
    requires members { AreKnown table.now structs.now }
    ensures value { option_map (part_typed table.now) result ≡ spec.part_of (structs_of table.now) (type_at table.now kind) place }
    ensures known { IfSome result (λ p. HasValues table.now p.kind) }
    ensures room { IfSome result (λ p. p.offset + size_of table.now p.kind ≤ size_of table.now kind) }
{
    match table.shape(kind) {
        Shape::Array(element, count) => element_at(table, element, count, place as u64),
        Shape::Struct(number) => member_at(table, structs, kind, number, place),
        Shape::Void | Shape::Int(_) | Shape::Pointer(_) => None,
    }
}

/// Fills a type by an initialiser: the bytes from this one on, of zeros, become those that it says. Answers the place of the next constant.
#[cycle(fill)]
fn fill(
    table: &TypeTable,
    structs: &[CheckedStruct],
    bytes: &mut [u8],
    kind: TypeId,
    at: usize,
    init: &Init,
    constants: &[u64],
    next: usize,
) -> usize
    requires known { HasValues table.now kind }
    requires members { AreKnown table.now structs.now }
    requires room { at + size_of table.now kind ≤ length bytes.old }
    ensures value { filled bytes.new (drop result constants.now) ≡ fills (structs_of table.now) init.now (type_at table.now kind) at (filled bytes.old (drop next constants.now)) }
    ensures length { length bytes.new ≡ length bytes.old }
{
    match &init.kind {
        InitKind::One(expr) => fill_one(table, bytes, kind, at, expr, constants, next),
        InitKind::Many(all) => {
            fill_parts(
                table,
                structs,
                bytes,
                kind,
                at,
                all.as_slice(),
                constants,
                next,
            )
        }
    }
}

#[cycle(fill)]
fn fill_parts(
    table: &TypeTable,
    structs: &[CheckedStruct],
    bytes: &mut [u8],
    kind: TypeId,
    at: usize,
    all: &[Init],
    constants: &[u64],
    next: usize,
) -> usize
    requires known { HasValues table.now kind }
    requires members { AreKnown table.now structs.now }
    requires room { at + size_of table.now kind ≤ length bytes.old }
    ensures value { filled bytes.new (drop result constants.now) ≡ spec.parts_filled (structs_of table.now) (type_at table.now kind) at 0 (map (fills (structs_of table.now)) all.now) (filled bytes.old (drop next constants.now)) }
    ensures length { length bytes.new ≡ length bytes.old }
{
    let mut after = next;
    'parts: for (place, init) in all.iter().enumerate() {
        let part = part_at(table, structs, kind, place);
        after = fill_part(table, structs, bytes, part, at, init, constants, after);
    }
    after
}

#[cycle(fill)]
pub fn fill_part(
    table: &TypeTable,
    structs: &[CheckedStruct],
    bytes: &mut [u8],
    part: Option<Piece>,
    at: usize,
    init: &Init,
    constants: &[u64],
    next: usize,
) -> usize
    requires known { IfSome part (λ p. HasValues table.now p.kind) }
    requires members { AreKnown table.now structs.now }
    requires room { IfSome part (λ p. at + p.offset + size_of table.now p.kind ≤ length bytes.old) }
    ensures value { filled bytes.new (drop result constants.now) ≡ spec.part_filled (option_map (part_typed table.now) part) at (fills (structs_of table.now) init.now) (filled bytes.old (drop next constants.now)) }
    ensures length { length bytes.new ≡ length bytes.old }
{
    match part {
        Some(piece) => {
            let from = at + piece.offset as usize;
            fill(
                table, structs, bytes, piece.kind, from, init, constants, next,
            )
        }
        None => next,
    }
}
