//! Types as C lays them out.

ghost use Rattle.std.specs.Prelude.{◌≡◌, ◌≤◌, IfOk, length};
ghost use Rattle.c_types.specs.Types.{IsIn, HasSize, members_at};

use c_types::{Shape, TypeId, TypeTable};
use mx_base::{IntKind, OutOfMemory};
use std::alloc::Global;
use std::test::Fail;

/// A struct of integers in a table of its own.
fn of_integers(alloc: Global, kinds: &[IntKind]) -> Result<(TypeTable, TypeId), OutOfMemory>
    requires some { 1 ≤ length kinds.now }
    requires few { length kinds.now ≤ 100 }
    ensures inside { IfOk result (λ r. IsIn r.0 r.1) }
    ensures sized { IfOk result (λ r. HasSize r.0 r.1) }
    ensures members { IfOk result (λ r. length (members_at r.0 r.1) ≡ length kinds.now) }
{
    let mut table = TypeTable::make(alloc)?;
    let number = table.begin_struct()?;
    let mut members = Vec::new(alloc);
    for kind in kinds {
        let member = table.intern(Shape::Int(*kind))?;
        members.push(member)?;
    }
    table.end_struct(number, members.as_slice())?;
    let t = table.intern(Shape::Struct(number))?;
    Ok((table, t))
}

/// The size and the alignment of a struct of integers, and the offset of each member.
fn layout_line(alloc: Global, kinds: &[IntKind]) -> Result<String, Fail>
    requires some { 1 ≤ length kinds.now }
    requires few { length kinds.now ≤ 100 }
{
    let (table, t) = of_integers(alloc, kinds)?;
    let (size, align) = (table.size(t), table.align(t));
    let mut line = format!(in alloc; "{size} {align}:")?;
    for k in 0..kinds.len() {
        let offset = table.offset(t, k as u32);
        line.push_str(format!(in alloc; " {offset}")?.as_str())?;
    }
    Ok(line)
}

#[test]
fn structs_are_laid_out_as_in_c(rt: HostRuntime) -> Result<(), Fail> {
    let found = layout_line(rt.alloc(), &[IntKind::I8, IntKind::I64, IntKind::I16])?;
    assert_eq!(rt; found.as_str(), "24 8: 0 8 16");
    let found = layout_line(
        rt.alloc(),
        &[IntKind::U8, IntKind::I8, IntKind::U32, IntKind::I8],
    )?;
    assert_eq!(rt; found.as_str(), "12 4: 0 1 4 8");
    let found = layout_line(rt.alloc(), &[IntKind::U16, IntKind::U8])?;
    assert_eq!(rt; found.as_str(), "4 2: 0 2");
    Ok(())
}

/// `struct node { int value; struct node *next; }`
fn list_node(alloc: Global) -> Result<(TypeTable, TypeId), OutOfMemory>
    ensures inside { IfOk result (λ r. IsIn r.0 r.1) }
    ensures sized { IfOk result (λ r. HasSize r.0 r.1) }
    ensures members { IfOk result (λ r. length (members_at r.0 r.1) ≡ 2) }
{
    let mut table = TypeTable::make(alloc)?;
    let number = table.begin_struct()?;
    let node = table.intern(Shape::Struct(number))?;
    let next = table.intern(Shape::Pointer(node))?;
    let value = table.intern(Shape::Int(IntKind::I32))?;
    table.end_struct(number, &[value, next])?;
    Ok((table, node))
}

#[test]
fn a_struct_may_point_to_itself(rt: HostRuntime) -> Result<(), Fail> {
    let (table, node) = list_node(rt.alloc())?;
    let offsets = (table.offset(node, 0), table.offset(node, 1));
    let found = (table.size(node), table.align(node), offsets);
    assert_eq!(rt; found, (16, 8, (0, 8)));
    Ok(())
}

#[test]
fn arrays_may_be_large(rt: HostRuntime) -> Result<(), Fail> {
    let mut table = TypeTable::make(rt.alloc())?;
    let char = table.intern(Shape::Int(IntKind::I8))?;
    let page = table.intern(Shape::Array(char, 16_777_216))?;
    let pages = table.intern(Shape::Array(page, 16_777_216))?;
    let found = (table.size(page), table.size(pages), table.align(pages));
    assert_eq!(rt; found, (16_777_216, 281_474_976_710_656, 1));
    Ok(())
}

#[test]
fn a_shape_has_one_number(rt: HostRuntime) -> Result<(), Fail> {
    let mut table = TypeTable::make(rt.alloc())?;
    let void = table.intern(Shape::Void)?;
    let pointer = table.intern(Shape::Pointer(void))?;
    let again = table.intern(Shape::Void)?;
    assert_ne!(rt; again, pointer);
    assert_eq!(rt; (again, table.shape(again)), (void, Shape::Void));
    Ok(())
}
