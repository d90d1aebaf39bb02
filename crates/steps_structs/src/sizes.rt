//! Sizes and alignments of types by the structs that are declared.

ghost use Rattle.std.specs.Prelude.{◌≡◌, ◌*◌, map, All, IfOk, slice_get};
ghost use Rattle.c_types.specs.declared.shape.TypeId.{TypeId as TypeNumber};
ghost use Rattle.c_types.specs.Types.{CType, type_at, built, IsIn};
ghost use Rattle.c_types.specs.Layouts.{CanBuild, layout_of, width, scalar, no_layout};
ghost use Rattle.steps_structs.specs.Structs.{AreKnown, structs_known, kept, laid_by};

use crate::arithmetic::{behind, round_up, times};
use crate::known::KnownStruct;
use c_types::{Layout, Shape, TypeId, TypeTable};
use mx_base::{IntKind, OutOfMemory};

/// The bytes of an integer.
pub fn bytes_of(kind: IntKind) -> u64
    ensures { result ≡ width kind }
{
    match kind {
        IntKind::I8 | IntKind::U8 => 1,
        IntKind::I16 | IntKind::U16 => 2,
        IntKind::I32 | IntKind::U32 => 4,
        IntKind::I64 | IntKind::U64 => 8,
    }
}

/// Of a number or an address of so many bytes.
pub fn scalar_layout(bytes: u64) -> Layout
    ensures { result ≡ scalar bytes }
{
    Layout {
        size: bytes,
        align: bytes,
    }
}

/// Of what has no size.
pub fn unsized_layout() -> Layout
    ensures { result ≡ no_layout }
{
    Layout { size: 0, align: 1 }
}

/// Of a struct by its number.
pub fn struct_layout(structs: &[KnownStruct], number: u32) -> Layout
    ensures { result ≡ kept (slice_get structs.now number) }
{
    match structs.get(number as usize) {
        Some(found) => found.layout,
        None => unsized_layout(),
    }
}

/// Of so many elements.
fn array_layout(element: Layout, count: u64) -> Result<Layout, OutOfMemory>
    ensures { IfOk result (λ l. l ≡ record { size = element.size * count; align = element.align }) }
{
    let size = times(element.size, count)?;
    let align = element.align;
    Ok(Layout { size, align })
}

/// The size and alignment of a type of this shape.
#[cycle(layout)]
pub fn layout(
    types: &TypeTable,
    structs: &[KnownStruct],
    shape: Shape,
) -> Result<Layout, OutOfMemory>
    requires known { AreKnown types.now structs.now }
    requires named { CanBuild types.now shape }
    ensures { IfOk result (λ l. l ≡ layout_of (structs_known types.now structs.now) (built (type_at types.now) shape)) }
{
    match shape {
        Shape::Void => Ok(unsized_layout()),
        Shape::Int(kind) => Ok(scalar_layout(bytes_of(kind))),
        Shape::Pointer(_) => Ok(scalar_layout(8)),
        Shape::Array(element, count) => {
            let inner = types.shape(element);
            let one = layout(types, structs, inner)?;
            array_layout(one, count)
        }
        Shape::Struct(number) => Ok(struct_layout(structs, number)),
    }
}

/// The size and alignment of a type of the table.
pub fn layout_at(
    types: &TypeTable,
    structs: &[KnownStruct],
    t: TypeId,
) -> Result<Layout, OutOfMemory>
    requires known { AreKnown types.now structs.now }
    requires named { IsIn types.now t }
    ensures { IfOk result (λ l. l ≡ layout_of (structs_known types.now structs.now) (type_at types.now t)) }
{
    let shape = types.shape(t);
    layout(types, structs, shape)
}

/// The layout of a struct with members of these types.
pub fn laid_out(
    types: &TypeTable,
    structs: &[KnownStruct],
    members: &[TypeId],
) -> Result<Layout, OutOfMemory>
    requires known { AreKnown types.now structs.now }
    requires members { All (IsIn types.now) members.now }
    ensures { IfOk result (λ l. l ≡ laid_by (structs_known types.now structs.now) (map (type_at types.now) members.now)) }
{
    let mut end = 0u64;
    let mut align = 0u64;
    for member in members {
        let one = layout_at(types, structs, *member)?;
        let offset = round_up(end, one.align)?;
        end = behind(offset, one.size)?;
        align = align.max(one.align);
    }
    let align = align.max(1);
    let size = round_up(end, align)?;
    Ok(Layout { size, align })
}
