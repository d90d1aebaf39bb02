//! Sizes, alignments and counts of scalars.

ghost use Rattle.std.specs.Prelude.{◌≡◌, slice_get};
ghost use Rattle.c_types.specs.Layouts.{width};
ghost use Rattle.c_check_rules.specs.Sizes as spec;
ghost use Rattle.c_check_rules.specs.Kinds.{core_kind, shaped, inner_of};

use crate::kinds::{Core, Layer, Type};
use crate::names::StructInfo;
use c_types::Layout;
use mx_base::IntKind;

/// The most bytes of a type, and the most elements of an array.
pub const LIMIT: u64 = 16_777_216;

fn width_of(kind: IntKind) -> u64
    ensures { result ≡ width kind }
{
    match kind {
        IntKind::I8 | IntKind::U8 => 1,
        IntKind::I16 | IntKind::U16 => 2,
        IntKind::I32 | IntKind::U32 => 4,
        IntKind::I64 | IntKind::U64 => 8,
    }
}

fn laid_of(structs: &[StructInfo], number: u32) -> Option<Layout>
    ensures { result ≡ spec.laid_of (slice_get structs.now number) }
{
    match structs.get(number as usize) {
        Some(info) => info.laid,
        None => None,
    }
}

fn scalars_of(structs: &[StructInfo], number: u32) -> u64
    ensures { result ≡ spec.scalars_of (slice_get structs.now number) }
{
    match structs.get(number as usize) {
        Some(info) => info.scalars,
        None => 0,
    }
}

fn core_size(structs: &[StructInfo], core: Core) -> Option<u64>
    ensures { result ≡ spec.size_in structs.now (core_kind core) }
{
    match core {
        Core::Void => None,
        Core::Int(kind) => Some(width_of(kind)),
        Core::Struct(number) => match laid_of(structs, number) {
            Some(layout) => Some(layout.size),
            None => None,
        },
    }
}

fn times_in(size: Option<u64>, count: u64) -> Option<u64>
    ensures { result ≡ spec.times_in size count }
{
    let Some(size) = size else {
        return None;
    };
    if 1 <= count && count <= LIMIT && size.saturating_mul(count) <= LIMIT {
        Some(size.saturating_mul(count))
    } else {
        None
    }
}

/// The size of a type with these layers, of which the innermost ones have been counted.
fn layer_size(layer: Layer, size: Option<u64>) -> Option<u64>
    ensures { result ≡ spec.layer_size layer size }
{
    match layer {
        Layer::Pointer => Some(8),
        Layer::Array(count) => times_in(size, count),
    }
}

/// The size of a type in bytes, where it has one within the limits.
pub fn size_in(structs: &[StructInfo], kind: &Type) -> Option<u64>
    ensures { result ≡ spec.size_in structs.now kind.now }
{
    size_of_parts(structs, kind.core(), kind.layers())
}

/// The size in bytes of what a pointer points to, or an array has as elements, where it has one within the limits.
pub fn inner_size(structs: &[StructInfo], kind: &Type) -> Option<u64>
    ensures { result ≡ spec.size_in structs.now (inner_of kind.now) }
{
    match kind.layers() {
        [] => core_size(structs, kind.core()),
        [Layer::Pointer, rest @ ..] => size_of_parts(structs, kind.core(), rest),
        [Layer::Array(_), rest @ ..] => size_of_parts(structs, kind.core(), rest),
    }
}

/// Whether what a pointer points to, or an array has as elements, has a size within the limits.
pub fn is_inner_sized(structs: &[StructInfo], kind: &Type) -> bool
    ensures { result ≡ spec.is_sized structs.now (inner_of kind.now) }
{
    inner_size(structs, kind).is_some()
}

fn size_of_parts(structs: &[StructInfo], core: Core, layers: &[Layer]) -> Option<u64>
    ensures { result ≡ spec.size_in structs.now (shaped core layers.now) }
{
    let mut size = core_size(structs, core);
    let mut i = layers.len();
    'layers: while i > 0 {
        i -= 1;
        size = layer_size(layers[i], size);
    }
    size
}

/// Whether a type has a size within the limits.
pub fn is_sized(structs: &[StructInfo], kind: &Type) -> bool
    ensures { result ≡ spec.is_sized structs.now kind.now }
{
    size_in(structs, kind).is_some()
}

fn core_align(structs: &[StructInfo], core: Core) -> u64
    ensures { result ≡ spec.align_in structs.now (core_kind core) }
{
    match core {
        Core::Void => 1,
        Core::Int(kind) => width_of(kind),
        Core::Struct(number) => match laid_of(structs, number) {
            Some(layout) => layout.align,
            None => 1,
        },
    }
}

fn layer_align(layer: Layer, align: u64) -> u64
    ensures { result ≡ spec.layer_align layer align }
{
    match layer {
        Layer::Pointer => 8,
        Layer::Array(_) => align,
    }
}

/// The alignment of a type in bytes.
pub fn align_in(structs: &[StructInfo], kind: &Type) -> u64
    ensures { result ≡ spec.align_in structs.now kind.now }
{
    let layers = kind.layers();
    let mut align = core_align(structs, kind.core());
    let mut i = layers.len();
    'layers: while i > 0 {
        i -= 1;
        align = layer_align(layers[i], align);
    }
    align
}

fn core_scalars(structs: &[StructInfo], core: Core) -> u64
    ensures { result ≡ spec.scalars_in structs.now (core_kind core) }
{
    match core {
        Core::Void => 0,
        Core::Int(_) => 1,
        Core::Struct(number) => scalars_of(structs, number).min(65),
    }
}

fn layer_scalars(layer: Layer, scalars: u64) -> u64
    ensures { result ≡ spec.layer_scalars layer scalars }
{
    match layer {
        Layer::Pointer => 1,
        Layer::Array(count) => scalars.saturating_mul(count).min(65),
    }
}

/// How many scalars a value of the type has, counted to 65.
pub fn scalars_in(structs: &[StructInfo], kind: &Type) -> u64
    ensures { result ≡ spec.scalars_in structs.now kind.now }
{
    let layers = kind.layers();
    let mut scalars = core_scalars(structs, kind.core());
    let mut i = layers.len();
    'layers: while i > 0 {
        i -= 1;
        scalars = layer_scalars(layers[i], scalars);
    }
    scalars
}

fn core_within(structs: &[StructInfo], core: Core) -> bool
    ensures { result ≡ spec.is_within structs.now (core_kind core) }
{
    match core {
        Core::Void => true,
        Core::Int(_) => true,
        Core::Struct(number) => structs.get(number as usize).is_some(),
    }
}

fn is_array(layer: Layer) -> bool
    ensures { result ≡ spec.is_array_layer layer }
{
    match layer {
        Layer::Pointer => false,
        Layer::Array(_) => true,
    }
}

/// Whether a type may stand: its structs are opened, and each array in it has a size.
pub fn is_within(structs: &[StructInfo], kind: &Type) -> bool
    ensures { result ≡ spec.is_within structs.now kind.now }
{
    let layers = kind.layers();
    let mut size = core_size(structs, kind.core());
    let mut within = core_within(structs, kind.core());
    let mut i = layers.len();
    'layers: while i > 0 {
        i -= 1;
        size = layer_size(layers[i], size);
        within = within && (!is_array(layers[i]) || size.is_some());
    }
    within
}
