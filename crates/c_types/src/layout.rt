//! Sizes and alignments.

ghost use Rattle.std.specs.Prelude.{◌≡◌, ℕ, ◌+◌, ◌^◌, ◌<◌, ◌≤◌};
ghost use Rattle.c_types.specs.Layouts.{next_multiple, scalar, width, no_layout};

use mx_base::IntKind;

/// The size of a type in bytes, and the number of which its addresses are multiples.
#[derive(Clone, Copy, Debug)]
pub struct Layout {
    pub size: u64,
    pub align: u64,
}

/// Of what has no size.
pub fn unsized_layout() -> Layout
    ensures { result ≡ no_layout }
{
    Layout { size: 0, align: 1 }
}

/// Of a number or an address of as many bytes.
pub fn scalar_layout(bytes: u64) -> Layout
    ensures { result ≡ scalar bytes }
{
    Layout {
        size: bytes,
        align: bytes,
    }
}

/// The bytes of an integer.
pub fn bytes_of(kind: IntKind) -> u64
    ensures { result ≡ width kind }
{
    match kind {
        IntKind::I8 | IntKind::U8 => 1,
        IntKind::I16 | IntKind::U16 => 2,
        IntKind::I32 | IntKind::U32 => 4,
        IntKind::I64 | IntKind::U64 => 8,
    }
}

/// The first multiple of `align` that is not below `n`.
pub fn round_up(n: u64, align: u64) -> u64
    requires some { 1 ≤ align }
    requires few { align ≤ 8 }
    requires fits { n < 2 ^ 63 }
    ensures value { result ≡ next_multiple n align }
    ensures near { result < n + align }
{
    (n + (align - 1)) / align * align
}

/// What is kept of a struct that has its members.
#[derive(Drop)]
pub struct StructLayout {
    pub layout: Layout,
    pub offsets: Vec<u64>,
}
