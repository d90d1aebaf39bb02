//! Where things stand one after another.

ghost use Rattle.std.specs.Prelude.{◌≡◌, ◌≤◌, map};
ghost use Rattle.c_types.specs.Layouts.{next_multiple};
ghost use Rattle.c_check_statements.specs.Placing as spec;
ghost use Rattle.c_check_statements.specs.Structs.{kinds_in, scalars_sum};

use c_check_rules::{LIMIT, Member, StructInfo, Type, align_in, scalars_in, size_in};
use c_types::Layout;

/// The first byte after what comes next, as long as that is within the limit.
fn placed(most: u64, free: u64, size: u64, align: u64) -> Option<u64>
    ensures { result ≡ spec.placed most free size align }
{
    let at = if align == 0 {
        0
    } else {
        (u128::from(free) + (u128::from(align) - 1)) / u128::from(align) * u128::from(align)
    };
    let end = at + u128::from(size);
    if end <= u128::from(most) {
        Some(end as u64)
    } else {
        None
    }
}

fn placed_after(most: u64, free: Option<u64>, size: u64, align: u64) -> Option<u64>
    ensures { result ≡ spec.placed_after most free size align }
{
    match free {
        Some(free) => placed(most, free, size, align),
        None => None,
    }
}

fn or_nothing(size: Option<u64>) -> u64
    ensures { result ≡ spec.or_nothing size }
{
    match size {
        Some(size) => size,
        None => 0,
    }
}

/// The first byte after something of a type.
pub fn kind_placed(most: u64, structs: &[StructInfo], free: Option<u64>, kind: &Type) -> Option<u64>
    ensures { result ≡ spec.kind_placed most structs.now free kind.now }
{
    placed_after(
        most,
        free,
        or_nothing(size_in(structs, kind)),
        align_in(structs, kind),
    )
}

fn members_placed(structs: &[StructInfo], members: &[Member]) -> Option<u64>
    ensures { result ≡ spec.members_placed structs.now LIMIT (spec.from_start) (kinds_in members.now) }
{
    let mut free = Some(0);
    'members: for member in members {
        free = kind_placed(LIMIT, structs, free, &member.kind);
    }
    free
}

fn members_align(structs: &[StructInfo], members: &[Member]) -> u64
    ensures { result ≡ spec.members_align structs.now 1 (kinds_in members.now) }
{
    let mut align = 1;
    'members: for member in members {
        align = align_in(structs, &member.kind).max(align);
    }
    align
}

fn sized(size: Option<u64>, align: u64) -> Option<Layout>
    ensures { result ≡ spec.sized size align }
{
    match size {
        Some(size) => Some(Layout { size, align }),
        None => None,
    }
}

/// The layout of a struct with these members, as long as it is within the limit.
pub fn struct_laid(structs: &[StructInfo], members: &[Member]) -> Option<Layout>
    ensures { result ≡ spec.struct_laid LIMIT structs.now (kinds_in members.now) }
{
    let free = members_placed(structs, members);
    let align = members_align(structs, members);
    sized(placed_after(LIMIT, free, 0, align), align)
}

/// The scalars of a struct with these members, counted to 65.
pub fn scalars_sum(structs: &[StructInfo], members: &[Member]) -> u64
    ensures { result ≡ scalars_sum structs.now 0 (kinds_in members.now) }
{
    let mut scalars = 0u64;
    'members: for member in members {
        scalars = scalars
            .saturating_add(scalars_in(structs, &member.kind))
            .min(65);
    }
    scalars
}
