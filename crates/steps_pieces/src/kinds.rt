//! The types in which numbers are calculated, and which values are numbers.

ghost use Rattle.std.specs.Prelude.{◌≡◌};
ghost use Rattle.mx_base.specs.Numbers.{is_signed as has_sign, size_of as size_in_bytes};
ghost use Rattle.c_types.specs.Layouts.{width};
ghost use Rattle.bounds_plan.specs.elaboration.Types as spec;
ghost use Rattle.steps_facts.specs.Seen.{kind_in};
ghost use Rattle.steps_pieces.specs.Own.{choice_of as choice_by};
ghost use Rattle.steps_pieces.specs.Wanted.{given_number as number_by, loads_number as loads, reads_number as reads};

use mx_base::{Arithmetic, IntKind};
use steps_facts::{Sorted, Spot};

/// How many bytes a number of the type has.
pub fn size_of(kind: IntKind) -> u32
    ensures bytes { result ≡ size_in_bytes kind }
    ensures width { result ≡ width kind }
{
    match kind {
        IntKind::I8 | IntKind::U8 => 1,
        IntKind::I16 | IntKind::U16 => 2,
        IntKind::I32 | IntKind::U32 => 4,
        IntKind::I64 | IntKind::U64 => 8,
    }
}

fn is_signed(kind: IntKind) -> bool
    ensures { result ≡ has_sign kind }
{
    match kind {
        IntKind::I8 | IntKind::I16 | IntKind::I32 | IntKind::I64 => true,
        IntKind::U8 | IntKind::U16 | IntKind::U32 | IntKind::U64 => false,
    }
}

/// The type in which a value of a sort is a number.
pub fn kind_of(sort: Sorted) -> IntKind
    ensures { result ≡ kind_in sort }
{
    match sort {
        Sorted::Number(kind) => kind,
        Sorted::Pointer | Sorted::Whole | Sorted::Nothing => IntKind::U64,
    }
}

/// The type that an integer is promoted to.
pub fn promoted(kind: IntKind) -> IntKind
    ensures { result ≡ spec.promoted kind }
{
    match kind {
        IntKind::U32 => IntKind::U32,
        IntKind::I64 => IntKind::I64,
        IntKind::U64 => IntKind::U64,
        IntKind::I8 | IntKind::U8 | IntKind::I16 | IntKind::U16 | IntKind::I32 => IntKind::I32,
    }
}

/// The wider of two promoted types, and at equal width the unsigned one.
fn joined(a: IntKind, b: IntKind) -> IntKind
    ensures { result ≡ spec.joined a b }
{
    if size_of(a) < size_of(b) {
        b
    } else if size_of(b) < size_of(a) {
        a
    } else if is_signed(a) {
        b
    } else {
        a
    }
}

/// The type in which two integers meet.
pub fn common(a: IntKind, b: IntKind) -> IntKind
    ensures { result ≡ spec.common a b }
{
    joined(promoted(a), promoted(b))
}

/// The type in which an operator is done on numbers of these types.
pub fn done_in(op: Arithmetic, a: IntKind, b: IntKind) -> IntKind
    ensures { result ≡ spec.done_in op a b }
{
    match op {
        Arithmetic::Shl | Arithmetic::Shr => promoted(a),
        Arithmetic::Mul
        | Arithmetic::Div
        | Arithmetic::Rem
        | Arithmetic::Add
        | Arithmetic::Sub
        | Arithmetic::BitAnd
        | Arithmetic::BitXor
        | Arithmetic::BitOr => common(a, b),
    }
}

/// Whether every number of the first type is one of the second.
pub fn keeps(from: IntKind, to: IntKind) -> bool
    ensures { result ≡ spec.keeps from to }
{
    if is_signed(from) {
        is_signed(to) && size_of(from) <= size_of(to)
    } else if is_signed(to) {
        size_of(from) < size_of(to)
    } else {
        size_of(from) <= size_of(to)
    }
}

/// Of which sort the values are that `?:` chooses of.
pub fn choice_of(sort: Sorted) -> Sorted
    ensures { result ≡ choice_by sort }
{
    match sort {
        Sorted::Number(kind) => Sorted::Number(kind),
        Sorted::Pointer | Sorted::Whole | Sorted::Nothing => Sorted::Pointer,
    }
}

/// Whether a value is a number where one of a sort is wanted.
pub fn given_number(to: Sorted, number: bool) -> bool
    ensures { result ≡ number_by to number }
{
    match to {
        Sorted::Number(_) => true,
        Sorted::Pointer => false,
        Sorted::Whole | Sorted::Nothing => number,
    }
}

/// Whether what is read in memory is a number.
pub fn loads_number(sort: Sorted) -> bool
    ensures { result ≡ loads sort }
{
    match sort {
        Sorted::Number(_) => true,
        Sorted::Pointer | Sorted::Whole | Sorted::Nothing => false,
    }
}

/// Whether what is read of a place is a number.
pub fn reads_number(spot: Spot, sort: Sorted) -> bool
    ensures { result ≡ reads spot sort }
{
    match spot {
        Spot::Number(_) => true,
        Spot::Pointer(_) => false,
        Spot::Memory => loads_number(sort),
    }
}
