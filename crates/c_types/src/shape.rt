//! What a type is made of.

ghost use Rattle.std.specs.Prelude.{◌≡◌};
ghost use Rattle.std.specs.Cmp.Rules.{comparing, hashing};
ghost use Rattle.std.proofs.Common.{rules};
ghost use Rattle.c_types.specs.Shapes.{numbers_of, is_same, written};

use mx_base::IntKind;
use std::hash::{Hash, Hasher};

/// The number of a type in its table.
#[derive(Clone, Copy, Debug, PartialEq, Eq)]
pub struct TypeId(pub u32);

/// What a type is: no value, an integer, a pointer to a type, as many elements of a type, or a struct by its number.
#[derive(Clone, Copy, Debug)]
pub enum Shape {
    Void,
    Int(IntKind),
    Pointer(TypeId),
    Array(TypeId, u64),
    Struct(u32),
}

/// The variant of a shape and what it holds, as three numbers.
fn numbers(shape: Shape) -> [u64; 3]
    ensures { result ≡ numbers_of shape }
{
    match shape {
        Shape::Void => [0, 0, 0],
        Shape::Int(kind) => [1, kind as u64, 0],
        Shape::Pointer(target) => [2, target.0 as u64, 0],
        Shape::Array(element, count) => [3, element.0 as u64, count],
        Shape::Struct(number) => [4, number as u64, 0],
    }
}

impl PartialEq for Shape {
    ghost eq = { is_same };

    ghost laws = { Prim.search (comparing, rules) };

    fn eq(&self, other: &Shape) -> bool {
        numbers(*self) == numbers(*other)
    }
}

impl Eq for Shape {
    ghost laws = { Prim.search (comparing, rules) };
}

impl Hash for Shape {
    ghost hash_input = { written };

    ghost respects_eq = { Prim.search (hashing, rules) };

    fn hash<H: Hasher>(&self, state: &mut H) {
        numbers(*self).hash(state);
    }
}
