//! Conversions.

ghost use Rattle.std.specs.Prelude.{◌≡◌};
ghost use Rattle.c_check_rules.specs.Conversions as spec;

use crate::kinds::{Outer, Type, same};
use mx_base::IntKind;

/// The type that an integer has in arithmetic: `char` and `short` forms become `int`.
pub fn promoted(kind: IntKind) -> IntKind
    ensures { result ≡ spec.promoted kind }
{
    match kind {
        IntKind::U32 => IntKind::U32,
        IntKind::I64 => IntKind::I64,
        IntKind::U64 => IntKind::U64,
        IntKind::I8 | IntKind::U8 | IntKind::I16 | IntKind::U16 | IntKind::I32 => IntKind::I32,
    }
}

fn wider(k: IntKind, l: IntKind) -> IntKind
    ensures { result ≡ spec.wider k l }
{
    match k {
        IntKind::U64 => IntKind::U64,
        IntKind::I64 => match l {
            IntKind::U64 => IntKind::U64,
            _ => IntKind::I64,
        },
        IntKind::U32 => match l {
            IntKind::U64 => IntKind::U64,
            IntKind::I64 => IntKind::I64,
            _ => IntKind::U32,
        },
        _ => l,
    }
}

/// The type in which two integers meet: the wider one, and at equal width the unsigned one.
pub fn common(k: IntKind, l: IntKind) -> IntKind
    ensures { result ≡ spec.common k l }
{
    wider(promoted(k), promoted(l))
}

/// Whether a type is an integer or a pointer.
pub fn is_scalar(kind: &Type) -> bool
    ensures { result ≡ spec.is_scalar kind.now }
{
    match kind.outer() {
        Outer::Int(_) => true,
        Outer::Pointer => true,
        Outer::Void => false,
        Outer::Array(_) => false,
        Outer::Struct(_) => false,
    }
}

fn is_void_form(form: Outer) -> bool
    ensures { result ≡ spec.is_void_form form }
{
    match form {
        Outer::Void => true,
        Outer::Int(_) => false,
        Outer::Pointer => false,
        Outer::Array(_) => false,
        Outer::Struct(_) => false,
    }
}

fn is_integer(form: Outer) -> bool
    ensures { result ≡ spec.is_integer_form form }
{
    match form {
        Outer::Int(_) => true,
        Outer::Void => false,
        Outer::Pointer => false,
        Outer::Array(_) => false,
        Outer::Struct(_) => false,
    }
}

/// Whether a type is `void`.
pub fn is_void(kind: &Type) -> bool
    ensures { result ≡ spec.is_void kind.now }
{
    is_void_form(kind.outer())
}

/// Whether a type is `void *`.
pub fn is_void_pointer(kind: &Type) -> bool
    ensures { result ≡ spec.is_void_pointer kind.now }
{
    match kind.outer() {
        Outer::Pointer => is_void_form(kind.inner_outer()),
        Outer::Void => false,
        Outer::Int(_) => false,
        Outer::Array(_) => false,
        Outer::Struct(_) => false,
    }
}

fn meet_as_pointers(a: &Type, b: &Type) -> bool
    ensures { result ≡ spec.meet_as_pointers a.now b.now }
{
    same(a, b) || is_void_pointer(a) || is_void_pointer(b)
}

/// Whether a value of the type `source`, no array, becomes one of `target` by assignment, as an argument or by `return`.
pub fn converts(target: &Type, source: &Type, zero: bool) -> bool
    ensures { result ≡ spec.converts target.now source.now zero }
{
    match target.outer() {
        Outer::Int(_) => is_integer(source.outer()),
        Outer::Pointer => match source.outer() {
            Outer::Int(_) => zero,
            Outer::Pointer => meet_as_pointers(target, source),
            Outer::Void => false,
            Outer::Array(_) => false,
            Outer::Struct(_) => false,
        },
        Outer::Void => false,
        Outer::Array(_) => false,
        Outer::Struct(_) => false,
    }
}

/// Whether both types are one struct.
pub fn fits_struct(target: &Type, source: &Type) -> bool
    ensures { result ≡ spec.fits_struct target.now source.now }
{
    let Outer::Struct(n) = target.outer() else {
        return false;
    };
    let Outer::Struct(m) = source.outer() else {
        return false;
    };
    n == m
}

/// Whether a cast goes from `source`, no array, to `target`.
pub fn cast_fits(target: &Type, source: &Type) -> bool
    ensures { result ≡ spec.cast_fits target.now source.now }
{
    is_scalar(target) && is_scalar(source)
}
