//! The walk over initialisers, past their text literals.

ghost use Rattle.std.specs.Prelude.{◌≡◌, OnOk, All, map};
ghost use Rattle.c_types.specs.declared.shape.TypeId.{TypeId as TypeNumber};
ghost use Rattle.c_types.specs.Types.{CType, type_at, built, IsIn};
ghost use Rattle.c_types.specs.Layouts.{CanBuild};
ghost use Rattle.c_accepted.specs.Literals.{text_sizes};
ghost use Rattle.c_accepted.specs.SourceLiterals.{init_sizes, one_sizes, many_sizes, elements_sizes, members_sizes};
ghost use Rattle.steps_facts.specs.Around.{part_types, part_offsets, IsPart};
ghost use Rattle.c_literals.specs.Laid.{with_literals};

use crate::literals::{Literals, put_literals};
use c_tree::{Expr, Init, InitKind};
use c_types::{Shape, TypeId};
use mx_base::OutOfMemory;
use std::alloc::Global;
use steps_facts::{Knows, Part};

/// The literals of an expression that initialises a part of this shape: a text that fills an array is none.
fn put_literals_of_one(literals: &mut Literals, e: &Expr, shape: Shape) -> Result<(), OutOfMemory>
    ensures { (at : TypeNumber → CType) → OnOk result (literals.new ≡ with_literals literals.old (one_sizes (built at shape) (text_sizes e.now))) }
{
    match shape {
        Shape::Array(_, _) => Ok(()),
        Shape::Void | Shape::Int(_) | Shape::Pointer(_) | Shape::Struct(_) => put_literals(
            literals, e,
        ),
    }
}

/// The literals of an initialiser of a part of a type, in tree order.
#[cycle(inits)]
pub fn put_literals_of_init<K: Knows>(
    alloc: Global,
    known: &K,
    literals: &mut Literals,
    init: &Init,
    kind: TypeId,
) -> Result<(), OutOfMemory>
    requires { IsIn (K.table known.now) kind }
    ensures { OnOk result (literals.new ≡ with_literals literals.old (init_sizes init.now (K.around known.now) (type_at (K.table known.now) kind))) }
{
    let shape = known.shape(kind);
    match &init.kind {
        InitKind::One(e) => put_literals_of_one(literals, e, shape),
        InitKind::Many(list) => {
            let all = list.as_slice();
            put_literals_of_many(alloc, known, literals, all, shape)
        }
    }
}

/// The literals of a list in braces.
#[cycle(inits)]
fn put_literals_of_many<K: Knows>(
    alloc: Global,
    known: &K,
    literals: &mut Literals,
    all: &[Init],
    shape: Shape,
) -> Result<(), OutOfMemory>
    requires { CanBuild (K.table known.now) shape }
    ensures { OnOk result (literals.new ≡ with_literals literals.old (many_sizes (map init_sizes all.now) (K.around known.now) (built (type_at (K.table known.now)) shape))) }
{
    match shape {
        Shape::Void | Shape::Int(_) | Shape::Pointer(_) => Ok(()),
        Shape::Array(element, count) => {
            put_literals_of_elements(alloc, known, literals, all, element, count)
        }
        Shape::Struct(number) => {
            let members = known.members(alloc, number)?;
            let parts = members.as_slice();
            put_literals_of_members(alloc, known, literals, all, parts)
        }
    }
}

/// The literals of elements, of which there are so many in all.
#[cycle(inits)]
fn put_literals_of_elements<K: Knows>(
    alloc: Global,
    known: &K,
    literals: &mut Literals,
    all: &[Init],
    element: TypeId,
    count: u64,
) -> Result<(), OutOfMemory>
    requires { IsIn (K.table known.now) element }
    ensures { OnOk result (literals.new ≡ with_literals literals.old (elements_sizes (map init_sizes all.now) (K.around known.now) (type_at (K.table known.now) element) count)) }
{
    let mut left = count;
    for init in all {
        if left == 0 {
            return Ok(());
        }
        put_literals_of_init(alloc, known, literals, init, element)?;
        left -= 1;
    }
    Ok(())
}

/// The literals of members.
#[cycle(inits)]
fn put_literals_of_members<K: Knows>(
    alloc: Global,
    known: &K,
    literals: &mut Literals,
    all: &[Init],
    parts: &[Part],
) -> Result<(), OutOfMemory>
    requires { All (IsPart (K.table known.now)) parts.now }
    ensures { OnOk result (literals.new ≡ with_literals literals.old (members_sizes (map init_sizes all.now) (K.around known.now) (part_types (K.table known.now) parts.now) (part_offsets parts.now))) }
{
    let mut left = parts;
    for init in all {
        let Some((part, more)) = left.split_first() else {
            return Ok(());
        };
        put_literals_of_init(alloc, known, literals, init, part.kind)?;
        left = more;
    }
    Ok(())
}
