//! The walk over expressions, past their text literals.

ghost use Rattle.std.specs.Prelude.{◌≡◌, ◌+◌, length, map, OnOk, IfOk};
ghost use Rattle.c_accepted.specs.Literals.{text_sizes, joined};
ghost use Rattle.c_literals.specs.Laid.{none, with_literal, with_literals};

use c_tree::{Bytes, Expr, ExprKind};
use mx_base::OutOfMemory;
use sqlite_items::Items;
use std::alloc::Global;

/// Literals one behind another: the offset of each behind the first byte of all, in bytes, and the first byte behind all.
#[derive(Drop)]
pub struct Literals {
    pub offsets: Items<u32>,
    pub end: u32,
}

/// None so far.
pub fn no_literals(alloc: Global) -> Literals
    ensures { result ≡ none }
{
    Literals {
        offsets: Items::new(alloc),
        end: 0,
    }
}

fn behind(offset: u32, size: u32) -> Result<u32, OutOfMemory>
    ensures { IfOk result (λ end. end ≡ offset + size) }
{
    match offset.checked_add(size) {
        Some(end) => Ok(end),
        None => Err(OutOfMemory),
    }
}

/// The bytes of a text and the byte 0 at its end.
fn size_of(bytes: &Bytes) -> Result<u32, OutOfMemory>
    ensures { IfOk result (λ n. n ≡ length bytes.now + 1) }
{
    match u32::try_from(bytes.as_slice().len()) {
        Ok(n) => behind(n, 1),
        Err(_) => Err(OutOfMemory),
    }
}

/// One more literal.
fn put_literal(literals: &mut Literals, size: u32) -> Result<(), OutOfMemory>
    ensures { OnOk result (literals.new ≡ with_literal literals.old size) }
{
    let end = behind(literals.end, size)?;
    literals.offsets.push(literals.end)?;
    literals.end = end;
    Ok(())
}

/// The literals of an expression: its texts but those under `sizeof`, in tree order, each with the byte 0 at its end.
#[cycle(put)]
pub fn put_literals(literals: &mut Literals, e: &Expr) -> Result<(), OutOfMemory>
    ensures { OnOk result (literals.new ≡ with_literals literals.old (text_sizes e.now)) }
{
    match &e.kind {
        ExprKind::Number(_, _) => Ok(()),
        ExprKind::Text(bytes) => {
            let size = size_of(bytes)?;
            put_literal(literals, size)
        }
        ExprKind::Var(_) => Ok(()),
        ExprKind::Unary(_, a) => put_literals(literals, a.get()),
        ExprKind::Binary(_, a, b) => {
            put_literals(literals, a.get())?;
            put_literals(literals, b.get())
        }
        ExprKind::Assign(_, a, b) => {
            put_literals(literals, a.get())?;
            put_literals(literals, b.get())
        }
        ExprKind::StepBy(_, _, a) => put_literals(literals, a.get()),
        ExprKind::Cond(test, a, b) => {
            put_literals(literals, test.get())?;
            put_literals(literals, a.get())?;
            put_literals(literals, b.get())
        }
        ExprKind::Call(_, all) => put_literals_of_all(literals, all.as_slice()),
        ExprKind::Index(a, i) => {
            put_literals(literals, a.get())?;
            put_literals(literals, i.get())
        }
        ExprKind::Member(a, _) => put_literals(literals, a.get()),
        ExprKind::Arrow(a, _) => put_literals(literals, a.get()),
        ExprKind::Cast(_, _, a) => put_literals(literals, a.get()),
        ExprKind::SizeOfKind(_, _) => Ok(()),
        ExprKind::SizeOfValue(_) => Ok(()),
    }
}

/// The literals of expressions one behind another.
#[cycle(put)]
pub fn put_literals_of_all(literals: &mut Literals, all: &[Expr]) -> Result<(), OutOfMemory>
    ensures { OnOk result (literals.new ≡ with_literals literals.old (joined (map text_sizes all.now))) }
{
    for one in all {
        put_literals(literals, one)?;
    }
    Ok(())
}
