//! What the check says of accepted sources: types, sizes, names, variables and functions.
ghost use Rattle.std.specs.Prelude.{IfOk, IfSome, All};
ghost use Rattle.c_types.specs.Types.{IsIn};
ghost use Rattle.c_types.specs.Layouts.{CanStand};
ghost use Rattle.c_tree.specs.Formed.{IsFormed};
ghost use Rattle.c_check.specs.Checked.{global_kinds, local_kinds};
ghost use Rattle.source_rows.specs.Shown.{AreShown};

use c_check::{CheckedBody, GlobalVariable, LocalVariable, check};
use c_check_rules::Bind;
use c_tree::Tree;
use c_types::{Shape, TypeId, TypeTable};
use mx_base::IntKind;
use std::alloc::{AllocError, Global};

fn integer(kind: IntKind) -> &'static str {
    match kind {
        IntKind::I8 => "i8",
        IntKind::U8 => "u8",
        IntKind::I16 => "i16",
        IntKind::U16 => "u16",
        IntKind::I32 => "i32",
        IntKind::U32 => "u32",
        IntKind::I64 => "i64",
        IntKind::U64 => "u64",
    }
}

/// A layer of a type in short, and the type within it, or its core: `*` before what it points to, `[3]` before the elements of an array, `S0` for the
/// first struct.
fn show_layer(
    alloc: Global,
    text: &mut String,
    table: &TypeTable,
    t: TypeId,
) -> Result<Option<TypeId>, AllocError>
    requires { IsIn table.now t }
    ensures { IfOk result (λ inner. IfSome inner (IsIn table.now)) }
{
    match table.shape(t) {
        Shape::Void => {
            text.push_str("void")?;
            Ok(None)
        }
        Shape::Int(kind) => {
            text.push_str(integer(kind))?;
            Ok(None)
        }
        Shape::Struct(number) => {
            let part = format!(in alloc; "S{number}")?;
            text.push_str(part.as_str())?;
            Ok(None)
        }
        Shape::Pointer(target) => {
            text.push_str("*")?;
            Ok(Some(target))
        }
        Shape::Array(element, count) => {
            let part = format!(in alloc; "[{count}]")?;
            text.push_str(part.as_str())?;
            Ok(Some(element))
        }
    }
}

/// A type of at most 8 layers in short.
fn show_type(
    alloc: Global,
    text: &mut String,
    table: &TypeTable,
    t: TypeId,
) -> Result<(), AllocError>
    requires { IsIn table.now t }
{
    let mut at = t;
    'layers: for _ in 0..8 {
        match show_layer(alloc, text, table, at)? {
            Some(inner) => at = inner,
            None => return Ok(()),
        }
    }
    Ok(())
}

fn show_types(
    alloc: Global,
    text: &mut String,
    table: &TypeTable,
    ids: &[TypeId],
) -> Result<(), AllocError>
    requires { All (IsIn table.now) ids.now }
{
    'ids: for id in ids {
        text.push_str(" ")?;
        show_type(alloc, text, table, *id)?;
    }
    text.push_str(";")
}

fn show_binds(alloc: Global, text: &mut String, binds: &[Bind]) -> Result<(), AllocError> {
    'binds: for bind in binds {
        let part = match bind {
            Bind::Global(n) => format!(in alloc; " G{n}")?,
            Bind::Local(n) => format!(in alloc; " L{n}")?,
            Bind::Fun(n) => format!(in alloc; " F{n}")?,
            Bind::Service(service) => format!(in alloc; " {service:?}")?,
            Bind::Builtin(builtin) => format!(in alloc; " {builtin:?}")?,
        };
        text.push_str(part.as_str())?;
    }
    text.push_str(";")
}

/// A global with its size and its alignment, and an `x` if it isn't defined.
fn show_global(
    alloc: Global,
    text: &mut String,
    table: &TypeTable,
    global: GlobalVariable,
) -> Result<(), AllocError>
    requires { CanStand table.now global.kind }
{
    text.push_str(" ")?;
    show_type(alloc, text, table, global.kind)?;
    let size = table.size(global.kind);
    let align = table.align(global.kind);
    let mark = if global.defined { "" } else { "x" };
    let part = format!(in alloc; "/{size}/{align}{mark}")?;
    text.push_str(part.as_str())
}

fn show_globals(
    alloc: Global,
    text: &mut String,
    table: &TypeTable,
    globals: &[GlobalVariable],
) -> Result<(), AllocError>
    requires { All (CanStand table.now) (global_kinds globals.now) }
{
    'globals: for global in globals {
        show_global(alloc, text, table, *global)?;
    }
    text.push_str(";")
}

/// Each parameter and local, and a `&` if it is applied to it.
fn show_locals(
    alloc: Global,
    text: &mut String,
    table: &TypeTable,
    locals: &[LocalVariable],
) -> Result<(), AllocError>
    requires { All (CanStand table.now) (local_kinds locals.now) }
{
    'locals: for local in locals {
        text.push_str(" ")?;
        show_type(alloc, text, table, local.kind)?;
        let mark = if local.taken { "&" } else { "" };
        text.push_str(mark)?;
    }
    Ok(())
}

fn show_bodies(
    alloc: Global,
    text: &mut String,
    table: &TypeTable,
    bodies: &[CheckedBody],
) -> Result<(), AllocError>
    requires { AreShown table.now bodies.now }
{
    'bodies: for body in bodies {
        let number = body.number;
        let part = format!(in alloc; " {number}(")?;
        text.push_str(part.as_str())?;
        show_locals(alloc, text, table, body.variables.as_slice())?;
        text.push_str(" )")?;
    }
    Ok(())
}

/// Of an accepted tree the types of expressions, the meanings of names, the types of declarations, the globals and the bodies.
pub fn said(alloc: Global, tree: &Tree) -> Result<String, AllocError>
    requires { IsFormed tree.now }
{
    let checked = match check(alloc, tree, 32_768) {
        Ok(checked) => checked,
        Err(fault) => return format!(in alloc; "{fault}"),
    };
    let table = &checked.types;
    let mut text = String::from_str(alloc, "types")?;
    show_types(alloc, &mut text, table, checked.kinds.as_slice())?;
    text.push_str(" names")?;
    show_binds(alloc, &mut text, checked.binds.as_slice())?;
    text.push_str(" declared")?;
    show_types(alloc, &mut text, table, checked.declared.as_slice())?;
    text.push_str(" globals")?;
    show_globals(alloc, &mut text, table, checked.variables.as_slice())?;
    text.push_str(" bodies")?;
    show_bodies(alloc, &mut text, table, checked.bodies.as_slice())?;
    Ok(text)
}
