//! The shape of trees, and the places of their nodes.

use c_tree::{Expr, ExprKind, InitKind, ItemKind, Tree};
use std::alloc::{AllocError, Global};

/// The expression that initialises the first variable of a tree.
fn value(tree: &Tree) -> Option<&Expr> {
    let first = tree.items.get(0)?;
    match &first.kind {
        ItemKind::Var(_, _, Some(init)) => match &init.kind {
            InitKind::One(value) => Some(value),
            InitKind::Many(_) => None,
        },
        _ => None,
    }
}

/// Of the expression that initialises the first variable its operator and its columns: of a binary one `binary OPERATOR` and the columns of
/// the expression and its operands; of an assignment `assign`, what stands on its left, and the column on its right.
pub fn operands(alloc: Global, tree: &Tree) -> Result<String, AllocError> {
    match value(tree) {
        Some(e) => operands_of(alloc, e),
        None => String::from_str(alloc, "no value"),
    }
}

fn operands_of(alloc: Global, e: &Expr) -> Result<String, AllocError> {
    match &e.kind {
        ExprKind::Binary(op, left, right) => {
            let columns = (e.place.col, left.get().place.col, right.get().place.col);
            format!(in alloc; "binary {op:?} {columns:?}")
        }
        ExprKind::Assign(None, left, right) => {
            let column = right.get().place.col;
            match left.get().kind {
                ExprKind::Cond(_, _, _) => format!(in alloc; "assign cond {column}"),
                _ => format!(in alloc; "assign other {column}"),
            }
        }
        _ => String::from_str(alloc, "another form"),
    }
}

/// The columns of each item and of its name's declaration, where it is a variable that stands elsewhere.
pub fn outside(alloc: Global, tree: &Tree) -> Result<String, AllocError> {
    let mut text = String::new(alloc);
    for item in tree.items.as_slice() {
        match &item.kind {
            ItemKind::Var(true, name, None) => {
                let columns = (item.place.col, name.place.col);
                text.push_str(format!(in alloc; "{columns:?}")?.as_str())?;
            }
            _ => text.push_str("another form")?,
        }
    }
    Ok(text)
}
