//! Trees that are built, counted and dropped.

use c_tree::{
    Base, Bytes, Decl, Expr, ExprKind, Init, InitKind, Item, ItemKind, Name, Stmt, StmtKind, Tree,
    UnaryOp, nodes,
};
use mx_base::{IntKind, Place};
use sqlite_items::{Boxed, Items};
use std::alloc::{AllocError, Global};
use std::test::Fail;

const HERE: Place = Place {
    file: 0,
    line: 1,
    col: 1,
};

fn expr(kind: ExprKind) -> Expr {
    Expr { place: HERE, kind }
}

fn stmt(kind: StmtKind) -> Stmt {
    Stmt { place: HERE, kind }
}

fn name(alloc: Global) -> Result<Name, AllocError> {
    Ok(Name::from_vec(Vec::from_slice(alloc, b"f")?))
}

fn decl(alloc: Global) -> Result<Decl, AllocError> {
    Ok(Decl {
        place: HERE,
        base: Base::Int(IntKind::I32),
        stars: 0,
        name: name(alloc)?,
        counts: Items::new(alloc),
    })
}

/// A variable with so many operators before it.
fn negated(alloc: Global, times: u32) -> Result<Expr, AllocError> {
    let mut value = expr(ExprKind::Var(name(alloc)?));
    for _ in 0..times {
        value = expr(ExprKind::Unary(UnaryOp::Neg, Boxed::new(alloc, value)?));
    }
    Ok(value)
}

/// An empty statement with so many loops around it.
fn looped(alloc: Global, times: u32) -> Result<Stmt, AllocError> {
    let mut inner = stmt(StmtKind::Value(None));
    for _ in 0..times {
        let test = expr(ExprKind::Text(Bytes::from_vec(Vec::new(alloc))));
        inner = stmt(StmtKind::While(test, Boxed::new(alloc, inner)?));
    }
    Ok(inner)
}

fn fun(decl: Decl, params: Items<Decl>, body: Stmt) -> Item {
    Item {
        place: HERE,
        kind: ItemKind::Fun(decl, params, Some(body)),
    }
}

/// A source of one item.
fn source(alloc: Global, item: Item) -> Result<Tree, AllocError> {
    let mut items = Items::new(alloc);
    items.push(item)?;
    Ok(Tree { items })
}

/// So many statements of 201 nodes.
fn negations(alloc: Global, times: u32) -> Result<Items<Stmt>, AllocError> {
    let mut stmts = Items::new(alloc);
    for _ in 0..times {
        let value = negated(alloc, 199)?;
        stmts.push(stmt(StmtKind::Value(Some(value))))?;
    }
    Ok(stmts)
}

#[test]
fn large_tree_is_counted_and_dropped(rt: HostRuntime) -> Result<(), Fail> {
    let alloc = rt.alloc();
    let mut counted = decl(alloc)?;
    counted.counts.push(negated(alloc, 1)?)?;
    let body = stmt(StmtKind::Block(negations(alloc, 163)?));
    let tree = source(alloc, fun(counted, Items::new(alloc), body))?;
    assert_eq!(rt; nodes(&tree), 32_768);
    Ok(())
}

#[test]
fn deep_tree_is_counted_and_dropped(rt: HostRuntime) -> Result<(), Fail> {
    let alloc = rt.alloc();
    let named = decl(alloc)?;
    let body = looped(alloc, 200)?;
    let tree = source(alloc, fun(named, Items::new(alloc), body))?;
    assert_eq!(rt; nodes(&tree), 403);
    Ok(())
}

#[test]
fn each_node_counts_once(rt: HostRuntime) -> Result<(), Fail> {
    let alloc = rt.alloc();
    let mut counted = decl(alloc)?;
    counted.counts.push(negated(alloc, 1)?)?;
    let mut parts = Items::new(alloc);
    for _ in 0..2 {
        let kind = InitKind::One(negated(alloc, 0)?);
        parts.push(Init { place: HERE, kind })?;
    }
    let init = Init {
        place: HERE,
        kind: InitKind::Many(parts),
    };
    let mut items = Items::new(alloc);
    items.push(Item {
        place: HERE,
        kind: ItemKind::Var(false, counted, Some(init)),
    })?;
    let mut members = Items::new(alloc);
    members.push(decl(alloc)?)?;
    items.push(Item {
        place: HERE,
        kind: ItemKind::Struct(name(alloc)?, members),
    })?;
    assert_eq!(rt; nodes(&Tree { items }), 11);
    Ok(())
}
