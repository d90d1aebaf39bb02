//! The count of nodes.

ghost use Rattle.std.specs.Prelude.{◌≡◌, ◌+◌, ◌^◌, ◌-◌, min, map, option_map};
ghost use Rattle.c_tree.specs.Count.{total, any, expr_nodes, maybe_expr, decl_nodes, init_nodes, maybe_init, stmt_nodes, maybe_stmt, item_nodes, tree_nodes};

use crate::tree::{Decl, Expr, ExprKind, Init, InitKind, Item, ItemKind, Stmt, StmtKind, Tree};
use sqlite_items::Boxed;

/// How many nodes a tree has, or 2^32 - 1 where there are more.
pub fn nodes(tree: &Tree) -> u32
    ensures { result ≡ min (tree_nodes tree.now) (2 ^ 32 - 1) }
{
    let mut count = 0u32;
    for item in tree.items.as_slice() {
        count = count.saturating_add(of_item(item));
    }
    count
}

fn of_item(item: &Item) -> u32
    ensures { result ≡ min (item_nodes item.now) (2 ^ 32 - 1) }
{
    match &item.kind {
        ItemKind::Struct(_, members) => of_decls(members.as_slice()).saturating_add(1),
        ItemKind::Var(_, decl, init) => of_decl(decl)
            .saturating_add(of_maybe_init(init))
            .saturating_add(1),
        ItemKind::Fun(decl, params, body) => of_decl(decl)
            .saturating_add(of_decls(params.as_slice()))
            .saturating_add(of_maybe_stmt(body))
            .saturating_add(1),
    }
}

fn of_decl(decl: &Decl) -> u32
    ensures { result ≡ min (decl_nodes decl.now) (2 ^ 32 - 1) }
{
    of_exprs(decl.counts.as_slice()).saturating_add(1)
}

fn of_decls(decls: &[Decl]) -> u32
    ensures { result ≡ min (total (map decl_nodes decls.now)) (2 ^ 32 - 1) }
{
    let mut count = 0u32;
    for decl in decls {
        count = count.saturating_add(of_decl(decl));
    }
    count
}

fn of_maybe_init(init: &Option<Init>) -> u32
    ensures { result ≡ min (maybe_init init.now) (2 ^ 32 - 1) }
{
    match init {
        Some(init) => of_init(init),
        None => 0,
    }
}

fn of_maybe_expr(value: &Option<Expr>) -> u32
    ensures { result ≡ min (maybe_expr value.now) (2 ^ 32 - 1) }
{
    match value {
        Some(value) => of_expr(value),
        None => 0,
    }
}

fn of_maybe_stmt(body: &Option<Stmt>) -> u32
    ensures { result ≡ min (maybe_stmt body.now) (2 ^ 32 - 1) }
{
    match body {
        Some(body) => of_stmt(body),
        None => 0,
    }
}

#[cycle(inits)]
fn of_init(init: &Init) -> u32
    ensures { result ≡ min (init_nodes init.now) (2 ^ 32 - 1) }
{
    match &init.kind {
        InitKind::One(value) => of_expr(value).saturating_add(1),
        InitKind::Many(parts) => of_inits(parts.as_slice()).saturating_add(1),
    }
}

#[cycle(inits)]
fn of_inits(inits: &[Init]) -> u32
    ensures { result ≡ min (total (map init_nodes inits.now)) (2 ^ 32 - 1) }
{
    let mut count = 0u32;
    for init in inits {
        count = count.saturating_add(of_init(init));
    }
    count
}

#[cycle(stmts)]
fn of_stmt(stmt: &Stmt) -> u32
    ensures { result ≡ min (stmt_nodes stmt.now) (2 ^ 32 - 1) }
{
    match &stmt.kind {
        StmtKind::Value(value) => of_maybe_expr(value).saturating_add(1),
        StmtKind::Local(decl, init) => of_decl(decl)
            .saturating_add(of_maybe_init(init))
            .saturating_add(1),
        StmtKind::If(test, then, other) => of_expr(test)
            .saturating_add(of_stmt(then.get()))
            .saturating_add(of_branch(other))
            .saturating_add(1),
        StmtKind::While(test, body) => of_expr(test)
            .saturating_add(of_stmt(body.get()))
            .saturating_add(1),
        StmtKind::DoWhile(body, test) => of_stmt(body.get())
            .saturating_add(of_expr(test))
            .saturating_add(1),
        StmtKind::For(first, test, next, body) => of_maybe_expr(first)
            .saturating_add(of_maybe_expr(test))
            .saturating_add(of_maybe_expr(next))
            .saturating_add(of_stmt(body.get()))
            .saturating_add(1),
        StmtKind::Break => 1,
        StmtKind::Continue => 1,
        StmtKind::Return(value) => of_maybe_expr(value).saturating_add(1),
        StmtKind::Block(stmts) => of_stmts(stmts.as_slice()).saturating_add(1),
    }
}

#[cycle(stmts)]
fn of_branch(branch: &Option<Boxed<Stmt>>) -> u32
    ensures { result ≡ min (any (option_map stmt_nodes branch.now)) (2 ^ 32 - 1) }
{
    match branch {
        Some(branch) => of_stmt(branch.get()),
        None => 0,
    }
}

#[cycle(stmts)]
fn of_stmts(stmts: &[Stmt]) -> u32
    ensures { result ≡ min (total (map stmt_nodes stmts.now)) (2 ^ 32 - 1) }
{
    let mut count = 0u32;
    for stmt in stmts {
        count = count.saturating_add(of_stmt(stmt));
    }
    count
}

/// The count of a node, by those of the two below it.
fn above(a: u32, b: u32) -> u32
    ensures { result ≡ min (a + b + 1) (2 ^ 32 - 1) }
{
    a.saturating_add(b).saturating_add(1)
}

#[cycle(exprs)]
fn of_expr(expr: &Expr) -> u32
    ensures { result ≡ min (expr_nodes expr.now) (2 ^ 32 - 1) }
{
    match &expr.kind {
        ExprKind::Number(_, _) => 1,
        ExprKind::Text(_) => 1,
        ExprKind::Var(_) => 1,
        ExprKind::Unary(_, a) => of_expr(a.get()).saturating_add(1),
        ExprKind::Binary(_, a, b) => above(of_expr(a.get()), of_expr(b.get())),
        ExprKind::Assign(_, a, b) => above(of_expr(a.get()), of_expr(b.get())),
        ExprKind::StepBy(_, _, a) => of_expr(a.get()).saturating_add(1),
        ExprKind::Cond(a, b, c) => above(of_expr(a.get()), of_expr(b.get())).saturating_add(of_expr(
            c.get(),
        )),
        ExprKind::Call(_, args) => of_exprs(args.as_slice()).saturating_add(1),
        ExprKind::Index(a, b) => above(of_expr(a.get()), of_expr(b.get())),
        ExprKind::Member(a, _) => of_expr(a.get()).saturating_add(1),
        ExprKind::Arrow(a, _) => of_expr(a.get()).saturating_add(1),
        ExprKind::Cast(_, _, a) => of_expr(a.get()).saturating_add(1),
        ExprKind::SizeOfKind(_, _) => 1,
        ExprKind::SizeOfValue(a) => of_expr(a.get()).saturating_add(1),
    }
}

#[cycle(exprs)]
fn of_exprs(exprs: &[Expr]) -> u32
    ensures { result ≡ min (total (map expr_nodes exprs.now)) (2 ^ 32 - 1) }
{
    let mut count = 0u32;
    for expr in exprs {
        count = count.saturating_add(of_expr(expr));
    }
    count
}
