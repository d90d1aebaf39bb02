//! How many values wait at most at one place of a body.

ghost use Rattle.std.specs.Prelude.{◌≡◌, ◌+◌, ◌-◌, ◌^◌, min, max, map, option_map};
ghost use Rattle.c_tree.specs.Operators as operators;
ghost use Rattle.c_check_statements.specs.Waits.{most, any, waits_from, waits, maybe_waits, waits_init, maybe_waits_init, waits_stmt};

use c_tree::{BinaryOp, Decl, Expr, ExprKind, Init, InitKind, Stmt, StmtKind};
use sqlite_items::Boxed;

/// The count of an operator's operands, of which the right one is evaluated while the left one waits.
fn behind(a: u32, b: u32) -> u32
    ensures { result ≡ min (max a (b + 1)) (2 ^ 32 - 1) }
{
    a.max(b.saturating_add(1))
}

/// Whether an operator may leave its right operand out: `&&` and `||`.
fn is_logical(op: BinaryOp) -> bool
    ensures { result ≡ operators.is_logical op }
{
    match op {
        BinaryOp::Logical(_) => true,
        BinaryOp::Arithmetic(_) | BinaryOp::Comparison(_) => false,
    }
}

#[cycle(exprs)]
fn of_expr(expr: &Expr) -> u32
    ensures { result ≡ min (waits expr.now) (2 ^ 32 - 1) }
{
    match &expr.kind {
        ExprKind::Number(_, _) => 0,
        ExprKind::Text(_) => 0,
        ExprKind::Var(_) => 0,
        ExprKind::Unary(_, a) => of_expr(a.get()),
        ExprKind::Binary(op, a, b) => {
            if is_logical(*op) {
                of_expr(a.get()).max(of_expr(b.get()))
            } else {
                behind(of_expr(a.get()), of_expr(b.get()))
            }
        }
        ExprKind::Assign(_, a, b) => behind(of_expr(a.get()), of_expr(b.get())),
        ExprKind::StepBy(_, _, a) => of_expr(a.get()),
        ExprKind::Cond(c, a, b) => of_expr(c.get()).max(of_expr(a.get()).max(of_expr(b.get()))),
        ExprKind::Call(_, args) => of_args(args.as_slice()),
        ExprKind::Index(a, i) => behind(of_expr(a.get()), of_expr(i.get())),
        ExprKind::Member(a, _) => of_expr(a.get()),
        ExprKind::Arrow(a, _) => of_expr(a.get()),
        ExprKind::Cast(_, _, a) => of_expr(a.get()),
        ExprKind::SizeOfKind(_, _) => 0,
        ExprKind::SizeOfValue(a) => of_expr(a.get()),
    }
}

/// Arguments, each of which waits while the later ones are evaluated.
#[cycle(exprs)]
fn of_args(args: &[Expr]) -> u32
    ensures { result ≡ min (waits_from 0 (map waits args.now)) (2 ^ 32 - 1) }
{
    let mut count = 0u32;
    let mut waiting = 0u32;
    'each: for arg in args {
        count = count.max(of_expr(arg).saturating_add(waiting));
        waiting = waiting.saturating_add(1);
    }
    count
}

fn of_exprs(exprs: &[Expr]) -> u32
    ensures { result ≡ min (most (map waits exprs.now)) (2 ^ 32 - 1) }
{
    let mut count = 0u32;
    'each: for expr in exprs {
        count = count.max(of_expr(expr));
    }
    count
}

fn of_maybe_expr(expr: &Option<Expr>) -> u32
    ensures { result ≡ min (maybe_waits expr.now) (2 ^ 32 - 1) }
{
    match expr {
        Some(expr) => of_expr(expr),
        None => 0,
    }
}

#[cycle(inits)]
fn of_init(init: &Init) -> u32
    ensures { result ≡ min (waits_init init.now) (2 ^ 32 - 1) }
{
    match &init.kind {
        InitKind::One(value) => of_expr(value),
        InitKind::Many(parts) => of_inits(parts.as_slice()),
    }
}

#[cycle(inits)]
fn of_inits(inits: &[Init]) -> u32
    ensures { result ≡ min (most (map waits_init inits.now)) (2 ^ 32 - 1) }
{
    let mut count = 0u32;
    'each: for init in inits {
        count = count.max(of_init(init));
    }
    count
}

fn of_local(decl: &Decl, init: &Option<Init>) -> u32
    ensures { result ≡ min (max (most (map waits decl.now.counts)) (maybe_waits_init init.now)) (2 ^ 32 - 1) }
{
    let counts = of_exprs(decl.counts.as_slice());
    match init {
        Some(init) => counts.max(of_init(init)),
        None => counts,
    }
}

/// How many values wait at most at one place of a statement, or 2^32 - 1 where there are more.
#[cycle(stmts)]
pub fn of_stmt(stmt: &Stmt) -> u32
    ensures { result ≡ min (waits_stmt stmt.now) (2 ^ 32 - 1) }
{
    match &stmt.kind {
        StmtKind::Value(value) => of_maybe_expr(value),
        StmtKind::Local(decl, init) => of_local(decl, init),
        StmtKind::If(test, then, other) => {
            of_expr(test).max(of_stmt(then.get()).max(of_branch(other)))
        }
        StmtKind::While(test, body) => of_expr(test).max(of_stmt(body.get())),
        StmtKind::DoWhile(body, test) => of_stmt(body.get()).max(of_expr(test)),
        StmtKind::For(first, test, next, body) => of_maybe_expr(first).max(of_maybe_expr(test).max(
            of_maybe_expr(next).max(of_stmt(body.get())),
        )),
        StmtKind::Break => 0,
        StmtKind::Continue => 0,
        StmtKind::Return(value) => of_maybe_expr(value),
        StmtKind::Block(stmts) => of_stmts(stmts.as_slice()),
    }
}

#[cycle(stmts)]
fn of_branch(branch: &Option<Boxed<Stmt>>) -> u32
    ensures { result ≡ min (any (option_map waits_stmt branch.now)) (2 ^ 32 - 1) }
{
    match branch {
        Some(branch) => of_stmt(branch.get()),
        None => 0,
    }
}

#[cycle(stmts)]
fn of_stmts(stmts: &[Stmt]) -> u32
    ensures { result ≡ min (most (map waits_stmt stmts.now)) (2 ^ 32 - 1) }
{
    let mut count = 0u32;
    'each: for stmt in stmts {
        count = count.max(of_stmt(stmt));
    }
    count
}
