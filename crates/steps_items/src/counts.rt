//! How many variables a body declares.

ghost use Rattle.std.specs.Prelude.{◌≡◌, ◌+◌, map, option_map, IfOk};
ghost use Rattle.bounds_plan.specs.elaboration.Statements as spec;

use c_tree::{Stmt, StmtKind};
use mx_base::OutOfMemory;
use sqlite_items::Boxed;

fn plus(n: u32, more: u32) -> Result<u32, OutOfMemory>
    ensures { IfOk result (λ all. all ≡ n + more) }
{
    match n.checked_add(more) {
        Some(all) => Ok(all),
        None => Err(OutOfMemory),
    }
}

/// How many variables a statement declares.
#[cycle(declares)]
pub fn declarations(s: &Stmt) -> Result<u32, OutOfMemory>
    ensures { IfOk result (λ n. n ≡ spec.declarations s.now) }
{
    match &s.kind {
        StmtKind::Local(_, _) => Ok(1),
        StmtKind::If(_, then, other) => {
            let first = declarations(then.get())?;
            let second = of_branch(other)?;
            plus(first, second)
        }
        StmtKind::While(_, body) => declarations(body.get()),
        StmtKind::DoWhile(body, _) => declarations(body.get()),
        StmtKind::For(_, _, _, body) => declarations(body.get()),
        StmtKind::Block(all) => of_all(all.as_slice()),
        StmtKind::Value(_) => Ok(0),
        StmtKind::Break => Ok(0),
        StmtKind::Continue => Ok(0),
        StmtKind::Return(_) => Ok(0),
    }
}

#[cycle(declares)]
fn of_branch(branch: &Option<Boxed<Stmt>>) -> Result<u32, OutOfMemory>
    ensures { IfOk result (λ n. n ≡ spec.any (option_map spec.declarations branch.now)) }
{
    match branch {
        Some(branch) => declarations(branch.get()),
        None => Ok(0),
    }
}

#[cycle(declares)]
fn of_all(all: &[Stmt]) -> Result<u32, OutOfMemory>
    ensures { IfOk result (λ n. n ≡ spec.total (map spec.declarations all.now)) }
{
    let mut count = 0u32;
    for one in all {
        let more = declarations(one)?;
        count = plus(count, more)?;
    }
    Ok(count)
}
