//! The walk over statements, past their text literals.

ghost use Rattle.std.specs.Prelude.{◌≡◌, map, OnOk, IfOk};
ghost use Rattle.bounds_plan.specs.elaboration.Expressions.{expression};
ghost use Rattle.bounds_plan.specs.elaboration.Initialisers.{initialiser};
ghost use Rattle.bounds_plan.specs.elaboration.Statements.{maybe, done_by, declared, all_stated, past_counts as counts_passed};
ghost use Rattle.c_accepted.specs.Literals.{text_sizes};
ghost use Rattle.c_accepted.specs.SourceLiterals.{maybe_sizes, counts_sizes, decls_sizes, all_sizes, listed};
ghost use Rattle.steps_facts.specs.Seen.{reached_of};
ghost use Rattle.c_literals.specs.Laid.{with_literals, variable_sizes, statings};

use crate::inits::put_literals_of_init;
use crate::literals::{Literals, put_literals, put_literals_of_all};
use c_look::look;
use c_look_declarations::{past_counts, past_init};
use c_tree::{Decl, Expr, Init, Stmt, StmtKind};
use mx_base::OutOfMemory;
use std::alloc::Global;
use steps_facts::{Knows, Reached};

/// The literals of an expression, and how far it goes.
fn put_literals_on<K: Knows>(
    known: &K,
    literals: &mut Literals,
    e: &Expr,
    r: Reached,
) -> Result<Reached, OutOfMemory>
    ensures put { OnOk result (literals.new ≡ with_literals literals.old (text_sizes e.now)) }
    ensures after { IfOk result (λ q. reached_of q ≡ (expression e.now (K.around known.now) (reached_of r)).after) }
{
    put_literals(literals, e)?;
    let x = look(known, e, r)?;
    Ok(x.after)
}

/// The literals of an expression that may be missing, and how far it goes.
fn put_literals_of_value<K: Knows>(
    known: &K,
    literals: &mut Literals,
    value: &Option<Expr>,
    r: Reached,
) -> Result<Reached, OutOfMemory>
    ensures put { OnOk result (literals.new ≡ with_literals literals.old (maybe_sizes value.now)) }
    ensures after { IfOk result (λ q. reached_of q ≡ (done_by (maybe expression value.now) (K.around known.now) (reached_of r)).after) }
{
    match value {
        None => Ok(r),
        Some(e) => put_literals_on(known, literals, e, r),
    }
}

/// The literals of the counts of a declaration.
fn put_literals_of_counts(literals: &mut Literals, d: &Decl) -> Result<(), OutOfMemory>
    ensures { OnOk result (literals.new ≡ with_literals literals.old (counts_sizes d.now.counts)) }
{
    put_literals_of_all(literals, d.counts.as_slice())
}

/// The literals of the counts of declarations one behind another.
pub fn put_literals_of_declarations(
    literals: &mut Literals,
    all: &[Decl],
) -> Result<(), OutOfMemory>
    ensures { OnOk result (literals.new ≡ with_literals literals.old (decls_sizes all.now)) }
{
    for d in all {
        put_literals_of_counts(literals, d)?;
    }
    Ok(())
}

/// The literals of a variable that is declared from `r` on: those of its counts, and then those of its initialiser. How far it goes.
pub fn put_literals_of_variable<K: Knows>(
    alloc: Global,
    known: &K,
    literals: &mut Literals,
    d: &Decl,
    init: &Option<Init>,
    r: Reached,
) -> Result<Reached, OutOfMemory>
    ensures put { OnOk result (literals.new ≡ with_literals literals.old (variable_sizes d.now init.now (K.around known.now) (reached_of r))) }
    ensures after { IfOk result (λ q. reached_of q ≡ (declared (maybe (initialiser expression) init.now) (K.around known.now) (counts_passed
        expression d.now (K.around known.now) (reached_of r))).after) }
{
    put_literals_of_counts(literals, d)?;
    let here = past_counts(known, d, r)?;
    let declared = known.declared_here(here)?;
    match init {
        None => Ok(declared.after),
        Some(x) => {
            put_literals_of_init(alloc, known, literals, x, declared.kind)?;
            past_init(alloc, known, x, declared.kind, declared.after)
        }
    }
}

/// The literals of a statement that stands from `r` on, in tree order, and how far it goes.
#[cycle(statements)]
pub fn put_literals_of_statement<K: Knows>(
    alloc: Global,
    known: &K,
    literals: &mut Literals,
    s: &Stmt,
    r: Reached,
) -> Result<Reached, OutOfMemory>
    ensures put { OnOk result (literals.new ≡ with_literals literals.old ((listed s.now).0 (K.around known.now) (reached_of r))) }
    ensures after { IfOk result (λ q. reached_of q ≡ ((listed s.now).1 (K.around known.now) (reached_of r)).after) }
{
    match &s.kind {
        StmtKind::Value(value) => put_literals_of_value(known, literals, value, r),
        StmtKind::Local(d, init) => put_literals_of_variable(alloc, known, literals, d, init, r),
        StmtKind::If(test, a, other) => {
            let one = a.get();
            let x = put_literals_on(known, literals, test, r)?;
            let y = put_literals_of_statement(alloc, known, literals, one, x)?;
            match other {
                None => Ok(y),
                Some(b) => {
                    let second = b.get();
                    put_literals_of_statement(alloc, known, literals, second, y)
                }
            }
        }
        StmtKind::While(test, body) => {
            let inner = body.get();
            let x = put_literals_on(known, literals, test, r)?;
            put_literals_of_statement(alloc, known, literals, inner, x)
        }
        StmtKind::DoWhile(body, test) => {
            let turned = body.get();
            let y = put_literals_of_statement(alloc, known, literals, turned, r)?;
            put_literals_on(known, literals, test, y)
        }
        StmtKind::For(first, test, next, body) => {
            let looped = body.get();
            let f = put_literals_of_value(known, literals, first, r)?;
            let t = put_literals_of_value(known, literals, test, f)?;
            let n = put_literals_of_value(known, literals, next, t)?;
            put_literals_of_statement(alloc, known, literals, looped, n)
        }
        StmtKind::Break => Ok(r),
        StmtKind::Continue => Ok(r),
        StmtKind::Return(given) => put_literals_of_value(known, literals, given, r),
        StmtKind::Block(list) => {
            let all = list.as_slice();
            put_literals_of_block(alloc, known, literals, all, r)
        }
    }
}

/// The literals of statements one after another.
#[cycle(statements)]
fn put_literals_of_block<K: Knows>(
    alloc: Global,
    known: &K,
    literals: &mut Literals,
    all: &[Stmt],
    r: Reached,
) -> Result<Reached, OutOfMemory>
    ensures put { OnOk result (literals.new ≡ with_literals literals.old (all_sizes (map listed all.now) (K.around known.now) (reached_of r))) }
    ensures after { IfOk result (λ q. reached_of q ≡ (all_stated (statings all.now) (K.around known.now) (reached_of r)).after) }
{
    let mut at = r;
    for s in all {
        at = put_literals_of_statement(alloc, known, literals, s, at)?;
    }
    Ok(at)
}
