//! Declarations in a body.

ghost use Rattle.std.specs.Prelude.{◌≡◌, OnOk, IfOk};
ghost use Rattle.bounds_plan.specs.elaboration.Source.{local_number};
ghost use Rattle.bounds_plan.specs.elaboration.Expressions.{expression};
ghost use Rattle.bounds_plan.specs.elaboration.Initialisers.{initialiser};
ghost use Rattle.bounds_plan.specs.elaboration.Statements.{maybe, declared, past_counts, local_of};
ghost use Rattle.steps_facts.specs.Seen.{reached_of};
ghost use Rattle.steps_facts.specs.Around.{standing_at};
ghost use Rattle.steps_pieces.specs.Put.{put_of};
ghost use Rattle.c_emit_statements.specs.Bodies.{went_declared};

use c_check_rules::Bind;
use c_emit_initialisers::fill;
use c_look::look_all;
use c_tree::{Decl, Init};
use mx_base::OutOfMemory;
use sqlite_items::Items;
use std::alloc::Global;
use steps_facts::{Knows, Reached, Standing};
use steps_pieces::Emitter;

/// Where what a name means stands as a local.
fn local_at<K: Knows>(known: &K, bind: Bind) -> Standing
    ensures { standing_at result ≡ local_of (K.around known.now) (local_number bind) }
{
    match bind {
        Bind::Local(number) => known.variable(number),
        Bind::Global(_) => Standing::Nowhere,
        Bind::Fun(_) => Standing::Nowhere,
        Bind::Service(_) => Standing::Nowhere,
        Bind::Builtin(_) => Standing::Nowhere,
    }
}

/// A local that is declared from `r` on, and how far the tree is gone through after it: with an initialiser, it is filled.
pub fn emit_local<K: Knows>(
    out: &mut Emitter,
    known: &K,
    decl: &Decl,
    init: &Option<Init>,
    r: Reached,
    d: u32,
) -> Result<Reached, OutOfMemory>
    ensures put { OnOk result (put_of out.new ≡ went_declared (declared (maybe (initialiser expression) init.now) (K.around known.now)
        (past_counts expression decl.now (K.around known.now) (reached_of r))).statement d (put_of out.old)) }
    ensures after { IfOk result (λ q. reached_of q ≡ (declared (maybe (initialiser expression) init.now) (K.around known.now)
        (past_counts expression decl.now (K.around known.now) (reached_of r))).after) }
{
    let counts = decl.counts.as_slice();
    let at = look_all(known, counts, r)?;
    let here = known.declared_here(at)?;
    match init {
        None => Ok(here.after),
        Some(x) => {
            let meant = known.bind_here(at)?;
            let place = local_at(known, meant.bind);
            fill(out, known, x, here.kind, place, 0, here.after, d)
        }
    }
}

/// How far a declaration goes: its steps are put aside, and let go.
pub fn past_local<K: Knows>(
    alloc: Global,
    known: &K,
    decl: &Decl,
    init: &Option<Init>,
    r: Reached,
) -> Result<Reached, OutOfMemory>
    ensures { IfOk result (λ q. reached_of q ≡ (declared (maybe (initialiser expression) init.now) (K.around known.now) (past_counts
        expression decl.now (K.around known.now) (reached_of r))).after) }
{
    let steps = Items::new(alloc);
    let mut aside = Emitter {
        alloc,
        steps,
        label: 0,
    };
    emit_local(&mut aside, known, decl, init, r, 0)
}
