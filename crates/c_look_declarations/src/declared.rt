//! The types of declarations that stand one behind another.

ghost use Rattle.std.specs.Prelude.{◌≡◌, IfOk, All, map};
ghost use Rattle.c_types.specs.Types.{type_at, IsIn};
ghost use Rattle.bounds_plan.specs.elaboration.Source.{past_declaration, past_member};
ghost use Rattle.bounds_plan.specs.elaboration.Expressions.{expression};
ghost use Rattle.bounds_plan.specs.elaboration.Functions.{declared_all};
ghost use Rattle.steps_facts.specs.Seen.{reached_of};
ghost use Rattle.c_look_declarations.specs.Past.{past_by};

use crate::pasts::past_counts;
use c_tree::Decl;
use c_types::TypeId;
use mx_base::OutOfMemory;
use sqlite_items::Items;
use std::alloc::Global;
use steps_facts::{Knows, Reached};

/// The types of declarations one behind another, and how far these go.
#[derive(Drop)]
pub struct DeclaredTypes {
    pub types: Items<TypeId>,
    pub after: Reached,
}

/// Past a declaration whose counts go up to `here`, where the next name stands behind `after` if the declaration is that of a variable.
fn past_one_declared(variable: bool, here: Reached, after: Reached) -> Reached
    requires { reached_of after ≡ past_declaration (reached_of here) }
    ensures { reached_of result ≡ past_by variable (reached_of here) }
{
    if variable {
        after
    } else {
        Reached {
            name: here.name,
            ..after
        }
    }
}

/// The types of declarations of variables, or else of members, that stand from `r` on.
fn declared_types<K: Knows>(
    alloc: Global,
    known: &K,
    all: &[Decl],
    variables: bool,
    r: Reached,
) -> Result<DeclaredTypes, OutOfMemory>
    ensures types { IfOk result (λ d. map (type_at (K.table known.now)) d.types ≡ (declared_all expression (past_by variables) all.now (K.around known.now) (reached_of r)).types) }
    ensures known { IfOk result (λ d. All (IsIn (K.table known.now)) d.types) }
    ensures after { IfOk result (λ d. reached_of d.after ≡ (declared_all expression (past_by variables) all.now (K.around known.now) (reached_of r)).after) }
{
    let mut types = Items::new(alloc);
    let mut after = r;
    for d in all {
        let here = past_counts(known, d, after)?;
        let declared = known.declared_here(here)?;
        types.push(declared.kind)?;
        after = past_one_declared(variables, here, declared.after);
    }
    Ok(DeclaredTypes { types, after })
}

/// The types of the parameters of a function, which stand from `r` on.
pub fn parameters_declared<K: Knows>(
    alloc: Global,
    known: &K,
    all: &[Decl],
    r: Reached,
) -> Result<DeclaredTypes, OutOfMemory>
    ensures types { IfOk result (λ d. map (type_at (K.table known.now)) d.types ≡ (declared_all expression past_declaration all.now (K.around known.now) (reached_of r)).types) }
    ensures known { IfOk result (λ d. All (IsIn (K.table known.now)) d.types) }
    ensures after { IfOk result (λ d. reached_of d.after ≡ (declared_all expression past_declaration all.now (K.around known.now) (reached_of r)).after) }
{
    declared_types(alloc, known, all, true, r)
}

/// The types of the members of a struct, which stand from `r` on.
pub fn members_declared<K: Knows>(
    alloc: Global,
    known: &K,
    all: &[Decl],
    r: Reached,
) -> Result<DeclaredTypes, OutOfMemory>
    ensures types { IfOk result (λ d. map (type_at (K.table known.now)) d.types ≡ (declared_all expression past_member all.now (K.around known.now) (reached_of r)).types) }
    ensures known { IfOk result (λ d. All (IsIn (K.table known.now)) d.types) }
    ensures after { IfOk result (λ d. reached_of d.after ≡ (declared_all expression past_member all.now (K.around known.now) (reached_of r)).after) }
{
    declared_types(alloc, known, all, false, r)
}
