//! A checked and planned source, and what is known at a place of it.

ghost use Rattle.std.specs.Prelude.{◌≡◌, map};
ghost use Rattle.c_types.specs.Types.{type_at, built};
ghost use Rattle.bounds_plan.specs.elaboration.Functions.{in_body};
ghost use Rattle.c_accepted.specs.Planned.{stand_of};
ghost use Rattle.steps_structs.specs.Structs.{AreKnown, structs_known};
ghost use Rattle.steps_known.specs.Functions.{AreSorted};
ghost use Rattle.steps_known.specs.Known.{around_of};
ghost use Rattle.steps_known.specs.Standings.{standings_from};
ghost use Rattle.steps_source.specs.Around.{IsPlanned, around_in};

use crate::symbols::SymbolNumbers;
use c_check::Checked;
use c_tree::Tree;
use c_types::{Shape, TypeId};
use mx_base::Flags;
use place_plan::{Plan, Spot};
use steps_facts::Standing;
use steps_known::{Known, KnownFunction};
use steps_structs::KnownStruct;

/// A checked and planned source: its tree, what is said of it, its plan, the numbers of its symbols, where each literal stands behind
/// their symbol, in bytes, and the flags by which bounds are narrowed.
#[derive(Clone, Copy)]
pub struct PlannedSource<'a> {
    pub tree: &'a Tree,
    pub checked: &'a Checked,
    pub plan: &'a Plan,
    pub symbols: &'a SymbolNumbers,
    pub literals: &'a [u32],
    pub flags: Flags,
}

/// The variables of a function: the types of its parameters and locals, where they stand, also by private values, and the type of what
/// it gives.
#[derive(Clone, Copy)]
pub struct FunctionVariables<'a> {
    pub types: &'a [TypeId],
    pub spots: &'a [Spot],
    pub standings: &'a [Standing],
    pub result: Shape,
}

/// What is known at a function with these variables, where these structs and functions are declared.
pub fn known_at<'a>(
    source: &PlannedSource<'a>,
    structs: &'a [KnownStruct],
    functions: &'a [KnownFunction],
    variables: &FunctionVariables<'a>,
) -> Known<'a>
    requires planned { IsPlanned source.now.tree.now source.now.checked.now source.now.plan.now source.now.symbols.now }
    requires structs { AreKnown source.now.checked.now.types structs.now }
    requires functions { AreSorted source.now.checked.now.types functions.now }
    requires standings { variables.now.standings.now ≡ standings_from (structs_known source.now.checked.now.types structs.now) 0 (map (type_at source.now.checked.now.types) variables.now.types.now) (map stand_of variables.now.spots.now) }
    ensures table { result.table ≡ source.now.checked.now.types }
    ensures around { around_of result ≡ in_body (map (type_at source.now.checked.now.types) variables.now.types.now) (map stand_of variables.now.spots.now) (built (type_at source.now.checked.now.types) variables.now.result) (around_in source.now.tree.now source.now.checked.now.types source.now.literals.now source.now.flags structs.now functions.now) }
{
    let checked = source.checked;
    let plan = source.plan;
    let symbols = source.symbols;
    Known {
        types: &checked.types,
        kinds: checked.kinds.as_slice(),
        binds: checked.binds.as_slice(),
        declared: checked.declared.as_slice(),
        structs,
        functions,
        globals: symbols.globals.as_slice(),
        symbols: symbols.functions.as_slice(),
        texts: symbols.texts,
        literals: source.literals,
        frames: plan.frames.as_slice(),
        flags: source.flags,
        variables: variables.types,
        spots: variables.spots,
        result: variables.result,
        standings: variables.standings,
    }
}
