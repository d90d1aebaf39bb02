//! The values that a step names.

ghost use Rattle.std.specs.Prelude.{◌≡◌, ◌++◌};
ghost use Rattle.fat_ir.specs.Named.{maybe};
ghost use Rattle.reg_assign.specs.Lives.{plain_named};

use fat_ir::FatStep;

/// Up to three values, those that are read first.
pub(crate) type Names = (Option<u32>, Option<u32>, Option<u32>);

/// The values that a step names which is no call: none, for a call.
pub(crate) fn names_of(step: &FatStep) -> Names
    ensures { maybe result.0 ++ (maybe result.1 ++ maybe result.2) ≡ plain_named step.now }
{
    match step {
        FatStep::Const { to, .. } => (Some(*to), None, None),
        FatStep::Copy { to, from } => (Some(*from), Some(*to), None),
        FatStep::Arith { to, a, b, .. } => (Some(*a), Some(*b), Some(*to)),
        FatStep::Compare { to, a, b, .. } => (Some(*a), Some(*b), Some(*to)),
        FatStep::Extend { to, from, .. } => (Some(*from), Some(*to), None),
        FatStep::Place { to, bounds, .. } => (Some(*to), Some(*bounds), None),
        FatStep::Make { to, p, n } => (Some(*p), Some(*n), Some(*to)),
        FatStep::Meet { to, a, b } => (Some(*a), Some(*b), Some(*to)),
        FatStep::Bound { to, from, .. } => (Some(*from), Some(*to), None),
        FatStep::Judge { value, bounds, .. } => (Some(*value), Some(*bounds), None),
        FatStep::Load { p, to, .. } => (Some(*p), Some(*to), None),
        FatStep::Store { p, from, .. } => (Some(*p), Some(*from), None),
        FatStep::LoadPtr { p, to, bounds } => (Some(*p), Some(*to), Some(*bounds)),
        FatStep::StorePtr { p, from, bounds } => (Some(*p), Some(*from), Some(*bounds)),
        FatStep::Label { .. } | FatStep::Jump { .. } | FatStep::Call { .. } => (None, None, None),
        FatStep::JumpIf { from, .. } => (Some(*from), None, None),
        FatStep::Service { arg, to, .. } => (*arg, *to, None),
        FatStep::Give { from, bounds } => (*from, *bounds, None),
    }
}
