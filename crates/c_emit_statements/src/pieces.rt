//! The steps that the forms of statements have of their own.

ghost use Rattle.std.specs.Prelude.{◌≡◌, ◌+◌, ◌≤◌, ◌^◌, ◌∷◌, [], None, OnOk};
ghost use Rattle.steps_pieces.specs.Put.{put_of, added};
ghost use Rattle.c_emit_statements.specs.Bodies.{label, parting, turning, turning_if, giving};

use fat_ir::FatStep;
use mx_base::OutOfMemory;
use sqlite_items::Items;
use steps_pieces::Emitter;

/// A label.
#[tactic(auto, unfolding(steps_pieces::specs::Put::added))]
pub fn put_label(out: &mut Emitter, n: u32) -> Result<(), OutOfMemory>
    ensures { OnOk result (put_of out.new ≡ added (label n) (put_of out.old)) }
{
    out.steps.push(FatStep::Label { n })?;
    Ok(())
}

/// To a label from here.
#[tactic(auto, unfolding(steps_pieces::specs::Put::added))]
pub fn put_jump(out: &mut Emitter, n: u32) -> Result<(), OutOfMemory>
    ensures { OnOk result (put_of out.new ≡ added (FatStep.Jump n ∷ []) (put_of out.old)) }
{
    out.steps.push(FatStep::Jump { n })?;
    Ok(())
}

/// On from the label `on` if `d` is not 0, and else at `end`.
#[tactic(auto, unfolding(steps_pieces::specs::Put::added))]
pub fn put_parting(out: &mut Emitter, on: u32, end: u32, d: u32) -> Result<(), OutOfMemory>
    ensures { OnOk result (put_of out.new ≡ added (parting on end d) (put_of out.old)) }
{
    out.steps.push(FatStep::JumpIf { from: d, n: on })?;
    out.steps.push(FatStep::Jump { n: end })?;
    out.steps.push(FatStep::Label { n: on })?;
    Ok(())
}

/// Back to the label `start`, and on from `end`.
#[tactic(auto, unfolding(steps_pieces::specs::Put::added))]
pub fn put_turning(out: &mut Emitter, start: u32, end: u32) -> Result<(), OutOfMemory>
    ensures { OnOk result (put_of out.new ≡ added (turning start end) (put_of out.old)) }
{
    out.steps.push(FatStep::Jump { n: start })?;
    out.steps.push(FatStep::Label { n: end })?;
    Ok(())
}

/// Back to `start` if `d` is not 0, and on from `end`.
#[tactic(auto, unfolding(steps_pieces::specs::Put::added))]
pub fn put_turning_if(out: &mut Emitter, start: u32, end: u32, d: u32) -> Result<(), OutOfMemory>
    ensures { OnOk result (put_of out.new ≡ added (turning_if start end d) (put_of out.old)) }
{
    out.steps.push(FatStep::JumpIf { from: d, n: start })?;
    out.steps.push(FatStep::Label { n: end })?;
    Ok(())
}

/// Nothing is given.
#[tactic(auto, unfolding(steps_pieces::specs::Put::added))]
pub fn put_nothing_given(out: &mut Emitter) -> Result<(), OutOfMemory>
    ensures { OnOk result (put_of out.new ≡ added (FatStep.Give None None ∷ []) (put_of out.old)) }
{
    out.steps.push(FatStep::Give {
        from: None,
        bounds: None,
    })?;
    Ok(())
}

/// What is in `d` is given, a pointer with its bounds.
#[tactic(auto, unfolding(steps_pieces::specs::Put::added))]
pub fn put_given(out: &mut Emitter, number: bool, d: u32) -> Result<(), OutOfMemory>
    requires { d + 6 ≤ 2 ^ 32 }
    ensures { OnOk result (put_of out.new ≡ added (giving number d) (put_of out.old)) }
{
    let bounds = if number { None } else { Some(d + 1) };
    out.steps.push(FatStep::Give {
        from: Some(d),
        bounds,
    })?;
    Ok(())
}

/// The steps that were put aside.
#[tactic(auto, unfolding(steps_pieces::specs::Put::added))]
pub fn put_all(out: &mut Emitter, steps: Items<FatStep>) -> Result<(), OutOfMemory>
    ensures { OnOk result (put_of out.new ≡ added steps (put_of out.old)) }
{
    out.steps.append(steps)?;
    Ok(())
}
