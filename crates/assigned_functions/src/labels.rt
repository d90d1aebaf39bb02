//! Labels of steps.

ghost use Rattle.std.specs.Prelude.{◌≡◌, IfOk};
ghost use Rattle.assigned_functions.specs.Labels as spec;

use fat_ir::FatStep;
use mx_base::OutOfMemory;

/// The number behind the label of a step, or 0.
fn label_past(step: &FatStep) -> Result<u32, OutOfMemory>
    ensures { IfOk result (λ n. n ≡ spec.label_past step.now) }
{
    match step {
        FatStep::Label { n } => match n.checked_add(1) {
            Some(past) => Ok(past),
            None => Err(OutOfMemory),
        },
        _ => Ok(0),
    }
}

/// The least number that is behind all labels of these steps.
///
/// # Errors
///
/// `OutOfMemory`: a label has the last number that there is.
pub fn past_labels(steps: &[FatStep]) -> Result<u32, OutOfMemory>
    ensures { IfOk result (λ n. n ≡ spec.past_labels steps.now) }
{
    let mut past = 0;
    'steps: for step in steps {
        let behind = label_past(step)?;
        if past < behind {
            past = behind;
        }
    }
    Ok(past)
}
