//! The plans of small sources: where their globals stand, the bytes of their data, and the frames of their functions.
ghost use Rattle.c_tree.specs.Formed.{IsFormed};

use c_check::check;
use c_tree::Tree;
use place_plan::{FramePlan, Plan, Spot, plan};
use std::alloc::{AllocError, Global};

/// A frame by its size and where each parameter and local stands: `P3` from private value 3 on, `F8` from byte 8 of the frame on.
fn show_frame(alloc: Global, text: &mut String, frame: &FramePlan) -> Result<(), AllocError> {
    let size = frame.size;
    let part = format!(in alloc; " {size}(")?;
    text.push_str(part.as_str())?;
    'spots: for spot in frame.spots.as_slice() {
        let part = match *spot {
            Spot::Private(value) => format!(in alloc; " P{value}")?,
            Spot::Frame(byte) => format!(in alloc; " F{byte}")?,
        };
        text.push_str(part.as_str())?;
    }
    text.push_str(" )")
}

/// The offsets of the globals, the bytes of the data, and the frames.
fn show(alloc: Global, plan: &Plan) -> Result<String, AllocError> {
    let mut text = String::from_str(alloc, "globals")?;
    'globals: for offset in plan.globals.as_slice() {
        let part = format!(in alloc; " {offset}")?;
        text.push_str(part.as_str())?;
    }
    text.push_str("; bytes")?;
    'bytes: for byte in plan.image.as_slice() {
        let part = format!(in alloc; " {byte}")?;
        text.push_str(part.as_str())?;
    }
    text.push_str("; frames")?;
    'frames: for frame in plan.frames.as_slice() {
        show_frame(alloc, &mut text, frame)?;
    }
    Ok(text)
}

/// The plan of a source, or its first refusal with its place.
pub fn planned(alloc: Global, tree: &Tree) -> Result<String, AllocError>
    requires { IsFormed tree.now }
{
    let checked = match check(alloc, tree, 32_768) {
        Ok(checked) => checked,
        Err(fault) => return format!(in alloc; "{fault}"),
    };
    match plan(alloc, tree, &checked) {
        Ok(found) => show(alloc, &found),
        Err(_) => String::from_str(alloc, "out of memory"),
    }
}
