//! Stops, and the places of instructions.

ghost use Rattle.std.specs.Prelude.{◌≡◌, ◌≤◌, ◌++◌, ◌==◌, find, codes, length, slice_get, MatchOption, None, Some};
ghost use Rattle.std.specs.Fmt.{decimal};
ghost use Rattle.arrayvec.specs.ArrayVec.{array_vec_len};
ghost use Rattle.obj_file.specs.Image.{IsImage};
ghost use Rattle.fault_text.specs.Explain.{hex, bounds_text, access_text, spot_in, code_text, place_text, line_of};

use crate::line::{Line, push, push_decimal, push_hex};
use arrayvec::ArrayVec;
use mx_base::{Breach, Stop};
use obj_file::{Image, Spot4};

/// The line for a stop, with its line feed. A bounds check that failed has the place in the sources of the access that it stands
/// for, and its kind and size where they are known, if the image tells a place for its address.
pub fn explain(stop: &Stop, image: &Image) -> ArrayVec<u8, 512>
    requires { IsImage image.now }
    ensures { result.items ≡ line_of stop.now image.now }
{
    let mut line = Line::new();
    match stop {
        Stop::Bounds(breach) => {
            push_bounds(&mut line, *breach);
            push_place(&mut line, image, breach.rip);
        }
        Stop::NoFrames { in_use, capacity } => push_frames(&mut line, *in_use, *capacity),
        Stop::Exit(code) => {
            push(&mut line, b"exit ");
            push_decimal(&mut line, u32::from(*code));
        }
        Stop::Unmapped(at) => push_address(&mut line, b"unmapped: 0x", *at),
        Stop::Undefined(at) => push_address(&mut line, b"undefined: 0x", *at),
        Stop::Strayed(at) => push_address(&mut line, b"strayed: 0x", *at),
        Stop::Divide => push(&mut line, b"divide"),
        Stop::StackOver => push(&mut line, b"stack over"),
        Stop::OutOfTurns => push(&mut line, b"out of turns"),
        Stop::NoTable => push(&mut line, b"no table"),
        Stop::ReadFault => push(&mut line, b"read fault"),
        Stop::WriteFault => push(&mut line, b"write fault"),
    }
    push(&mut line, b"\n");
    line
}

/// What was left, and by what.
fn push_bounds(line: &mut Line, breach: Breach)
    requires { array_vec_len line.old ≡ 0 }
    ensures items { line.new.items ≡ line.old.items ++ bounds_text breach }
    ensures len { array_vec_len line.new ≤ 75 }
{
    push(line, b"bounds: 0x");
    push_hex(line, breach.value);
    push(line, b" outside [0x");
    push_hex(line, breach.lb);
    push(line, b", 0x");
    push_hex(line, breach.ub);
    push(line, b"]");
}

fn push_address(line: &mut Line, text: &[u8], at: u64)
    requires room { array_vec_len line.old ≤ 400 }
    requires short { length text.now ≤ 40 }
    ensures items { line.new.items ≡ line.old.items ++ (text.now ++ hex at) }
    ensures len { array_vec_len line.new ≤ 500 }
{
    push(line, text);
    push_hex(line, at);
}

fn push_frames(line: &mut Line, in_use: u32, capacity: u32)
    requires { array_vec_len line.old ≡ 0 }
    ensures items { line.new.items ≡ line.old.items ++ (codes "no frames: " ++ decimal in_use ++ codes " of " ++ decimal capacity) }
    ensures len { array_vec_len line.new ≤ 200 }
{
    push(line, b"no frames: ");
    push_decimal(line, in_use);
    push(line, b" of ");
    push_decimal(line, capacity);
}

/// The place in the sources of the instruction at an address, if the image has one.
fn find_place(image: &Image, rip: u64) -> Option<Spot4>
    ensures { result ≡ find (λ p. p.at == rip) image.now.places }
{
    image
        .places
        .as_slice()
        .iter()
        .copied()
        .find(|p| p.at == rip)
}

/// The name of the file of a place, if it has one.
#[tactic(auto, using(crate::proofs::Names::name_short))]
fn name_of(image: &Image, spot: Spot4) -> Option<&str>
    requires { IsImage image.now }
    ensures { MatchOption result (slice_get image.now.files spot.file ≡ None) (λ name. (slice_get image.now.files spot.file ≡ Some name.now) × (length name.now ≤ 255)) }
{
    match image.files.as_slice().get(spot.file as usize) {
        Some(name) => Some(name.as_str()),
        None => None,
    }
}

/// The access that is checked, where its kind is known.
#[tactic(auto, unfolding(crate::specs::Explain::access_text))]
fn push_access(line: &mut Line, kind: u8, size: u32)
    requires { array_vec_len line.old ≤ 75 }
    ensures items { line.new.items ≡ line.old.items ++ access_text kind size }
    ensures len { array_vec_len line.new ≤ 96 }
{
    if kind == 0 {
        return;
    }
    if kind == 1 {
        push(line, b", read of ");
    } else {
        push(line, b", write of ");
    }
    push_decimal(line, size);
}

fn push_spot(line: &mut Line, name: &str, spot: Spot4)
    requires short { length name.now ≤ 255 }
    requires room { array_vec_len line.old ≤ 75 }
    ensures items { line.new.items ≡ line.old.items ++ spot_in name.now spot }
    ensures len { array_vec_len line.new ≤ 377 }
{
    push_access(line, spot.kind, spot.size);
    push(line, b" at ");
    push(line, name.as_bytes());
    push(line, b":");
    push_decimal(line, spot.line);
    push(line, b":");
    push_decimal(line, spot.col);
}

fn push_code(line: &mut Line, rip: u64)
    requires { array_vec_len line.old ≤ 75 }
    ensures items { line.new.items ≡ line.old.items ++ code_text rip }
    ensures len { array_vec_len line.new ≤ 500 }
{
    push_address(line, b" at code 0x", rip);
}

#[tactic(auto, using(crate::proofs::Names::placed, crate::proofs::Names::nameless, crate::proofs::Names::placeless))]
fn push_place(line: &mut Line, image: &Image, rip: u64)
    requires image { IsImage image.now }
    requires room { array_vec_len line.old ≤ 75 }
    ensures items { line.new.items ≡ line.old.items ++ place_text image.now rip }
    ensures len { array_vec_len line.new ≤ 500 }
{
    match find_place(image, rip) {
        Some(spot) => match name_of(image, spot) {
            Some(name) => push_spot(line, name, spot),
            None => push_code(line, rip),
        },
        None => push_code(line, rip),
    }
}
