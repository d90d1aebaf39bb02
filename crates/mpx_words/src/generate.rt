//! The command `gen`: the generated program.
ghost use Rattle.std.specs.Prelude.{◌≡◌, ◌≤◌, ℕ, List};
ghost use Rattle.obj_file.specs.Machine.{Reading};
ghost use Rattle.mpx_words.specs.Answers.{Answers};
ghost use Rattle.mpx_words.specs.Commands.{Gen};
ghost use Rattle.mpx_words.specs.Outside.{Shelf, Stream, stream, outside};

use crate::end::End;
use crate::report::{print, report};
use mx_base::{OutOfMemory, Sink};
use mx_gen::program;
use std::alloc::Global;

/// Puts the generated program of a size, and answers the exit status.
pub fn run_gen<O: Sink, E: Sink>(alloc: Global, n: u32, out: &mut O, err: &mut E) -> u8
    requires { n ≤ 200 }
    ensures { (reads : List ℕ → Reading) (files : Shelf) (input : Stream) → Answers reads (Gen n)
        (outside files input (stream (O.held out.old) (O.faults out.old)) (stream (E.held err.old) (E.faults err.old)))
        (outside files input (stream (O.held out.new) (O.faults out.new)) (stream (E.held err.new) (E.faults err.new))) result }
{
    match program(alloc, n) {
        Err(OutOfMemory) => report(err, "", End::NoMemory),
        Ok(text) => print(out, err, text.as_slice()),
    }
}
