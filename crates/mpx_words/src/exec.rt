//! The command `exec`: the image in a file is run.
ghost use Rattle.std.specs.Prelude.{◌≡◌, ◌≤◌, ℕ, List, length, IfOk};
ghost use Rattle.obj_file.specs.Image.{IsImage};
ghost use Rattle.obj_file.specs.Machine.{Reading, IsReader};
ghost use Rattle.obj_file.specs.StoreLaw.{HaveBytes};
ghost use Rattle.mpx_words.specs.Answers.{Answers};
ghost use Rattle.mpx_words.specs.Commands.{Exec};
ghost use Rattle.mpx_words.specs.Files.{image_form, Reads, Loads, LoadCounts};
ghost use Rattle.mpx_words.specs.Outside.{shelf, stream, outside};
ghost use Rattle.mpx_words.specs.Running.{RunsImage, RunCounts};

use crate::end::End;
use crate::load::{load_bytes, refusal_of_form};
use crate::options::Settings;
use crate::report::{report, report_line};
use crate::stop::stop_status;
use fault_text::explain;
use mx_base::{Files, OutOfMemory, Sink, Source, Stop};
use mx_run::{Config, Machine, MakeFault};
use obj_file::{Image, read_image};
use std::alloc::Global;

/// The image that the bytes spell.
fn image_in(alloc: Global, bytes: &[u8]) -> Result<Image, End>
    ensures reads { Reads image_form bytes.now result }
    ensures image { IfOk result (λ v. IsImage v × HaveBytes v.segments) }
{
    match read_image(alloc, bytes) {
        Ok(image) => Ok(image),
        Err(fault) => Err(refusal_of_form(fault)),
    }
}

/// The image in a file.
fn load_image<F: Files>(alloc: Global, files: &mut F, name: &str) -> Result<Image, End>
    ensures loads { Loads image_form (F.contents files.old name.now) result }
    ensures image { IfOk result (λ v. IsImage v × HaveBytes v.segments) }
    ensures contents { (n : List ℕ) → F.contents files.new n ≡ F.contents files.old n }
    ensures counts { LoadCounts result (F.read_faults files.old) (F.read_faults files.new) }
    ensures write_faults { F.write_faults files.new ≡ F.write_faults files.old }
{
    match load_bytes(alloc, files, name) {
        Err(end) => Err(end),
        Ok(bytes) => image_in(alloc, bytes.as_slice()),
    }
}

/// Runs an image.
fn run_image<I: Source, O: Sink>(
    alloc: Global,
    image: &Image,
    settings: Settings,
    input: &mut I,
    out: &mut O,
) -> Result<Stop, OutOfMemory>
    requires image { IsImage image.now }
    requires bytes { HaveBytes image.now.segments }
    requires few { settings.frames ≤ 524288 }
    ensures runs { (reads : List ℕ → Reading) → IsReader reads → RunsImage reads settings image.now (I.left input.old) result (O.held out.old) (O.held out.new) (I.left input.new) }
    ensures counts { RunCounts result (I.faults input.old) (I.faults input.new) (O.faults out.old) (O.faults out.new) }
{
    let config = Config {
        frames: settings.frames,
        preserve: settings.preserve,
        bare: settings.bare,
    };
    match Machine::make(alloc, image, config) {
        Err(MakeFault::OutOfMemory) => Err(OutOfMemory),
        Err(MakeFault::NoFrames { in_use, capacity }) => Ok(Stop::NoFrames { in_use, capacity }),
        Ok(mut machine) => Ok(machine.run(settings.turns, input, out)),
    }
}

/// Runs the image in a file, and answers the exit status. The last act is the line of how that ended.
pub fn run_exec<F: Files, I: Source, O: Sink, E: Sink>(
    alloc: Global,
    settings: Settings,
    name: &str,
    files: &mut F,
    input: &mut I,
    out: &mut O,
    err: &mut E,
) -> u8
    requires short { length name.now ≤ 255 }
    requires few { settings.frames ≤ 524288 }
    ensures { (reads : List ℕ → Reading) → IsReader reads → Answers reads (Exec settings name.now)
        (outside (shelf (F.contents files.old) (F.read_faults files.old) (F.write_faults files.old))
        (stream (I.left input.old) (I.faults input.old))
        (stream (O.held out.old) (O.faults out.old))
        (stream (E.held err.old) (E.faults err.old)))
        (outside (shelf (F.contents files.new) (F.read_faults files.new) (F.write_faults files.new))
        (stream (I.left input.new) (I.faults input.new))
        (stream (O.held out.new) (O.faults out.new))
        (stream (E.held err.new) (E.faults err.new))) result }
{
    match load_image(alloc, files, name) {
        Err(end) => report(err, name, end),
        Ok(image) => match run_image(alloc, &image, settings, input, out) {
            Err(OutOfMemory) => report(err, name, End::NoMemory),
            Ok(stop) => report_line(err, explain(&stop, &image).as_slice(), stop_status(&stop)),
        },
    }
}
