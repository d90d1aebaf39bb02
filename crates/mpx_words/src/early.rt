//! The command `run`: a source of the early form is compiled, and its code is run.
ghost use Rattle.std.specs.Prelude.{◌≡◌, ◌≤◌, ℕ, List, length};
ghost use Rattle.c_reader.specs.EarlyForm.{IsAllowed};
ghost use Rattle.c_reader.specs.EarlyMeaning.{early_run};
ghost use Rattle.obj_file.specs.Machine.{Reading};
ghost use Rattle.mpx_words.specs.Answers.{Answers};
ghost use Rattle.mpx_words.specs.Commands.{Run};
ghost use Rattle.mpx_words.specs.Early.{RunsProgram, RunsText, RunsSource, SourceCounts, TextCounts};
ghost use Rattle.mpx_words.specs.Outside.{Stream, shelf, stream, outside};

use crate::end::End;
use crate::report::report;
use crate::source_file::{ENOUGH, SourceFault, read_front};
use c_reader::{Early, EarlyFault, read_early};
use mx_base::{Files, OutOfMemory, Sink};
use std::alloc::Global;
use x86_core::{EarlyStop, run_early};
use x86_lower::lower_early;

/// Compiles the source in a file and runs it, and answers the exit status.
pub fn run_source<F: Files, O: Sink, E: Sink>(
    alloc: Global,
    name: &str,
    files: &mut F,
    out: &mut O,
    err: &mut E,
) -> u8
    requires { length name.now ≤ 255 }
    ensures { (reads : List ℕ → Reading) (input : Stream) → Answers reads (Run name.now)
        (outside (shelf (F.contents files.old) (F.read_faults files.old) (F.write_faults files.old))
        input
        (stream (O.held out.old) (O.faults out.old))
        (stream (E.held err.old) (E.faults err.old)))
        (outside (shelf (F.contents files.new) (F.read_faults files.new) (F.write_faults files.new))
        input
        (stream (O.held out.new) (O.faults out.new))
        (stream (E.held err.new) (E.faults err.new))) result }
{
    let end = run_file(alloc, name, files, out);
    report(err, name, end)
}

fn run_file<F: Files, O: Sink>(alloc: Global, name: &str, files: &mut F, out: &mut O) -> End
    ensures works { RunsSource (F.contents files.old name.now) result (O.held out.old) (O.held out.new) }
    ensures counts { SourceCounts result (F.read_faults files.old) (F.read_faults files.new) (O.faults out.old) (O.faults out.new) }
    ensures contents { (n : List ℕ) → F.contents files.new n ≡ F.contents files.old n }
    ensures write_faults { F.write_faults files.new ≡ F.write_faults files.old }
{
    match read_front(alloc, files, name, ENOUGH) {
        Err(SourceFault::Failed) => End::ReadFault,
        Err(SourceFault::OutOfMemory) => End::NoMemory,
        Ok(None) => End::Missing,
        Ok(Some(bytes)) => run_text(alloc, bytes.as_slice(), out),
    }
}

fn run_text<O: Sink>(alloc: Global, bytes: &[u8], out: &mut O) -> End
    ensures works { RunsText bytes.now result (O.held out.old) (O.held out.new) }
    ensures counts { TextCounts result (O.faults out.old) (O.faults out.new) }
{
    match read_early(alloc, bytes) {
        Err(EarlyFault::Unbuilt) => End::Unbuilt,
        Err(EarlyFault::OutOfMemory) => End::NoMemory,
        Ok(program) => run_program(alloc, &program, out),
    }
}

fn run_program<O: Sink>(alloc: Global, program: &Early, out: &mut O) -> End
    requires allowed { IsAllowed program.now.size program.now.acts.items program.now.code }
    ensures works { RunsProgram (early_run program.now.size program.now.acts.items program.now.code) result (O.held out.old) (O.held out.new) }
    ensures counts { TextCounts result (O.faults out.old) (O.faults out.new) }
{
    match lower_early(alloc, program) {
        Err(OutOfMemory) => End::NoMemory,
        Ok(code) => match run_early(alloc, code.as_slice(), program.size, out) {
            Ok(EarlyStop::Exit(code)) => End::Exit(code),
            Ok(EarlyStop::Bounds { value, lb, ub }) => End::Bounds { value, lb, ub },
            Ok(EarlyStop::WriteFault) => End::WriteFault,
            Ok(EarlyStop::Unmapped) => unreachable!(),
            Ok(EarlyStop::Undefined) => unreachable!(),
            Err(OutOfMemory) => End::NoMemory,
        },
    }
}
