//! The commands of `mpxc` over the outside.
ghost use Rattle.std.specs.Prelude.{◌≡◌, ℕ, List, map, string_bytes, ◌⊎◌};
ghost use Rattle.mx_base.specs.Outside.{HasRisen};
ghost use Rattle.obj_file.specs.Machine.{Reading, IsReader};
ghost use Rattle.mpx_words.specs.Answers.{Answers, Refuses};
ghost use Rattle.mpx_words.specs.Commands.{Command as Meant, Means, MeanNothing, Fits, command_of};
ghost use Rattle.mpx_words.specs.Outside.{shelf, stream, outside};

use crate::command::{Command, command_in};
use crate::dis::run_dis;
use crate::early::run_source;
use crate::end::End;
use crate::exec::run_exec;
use crate::generate::run_gen;
use crate::link::run_link;
use crate::making::run_making;
use crate::report::report;
use mx_base::{Files, Sink, Source};
use std::alloc::Global;

/// Does the command that the words mean, and answers the exit status.
///
/// - `run FILE` compiles the C source FILE to x86-64 code and runs that code; what the program puts goes to `out`.
/// - `exec [--turns N] [--frames N] [--preserve] [--bare] FILE` runs the image FILE; the guest takes from `input` and puts to `out`.
/// - `dis FILE` puts the text of the code of the object or image FILE to `out`.
/// - `gen N` puts the generated program of size N to `out`.
/// - `asm --out NAME FILE` writes the object of the text of assembly FILE to the file NAME.
/// - `link --out NAME FILE..` writes the image of the objects in the files FILE to the file NAME.
/// - `migrate --out NAME FILE` writes the newest form of the object or image FILE to the file NAME.
///
/// The last act is one line on `err`, which all but `run` and `exec` put only where the status is not 0.
pub fn run_words<F: Files, I: Source, O: Sink, E: Sink>(
    alloc: Global,
    words: &[String],
    files: &mut F,
    input: &mut I,
    out: &mut O,
    err: &mut E,
) -> u8
    // A command that the words mean answers as is due, by any exact reader of instructions.
    ensures answers { (reads : List ℕ → Reading) → IsReader reads → (c : Meant) → Means (map string_bytes words.now) c → Answers reads c
        (outside (shelf (F.contents files.old) (F.read_faults files.old) (F.write_faults files.old))
        (stream (I.left input.old) (I.faults input.old))
        (stream (O.held out.old) (O.faults out.old))
        (stream (E.held err.old) (E.faults err.old)))
        (outside (shelf (F.contents files.new) (F.read_faults files.new) (F.write_faults files.new))
        (stream (I.left input.new) (I.faults input.new))
        (stream (O.held out.new) (O.faults out.new))
        (stream (E.held err.new) (E.faults err.new))) result }

    // Words that mean none are refused, and no others.
    ensures refuses { MeanNothing (map string_bytes words.now) → Refuses
        (outside (shelf (F.contents files.old) (F.read_faults files.old) (F.write_faults files.old))
        (stream (I.left input.old) (I.faults input.old))
        (stream (O.held out.old) (O.faults out.old))
        (stream (E.held err.old) (E.faults err.old)))
        (outside (shelf (F.contents files.new) (F.read_faults files.new) (F.write_faults files.new))
        (stream (I.left input.new) (I.faults input.new))
        (stream (O.held out.new) (O.faults out.new))
        (stream (E.held err.new) (E.faults err.new))) result }
    ensures refused { result ≡ 2 → MeanNothing (map string_bytes words.now) }

    // A fault is told only where a count of faults rose in this call.
    ensures read_fault { result ≡ 3 → HasRisen (F.read_faults files.old) (F.read_faults files.new) ⊎ HasRisen (I.faults input.old) (I.faults input.new) }
    ensures write_fault { result ≡ 4 → HasRisen (F.write_faults files.old) (F.write_faults files.new) ⊎ (HasRisen (O.faults out.old) (O.faults out.new) ⊎ HasRisen (E.faults err.old) (E.faults err.new)) }
{
    match command_in(words) {
        Some(command) => do_command(alloc, command, files, input, out, err),
        None => report(err, "", End::WordsRefused),
    }
}

/// Does a command, and answers the exit status.
fn do_command<F: Files, I: Source, O: Sink, E: Sink>(
    alloc: Global,
    command: Command<'_>,
    files: &mut F,
    input: &mut I,
    out: &mut O,
    err: &mut E,
) -> u8
    requires { Fits (command_of command) }
    ensures { (reads : List ℕ → Reading) → IsReader reads → Answers reads (command_of command.entry)
        (outside (shelf (F.contents files.old) (F.read_faults files.old) (F.write_faults files.old))
        (stream (I.left input.old) (I.faults input.old))
        (stream (O.held out.old) (O.faults out.old))
        (stream (E.held err.old) (E.faults err.old)))
        (outside (shelf (F.contents files.new) (F.read_faults files.new) (F.write_faults files.new))
        (stream (I.left input.new) (I.faults input.new))
        (stream (O.held out.new) (O.faults out.new))
        (stream (E.held err.new) (E.faults err.new))) result }
{
    match command {
        Command::Run(file) => run_source(alloc, file, files, out, err),
        Command::Exec(settings, file) => run_exec(alloc, settings, file, files, input, out, err),
        Command::Dis(file) => run_dis(alloc, file, files, out, err),
        Command::Gen(n) => run_gen(alloc, n, out, err),
        Command::Make(making, name, file) => run_making(alloc, making, name, file, files, err),
        Command::Link(name, names) => run_link(alloc, name, names, files, err),
    }
}
