//! The last act of a command: one line on standard error.
ghost use Rattle.std.specs.Prelude.{◌≡◌, ◌≤◌, length};
ghost use Rattle.mpx_words.specs.Answers.{Reports};
ghost use Rattle.mpx_words.specs.Ends.{line_of, status_of};
ghost use Rattle.mpx_words.specs.Outside.{stream};
ghost use Rattle.mpx_words.specs.Sinks.{Prints};

use crate::end::End;
use crate::line::make_line;
use crate::sink::put_all;
use mx_base::{Failed, Sink};

/// Puts the line for an end, and answers the exit status.
pub fn report<E: Sink>(err: &mut E, file: &str, end: End) -> u8
    requires { length file.now ≤ 255 }
    ensures { Reports (line_of file.now end) (status_of end) result (stream (E.held err.old) (E.faults err.old)) (stream (E.held err.new) (E.faults err.new)) }
{
    report_line(err, make_line(file, &end).as_slice(), end.status())
}

/// Puts a line, and answers the exit status.
pub fn report_line<E: Sink>(err: &mut E, line: &[u8], status: u8) -> u8
    ensures { Reports line.now status result (stream (E.held err.old) (E.faults err.old)) (stream (E.held err.new) (E.faults err.new)) }
{
    match put_all(err, line) {
        Ok(()) => status,
        Err(Failed) => End::WriteFault.status(),
    }
}

/// Puts a text on standard output, and answers the exit status. Only where that fails is there a line.
pub fn print<O: Sink, E: Sink>(out: &mut O, err: &mut E, text: &[u8]) -> u8
    ensures { Prints text.now result (stream (O.held out.old) (O.faults out.old)) (stream (O.held out.new) (O.faults out.new)) (stream (E.held err.old) (E.faults err.old)) (stream (E.held err.new) (E.faults err.new)) }
{
    match put_all(out, text) {
        Ok(()) => 0,
        Err(Failed) => report(err, "", End::WriteFault),
    }
}
