//! `mpxc`: the command line over files, standard input, standard output and standard error.
#![tactic(auto)]

ghost use Rattle.std.specs.Prelude.{◌≡◌, IsTrue, IfErr};
ghost use Rattle.mpx_words.specs.Ends.{refusal_of, ends_words};

mod real;
#[cfg(test)]
mod tests;

use mpx_words::end::End;
use mpx_words::report::report;
use mpx_words::run::run_words;
use real::{RealFiles, RealSink, RealSource};
use std::env;
use std::io::ErrorKind;
use std::process::ExitCode;

fn main(rt: HostRuntime) -> ExitCode {
    let mut err = RealSink::new(rt.stderr());
    let status = match words_after_name(&rt) {
        Ok(words) => {
            let mut files = RealFiles::new(&rt);
            let mut input = RealSource::new(rt.reader());
            let mut out = RealSink::new(rt.stdout());
            run_words(
                rt.alloc(),
                words.as_slice(),
                &mut files,
                &mut input,
                &mut out,
                &mut err,
            )
        }
        Err(end) => report(&mut err, "", end),
    };
    ExitCode::from(status)
}

/// The words after the program's name. A word that is not UTF-8 makes them no command.
fn words_after_name(rt: &HostRuntime) -> Result<Vec<String>, End>
    ensures { IfErr result (λ end. IsTrue (ends_words end)) }
{
    let args = match env::args(rt) {
        Ok(args) => args,
        Err(error) => return Err(refusal(error.kind())),
    };
    match args.skip(1).collect(rt.alloc()) {
        Ok(words) => Ok(words),
        Err(_) => Err(End::NoMemory),
    }
}

fn refusal(kind: ErrorKind) -> End
    ensures { result ≡ refusal_of kind }
{
    match kind {
        ErrorKind::OutOfMemory => End::NoMemory,
        _ => End::WordsRefused,
    }
}
