//! Whole texts put into a sink, which may take them in pieces.
ghost use Rattle.std.specs.Prelude.{◌≡◌};
ghost use Rattle.mx_base.specs.Outside.{Counts};
ghost use Rattle.mpx_words.specs.Sinks.{PutsAll};

use mx_base::{Failed, Sink};

/// Puts all the bytes. After a refusal the sink holds a front of them.
#[tactic(auto, using(crate::proofs::Puts::adds_more, crate::proofs::Puts::adds_front, crate::proofs::Puts::adds_nothing))]
pub fn put_all<S: Sink>(sink: &mut S, bytes: &[u8]) -> Result<(), Failed>
    ensures bytes { PutsAll (S.held sink.old) (S.held sink.new) bytes.now result }
    ensures faults { Counts result (S.faults sink.old) (S.faults sink.new) }
{
    let mut done = 0;
    while done < bytes.len() {
        let (_, rest) = bytes.split_at(done);
        match sink.put(rest) {
            Ok(n) => done += n,
            Err(failed) => return Err(failed),
        }
    }
    Ok(())
}
