//! The exit status after the stop of an image's run.
ghost use Rattle.std.specs.Prelude.{◌≡◌};
ghost use Rattle.mpx_words.specs.Stops.{stop_status_of};

use mx_base::Stop;

/// The exit status after a stop.
pub fn stop_status(stop: &Stop) -> u8
    ensures { result ≡ stop_status_of stop.now }
{
    match stop {
        Stop::Exit(_) => 0,
        Stop::ReadFault => 3,
        Stop::WriteFault => 4,
        Stop::Bounds(_) => 10,
        Stop::Unmapped(_) | Stop::Divide | Stop::Undefined(_) | Stop::StackOver => 11,
        Stop::OutOfTurns => 12,
        Stop::Strayed(_) => 13,
        Stop::NoTable | Stop::NoFrames { .. } => 14,
    }
}
