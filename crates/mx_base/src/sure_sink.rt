ghost use Rattle.std.specs.Prelude.{◌≡◌, ℕ, length, IfOk};
ghost use Rattle.mx_base.specs.Outside.{Puts, Counts};
ghost use Rattle.mx_base.specs.SureSink.{sure_sink_of, sink_told, after_sure_put};

use super::externals::{Failed, Sink};
use super::memory::OutOfMemory;
use std::alloc::Global;
use std::marker::Model;

/// A sink into memory that never fails. It takes every piece whole, drops the bytes that do not fit, and tells the bytes
/// that it holds as long as none was dropped.
#[derive(Drop)]
pub struct SureSink {
    held: Vec<u8>,
    room: usize,
    dropped: bool,
}

impl Model for SureSink {
    ghost use Rattle.std.specs.Prelude.{length, ◌≤◌, vec_capacity};
    ghost use Rattle.mx_base.specs.SureSink.{SureSinkState};

    ghost Value = { SureSinkState };

    ghost view = { λ s. record { held = s.held.items; room = s.room; dropped = s.dropped } };

    ghost invariant = { λ s. (length s.held.items ≤ s.room) × (s.room ≤ vec_capacity s.held) };
}

impl SureSink {
    /// An empty sink for `room` bytes. It takes all its room at once.
    pub fn make(alloc: Global, room: usize) -> Result<SureSink, OutOfMemory>
        ensures { IfOk result (λ s. s ≡ sure_sink_of room) }
    {
        Ok(SureSink {
            held: Vec::with_capacity(alloc, room)?,
            room,
            dropped: false,
        })
    }

    /// The bytes held.
    pub fn held(&self) -> &[u8]
        ensures { result.now ≡ self.now.held }
    {
        self.held.as_slice()
    }
}

impl Sink for SureSink {
    ghost held = { sink_told };

    ghost faults = { λ _. 0 };

    fn put(&mut self, bytes: &[u8]) -> Result<usize, Failed>
        ensures answer { Puts (sink_told self.old) (sink_told self.new) bytes.now result }
        ensures faults { Counts result 0 0 }

        // It takes the whole piece, and drops what does not fit.
        ensures all { result ≡ Ok (length bytes.now) }
        ensures taken { self.new ≡ after_sure_put self.old bytes.now }
    {
        let left = self.room - self.held.len();
        let count = left.min(bytes.len());
        self.held.extend_from_slice(&bytes[..count]).unwrap();
        self.dropped = self.dropped || left < bytes.len();
        Ok(bytes.len())
    }

    fn faults(&self) -> u64 {
        0
    }
}
