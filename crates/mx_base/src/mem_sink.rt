ghost use Rattle.std.specs.Prelude.{◌≡◌, ℕ, Some, length, min, ◌↔◌, IsTrue, IsErr, IfOk, OnErr};
ghost use Rattle.mx_base.specs.Outside.{Puts, Counts};
ghost use Rattle.mx_base.specs.MemSink.{sink_of, left_room, refuses_put, after_put, after_refused};

use super::calls::Calls;
use super::externals::{Failed, Sink};
use super::memory::OutOfMemory;
use std::alloc::Global;
use std::marker::Model;

/// A sink into memory, which tells the bytes that it holds. It fails exactly at the calls of `put` that it was made to
/// fail at, counted from 0, and at a piece that is not empty where no room is left. Otherwise it takes what fits.
#[derive(Drop)]
pub struct MemSink {
    held: Vec<u8>,
    room: usize,
    calls: Calls,
    faults: u64,
}

impl Model for MemSink {
    ghost use Rattle.std.specs.Prelude.{length, ◌≤◌, vec_capacity};
    ghost use Rattle.mx_base.specs.MemSink.{SinkState};

    ghost Value = { SinkState };

    ghost view = { λ s. record { held = s.held.items; room = s.room; calls = s.calls; faults = s.faults } };

    ghost invariant = { λ s. (length s.held.items ≤ s.room) × (s.room ≤ vec_capacity s.held) };
}

impl MemSink {
    /// An empty sink for `room` bytes, whose calls with the numbers `fails` fail. It takes all its room at once.
    pub fn make(alloc: Global, room: usize, fails: &[u64]) -> Result<MemSink, OutOfMemory>
        ensures { IfOk result (λ s. s ≡ sink_of room fails.now) }
    {
        Ok(MemSink {
            held: Vec::with_capacity(alloc, room)?,
            room,
            calls: Calls::make(alloc, fails)?,
            faults: 0,
        })
    }

    /// The bytes held.
    pub fn held(&self) -> &[u8]
        ensures { result.now ≡ self.now.held }
    {
        self.held.as_slice()
    }
}

impl Sink for MemSink {
    ghost held = { λ s. Some s.held };

    ghost faults = { λ s. s.faults };

    fn put(&mut self, bytes: &[u8]) -> Result<usize, Failed>
        ensures answer { Puts (Some self.old.held) (Some self.new.held) bytes.now result }
        ensures faults { Counts result self.old.faults self.new.faults }

        // It fails exactly where it was made to, or a byte has no room, and then has taken nothing.
        ensures fails { IsErr result ↔ IsTrue (refuses_put self.old bytes.now) }
        ensures refused { OnErr result (self.new ≡ after_refused self.old) }

        // Otherwise it takes what fits.
        ensures most { IfOk result (λ n. n ≡ min (left_room self.old) (length bytes.now)) }
        ensures taken { IfOk result (λ n. self.new ≡ after_put self.old bytes.now n) }
    {
        let is_to_fail = self.calls.count();
        let left = self.room - self.held.len();
        if is_to_fail || (!bytes.is_empty() && left == 0) {
            self.faults = self.faults.saturating_add(1);
            return Err(Failed);
        }
        let count = left.min(bytes.len());
        self.held.extend_from_slice(&bytes[..count]).unwrap();
        Ok(count)
    }

    fn faults(&self) -> u64 {
        self.faults
    }
}
