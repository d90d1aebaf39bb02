ghost use Rattle.std.specs.Prelude.{◌≡◌, ℕ, Some, length, min, ◌↔◌, IsTrue, IsErr, IfOk, OnOk, OnErr};
ghost use Rattle.mx_base.specs.Outside.{Takes, Counts};
ghost use Rattle.mx_base.specs.Calls.{is_to_fail};
ghost use Rattle.mx_base.specs.Front.{laid_over};
ghost use Rattle.mx_base.specs.MemSource.{source_of, after_take, after_refused};

use super::calls::Calls;
use super::externals::{Failed, Source};
use super::memory::OutOfMemory;
use super::rest::Rest;
use std::alloc::Global;
use std::marker::Model;

/// A source over bytes in memory, which tells the bytes left. It fails exactly at the calls of `take` that it was made
/// to fail at, counted from 0, and otherwise gives as many bytes as the buffer has room for.
#[derive(Drop)]
pub struct MemSource {
    left: Rest,
    calls: Calls,
    faults: u64,
}

impl Model for MemSource {
    ghost use Rattle.mx_base.specs.MemSource.{SourceState};

    ghost Value = { SourceState };

    ghost view = { λ s. record { left = s.left; calls = s.calls; faults = s.faults } };
}

impl MemSource {
    /// A source of these bytes, whose calls with the numbers `fails` fail. It keeps copies of both.
    pub fn make(alloc: Global, bytes: &[u8], fails: &[u64]) -> Result<MemSource, OutOfMemory>
        ensures { IfOk result (λ s. s ≡ source_of bytes.now fails.now) }
    {
        Ok(MemSource {
            left: Rest::make(alloc, bytes)?,
            calls: Calls::make(alloc, fails)?,
            faults: 0,
        })
    }
}

impl Source for MemSource {
    ghost left = { λ s. Some s.left };

    ghost faults = { λ s. s.faults };

    fn take(&mut self, buf: &mut [u8]) -> Result<usize, Failed>
        ensures answer { Takes (Some self.old.left) (Some self.new.left) buf.new result }
        ensures faults { Counts result self.old.faults self.new.faults }

        // It fails exactly at the calls that it was made to fail at, and then has changed nothing else.
        ensures fails { IsErr result ↔ IsTrue (is_to_fail self.old.calls) }
        ensures refused { OnErr result (self.new ≡ after_refused self.old) }
        ensures kept { OnErr result (buf.new ≡ buf.old) }

        // Otherwise it fills the buffer as far as there are bytes.
        ensures most { IfOk result (λ n. n ≡ min (length self.old.left) (length buf.old)) }
        ensures filled { OnOk result (buf.new ≡ laid_over self.old.left buf.old) }
        ensures taken { IfOk result (λ n. self.new ≡ after_take self.old n) }
    {
        if self.calls.count() {
            self.faults = self.faults.saturating_add(1);
            return Err(Failed);
        }
        Ok(self.left.take(buf))
    }

    fn faults(&self) -> u64 {
        self.left.are_bytes();
        self.faults
    }
}
