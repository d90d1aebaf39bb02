ghost use Rattle.std.specs.Prelude.{◌≡◌, ℕ, Some, length, drop, min, IfOk};
ghost use Rattle.mx_base.specs.Outside.{Takes, Counts};
ghost use Rattle.mx_base.specs.Front.{laid_over};

use super::externals::{Failed, Source};
use super::memory::OutOfMemory;
use super::rest::Rest;
use std::alloc::Global;
use std::marker::Model;

/// A source over bytes in memory that never fails, and tells the bytes left. It is seen as those.
#[derive(Drop)]
pub struct SureSource {
    left: Rest,
}

impl Model for SureSource {
    ghost use Rattle.std.specs.Prelude.{ℕ, List};

    ghost Value = { List ℕ };

    ghost view = { λ s. s.left };
}

impl SureSource {
    /// A source of these bytes, of which it keeps a copy.
    pub fn make(alloc: Global, bytes: &[u8]) -> Result<SureSource, OutOfMemory>
        ensures { IfOk result (λ s. s ≡ bytes.now) }
    {
        Ok(SureSource {
            left: Rest::make(alloc, bytes)?,
        })
    }
}

impl Source for SureSource {
    ghost left = { Some };

    ghost faults = { λ _. 0 };

    fn take(&mut self, buf: &mut [u8]) -> Result<usize, Failed>
        ensures answer { Takes (Some self.old) (Some self.new) buf.new result }
        ensures faults { Counts result 0 0 }

        // It fills the buffer as far as there are bytes.
        ensures most { result ≡ Ok (min (length self.old) (length buf.old)) }
        ensures filled { buf.new ≡ laid_over self.old buf.old }
        ensures taken { self.new ≡ drop (length buf.old) self.old }
    {
        Ok(self.left.take(buf))
    }

    fn faults(&self) -> u64 {
        self.left.are_bytes();
        0
    }
}
