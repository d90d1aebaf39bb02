//! Bytes that are taken from the front.
ghost use Rattle.std.specs.Prelude.{◌≡◌, ℕ, length, drop, min, IfOk};
ghost use Rattle.mx_base.specs.Front.{laid_over};
ghost use Rattle.mx_base.specs.Guests.{InputFits};

use super::front::copy_front;
use super::memory::OutOfMemory;
use std::alloc::Global;
use std::marker::Model;

/// Bytes of which the first `at` are taken; it is seen as those left.
#[derive(Drop)]
pub struct Rest {
    bytes: Vec<u8>,
    at: usize,
}

impl Model for Rest {
    ghost use Rattle.std.specs.Prelude.{ℕ, List, length, drop, ◌≤◌};

    ghost Value = { List ℕ };

    ghost view = { λ r. drop r.at r.bytes.items };

    ghost invariant = { λ r. r.at ≤ length r.bytes.items };
}

impl Rest {
    /// A copy of these bytes, all of them left.
    pub fn make(alloc: Global, bytes: &[u8]) -> Result<Rest, OutOfMemory>
        ensures { IfOk result (λ r. r ≡ bytes.now) }
    {
        Ok(Rest {
            bytes: Vec::from_slice(alloc, bytes)?,
            at: 0,
        })
    }

    /// Takes as many bytes as fit into the front of `buf`, and answers how many.
    pub fn take(&mut self, buf: &mut [u8]) -> usize
        ensures most { result ≡ min (length self.old) (length buf.old) }
        ensures filled { buf.new ≡ laid_over self.old buf.old }
        ensures left { self.new ≡ drop result self.old }
    {
        let count = copy_front(&self.bytes[self.at..], buf);
        self.at += count;
        count
    }

    /// Does nothing: those left are bytes.
    pub fn are_bytes(&self)
        ensures { InputFits self.now }
    {
        are_bytes(&self.bytes[self.at..]);
    }
}

/// Does nothing: bytes are below 256.
fn are_bytes(bytes: &[u8])
    ensures { InputFits bytes.now }
{
    let _count = bytes.len();
}
