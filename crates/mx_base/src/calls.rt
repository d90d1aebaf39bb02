//! The calls of the objects in memory that can fail, by number.
ghost use Rattle.std.specs.Prelude.{◌≡◌, IfOk};
ghost use Rattle.mx_base.specs.Calls.{planned, is_to_fail, after_call};

use super::memory::OutOfMemory;
use std::alloc::Global;
use std::marker::Model;

/// The number of the next call, from 0, and the numbers of the calls that are to fail.
#[derive(Drop)]
pub struct Calls {
    number: Option<u64>,
    fails: Vec<u64>,
}

impl Model for Calls {
    ghost use Rattle.mx_base.specs.Calls.{Planned};

    ghost Value = { Planned };

    ghost view = { λ c. record { number = c.number; fails = c.fails.items } };
}

impl Calls {
    /// The calls before the first of them. It keeps a copy of the numbers of those that are to fail.
    pub fn make(alloc: Global, fails: &[u64]) -> Result<Calls, OutOfMemory>
        ensures { IfOk result (λ c. c ≡ planned fails.now) }
    {
        Ok(Calls {
            number: Some(0),
            fails: Vec::from_slice(alloc, fails)?,
        })
    }

    /// Counts a call, and answers whether it is to fail.
    pub fn count(&mut self) -> bool
        ensures fails { result ≡ is_to_fail self.old }
        ensures counted { self.new ≡ after_call self.old }
    {
        match self.number {
            None => false,
            Some(number) => {
                self.number = number.checked_add(1);
                self.fails.contains(&number)
            }
        }
    }
}
