ghost use Rattle.std.specs.Prelude.{◌≡◌};

use std::alloc::AllocFailed;
use std::error::Error;
use std::fmt;

/// One act of a program of the early form, on the array `X`.
#[derive(Clone, Copy, Debug, PartialEq, Eq)]
pub enum Act {
    /// `X[index] = value;`
    Write { index: u16, value: u8 },
    /// `put(X[index]);`
    PutAt(u16),
    /// `put(value);`
    Put(u8),
}

/// A program of the early form: an array of `size` bytes from 1 to 4,096, at most 1,000 acts in order, and the value
/// that `main` returns.
#[derive(Debug, Drop)]
pub struct Early {
    pub size: u16,
    pub acts: Vec<Act>,
    pub code: u8,
}

/// Why a text gave no program of the early form.
#[derive(Clone, Copy, Debug, PartialEq, Eq)]
pub enum EarlyFault {
    /// The bytes are not of the early form.
    Unbuilt,
    OutOfMemory,
}

impl fmt::Display for EarlyFault {
    ghost use Rattle.std.specs.Prelude.{Some};
    ghost use Rattle.c_reader.specs.EarlyFault.{text_of};

    ghost output = { λ fault. Some (text_of fault) };

    fn fmt<W: fmt::Write>(&self, f: &mut fmt::Formatter<W>) -> fmt::Result {
        match self {
            EarlyFault::Unbuilt => f.write_str("not of the early form"),
            EarlyFault::OutOfMemory => f.write_str("no memory"),
        }
    }
}

impl Error for EarlyFault {}

impl<T: Drop> From<AllocFailed<T>> for EarlyFault {
    ghost use Rattle.c_reader.specs.declared.early.EarlyFault.TheVariants.{OutOfMemory};

    ghost from_gives = { λ _ fault. fault ≡ OutOfMemory };

    fn from(_error: AllocFailed<T>) -> EarlyFault {
        EarlyFault::OutOfMemory
    }
}
