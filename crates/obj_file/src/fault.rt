//! Why bytes are no object and no image.

ghost use Rattle.std.specs.Prelude.{◌≡◌};
ghost use Rattle.obj_file.specs.declared.fault.Unread.TheVariants.{OutOfMemory};

use std::alloc::{AllocError, AllocFailed};
use std::error::Error;
use std::fmt;

/// Why bytes are no object or no image.
#[derive(Clone, Copy, Debug, PartialEq, Eq)]
pub enum FormFault {
    /// The offset in bytes of the first field that is cut or breaks its rule, or else of the first byte after the last field.
    BadForm { at: u64 },
    /// Memory of the host is not to be had.
    OutOfMemory,
}

impl fmt::Display for FormFault {
    ghost use Rattle.std.specs.Prelude.{Some};
    ghost use Rattle.obj_file.specs.FaultText.{text_of};

    ghost output = { λ fault. Some (text_of fault) };

    fn fmt<W: fmt::Write>(&self, f: &mut fmt::Formatter<W>) -> fmt::Result {
        match self {
            FormFault::BadForm { at } => write!(f, "BadForm at {at}"),
            FormFault::OutOfMemory => f.write_str("no memory"),
        }
    }
}

impl Error for FormFault {}

/// Why a field was not read.
#[derive(Debug, Drop)]
pub enum Unread {
    /// It is cut or breaks its rule. So many bytes are left from where it begins.
    Left(usize),
    /// Memory of the host is not to be had.
    OutOfMemory,
}

impl From<AllocError> for Unread {
    ghost from_gives = { λ _ e. e ≡ OutOfMemory };

    fn from(_error: AllocError) -> Unread {
        Unread::OutOfMemory
    }
}

impl<T: Drop> From<AllocFailed<T>> for Unread {
    ghost from_gives = { λ _ e. e ≡ OutOfMemory };

    fn from(_error: AllocFailed<T>) -> Unread {
        Unread::OutOfMemory
    }
}
