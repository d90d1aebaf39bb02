//! Why a text is no assembly.

ghost use Rattle.std.specs.Prelude.{◌≡◌};
ghost use Rattle.asm_text.specs.declared.fault.AsmFault.TheVariants.{OutOfMemory};

use std::alloc::{AllocError, AllocFailed};
use std::error::Error;
use std::fmt;

/// Why a line is refused. Of several causes the first of this list is told.
#[derive(Clone, Copy, Debug, PartialEq, Eq)]
pub enum AsmKind {
    /// The line is outside the grammar, or a signature is none or not of its label's part.
    Shape,
    /// A number fits no field, or the line passes a limit of objects.
    Range,
    /// A label, or a label's signature, stands a second time.
    Twice,
    /// A local label is not defined in the code, or the name of a signature by no earlier line.
    NoLocal,
}

/// Why a text has no object.
#[derive(Clone, Copy, Debug, PartialEq, Eq)]
pub enum AsmFault {
    /// The first refused line, from 1.
    Line { line: u32, kind: AsmKind },
    /// Memory of the host is not to be had.
    OutOfMemory,
}

impl fmt::Display for AsmKind {
    fn fmt<W: fmt::Write>(&self, f: &mut fmt::Formatter<W>) -> fmt::Result {
        f.write_str(match self {
            AsmKind::Shape => "Shape",
            AsmKind::Range => "Range",
            AsmKind::Twice => "Twice",
            AsmKind::NoLocal => "NoLocal",
        })
    }
}

impl fmt::Display for AsmFault {
    fn fmt<W: fmt::Write>(&self, f: &mut fmt::Formatter<W>) -> fmt::Result {
        match self {
            AsmFault::Line { line, kind } => write!(f, "{line}: {kind}"),
            AsmFault::OutOfMemory => f.write_str("no memory"),
        }
    }
}

impl Error for AsmFault {}

impl From<AllocError> for AsmFault {
    ghost from_gives = { λ _ e. e ≡ OutOfMemory };

    fn from(_error: AllocError) -> AsmFault {
        AsmFault::OutOfMemory
    }
}

impl<T: Drop> From<AllocFailed<T>> for AsmFault {
    ghost from_gives = { λ _ e. e ≡ OutOfMemory };

    fn from(_error: AllocFailed<T>) -> AsmFault {
        AsmFault::OutOfMemory
    }
}

impl From<mx_base::OutOfMemory> for AsmFault {
    ghost from_gives = { λ _ e. e ≡ OutOfMemory };

    fn from(_error: mx_base::OutOfMemory) -> AsmFault {
        AsmFault::OutOfMemory
    }
}
