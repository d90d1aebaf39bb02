//! Why a text has no tokens.

ghost use Rattle.std.specs.Prelude.{◌≡◌};
ghost use Rattle.c_tokens.specs.declared.fault.TokenFault.TheVariants.{OutOfMemory};
ghost use Rattle.c_tokens.specs.Faults as spec;

use mx_base::Place;
use std::alloc::AllocFailed;
use std::error::Error;
use std::fmt;

/// What is wrong with a piece of a text that is no token.
#[derive(Clone, Copy, Debug, PartialEq, Eq)]
pub enum Flaw {
    BadByte,
    BadNumber,
    LongName,
    OpenText,
}

/// Why a text has no tokens: its first piece that is none, by the place of its first byte.
#[derive(Clone, Copy, Debug, PartialEq, Eq)]
pub enum TokenFault {
    /// A byte that begins no token.
    BadByte(Place),
    /// Letters, digits and `_` that begin with a digit and are no number, or a number with no type.
    BadNumber(Place),
    /// A name of more than 63 bytes.
    LongName(Place),
    /// A text or character that is not closed on its line or is not of its form, or a comment that is never closed.
    OpenText(Place),
    /// Memory of the host is not to be had.
    OutOfMemory,
}

impl fmt::Display for TokenFault {
    ghost use Rattle.std.specs.Prelude.{Some};
    ghost use Rattle.c_tokens.specs.FaultText.{text_of};

    ghost output = { λ fault. Some (text_of fault) };

    fn fmt<W: fmt::Write>(&self, f: &mut fmt::Formatter<W>) -> fmt::Result {
        match self {
            TokenFault::BadByte(place) => {
                let line = place.line;
                let col = place.col;
                write!(f, "BadByte {line}:{col}")
            }
            TokenFault::BadNumber(place) => {
                let line = place.line;
                let col = place.col;
                write!(f, "BadNumber {line}:{col}")
            }
            TokenFault::LongName(place) => {
                let line = place.line;
                let col = place.col;
                write!(f, "LongName {line}:{col}")
            }
            TokenFault::OpenText(place) => {
                let line = place.line;
                let col = place.col;
                write!(f, "OpenText {line}:{col}")
            }
            TokenFault::OutOfMemory => f.write_str("no memory"),
        }
    }
}

impl Error for TokenFault {}

impl<T: Drop> From<AllocFailed<T>> for TokenFault {
    ghost from_gives = { λ _ fault. fault ≡ OutOfMemory };

    fn from(_error: AllocFailed<T>) -> TokenFault {
        TokenFault::OutOfMemory
    }
}

/// The fault of a flawed piece that begins at this place.
pub fn fault_at(flaw: Flaw, place: Place) -> TokenFault
    ensures { result ≡ spec.fault_at flaw place }
{
    match flaw {
        Flaw::BadByte => TokenFault::BadByte(place),
        Flaw::BadNumber => TokenFault::BadNumber(place),
        Flaw::LongName => TokenFault::LongName(place),
        Flaw::OpenText => TokenFault::OpenText(place),
    }
}
