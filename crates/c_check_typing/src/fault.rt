//! Why a tree is no program.

ghost use Rattle.std.specs.Prelude.{◌≡◌};
ghost use Rattle.c_check_typing.specs.declared.fault.CheckFault.TheVariants.{OutOfMemory};

use mx_base::{OutOfMemory, Place};
use std::alloc::{AllocError, AllocFailed};
use std::error::Error;
use std::fmt;

/// A rule that a node breaks.
#[derive(Clone, Copy, Debug, PartialEq, Eq)]
pub enum CheckKind {
    /// The source has more nodes than there is room for.
    TooLarge,
    /// A tag, member, variable or function that is not there.
    Unknown,
    /// A name that its scope has already.
    Twice,
    /// Types that do not go together, and whatever has no other kind.
    BadType,
    /// An array's count, or the size of a type, that is outside its limits.
    BadCount,
    /// Something that is no place where one is needed.
    NotPlace,
    /// Something that is no constant where one is needed.
    NotConst,
    /// A function with more than four pointers among its parameters.
    ManyPointers,
    /// A function with more than six parameters.
    ManyParams,
    /// An assignment of a struct, or a local array or struct with an initialiser, of more than 64 scalars.
    LargeCopy,
    /// A function with too many private variables or waiting values, or too large a data frame.
    FrameLarge,
    /// Too many bytes of data.
    LargeData,
}

/// A broken rule, and the place of the node that breaks it.
#[derive(Clone, Copy, Debug, PartialEq, Eq)]
pub struct Broken {
    pub kind: CheckKind,
    pub place: Place,
}

/// Why a tree is no program: the first broken rule by its node's place, or that memory of the host is not to be had.
#[derive(Clone, Copy, Debug, PartialEq, Eq)]
pub enum CheckFault {
    Refused { kind: CheckKind, place: Place },
    OutOfMemory,
}

impl fmt::Display for CheckKind {
    ghost use Rattle.std.specs.Prelude.{Some};
    ghost use Rattle.c_check_typing.specs.FaultText.{kind_text};

    ghost output = { λ kind. Some (kind_text kind) };

    fn fmt<W: fmt::Write>(&self, f: &mut fmt::Formatter<W>) -> fmt::Result {
        match self {
            CheckKind::TooLarge => f.write_str("TooLarge"),
            CheckKind::Unknown => f.write_str("Unknown"),
            CheckKind::Twice => f.write_str("Twice"),
            CheckKind::BadType => f.write_str("BadType"),
            CheckKind::BadCount => f.write_str("BadCount"),
            CheckKind::NotPlace => f.write_str("NotPlace"),
            CheckKind::NotConst => f.write_str("NotConst"),
            CheckKind::ManyPointers => f.write_str("ManyPointers"),
            CheckKind::ManyParams => f.write_str("ManyParams"),
            CheckKind::LargeCopy => f.write_str("LargeCopy"),
            CheckKind::FrameLarge => f.write_str("FrameLarge"),
            CheckKind::LargeData => f.write_str("LargeData"),
        }
    }
}

impl fmt::Display for CheckFault {
    ghost use Rattle.std.specs.Prelude.{Some};
    ghost use Rattle.c_check_typing.specs.FaultText.{text_of};

    ghost output = { λ fault. Some (text_of fault) };

    fn fmt<W: fmt::Write>(&self, f: &mut fmt::Formatter<W>) -> fmt::Result {
        match self {
            CheckFault::Refused { kind, place } => {
                let line = place.line;
                let col = place.col;
                write!(f, "{kind} {line}:{col}")
            }
            CheckFault::OutOfMemory => f.write_str("no memory"),
        }
    }
}

impl Error for CheckFault {}

impl From<OutOfMemory> for CheckFault {
    ghost from_gives = { λ _ fault. fault ≡ OutOfMemory };

    fn from(_error: OutOfMemory) -> CheckFault {
        CheckFault::OutOfMemory
    }
}

impl From<AllocError> for CheckFault {
    ghost from_gives = { λ _ fault. fault ≡ OutOfMemory };

    fn from(_error: AllocError) -> CheckFault {
        CheckFault::OutOfMemory
    }
}

impl<T: Drop> From<AllocFailed<T>> for CheckFault {
    ghost from_gives = { λ _ fault. fault ≡ OutOfMemory };

    fn from(_error: AllocFailed<T>) -> CheckFault {
        CheckFault::OutOfMemory
    }
}
