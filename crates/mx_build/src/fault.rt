//! Why files are not built.

ghost use Rattle.std.specs.Prelude.{◌≡◌};
ghost use Rattle.mx_build.specs.Sources as spec;

use c_check_typing::CheckFault;
use c_reader::ReadFault;
use c_tokens::TokenFault;
use thiserror::Error;

/// Why files are not built: the fault of the layer that refuses, or want of memory, whichever layer met it.
#[derive(Debug, Drop, Error)]
pub enum BuildFault {
    /// A text has a piece that is no token.
    #[error(transparent)]
    Token(TokenFault),
    /// The tokens of a text are no program.
    #[error(transparent)]
    Read(ReadFault),
    /// A rule of C is broken.
    #[error(transparent)]
    Check(CheckFault),
    /// Memory of the host is not to be had.
    #[error("no memory")]
    OutOfMemory,
}

/// A refusal of tokens, as one of the build.
pub fn of_tokens(fault: TokenFault) -> BuildFault
    ensures { result ≡ spec.of_tokens fault }
{
    match fault {
        TokenFault::OutOfMemory => BuildFault::OutOfMemory,
        told => BuildFault::Token(told),
    }
}

/// A refusal of the reader, as one of the build.
pub fn of_reading(fault: ReadFault) -> BuildFault
    ensures { result ≡ spec.of_reading fault }
{
    match fault {
        ReadFault::OutOfMemory => BuildFault::OutOfMemory,
        told => BuildFault::Read(told),
    }
}

/// A refusal of the checks, as one of the build.
pub fn of_checking(fault: CheckFault) -> BuildFault
    ensures { result ≡ spec.of_checking fault }
{
    match fault {
        CheckFault::OutOfMemory => BuildFault::OutOfMemory,
        told => BuildFault::Check(told),
    }
}
