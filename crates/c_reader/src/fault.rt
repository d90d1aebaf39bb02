//! Why tokens are no program.

use mx_base::Place;
use std::error::Error;
use std::fmt;

/// Why tokens are refused.
#[derive(Clone, Copy, Debug, PartialEq, Eq)]
pub enum ReadFault {
    /// The first token such that those before it begin a program and with it they begin none, or the place after the last
    /// byte of the text, where its tokens begin a program and are none.
    Expected(Place),
    /// The first token that opens nesting 201.
    Deep(Place),
    /// Memory of the host is not to be had.
    OutOfMemory,
}

impl fmt::Display for ReadFault {
    ghost use Rattle.std.specs.Prelude.{Some};
    ghost use Rattle.c_reader.specs.FaultText.{text_of};

    ghost output = { λ fault. Some (text_of fault) };

    fn fmt<W: fmt::Write>(&self, f: &mut fmt::Formatter<W>) -> fmt::Result {
        match self {
            ReadFault::Expected(place) => {
                let line = place.line;
                let col = place.col;
                write!(f, "Expected {line}:{col}")
            }
            ReadFault::Deep(place) => {
                let line = place.line;
                let col = place.col;
                write!(f, "Deep {line}:{col}")
            }
            ReadFault::OutOfMemory => f.write_str("no memory"),
        }
    }
}

impl Error for ReadFault {}
