//! How a command ends, and the status that says so.
ghost use Rattle.std.specs.Prelude.{◌≡◌};
ghost use Rattle.mpx_words.specs.Ends.{status_of};

use asm_text::AsmKind;

/// How a command ended.
#[derive(Clone, Copy, Debug, PartialEq, Eq)]
pub enum End {
    /// The program returned this value.
    Exit(u8),
    /// An access at `value` left the bounds from `lb` to `ub`.
    Bounds { value: u64, lb: u64, ub: u64 },
    /// No file has the name.
    Missing,
    /// The file is not of a form that is built today.
    Unbuilt,
    /// The file has more bytes than a file may have.
    FileLarge,
    /// The bytes of the file are no image; the first field that is cut or breaks its rule has this offset.
    BadForm { at: u64 },
    /// The text of the file is no assembly: the first refused line, from 1, and why.
    BadLine { line: u32, kind: AsmKind },
    /// The words are no command.
    WordsRefused,
    /// A read of a file failed.
    ReadFault,
    /// A write to standard output or standard error failed.
    WriteFault,
    /// Memory of the host is not to be had.
    NoMemory,
}

impl End {
    /// The exit status of the process.
    pub fn status(&self) -> u8
        ensures { result ≡ status_of self.now }
    {
        match self {
            End::Exit(_) => 0,
            End::Missing | End::Unbuilt | End::FileLarge => 1,
            End::BadForm { .. } | End::BadLine { .. } => 1,
            End::WordsRefused => 2,
            End::ReadFault => 3,
            End::WriteFault => 4,
            End::NoMemory => 5,
            End::Bounds { .. } => 10,
        }
    }
}
