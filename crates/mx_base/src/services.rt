//! The services that C knows by name.

/// A service that a C source may call by the name of its function.
#[derive(Clone, Copy, Debug, PartialEq, Eq)]
pub enum CService {
    /// `print`: the number in decimal and a line feed go to the output.
    Print,
    /// `put`: a byte goes to the output.
    Put,
    /// `get`: a byte comes from the input, or -1 at its end.
    Get,
    /// `alloc`: a block of the heap, or 0 where there is no room.
    Alloc,
    /// `free`: a block is given back; 0, or -1 where none begins there.
    Free,
    /// `exit`: the run ends.
    Exit,
}
