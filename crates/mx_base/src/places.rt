/// Where something stands in the sources of a command: the file's place in the command's list of files, from 0, and
/// its line and column, each from 1. A column counts bytes, and a line ends with its LF.
#[derive(Clone, Copy, Debug, PartialEq, Eq)]
pub struct Place {
    pub file: u32,
    pub line: u32,
    pub col: u32,
}
