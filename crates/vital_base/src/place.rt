//! Places in files.

/// Where something stands: the number of its file, and the line and the column of its first byte, each from 1. A line ends
/// at LF, and a column counts bytes. Places are ordered by file, then line, then column.
#[derive(Clone, Copy, Debug, PartialEq, Eq, PartialOrd, Ord)]
pub struct Place {
    pub file: u32,
    pub line: u32,
    pub column: u32,
}
