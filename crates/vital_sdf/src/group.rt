//! What an SDF file says, cell by cell.

use crate::entry::Entry;
use vital_base::{List, Name};

/// What the entries of a cell are for.
#[derive(Drop)]
pub enum Instance {
    /// The top of the design: no word stands after INSTANCE, or no INSTANCE before the entries.
    Top,
    /// Each instance of the cell's type: the word `*` as it stands.
    Each,
    /// The instance with this path, part by part.
    Path(List<Name>),
}

/// The entries of one part of a cell, in order, with what stands before them there.
#[derive(Drop)]
pub struct Group {
    /// The text of the latest CELLTYPE before them in their CELL.
    pub cell_type: Option<Name>,
    /// The latest INSTANCE before them in their CELL.
    pub instance: Instance,
    pub entries: List<Entry>,
}

/// What an SDF file says.
#[derive(Drop)]
pub struct SdfFile {
    /// A group for each DELAY, TIMINGCHECK, TIMINGENV and LABEL, in the order of the file.
    pub groups: List<Group>,
    /// How many tokens the file has.
    pub tokens: u32,
}
