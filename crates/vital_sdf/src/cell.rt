//! A cell that is read part by part.

use crate::group::{Group, Instance};
use vital_base::{List, Name};

/// What was read up to a part of a cell.
#[derive(Drop)]
pub(crate) struct Cell {
    /// The text of the latest CELLTYPE in the cell.
    pub(crate) cell_type: Option<Name>,
    /// The latest INSTANCE in the cell.
    pub(crate) instance: Instance,
    /// The groups of the file so far.
    pub(crate) groups: List<Group>,
}
