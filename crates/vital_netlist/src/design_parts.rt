//! What a design is made of.

use crate::cells::Cells;
use vital_instances::{Instance, NetUnits};
use vital_library::Library;
use vital_names::LibraryNames;

/// What a design is made of: a library with its names and what its netlist units hold; the instances under a top, none of which has a fault;
/// and their cells.
#[derive(Clone, Copy)]
pub struct DesignParts<'a> {
    pub library: &'a Library,
    pub names: &'a LibraryNames<'a>,
    pub net_units: &'a NetUnits<'a>,
    /// In preorder.
    pub instances: &'a [Instance],
    pub cells: &'a Cells<'a>,
}
