//! Where something stands in a cell.

use crate::process_names::ProcessNames;
use vital_base::Place;

/// A unit of a cell.
#[derive(Clone, Copy, PartialEq, Eq)]
pub enum CellUnit {
    Entity,
    Architecture,
}

/// Where something stands in a cell.
#[derive(Clone, Copy)]
pub struct Site<'a> {
    pub unit: CellUnit,
    /// The process that it stands in, if it stands in one. Blocks declare nothing that is seen.
    pub process: Option<&'a ProcessNames<'a>>,
    /// The place before which it sees declarations of this unit.
    pub viewpoint: Place,
}
