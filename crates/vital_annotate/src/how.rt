//! How an entry changes a generic.

use vital_base::{Corner, Place};
use vital_sdf::Mode;

/// How an entry changes a generic.
#[derive(Clone, Copy)]
pub struct How {
    /// Which value of a triple is taken.
    pub corner: Corner,
    /// The place of the entry.
    pub place: Place,
    /// Whether its values replace or are added.
    pub mode: Mode,
}
