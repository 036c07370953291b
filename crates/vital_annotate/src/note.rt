//! What is said of entries that change nothing, or less than they say.

use vital_base::Place;

/// Why an entry is passed over, or what it does less than it says.
#[derive(Clone, Copy, PartialEq, Eq)]
pub enum NoteWhy {
    /// No generic takes what it says.
    Passed,
    /// It is a timing check with a conditional port that does not end with a port.
    Port,
    /// There is no such instance of a cell.
    Instance,
    /// The instance has no such generic.
    Generic,
    /// A result was negative, and is 0.
    Negative,
}

/// A note to an entry, at the place of its keyword.
#[derive(Clone, Copy, PartialEq, Eq)]
pub struct Note {
    pub place: Place,
    pub why: NoteWhy,
}
