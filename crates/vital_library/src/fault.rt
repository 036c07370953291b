//! A fault of a library.

ghost use Rattle.std.specs.Prelude.{◌≡◌};
ghost use Rattle.vital_library.specs.Faults.{sooner};
ghost use Rattle.vital_library.specs.Gathered.{refusal};

use crate::error::LibraryError;
use vital_base::Place;

/// What a fault is about.
#[derive(Clone, Copy, PartialEq, Eq)]
pub enum FaultKind {
    Duplicate,
    NoEntity,
}

/// A fault, and where it stands.
#[derive(Clone, Copy, PartialEq, Eq)]
pub struct Fault {
    pub kind: FaultKind,
    pub place: Place,
}

impl Fault {
    /// How files with the fault are refused.
    pub fn refusal(self) -> LibraryError
        ensures { result ≡ refusal self.kind self.place }
    {
        match self.kind {
            FaultKind::Duplicate => LibraryError::Duplicate { place: self.place },
            FaultKind::NoEntity => LibraryError::NoEntity { place: self.place },
        }
    }
}

/// The least fault so far, with one more.
pub fn sooner(least: Option<Fault>, fault: Fault) -> Option<Fault>
    ensures { result ≡ sooner least fault }
{
    match least {
        Some(least) if !(fault.place < least.place) => Some(least),
        _ => Some(fault),
    }
}
