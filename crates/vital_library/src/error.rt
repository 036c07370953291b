//! How files are refused.

ghost use Rattle.std.specs.Prelude.{◌≡◌};
ghost use Rattle.vital_library.specs.declared.error.LibraryError.TheVariants.{NoMemory};

use std::alloc::{AllocError, AllocFailed};
use vital_base::Place;

/// The most units that a library has.
pub const MOST_UNITS: u32 = 4096;

/// Why files are no library.
#[derive(Clone, Copy, Debug, PartialEq, Eq)]
pub enum LibraryError {
    /// There are more than [`MOST_UNITS`] units. The first too many begins at the place.
    TooManyUnits { place: Place },
    /// The identifier at the place names an entity, a package or a configuration as an earlier one of these is named, or an
    /// architecture as an earlier one of the same entity is (IEEE 1076-1993, 11.1).
    Duplicate { place: Place },
    /// The identifier at the place, after `of`, names an entity of which no file has a declaration (IEEE 1076-1993, 1.2).
    NoEntity { place: Place },
    /// There was no memory for it.
    NoMemory,
}

impl From<AllocError> for LibraryError {
    ghost from_gives = { λ _ e. e ≡ NoMemory };

    fn from(_error: AllocError) -> LibraryError {
        LibraryError::NoMemory
    }
}

impl<T: Drop> From<AllocFailed<T>> for LibraryError {
    ghost from_gives = { λ _ e. e ≡ NoMemory };

    fn from(_error: AllocFailed<T>) -> LibraryError {
        LibraryError::NoMemory
    }
}
