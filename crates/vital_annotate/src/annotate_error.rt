//! Why a design has no delays.

ghost use Rattle.std.specs.Prelude.{◌≡◌};
ghost use Rattle.vital_annotate.specs.declared.annotate_error.AnnotateError.TheVariants.{NoMemory};

use std::alloc::{AllocError, AllocFailed};
use thiserror::Error;
use vital_base::Place;

/// Why a design has no delays.
#[derive(Clone, Copy, Debug, PartialEq, Eq, Error)]
pub enum AnnotateError {
    /// The entry at the place is the first with a result above 2^50 fs.
    #[error("a delay above 2^50 fs")]
    Limit { place: Place },
    /// There was no memory for them.
    #[error("no memory")]
    NoMemory,
}

impl From<AllocError> for AnnotateError {
    ghost from_gives = { λ _ e. e ≡ NoMemory };

    fn from(_error: AllocError) -> AnnotateError {
        AnnotateError::NoMemory
    }
}

impl<T: Drop> From<AllocFailed<T>> for AnnotateError {
    ghost from_gives = { λ _ e. e ≡ NoMemory };

    fn from(_error: AllocFailed<T>) -> AnnotateError {
        AnnotateError::NoMemory
    }
}
