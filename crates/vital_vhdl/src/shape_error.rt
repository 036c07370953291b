//! Why a derivation has no shape.

ghost use Rattle.std.specs.Prelude.{◌≡◌};
ghost use Rattle.vital_vhdl.specs.declared.shape_error.ShapeError.TheVariants.{NoMemory};

use std::alloc::{AllocError, AllocFailed};

/// Why a part of a shape was not made.
#[derive(Clone, Copy, PartialEq, Eq)]
pub(crate) enum ShapeError {
    /// There was no memory for it.
    NoMemory,
    /// No identifier stands where one is read, which is so of no derivation of a text's tokens.
    NoIdentifier,
}

impl From<AllocError> for ShapeError {
    ghost from_gives = { λ _ e. e ≡ NoMemory };

    fn from(_error: AllocError) -> ShapeError {
        ShapeError::NoMemory
    }
}

impl<T: Drop> From<AllocFailed<T>> for ShapeError {
    ghost from_gives = { λ _ e. e ≡ NoMemory };

    fn from(_error: AllocFailed<T>) -> ShapeError {
        ShapeError::NoMemory
    }
}
