//! Why the entries of a file were not read.

ghost use Rattle.std.specs.Prelude.{◌≡◌};
ghost use Rattle.vital_sdf.specs.declared.read_error.ReadError.TheVariants.{NoMemory};

use crate::sdf_fault::SdfFault;
use std::alloc::{AllocError, AllocFailed};
use vital_base::Place;

/// Why a part of a file was not read.
#[derive(Clone, Copy, PartialEq, Eq)]
pub(crate) enum ReadError {
    /// The keyword at the place is the first with a fault.
    Fault(SdfFault, Place),
    /// There was no memory for it.
    NoMemory,
}

impl From<AllocError> for ReadError {
    ghost from_gives = { λ _ e. e ≡ NoMemory };

    fn from(_error: AllocError) -> ReadError {
        ReadError::NoMemory
    }
}

impl<T: Drop> From<AllocFailed<T>> for ReadError {
    ghost from_gives = { λ _ e. e ≡ NoMemory };

    fn from(_error: AllocFailed<T>) -> ReadError {
        ReadError::NoMemory
    }
}
