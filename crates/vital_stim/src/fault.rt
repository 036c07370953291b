//! Why a stimulus file was not read.

ghost use Rattle.std.specs.Prelude.{◌≡◌};
ghost use Rattle.vital_stim.specs.declared.fault.StimError.TheVariants.{NoMemory};

use std::alloc::{AllocError, AllocFailed};

/// The test that a line fails. The tests stand in this order, and the first that fails counts.
#[derive(Clone, Copy, Debug, PartialEq, Eq)]
pub enum StimWhy {
    /// There are not four fields, or the first is not 1 to 19 digits, or the third has no form of a port.
    Line,
    /// The second field is none of `fs`, `ps`, `ns`, `us` and `ms`.
    Unit,
    /// The time is above 2^60 fs.
    Large,
    /// The fourth field is no level: one of `UX01ZWLH-`, where a letter may be small.
    Value,
    /// The time is below that of an earlier line.
    Falls,
    /// Ports are given, and none of them has the name of the third field.
    UnknownPort,
    /// Ports are given, and the first with the name of the third field is no input.
    NotInput,
}

/// The first line with a fault.
#[derive(Clone, Copy, PartialEq, Eq)]
pub struct StimFault {
    /// The number of the line, from 1.
    pub line: u32,
    /// The first test that it fails.
    pub why: StimWhy,
}

/// Why [`read_stim`](crate::read_stim) gives no stimuli.
#[derive(Drop)]
pub enum StimError {
    /// A line has a fault.
    Fault(StimFault),
    /// Memory ran out.
    NoMemory,
}

impl From<AllocError> for StimError {
    ghost from_gives = { λ _ e. e ≡ NoMemory };

    fn from(_error: AllocError) -> StimError {
        StimError::NoMemory
    }
}

impl<T: Drop> From<AllocFailed<T>> for StimError {
    ghost from_gives = { λ _ e. e ≡ NoMemory };

    fn from(_error: AllocFailed<T>) -> StimError {
        StimError::NoMemory
    }
}
