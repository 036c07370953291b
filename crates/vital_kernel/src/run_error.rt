//! Why a cycle was not done, and why a run did not come to its end time.

ghost use Rattle.std.specs.Prelude.{◌≡◌};
ghost use Rattle.vital_kernel.specs.declared.run_error.RunError.TheVariants as error;
ghost use Rattle.vital_kernel.specs.RunErrors.{run_error};

use std::alloc::AllocError;
use vital_base::{Time, WriteFault};
use vital_report::PrintError;

/// Why a cycle was not done: the sink failed, or memory ran out.
pub type CycleError = PrintError;

/// Why a run did not come to its end time.
#[derive(Clone, Copy, PartialEq, Eq)]
pub enum RunError {
    /// At this time, in femtoseconds, a cycle would begin whose delta number is the limit.
    DeltaLimit { time: Time },
    /// The sink failed.
    WriteFault,
    /// Memory ran out.
    NoMemory,
}

impl From<WriteFault> for RunError {
    ghost from_gives = { λ _ e. e ≡ error.WriteFault };

    fn from(_fault: WriteFault) -> RunError {
        RunError::WriteFault
    }
}

impl From<AllocError> for RunError {
    ghost from_gives = { λ _ e. e ≡ error.NoMemory };

    fn from(_error: AllocError) -> RunError {
        RunError::NoMemory
    }
}

impl From<PrintError> for RunError {
    ghost from_gives = { λ error e. e ≡ run_error error };

    fn from(error: PrintError) -> RunError {
        match error {
            PrintError::WriteFault => RunError::WriteFault,
            PrintError::NoMemory => RunError::NoMemory,
        }
    }
}
