//! Why lines were not all printed.

ghost use Rattle.std.specs.Prelude.{◌≡◌};
ghost use Rattle.vital_report.specs.declared.print_error.PrintError.TheVariants as error;

use std::alloc::AllocError;
use vital_base::WriteFault;

/// Why lines were not all printed.
#[derive(Clone, Copy, PartialEq, Eq)]
pub enum PrintError {
    /// The sink failed.
    WriteFault,
    /// Memory ran out.
    NoMemory,
}

impl From<WriteFault> for PrintError {
    ghost from_gives = { λ _ e. e ≡ error.WriteFault };

    fn from(_fault: WriteFault) -> PrintError {
        PrintError::WriteFault
    }
}

impl From<AllocError> for PrintError {
    ghost from_gives = { λ _ e. e ≡ error.NoMemory };

    fn from(_error: AllocError) -> PrintError {
        PrintError::NoMemory
    }
}
