//! The statements of the processes of a cell of VITAL (IEEE 1076.4) in their sections: timing checks, functionality and path delays. Each
//! call is what is given for its formals, and what may be left out has its default.
#![tactic(auto)]

mod given;
mod kinds_of_actuals;
mod path_delay;
mod reading;
mod sections;
mod state_table;
mod timing_check;

pub use path_delay::PathDelay;
pub use sections::{FunctionalStatement, Sections, read_sections};
pub use state_table::StateTable;
pub use timing_check::{
    CheckParts, PeriodPulseCheck, RecoveryRemovalCheck, ReferenceParts, SetupHoldCheck, TimingCheck,
};
