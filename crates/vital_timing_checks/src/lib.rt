//! The timing checks of VITAL (IEEE 1076.4, package VITAL_Timing): setup and hold, recovery and removal, period and pulse width.
#![tactic(auto)]

mod limits;
mod period_pulse;
mod rec_rem;
mod setup_hold;
mod timing_data;
mod violated;

pub use limits::{PulseLimits, RecoveryLimits, SetupLimits};
pub use period_pulse::PeriodPulse;
pub use rec_rem::RecRem;
pub use setup_hold::SetupHold;
pub use violated::{CheckKind, Violated};
