//! The limits of checks, in femtoseconds.

ghost use Rattle.std.specs.Prelude.{◌≡◌};
ghost use Rattle.vital_timing_checks.specs.Limits.{hold_limit, is_active, setup_limit};

use vital_base::Time;
use vital_logic::Level;

/// The limits of a check of setup and hold. High and low are the levels that the test signal is to have when the reference comes.
#[derive(Clone, Copy, PartialEq, Eq)]
pub struct SetupLimits {
    pub setup_high: Time,
    pub setup_low: Time,
    pub hold_high: Time,
    pub hold_low: Time,
}

/// The limits of a check of recovery and removal, and whether the test signal is active at 0 or at 1.
#[derive(Clone, Copy, PartialEq, Eq)]
pub struct RecoveryLimits {
    pub recovery: Time,
    pub removal: Time,
    pub active_low: bool,
}

/// The limits of a check of periods and pulse widths: of a period, of a pulse at 1, and of a pulse at 0.
#[derive(Clone, Copy, PartialEq, Eq)]
pub struct PulseLimits {
    pub period: Time,
    pub high: Time,
    pub low: Time,
}

impl SetupLimits {
    /// The setup limit for a level of the test signal.
    pub fn setup(&self, test: Level) -> Time
        ensures { result ≡ setup_limit self.now test }
    {
        match test {
            Level::Zero => self.setup_low,
            Level::One => self.setup_high,
            _ => self.setup_low.max(self.setup_high),
        }
    }

    /// The hold limit for a level to which the test signal changes: what is held is the level that it had.
    pub fn hold(&self, test: Level) -> Time
        ensures { result ≡ hold_limit self.now test }
    {
        match test {
            Level::Zero => self.hold_high,
            Level::One => self.hold_low,
            _ => self.hold_low.max(self.hold_high),
        }
    }
}

impl RecoveryLimits {
    /// Is the test signal active at a level?
    pub fn is_active(&self, test: Level) -> bool
        ensures { result ≡ is_active self.now test }
    {
        match test {
            Level::Zero => self.active_low,
            Level::One => !self.active_low,
            _ => false,
        }
    }
}
