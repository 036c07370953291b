//! The check of periods and pulse widths.

ghost use Rattle.std.specs.Prelude.{◌≡◌, ◌≤◌, ℕ};
ghost use Rattle.std.specs.Option.{option_or};
ghost use Rattle.vital_timing_checks.specs.PeriodPulses.{NoneAbove, noted, period_found, period_pulse_step, pulse_found, unused};

use crate::limits::PulseLimits;
use crate::timing_data::differ;
use crate::violated::{CheckKind, LimitTest, Violated};
use vital_base::Time;
use vital_logic::{Level, to_x01};

/// What a check of periods and pulse widths keeps between its calls (IEEE 1076.4, VitalPeriodPulseCheck, PeriodData). Times are in
/// femtoseconds.
#[derive(Clone, Copy, PartialEq, Eq)]
pub struct PeriodPulse {
    /// The level of the last call, as To_X01. None before the first.
    level: Option<Level>,
    /// The time of the last change to 1.
    rise: Option<Time>,
    /// The time of the last change to 0.
    fall: Option<Time>,
}

impl PeriodPulse {
    /// The check before its first call: nothing is stored and no time is known.
    pub fn new() -> PeriodPulse
        ensures unused { result ≡ unused }
        ensures times { (now : ℕ) → NoneAbove now result }
    {
        PeriodPulse {
            level: None,
            rise: None,
            fall: None,
        }
    }

    /// A call of the check at the time now, in femtoseconds, with the level of the test signal. Where the check is enabled, a change to
    /// 1 has the time since the last change to 1 tested against the period, and a change to 0 that since the last change to 0. If that
    /// finds nothing, the end of a pulse at 0 or at 1 has its width tested against the limit for such pulses. None exactly where no
    /// time that is tested is below its limit. The first call only stores the level; a call that isn't enabled keeps what an enabled
    /// one keeps (IEEE 1076.4, VitalPeriodPulseCheck).
    #[tactic(auto, using(crate::proofs::Times::time_later))]
    pub fn check(
        &mut self,
        now: Time,
        test: Level,
        limits: &PulseLimits,
        enabled: bool,
    ) -> Option<Violated>
        requires { NoneAbove now self.old }
        ensures kept { self.new ≡ (period_pulse_step self.old now test limits.now enabled).0 }
        ensures found { result ≡ (period_pulse_step self.old now test limits.now enabled).1 }
        ensures times { (later : ℕ) → now ≤ later → NoneAbove later self.new }
    {
        let new = to_x01(test);
        let Some(old) = self.level else {
            self.level = Some(new);
            return None;
        };
        if !differ(old, new) {
            return None;
        }
        let found = if enabled {
            self.found(now, limits, old, new)
        } else {
            None
        };
        *self = self.noted(now, new);
        found
    }

    /// What the tests of a change find: that of periods, or else that of pulses.
    fn found(&self, now: Time, limits: &PulseLimits, old: Level, new: Level) -> Option<Violated>
        requires { NoneAbove now self.now }
        ensures { result ≡ option_or (period_found self.now now limits.now new) (pulse_found self.now now limits.now old) }
    {
        self.period_found(now, limits, new)
            .or(self.pulse_found(now, limits, old))
    }

    /// What the test of periods finds at a change to a level.
    fn period_found(&self, now: Time, limits: &PulseLimits, new: Level) -> Option<Violated>
        requires { NoneAbove now self.now }
        ensures { result ≡ period_found self.now now limits.now new }
    {
        let test = LimitTest {
            kind: CheckKind::Period,
            limit: limits.period,
        };
        match new {
            Level::One => test.violated_since(self.rise, now),
            Level::Zero => test.violated_since(self.fall, now),
            _ => None,
        }
    }

    /// What the test of pulses finds at a change from a level.
    fn pulse_found(&self, now: Time, limits: &PulseLimits, old: Level) -> Option<Violated>
        requires { NoneAbove now self.now }
        ensures { result ≡ pulse_found self.now now limits.now old }
    {
        let low = LimitTest {
            kind: CheckKind::Pulse,
            limit: limits.low,
        };
        let high = LimitTest {
            kind: CheckKind::Pulse,
            limit: limits.high,
        };
        match old {
            Level::Zero => low.violated_since(self.fall, now),
            Level::One => high.violated_since(self.rise, now),
            _ => None,
        }
    }

    /// With the level of a change, and its time if it is a change to 1 or to 0.
    fn noted(self, now: Time, new: Level) -> PeriodPulse
        requires { NoneAbove now self }
        ensures noted { result ≡ noted self now new }
        ensures times { NoneAbove now result }
    {
        match new {
            Level::One => PeriodPulse {
                level: Some(new),
                rise: Some(now),
                ..self
            },
            Level::Zero => PeriodPulse {
                level: Some(new),
                fall: Some(now),
                ..self
            },
            _ => PeriodPulse {
                level: Some(new),
                ..self
            },
        }
    }
}
